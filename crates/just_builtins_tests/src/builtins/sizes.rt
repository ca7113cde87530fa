// Calls with a thousand elements, and with texts of a thousand pieces. If there is memory each must succeed; no clause
// forbids a call to give up.

use crate::builtins::questions::Question;
use crate::builtins::scripted::Given;

const NOTHING: Given = Given::OutOfMemory;

/// Calls with lists, written as in [`Row`]. Each piece between two `~` is repeated a thousand times.
///
/// [`Row`]: crate::builtins::rows::Row
pub const LONG: &[Question] = &[
    (NOTHING, "append;!;~a|~b => ~a!|~b!"),
    (NOTHING, "bool;~a~ => ! `~a~` is not a valid boolean string"),
    (NOTHING, "capitalize;a~B~ => A~b~"),
    (NOTHING, "encode_uri_component;~é~ => ~%C3%A9~"),
    (NOTHING, "error;~é~ => ! ~é~"),
    (NOTHING, "extension;a.~b~ => ~b~"),
    (NOTHING, "file_name;a/~b~ => ~b~"),
    (NOTHING, "file_stem;~b~.c => ~b~"),
    (NOTHING, "join;a~;b~ => a~/b~"),
    (NOTHING, "join_list;~a|~b;, => ~a,~b"),
    (NOTHING, "len;~a|~b => 1001"),
    (NOTHING, "lowercase;~AB~ => ~ab~"),
    (NOTHING, "parent_directory;~a/~b/c => ~a/~b"),
    (NOTHING, "prepend;x;~a|~b => ~xa|~xb"),
    (NOTHING, "quote;~a|~b => ~'a'|~'b'"),
    (NOTHING, "replace;~ab~;a;cd => ~cdb~"),
    (NOTHING, "show;~a|~b => [~\"a\", ~\"b\"]"),
    (NOTHING, "split;~a,~b;, => ~a|~b"),
    (NOTHING, "split;~ab~c; => ~a|b|~c"),
    (NOTHING, "split;~a ~b => ~a|~b"),
    (NOTHING, "trim;~ ~~ab~~ ~ => ~ab~"),
    (NOTHING, "trim_end;~ab~~ ~ => ~ab~"),
    (NOTHING, "trim_end_match;~ab~c;c => ~ab~"),
    (NOTHING, "trim_end_matches;~a~~bc~;bc => ~a~"),
    (NOTHING, "trim_start;~ ~~ab~ => ~ab~"),
    (NOTHING, "trim_start_match;c~ab~;c => ~ab~"),
    (NOTHING, "trim_start_matches;~bc~~a~;bc => ~a~"),
    (NOTHING, "uppercase;~ab~ => ~AB~"),
    (NOTHING, "without_extension;~a/~b.c => ~a/~b"),
    (
        Given::Text("t"),
        "canonicalize;~a~ => Canonicalize(\"/work/sub/~a~\");t",
    ),
    (Given::Text("t"), "read;~a~ => Read(\"/work/sub/~a~\");t"),
    (
        Given::Fault("m"),
        "read;~a~ => Read(\"/work/sub/~a~\");! I/O error reading `~a~`: m",
    ),
    (Given::Found(true), "path_exists;~a~ => /work/sub/~a~;true"),
    (
        Given::Text("t"),
        "which;~a~ => Which { name: \"~a~\", working_directory: \"/work/sub\" };t",
    ),
    (
        Given::Absent,
        "require;~a~ => Which { name: \"~a~\", working_directory: \"/work/sub\" };! could not find executable `~a~`",
    ),
    (
        Given::Text("t"),
        "shell;~c~;a~;b~ => ~c~ Some([\"a\"~, \"b\"~]);t",
    ),
    (
        Given::Absent,
        "env_var;~a~ => Variable(\"~a~\");! environment variable `~a~` not present",
    ),
    (
        Given::Absent,
        "env_var_or_default;a;~y|~z => Variable(\"a\");~y|~z",
    ),
    (
        Given::Absent,
        "env;~a|~b => ~Variable(\"a\");~Variable(\"b\");! environment variables ~`a`, ~and `b` not present",
    ),
    (
        Given::Absent,
        "env;~a|~b;~y|~z => ~Variable(\"a\");~Variable(\"b\");~y|~z",
    ),
];

/// The same without lists.
pub const LONG_WITHOUT_LISTS: &[Question] = &[
    (NOTHING, "append;!;~a ~b => ~a! ~b!"),
    (NOTHING, "prepend;x;~a|~b => ~xa ~xb"),
];

/// The same in a dry run.
pub const LONG_DRY: &[Question] = &[(NOTHING, "shell;c~;a~ => shell(\"c\"~, \"a\"~)")];
