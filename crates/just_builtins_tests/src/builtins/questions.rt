// Tables of the questions of calls, and of their results.

use crate::builtins::scripted::Given;

/// The host's answer; and a call, its question and its result, written as in [`Row`].
///
/// [`Row`]: crate::builtins::rows::Row
pub type Question = (Given, &'static str);

pub const NUMBERS: &[Question] = &[
    (Given::Number(12), "just_pid => ProcessId;12"),
    (Given::OutOfMemory, "just_pid => ProcessId;OutOfMemory"),
    (Given::Number(0), "num_cpus => Cpus;0"),
    (
        Given::Number(u64::MAX),
        "num_cpus => Cpus;18446744073709551615",
    ),
];

pub const FILES: &[Question] = &[
    (
        Given::Text("/x"),
        "canonicalize;a/b => Canonicalize(\"/work/sub/a/b\");/x",
    ),
    (
        Given::NotText("/x"),
        "canonicalize;/a => Canonicalize(\"/a\");! canonical path is not valid unicode: /x",
    ),
    (Given::Text("a\n"), "read;é => Read(\"/work/sub/é\");a\n"),
    (
        Given::NotText("x"),
        "read;/a => Read(\"/a\");! I/O error reading `/a`: x",
    ),
    (Given::Found(true), "path_exists;a => /work/sub/a;true"),
    (Given::Found(false), "path_exists;/a => /a;false"),
    (Given::Found(true), "path_exists; => false"),
    (
        Given::OutOfMemory,
        "path_exists;a => /work/sub/a;OutOfMemory",
    ),
];

pub const FILES_WITH_LISTS: &[Question] = &[
    (Given::Found(true), "path_exists;a => /work/sub/a;true"),
    (Given::Found(false), "path_exists;a => /work/sub/a;[]"),
    (Given::Found(true), "path_exists; => []"),
];

/// The dotenv map has `dot` at `set`.
pub const VARIABLES: &[Question] = &[
    (Given::Text("x"), "env;set => dot"),
    (Given::Text("x"), "env_var;set => dot"),
    (Given::Text("x"), "env_var_or_default;set;y => dot"),
    (Given::Text("x y"), "env;a => Variable(\"a\");x y"),
    (Given::Text("x"), "env;a|b => Variable(\"a\");x"),
    (Given::Absent, "env;a|set|b => Variable(\"a\");dot"),
    (
        Given::Absent,
        "env;a|b => Variable(\"a\");Variable(\"b\");! environment variables `a` and `b` not present",
    ),
    (
        Given::Absent,
        "env;a|b|c => Variable(\"a\");Variable(\"b\");Variable(\"c\");! environment variables `a`, `b`, and `c` not present",
    ),
    (
        Given::Absent,
        "env;a|b;y|z => Variable(\"a\");Variable(\"b\");y|z",
    ),
    (
        Given::Text("x"),
        "env;[] => ! empty environment variable list with no default",
    ),
    (Given::Text("x"), "env;[];[] => []"),
    (
        Given::NotText("x"),
        "env_var;a|b => Variable(\"a\");! environment variable `a` is not unicode: `x`",
    ),
    (
        Given::Text(""),
        "env_var_or_default;a;y => Variable(\"a\");",
    ),
];

pub const COMMANDS: &[Question] = &[
    (
        Given::Text("out\n"),
        "shell;echo;a b => echo Some([\"a b\"]);out\n",
    ),
    (
        Given::Text(""),
        "shell;echo;a;b => echo Some([\"a\", \"b\"]);",
    ),
    (
        Given::Code(3),
        "shell;echo => echo Some([]);! process exited with status code 3",
    ),
    (
        Given::Fault("no shell"),
        "shell;echo => echo Some([]);! no shell",
    ),
    (
        Given::OutOfMemory,
        "shell;echo => echo Some([]);OutOfMemory",
    ),
];

pub const DRY_COMMANDS: &[Question] = &[
    (
        Given::Text("out"),
        "shell;echo;a b => shell(\"echo\", \"a b\")",
    ),
    (Given::Text("out"), "shell;e\"\n => shell(\"e\\\"\\n\")"),
];
