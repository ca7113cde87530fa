// Tables of shapes, and of the results of calls.

use just_builtins::builtin::Builtin;
use just_builtins::function::Function;

/// Functions, their smallest and largest number of arguments, and whether those at 0, 1 and 2 are texts.
pub const SHAPES: &[(Function, &str)] = &[
    (
        Function::Nullary(Builtin::Justfile),
        "Nullary(Justfile) 0..=0 [false, false, false]",
    ),
    (
        Function::Unary(Builtin::Trim),
        "Unary(Trim) 1..=1 [true, false, false]",
    ),
    (
        Function::UnaryMap(Builtin::Quote),
        "UnaryMap(Quote) 1..=1 [false, false, false]",
    ),
    (
        Function::UnaryPlus(Builtin::Quote),
        "UnaryPlus(Quote) 1..=18446744073709551615 [true, true, true]",
    ),
    (
        Function::UnaryToValue(Builtin::Trim),
        "UnaryToValue(Trim) 1..=1 [true, false, false]",
    ),
    (
        Function::Binary(Builtin::TrimEndMatch),
        "Binary(TrimEndMatch) 2..=2 [true, true, true]",
    ),
    (
        Function::BinaryOptToValue(Builtin::Split),
        "BinaryOptToValue(Split) 1..=2 [true, true, true]",
    ),
    (
        Function::BinaryOptValueStr(Builtin::Show),
        "BinaryOptValueStr(Show) 1..=2 [false, true, false]",
    ),
    (
        Function::BinaryOptValueStrToValue(Builtin::JoinList),
        "BinaryOptValueStrToValue(JoinList) 1..=2 [false, true, false]",
    ),
    (
        Function::BinaryPlus(Builtin::Join),
        "BinaryPlus(Join) 2..=18446744073709551615 [true, true, true]",
    ),
    (
        Function::BinaryStrValue(Builtin::Append),
        "BinaryStrValue(Append) 2..=2 [true, false, false]",
    ),
    (
        Function::BinaryToValue(Builtin::Join),
        "BinaryToValue(Join) 2..=2 [true, true, true]",
    ),
    (
        Function::Ternary(Builtin::Replace),
        "Ternary(Replace) 3..=3 [true, true, true]",
    ),
    (
        Function::ValueNullary(Builtin::NumJobs),
        "ValueNullary(NumJobs) 0..=0 [false, false, false]",
    ),
    (
        Function::ValueUnary(Builtin::Len),
        "ValueUnary(Len) 1..=1 [false, false, false]",
    ),
    (
        Function::ValueBinary(Builtin::Len),
        "ValueBinary(Len) 2..=2 [false, false, false]",
    ),
    (
        Function::ValueBinaryOpt(Builtin::Len),
        "ValueBinaryOpt(Len) 1..=2 [false, false, false]",
    ),
];

/// A call, then ` => `, its questions, each followed by `;`, and its result. A call is a function's name and its
/// arguments, each after `;`. A list is written with `|` between its elements; `[]` is the empty list. A message is
/// written after `! `.
pub type Row = &'static str;

/// Calls with lists. This and the next table have a call of each function whose result depends only on its arguments,
/// and what no stored case can express: texts with a line break.
pub const CALLS: &[Row] = &[
    "append;!;a|b => a!|b!",
    "bool;1 => true",
    "capitalize;hELLO => Hello",
    "encode_uri_component;a b&é => a%20b%26%C3%A9",
    "error;stop é => ! stop é",
    "join_list;a|b => a b",
    "len;a|b| => 3",
    "lowercase;Foo BAR => foo bar",
    "prepend;x;a|b => xa|xb",
    "quote;a|b c|é => 'a'|'b c'|'é'",
    "replace;aXbX;X;é => aébé",
    "show;pre|x|y|post => [\"pre\", \"x\", \"y\", \"post\"]",
    "split;a,,b;, => a||b",
    "split; a\u{2003}b\n => a|b",
    "trim;\u{2003} a b\t => a b",
    "trim_end; a b\u{3000} =>  a b",
    "trim_end_match;fabab;ab => fab",
    "trim_end_matches;fbaabab;ab => fba",
    "trim_end_matches;; => ",
    "trim_start;\u{a0} a b\n => a b\n",
    "trim_start_match;ababf;ab => abf",
    "trim_start_match;a; => a",
    "trim_start_matches;ababbaf;ab => baf",
    "uppercase;Foo bar1 => FOO BAR1",
];

/// Calls without lists.
pub const CALLS_WITHOUT_LISTS: &[Row] = &[
    "append;!;a|b => a! b!",
    "append;!; a  b\n => a! b!",
    "bool;0 => false",
    "extension;a.tar.gz => gz",
    "file_name;/b/é => é",
    "file_stem;/a/b.tar.gz => b.tar",
    "is_dependency => false",
    "join;a/;é;c;d => a/é/c/d",
    "parent_directory;a//b => a",
    "prepend;é;a|b c => éa éb éc",
    "without_extension;/a.tar.gz => /a.tar",
];

pub const SURROUNDINGS: &[Row] = &[
    "invocation_directory => /called/here",
    "invocation_dir_native => /called/here",
    "is_dependency => []",
    "just_version => 1.58.0",
    "justfile => /work/justfile",
    "justfile_dir => /work",
    "module_directory => /work/sub",
    "module_file => /work/sub/mod.just",
    "module_path => sub",
    "num_jobs => []",
    "recipe_name => ! `recipe_name()` can only be used within a recipe",
    "source_file => /work/shared/é.just",
    "source_directory => /work/shared",
];

pub const OTHER_SURROUNDINGS: &[Row] = &[
    "is_dependency => true",
    "justfile_directory => ! could not resolve justfile directory, justfile `/` had no parent",
    "module_directory => ! path `` has no parent",
    "module_path => ",
    "module_file => ",
    "num_jobs => 12",
    "recipe_name => build",
    "source_file => ! path `/` has no parent",
    "source_directory => ! path `/` has no parent",
];

/// Calls with the empty text as the justfile's path, and the root as the module's source.
pub const WITHOUT_A_PARENT: &[Row] = &[
    "justfile_directory => ! could not resolve justfile directory, justfile `` had no parent",
    "module_directory => ! path `/` has no parent",
];

/// Calls in a file with the empty path; the justfile is `/j`.
pub const IN_NO_FILE: &[Row] = &[
    "source_file => /",
    "source_directory => ! path `/` has no parent",
];
