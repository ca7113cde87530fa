// The justfile of the example programs, read from its text.
#![tactic(auto)]

pub mod module;

/// The text of the justfile.
pub const SOURCE: &str = "mode := 'debug'
commit := `git rev-parse HEAD`
target := 'out' / mode
banner := described(commit)

described(what) := 'app at ' + what

set tempdir := mode / 'tmp'
set shell := ['sh', commit]

[env('BANNER', banner)]
build name output=(target / name) *flags:
    cc {{flags}} \\
       -o {{output}} {{name}}.c
    echo {{banner}}
";
