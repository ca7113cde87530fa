// Words that the program cannot take, and its version.

use crate::calls::{Call, try_calls};

const WORDS: &[Call] = &[
    ("--version", "", "just_explain 0.1.0\n", "", 0),
    (
        "frob",
        "",
        "",
        "error: unrecognized subcommand 'frob'\n\nUsage: just_explain <COMMAND>\n\n\
For more information, try '--help'.\n",
        2,
    ),
    (
        "lint|a",
        "",
        "",
        "error: unexpected argument 'a' found\n\nUsage: just_explain lint [OPTIONS]\n\n\
For more information, try '--help'.\n",
        2,
    ),
    ("evaluate|--env|A", "", "", "error: `A` has no `=`\n", 2),
    ("evaluate|--dotenv|A", "", "", "error: `A` has no `=`\n", 2),
    ("evaluate|--answer|a", "", "", "error: `a` has no `=`\n", 2),
    ("evaluate|--text|os", "", "", "error: `os` has no `=`\n", 2),
    (
        "evaluate|../a/b",
        "",
        "",
        "error: `../a/` is not searched: give the directory by --directory\n",
        2,
    ),
    (
        "recipe|a=b",
        "",
        "",
        "error: `recipe` needs the name of a recipe\n",
        2,
    ),
];

#[test]
fn words(rt: HostRuntime) {
    try_calls(&rt, rt.alloc(), WORDS);
}
