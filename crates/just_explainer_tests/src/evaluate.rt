// `just_explain evaluate`.

use crate::calls::{BUILD, Call, try_calls};

const EVALUATE: &[Call] = &[
    ("evaluate", "", "", "", 0),
    (
        "evaluate|--answer|git rev-parse HEAD=1f3a",
        BUILD,
        "\
flag = \"-cu\"
mode = \"debug\"
  asks variable \"MODE\"
commit = \"1f3a\"
  asks command \"git rev-parse HEAD\"
target = \"out/debug\"
",
        "",
        0,
    ),
    (
        "evaluate|--env|MODE=a=b|target",
        BUILD,
        "\
mode = \"a=b\"
  asks variable \"MODE\"
target = \"out/a=b\"
",
        "",
        0,
    ),
    (
        "evaluate|mode=release|target",
        BUILD,
        "mode = \"release\"\ntarget = \"out/release\"\n",
        "",
        0,
    ),
    (
        "evaluate|commit",
        BUILD,
        "commit is refused\n  asks command \"git rev-parse HEAD\"\n",
        "\
error: backtick failed: no answer for command `git rev-parse HEAD`: give --answer 'git rev-parse HEAD=TEXT'
 ——▶ justfile:4:11
  │
4 │ commit := `git rev-parse HEAD`
  │           ^^^^^^^^^^^^^^^^^^^^
",
        1,
    ),
    (
        "evaluate|--dry-run|commit",
        BUILD,
        "commit = \"`git rev-parse HEAD`\"\n",
        "",
        0,
    ),
    (
        "evaluate|--text|os=a|--text|arch=b|--text|os=c=d",
        "x := os() + arch()\n",
        "x = \"c=db\"\n  asks os\n  asks arch\n",
        "",
        0,
    ),
    (
        "evaluate|--text|osx=a",
        "x := os()\n",
        "x is refused\n  asks os\n",
        "\
error: call to function `os` failed: `os` has no answer
 ——▶ justfile:1:6
  │
1 │ x := os()
  │      ^^
",
        1,
    ),
    (
        "evaluate|--directory|/work|--exists|/work/a|--exists|/b",
        "x := path_exists('a') + path_exists('b') + path_exists('/b')\n",
        "x = \"truefalsetrue\"\n  asks exists \"/work/a\"\n  asks exists \"/work/b\"\n  asks exists \"/b\"\n",
        "",
        0,
    ),
    (
        "evaluate|--cpus|8|--process-id|42",
        "x := num_cpus() + just_pid()\n",
        "x = \"842\"\n  asks number cpus\n  asks number process_id\n",
        "",
        0,
    ),
    (
        "evaluate",
        "x := num_cpus()\n",
        "x = \"1\"\n  asks number cpus\n",
        "",
        0,
    ),
    (
        "evaluate|--cpus|x",
        "x := num_cpus()\n",
        "",
        "\
error: invalid value 'x' for '--cpus <NUMBER>': invalid digit found in string

For more information, try '--help'.
",
        2,
    ),
    (
        "evaluate|nope",
        BUILD,
        "",
        "error: variable `nope` is not assigned\n",
        1,
    ),
    (
        "evaluate|--answer|a=b=c|--answer|a=b|--answer|a=d",
        "a := `a`\nb := shell('a=b')\n",
        "a = \"d\"\n  asks command \"a\"\nb = \"c\"\n  asks command \"a=b\"\n",
        "",
        0,
    ),
    (
        "evaluate|--directory|/work|--dotenv|A=b",
        "a := justfile()\nb := env('A')\nc := HEX\n",
        "a = \"/work/justfile\"\nb = \"b\"\nc = \"0123456789abcdef\"\n",
        "",
        0,
    ),
];

#[test]
fn values(rt: HostRuntime) {
    try_calls(&rt, rt.alloc(), EVALUATE);
}
