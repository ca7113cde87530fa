// `just_explain recipe`.

use crate::calls::{BUILD, Call, try_calls};

const RECIPE: &[Call] = &[
    (
        "recipe|--answer|git rev-parse HEAD=1f3a|build|app",
        BUILD,
        "\
build
  asks variable \"MODE\"
  asks command \"git rev-parse HEAD\"
  flag=-cu
  words: \"app\" \"out/debug/app\"
  before: clean
  > @cc  -o out/debug/app app.c
  > echo 1f3a
  after: install \"out/debug/app\"
",
        "",
        0,
    ),
    (
        "recipe|--dry-run|mode=release|b|app|bin|--|-g|-O2",
        BUILD,
        "\
build
  flag=-cu
  words: \"app\" \"bin\" \"-g\" \"-O2\"
  before: clean
  > @cc -g -O2 -o bin app.c
  > echo `git rev-parse HEAD`
  after: install \"bin\"
",
        "",
        0,
    ),
    (
        "recipe|a",
        "set ignore-comments\na:\n  # b {{`c`}}\n  d \\\n  # e\n\n  f \\\n",
        "a\n  > d # e\n  > f \n",
        "",
        0,
    ),
    (
        "recipe|build",
        BUILD,
        "",
        "error: recipe `build` got 0 arguments but takes at least 1\n",
        1,
    ),
    (
        "recipe|a",
        "a: b\nb: c\nc: b\nd: d\ne: && f\nf:\n",
        "",
        "\
error: recipe `c` has circular dependency `b -> c -> b`
 ——▶ justfile:3:4
  │
3 │ c: b
  │    ^
",
        1,
    ),
    (
        "recipe|e",
        "a: b\nb: a\ne: && f\nf:\n",
        "e\n  after: f\n",
        "",
        0,
    ),
    (
        "recipe|nope",
        BUILD,
        "",
        "error: justfile does not contain recipe `nope`\n",
        1,
    ),
    (
        "recipe|a",
        "alias a := b\n",
        "",
        "\
error: alias `a` has an unknown target `b`
 ——▶ justfile:1:12
  │
1 │ alias a := b
  │            ^
",
        1,
    ),
    (
        "recipe|a",
        "a:\r\n  b {{c}}\r\n",
        "",
        "\
error: attempted to evaluate unresolved variable `c`
 ——▶ justfile:2:7
  │
2 │   b {{c}}
  │       ^
",
        1,
    ),
    (
        "recipe|a",
        "a b=`c`:\r\n  d\r\n",
        "a\n  asks command \"c\"\n",
        "\
error: backtick failed: no answer for command `c`: give --answer 'c=TEXT'
 ——▶ justfile:1:5
  │
1 │ a b=`c`:
  │     ^^^
",
        1,
    ),
    (
        "recipe|--dotenv|A=b|--dotenv|C=d|a|e",
        "set export\nB := 'f'\nunexport C\na $g:\n  #!/bin/sh\n  {{g}} \\\n    {{arch()}}\n",
        "\
a
  A=b
  B=f
  g=e
  words: \"e\"
  | #!/bin/sh
  | e \\
  asks arch
",
        "\
error: call to function `arch` failed: `arch` has no answer
 ——▶ justfile:7:7
  │
7 │     {{arch()}}
  │       ^^^^
",
        1,
    ),
];

#[test]
fn recipes(rt: HostRuntime) {
    try_calls(&rt, rt.alloc(), RECIPE);
}
