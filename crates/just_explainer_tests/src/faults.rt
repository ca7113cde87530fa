// Faults of justfiles.

use crate::calls::{Call, try_calls};

const FAULTS: &[Call] = &[
    (
        "evaluate",
        "a := 'b",
        "",
        "\
error: unterminated string
 ——▶ justfile:1:6
  │
1 │ a := 'b
  │      ^
",
        1,
    ),
    (
        "reach",
        "a = b\n",
        "",
        "\
error: expected ':', found `=`
 ——▶ justfile:1:3
  │
1 │ a = b
  │   ^
",
        1,
    ),
    (
        "lint",
        "a := 'b'\na := 'c'\n",
        "",
        "\
error: variable `a` has multiple definitions
 ——▶ justfile:2:1
  │
2 │ a := 'c'
  │ ^
",
        1,
    ),
    (
        "lint",
        "a := b\nb := a\n",
        "",
        "\
error: variable `b` depends on itself: `b` -> `a` -> `b`
 ——▶ justfile:2:1
  │
2 │ b := a
  │ ^
",
        1,
    ),
    (
        "evaluate",
        "a := b\nc := f()\n",
        "",
        "\
error: attempted to evaluate unresolved variable `b`
 ——▶ justfile:1:6
  │
1 │ a := b
  │      ^
error: unknown function `f`
 ——▶ justfile:2:6
  │
2 │ c := f()
  │      ^
",
        1,
    ),
    (
        "evaluate|x=b",
        "a := 'b'\n",
        "",
        "error: variable `x` is not assigned\n",
        1,
    ),
    (
        "reach",
        "a := `b`\nset tempdir := a\n",
        "",
        "\
error: cannot access non-const variable `a` in const context
 ——▶ justfile:2:16
  │
2 │ set tempdir := a
  │                ^
",
        1,
    ),
];

#[test]
fn faults(rt: HostRuntime) {
    try_calls(&rt, rt.alloc(), FAULTS);
}
