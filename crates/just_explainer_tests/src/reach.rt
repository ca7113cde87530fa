// `just_explain reach`.

use crate::calls::{BUILD, Call, try_calls};

const REACH: &[Call] = &[
    ("reach", "", "", "", 0),
    (
        "reach",
        BUILD,
        "\
justfile:4:11: command `git rev-parse HEAD`
justfile:3:9: built-in function `env`
justfile:5:11: call of `under`
justfile:6:21: variable `directory`
justfile:6:33: variable `mode`
",
        "",
        0,
    ),
    (
        "reach|install|target",
        BUILD,
        "\
justfile:14:10: variable `path`
justfile:3:9: built-in function `env`
justfile:5:11: call of `under`
justfile:6:21: variable `directory`
justfile:6:33: variable `mode`
",
        "",
        0,
    ),
    (
        "reach|b",
        "a := `c`\nalias b := d\nd e=a: f && (g `h`)\n  {{a}}\nf:\ng i:\n",
        "\
justfile:3:5: variable `a`
justfile:4:5: variable `a`
justfile:3:16: command `h`
justfile:1:6: command `c`
",
        "",
        0,
    ),
    (
        "reach|x",
        BUILD,
        "",
        "error: justfile does not contain variable or recipe `x`\n",
        1,
    ),
    (
        "reach|x",
        "alias x := y\n",
        "",
        "\
error: alias `x` has an unknown target `y`
 ——▶ justfile:1:12
  │
1 │ alias x := y
  │            ^
",
        1,
    ),
];

#[test]
fn reaches(rt: HostRuntime) {
    try_calls(&rt, rt.alloc(), REACH);
}
