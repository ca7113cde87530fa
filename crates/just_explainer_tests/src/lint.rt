// `just_explain lint`.

use crate::calls::{BUILD, Call, try_calls};

const LINT: &[Call] = &[
    ("lint", "", "", "", 0),
    (
        "lint",
        BUILD,
        "\
commit is open
flag = \"-cu\"
mode is open
target is open
shell = \"sh\" \"-cu\"
",
        "",
        0,
    ),
    (
        "lint|--lists",
        "a := ['b', 'c']\r\n",
        "a = [\"b\", \"c\"]\nlists = true\n",
        "",
        0,
    ),
    (
        "lint",
        "set export\na := assert('b' == 'c', 'no')\nd := e\ne := `f`\nset shell := [e]\n",
        "\
d is open
e is open
export = true
",
        "\
error: assert failed: no
 ——▶ justfile:2:6
  │
2 │ a := assert('b' == 'c', 'no')
  │      ^^^^^^
error: cannot access non-const variable `e` in const context
 ——▶ justfile:5:15
  │
5 │ set shell := [e]
  │               ^
",
        1,
    ),
    (
        "lint",
        "alias a := b\nc d=e e='f': g (h i)\n  {{j}} {{trim()}}\n",
        "",
        "\
error: attempted to evaluate unresolved variable `e`
 ——▶ justfile:2:5
  │
2 │ c d=e e='f': g (h i)
  │     ^
error: attempted to evaluate unresolved variable `i`
 ——▶ justfile:2:19
  │
2 │ c d=e e='f': g (h i)
  │                   ^
error: attempted to evaluate unresolved variable `j`
 ——▶ justfile:3:5
  │
3 │   {{j}} {{trim()}}
  │     ^
error: function `trim` called with a wrong number of arguments
 ——▶ justfile:3:11
  │
3 │   {{j}} {{trim()}}
  │           ^^^^
error: recipe `c` has an unknown dependency `g`
 ——▶ justfile:2:14
  │
2 │ c d=e e='f': g (h i)
  │              ^
error: recipe `c` has an unknown dependency `h`
 ——▶ justfile:2:17
  │
2 │ c d=e e='f': g (h i)
  │                 ^
error: alias `a` has an unknown target `b`
 ——▶ justfile:1:12
  │
1 │ alias a := b
  │            ^
",
        1,
    ),
    (
        "lint",
        "a: (b) && (c 'd' 'e')\nb +f:\nc d:\n",
        "",
        "\
error: recipe `b` got 0 arguments but takes at least 1
 ——▶ justfile:1:5
  │
1 │ a: (b) && (c 'd' 'e')
  │     ^
error: recipe `c` got 2 arguments but only takes 1
 ——▶ justfile:1:12
  │
1 │ a: (b) && (c 'd' 'e')
  │            ^
",
        1,
    ),
    (
        "lint",
        "a: b\nb: c\nc: a e\nd: d\ne: && c f\nf:\n",
        "",
        "\
error: recipe `c` has circular dependency `a -> b -> c -> a`
 ——▶ justfile:3:4
  │
3 │ c: a e
  │    ^
error: recipe `e` has circular dependency `c -> e -> c`
 ——▶ justfile:5:7
  │
5 │ e: && c f
  │       ^
error: recipe `d` depends on itself
 ——▶ justfile:4:4
  │
4 │ d: d
  │    ^
",
        1,
    ),
];

#[test]
fn constants(rt: HostRuntime) {
    try_calls(&rt, rt.alloc(), LINT);
}
