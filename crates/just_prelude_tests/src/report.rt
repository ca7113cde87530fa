// Reports on tokens of several sources.

use just_report::report::{report, report_in_line};
use just_syntax::out_of_memory::OutOfMemory;
use just_syntax::token::Token;
use std::alloc::Global;
use std::process::Abort;

// A token's line, column and text, the source, and what is printed after the message.
type Row = (usize, usize, &'static str, &'static str, &'static str);

const ROWS: &[Row] = &[
    (
        0,
        7,
        "bar",
        "foo := bar()\n",
        " ——▶ justfile:1:8\n  │\n1 │ foo := bar()\n  │        ^^^\n",
    ),
    // The tenth line: the margin is as wide as its number.
    (
        9,
        0,
        "x",
        "\n\n\n\n\n\n\n\n\nx := y\nz\n",
        "  ——▶ justfile:10:1\n   │\n10 │ x := y\n   │ ^\n",
    ),
    // A tab before the token and one in it.
    (
        1,
        1,
        "a\tb",
        "f:\n\ta\tb\n",
        " ——▶ justfile:2:2\n  │\n2 │     a    b\n  │     ^^^^^^\n",
    ),
    // Wide characters, of three bytes each.
    (
        0,
        6,
        "木",
        "草草木x",
        " ——▶ justfile:1:7\n  │\n1 │ 草草木x\n  │     ^^\n",
    ),
    // A combining mark takes no column.
    (
        0,
        3,
        "b",
        "a\u{301}b",
        " ——▶ justfile:1:4\n  │\n1 │ a\u{301}b\n  │  ^\n",
    ),
    // Without a text, and at the end of a line that ends with a carriage return.
    (
        0,
        1,
        "",
        "ab\r\nc",
        " ——▶ justfile:1:2\n  │\n1 │ ab\n  │  ^\n",
    ),
    (
        0,
        2,
        "\r\n",
        "ab\r\nc",
        " ——▶ justfile:1:3\n  │\n1 │ ab\n  │   ^\n",
    ),
    // Past the text, and in no text at all.
    (7, 0, "x", "x\n", " ——▶ justfile:8:1\n  │\n8 │ \n  │ ^\n"),
    (0, 0, "", "", " ——▶ justfile:1:1\n  │\n1 │ \n  │ ^\n"),
    // A control character is not shown, and takes no column.
    (
        0,
        2,
        "b",
        "a\u{1b}b",
        " ——▶ justfile:1:3\n  │\n1 │ ab\n  │  ^\n",
    ),
];

// Any error that displays itself can be reported.
#[test]
fn a_failed_allocation_is_reported(rt: HostRuntime) {
    let alloc = rt.alloc();
    let wanted = "error: out of memory\n ——▶ :1:1\n  │\n1 │ x\n  │ ^\n";
    let wanted = String::from_str(alloc, wanted).expect(&rt, "no memory");
    let token = Token::new("x", None);
    let reported = report(alloc, &OutOfMemory, &token, "x\n").expect(&rt, "no memory");
    assert_eq!(rt; reported, wanted);
}

#[test]
fn reports_point_at_their_tokens(rt: HostRuntime) {
    for row in ROWS {
        is_reported(&rt, rt.alloc(), *row);
    }
}

fn is_reported(rt: &impl Abort, alloc: Global, (line, column, lexeme, source, wanted): Row) {
    let token = Token {
        column,
        line,
        offset: 0,
        lexeme,
        path: "justfile",
    };
    let wanted = format!(in alloc; "error: no such variable\n{wanted}").expect(rt, "no memory");
    let reported = report(alloc, &"no such variable", &token, source).expect(rt, "no memory");
    assert_eq!(rt; reported, wanted);
    let line = source.lines().nth(line).unwrap_or("");
    let reported = report_in_line(alloc, &"no such variable", &token, line).expect(rt, "no memory");
    assert_eq!(rt; reported, wanted);
}
