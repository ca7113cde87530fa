// Texts and what they are read as.

use crate::stored::STORED;
use just_expression_parser::{parse_expression, significant};
use just_lexer::lex;
use just_lexer::lexeme::Lexeme;
use just_syntax::out_of_memory::OutOfMemory;
use std::alloc::Global;
use std::process::Abort;

// Texts that are printed as they are read.
const SAME: &[&str] = &[
    "a",
    "'a'",
    "\"a\\n\"",
    "`ls`",
    "a && b || c",
    "a || b && c",
    "a + b / c ++ d",
    "!a == b",
    "!!a",
    "(a || b) && c",
    "/ a + b",
    "a =~ b",
    "a !~ b != c",
    "f()",
    "f(a, b)",
    "f(g(a), [b])",
    "[a, b]",
    "[]",
    "if a == b { c } else { d }",
    "if a { c }",
    "if a { b } else { if c { d } else { e } }",
    "a + if a { c } else { d } == b",
    "assert(a)",
    "assert(a, b)",
    "assert",
    "f'a'",
    "f'a{{b}}c{{d + e}}f'",
];

// Texts and how they are printed.
const OTHERWISE: &[(&str, &str)] = &[
    (
        "if a { b } else if c { d } else { e }",
        "if a { b } else { if c { d } else { e } }",
    ),
    ("[a, b,]", "[a, b]"),
    ("f(a,)", "f(a)"),
    ("a+b", "a + b"),
    ("(\n  a # name\n)", "(a)"),
];

// Texts and what is wrong with them.
const REFUSED: &[(&str, &str)] = &[
    ("", "expected an expression, found the end"),
    ("a +", "expected an expression, found the end"),
    ("a + + b", "expected an expression, found `+`"),
    ("(a b)", "expected ')', found `b`"),
    ("[a b]", "expected ']', found `b`"),
    ("[a,,b]", "expected an expression, found `,`"),
    ("f(,)", "expected an expression, found `,`"),
    ("f(a b)", "expected ')', found `b`"),
    ("if", "expected an expression, found the end"),
    ("if a", "expected '{', found the end"),
    ("if a { b c }", "expected '}', found `c`"),
    ("if a { b } else c", "expected '{', found `c`"),
    ("a + if", "expected an expression, found the end"),
    ("!if a { b }", "expected an expression, found `if`"),
    ("assert(a b)", "expected ')', found `b`"),
    ("assert(a, b, c)", "expected ')', found `,`"),
    ("\"\\q\"", "invalid escape, found `\"\\q\"`"),
    ("f\"\\q{{a}}\"", "invalid escape, found `f\"\\q{{`"),
    ("=", "expected an expression, found `=`"),
];

// Adds what comes of tokens: the expression that they are, and how many are left; or what is wrong with them.
fn add_read(alloc: Global, said: &mut String, tokens: &[Lexeme]) -> Result<(), OutOfMemory> {
    match parse_expression(alloc, tokens) {
        Ok((expression, rest)) => {
            let added = write!(said, "{expression} {}", rest.len());
            drop(expression);
            Ok(added?)
        }
        Err(error) => Ok(write!(said, "{error}")?),
    }
}

// What comes of a text.
fn read(rt: &impl Abort, alloc: Global, text: &str) -> String {
    let lexemes = lex(alloc, "justfile", text).expect(rt, "no tokens");
    let tokens = significant(alloc, &lexemes).expect(rt, "no memory");
    let mut said = String::new(alloc);
    let added = add_read(alloc, &mut said, &tokens);
    added.expect(rt, "no memory");
    said
}

// A text is an expression that is printed so, and the end of the file is left.
fn is_printed(rt: &impl Abort, alloc: Global, text: &str, wanted: &str) {
    let said = read(rt, alloc, text);
    assert_eq!(rt; said.strip_suffix(" 1"), Some(wanted));
}

// This comes of a text.
fn is_said(rt: &impl Abort, alloc: Global, text: &str, wanted: &str) {
    let said = read(rt, alloc, text);
    assert_eq!(rt; said.as_str(), wanted);
}

#[test]
fn printed_as_read(rt: HostRuntime) {
    for text in SAME {
        is_printed(&rt, rt.alloc(), text, text);
    }
}

// Each expression of the stored cases is read from the text that it is printed as.
#[test]
fn stored_printed_as_read(rt: HostRuntime) {
    for text in STORED {
        is_printed(&rt, rt.alloc(), text, text);
    }
}

#[test]
fn printed_otherwise(rt: HostRuntime) {
    for (text, wanted) in OTHERWISE {
        is_printed(&rt, rt.alloc(), text, wanted);
    }
}

#[test]
fn refused_at_a_token(rt: HostRuntime) {
    for (text, why) in REFUSED {
        is_said(&rt, rt.alloc(), text, why);
    }
}

// Tokens that follow an expression are left.
#[test]
fn read_as_far_as_it_goes(rt: HostRuntime) {
    is_said(&rt, rt.alloc(), "a b c", "a 3");
}

// Parentheses around a name.
fn nested(alloc: Global, levels: usize) -> Result<String, OutOfMemory> {
    let mut text = String::new(alloc);
    for _ in 0..levels {
        text.push('(')?;
    }
    text.push('a')?;
    for _ in 0..levels {
        text.push(')')?;
    }
    Ok(text)
}

// A name in so many parentheses is read.
fn is_read(rt: &impl Abort, alloc: Global, levels: usize) {
    let text = nested(alloc, levels).expect(rt, "no memory");
    is_printed(rt, alloc, &text, &text);
}

// It is not read, for want of room.
fn is_refused(rt: &impl Abort, alloc: Global, levels: usize) {
    let text = nested(alloc, levels).expect(rt, "no memory");
    is_said(rt, alloc, &text, "out of memory");
}

#[test]
fn nests_up_to_a_limit(rt: HostRuntime) {
    is_read(&rt, rt.alloc(), 3_166);
    is_refused(&rt, rt.alloc(), 3_167);
}
