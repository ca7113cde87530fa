// Texts and their tokens.

use just_lexer::lex;
use just_lexer::lex_error::LexError;
use just_lexer::lexeme::Lexeme;
use std::alloc::{AllocError, Global};
use std::fmt::Write;
use std::process::Abort;

// Texts, the kinds of their tokens, and the fault with which lexing ends.
const ROWS: &[(&str, &str)] = &[
    ("", "Eof"),
    (
        "a := 'b'\n",
        "Identifier Whitespace ColonEquals Whitespace StringToken Eol Eof",
    ),
    ("a:=b", "Identifier ColonEquals Identifier Eof"),
    (
        "# hi\r\nset quiet\n",
        "Comment Eol Identifier Whitespace Identifier Eol Eof",
    ),
    (
        "a := b / \"c\\\"\" + `d`",
        "Identifier Whitespace ColonEquals Whitespace Identifier Whitespace Slash Whitespace StringToken Whitespace \
         Plus Whitespace Backtick Eof",
    ),
    (
        "build target:\n  @echo {{target}}!\n",
        "Identifier Whitespace Identifier Colon Eol Indent Text InterpolationStart Identifier InterpolationEnd Text \
         Eol Dedent Eof",
    ),
    (
        "a:\n  x\n\n   y\nb:\n",
        "Identifier Colon Eol Indent Text Eol Eol Whitespace Text Eol Dedent Identifier Colon Eol Eof",
    ),
    (
        "a:\n\n\t\n\tx",
        "Identifier Colon Eol Eol Whitespace Eol Indent Text Dedent Eof",
    ),
    (
        "a:\n # {{{{b}}",
        "Identifier Colon Eol Indent Text Dedent Eof",
    ),
    (
        "r:\n {{ if a == b { c } else { d }}}",
        "Identifier Colon Eol Indent InterpolationStart Whitespace Identifier Whitespace Identifier Whitespace \
         EqualsEquals Whitespace Identifier Whitespace BraceL Whitespace Identifier Whitespace BraceR Whitespace \
         Identifier Whitespace BraceL Whitespace Identifier Whitespace BraceR InterpolationEnd Dedent Eof",
    ),
    ("f'x'", "StringToken Eof"),
    (
        "f'x{{a}}y{{b}}'",
        "FormatStringStart Identifier FormatStringContinue Identifier FormatStringEnd Eof",
    ),
    (
        "f\"\"\"{{f'{{a}}'}}\"\"\"",
        "FormatStringStart FormatStringStart Identifier FormatStringEnd FormatStringEnd Eof",
    ),
    ("f'{{{{x}}'", "StringToken Eof"),
    (
        "a := [\n 'b',\n]\n",
        "Identifier Whitespace ColonEquals Whitespace BracketL Whitespace Whitespace StringToken Comma Whitespace \
         BracketR Eol Eof",
    ),
    (
        "a \\\n b",
        "Identifier Whitespace Whitespace Whitespace Identifier Eof",
    ),
    ("\u{feff}a", "ByteOrderMark Identifier Eof"),
    (
        "[private]\n@x $a='b' *c='d' +e: (f g) && h::i\n",
        "BracketL Identifier BracketR Eol At Identifier Whitespace Dollar Identifier Equals StringToken Whitespace \
         Asterisk Identifier Equals StringToken Whitespace Plus Identifier Colon Whitespace ParenL Identifier \
         Whitespace Identifier ParenR Whitespace AmpersandAmpersand Whitespace Identifier ColonColon Identifier Eol \
         Eof",
    ),
    (
        "[a: 'b']\n",
        "BracketL Identifier Colon Whitespace StringToken BracketR Eol Eof",
    ),
    (
        "!a != b =~ c !~ d || e ++ f ?",
        "Bang Identifier Whitespace BangEquals Whitespace Identifier Whitespace EqualsTilde Whitespace Identifier \
         Whitespace BangTilde Whitespace Identifier Whitespace BarBar Whitespace Identifier Whitespace PlusPlus \
         Whitespace Identifier Whitespace QuestionMark Eof",
    ),
    ("'''a'\nb'''", "StringToken Eof"),
    ("```a`\nb```", "Backtick Eof"),
    ("\"a\\\\\"'b\\'", "StringToken StringToken Eof"),
    ("''", "StringToken Eof"),
    (
        "fx x2 x-y_z",
        "Identifier Whitespace Identifier Whitespace Identifier Eof",
    ),
    ("a:\n  b\n c\n", "InconsistentIndentation at 7: ` `"),
    ("a:\n \tb\n", "MixedIndentation at 3: ` \t`"),
    ("a := b\n  c", "UnexpectedIndentation at 7: `  `"),
    ("a := (b\n", "UnclosedDelimiter at 5: `(`"),
    (
        "(b]",
        "MismatchedClosingDelimiter { open: Paren, line: 0 } at 2: `]`",
    ),
    ("b)", "UnexpectedClosingDelimiter at 1: `)`"),
    ("a 'b\n", "UnterminatedString at 2: `'`"),
    ("```b`", "UnterminatedBacktick at 0: `````"),
    ("f'a", "UnterminatedFormatString at 0: `f'`"),
    ("f'{{a\n}}'", "UnterminatedInterpolation at 0: `f'{{`"),
    ("a:\n {{b\n", "UnterminatedInterpolation at 4: `{{`"),
    ("x'a'", "ShellExpandedString at 0: `x`"),
    ("a é", "UnknownStart at 2: `é`"),
    ("a\rb", "UnpairedCarriageReturn at 1: `\r`"),
    ("a \\b", "InvalidEscape at 2: `\\`"),
];

// Adds the kinds of tokens, or what is wrong.
fn add_kinds(text: &mut String, lexed: &Result<Vec<Lexeme>, LexError>) -> Result<(), AllocError> {
    match lexed {
        Ok(lexemes) => {
            for lexeme in lexemes {
                if !text.is_empty() {
                    text.push(' ')?;
                }
                write!(text, "{:?}", lexeme.kind)?;
            }
        }
        Err(LexError::Fault { kind, token }) => {
            write!(text, "{kind:?} at {}: `{}`", token.offset, token.lexeme)?;
        }
        Err(LexError::OutOfMemory) => write!(text, "OutOfMemory")?,
    }
    Ok(())
}

fn check(rt: &impl Abort, alloc: Global, source: &str, expected: &str) {
    let mut found = String::new(alloc);
    let added = add_kinds(&mut found, &lex(alloc, "justfile", source));
    added.expect(rt, "no memory");
    assert_eq!(rt; found.as_str(), expected, "{source:?}");
}

#[test]
fn each_text_has_its_tokens(rt: HostRuntime) {
    for (source, expected) in ROWS {
        check(&rt, rt.alloc(), source, expected);
    }
}

// Each of these lines has six tokens.
#[test]
fn a_thousand_lines(rt: HostRuntime) {
    let source = "a := 'b'\n"
        .repeat(rt.alloc(), 1000)
        .expect(&rt, "no memory");
    check_count(&rt, rt.alloc(), &source, 6001);
}

fn check_count(rt: &impl Abort, alloc: Global, source: &str, expected: usize) {
    match lex(alloc, "justfile", source) {
        Ok(lexemes) => assert_eq!(rt; lexemes.len(), expected),
        Err(_) => assert!(rt; false, "a fault"),
    }
}
