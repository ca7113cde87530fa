// Paths and texts: a call of each public function, and what no stored case can express, namely parents that a built-in
// function does not distinguish, and texts with a line break.

use crate::compared::{equal, is_so, reports, same};
use just_syntax::out_of_memory::OutOfMemory;
use just_syntax::text::Text;
use just_syntax::unindent;
use just_text::affix::{append, prepend};
use just_text::case::{capitalize, lowercase, uppercase};
use just_text::join_list::join_list;
use just_text::path::{extension, file_name, file_stem, join, parent};
use just_text::pattern::{trim_end_match, trim_end_matches, trim_start_match, trim_start_matches};
use just_text::quote::quote;
use just_text::replace::replace;
use just_text::split::{split, split_whitespace};
use just_text::uri::encode_uri_component;
use std::alloc::Global;
use std::process::Abort;

// Paths and their parents.
const PARENTS: &[(&str, Option<&str>)] = &[("a//b", Some("a")), (".", Some("")), ("..", Some(""))];

#[test]
fn parts_of_paths(rt: HostRuntime) {
    for (path, wanted) in PARENTS {
        equal(&rt, path, parent(path), *wanted);
    }
    equal(&rt, "file name", file_name("a//b.c"), Some("b.c"));
    equal(&rt, "file stem", file_stem("a.tar.gz"), Some("a.tar"));
    equal(&rt, "extension", extension("a.tar.gz"), Some("gz"));
}

#[test]
fn trimmed_texts(rt: HostRuntime) {
    same(&rt, trim_start_match("ababc", "ab"), "abc");
    same(&rt, trim_start_matches("ababc", "ab"), "c");
    same(&rt, trim_end_match("cabab", "ab"), "cab");
    same(&rt, trim_end_matches("cabab", "ab"), "c");
}

// A text whose computation may fail is as expected.
fn gives(rt: &impl Abort, made: Result<String, OutOfMemory>, wanted: &str) {
    reports(rt, made.expect(rt, "no memory"), wanted);
}

#[test]
fn texts(rt: HostRuntime) {
    let alloc = rt.alloc();
    gives(&rt, join(alloc, "a/", "b"), "a/b");
    gives(&rt, quote(alloc, "it's"), "'it'\\''s'");
    gives(&rt, encode_uri_component(alloc, "/%\n~"), "%2F%25%0A~");
}

// A text, what is replaced in it and by what, and the text then: one byte by one, one byte by more, and more by any.
const REPLACED: &[(&str, &str, &str, &str)] = &[
    ("a,b,,c", ",", ";", "a;b;;c"),
    (",", ",", ",", ","),
    ("é,è", ",", ";", "é;è"),
    ("", ",", ";", ""),
    ("aXbX", "X", "é", "aébé"),
    ("X", "X", "", ""),
    ("ababa", "ab", "x", "xxa"),
    ("xab", "ab", "", "x"),
    ("aaa", "aa", "é", "éa"),
    ("ab", "abc", "x", "ab"),
];

#[test]
fn replaced(rt: HostRuntime) {
    for (text, from, to, wanted) in REPLACED {
        gives(&rt, replace(rt.alloc(), text, from, to), wanted);
    }
}

// There is a text, and it is as expected.
fn gives_some(rt: &impl Abort, made: Result<Option<String>, OutOfMemory>, wanted: &str) {
    let text = made.expect(rt, "no memory");
    equal(rt, "case", text.as_deref(), Some(wanted));
}

#[test]
fn cases(rt: HostRuntime) {
    let alloc = rt.alloc();
    gives_some(&rt, capitalize(alloc, "hELLO"), "Hello");
    gives_some(&rt, lowercase(alloc, "hELLO"), "hello");
    gives_some(&rt, uppercase(alloc, "hELLO"), "HELLO");
}

// Texts whose computation may fail are as expected; they are written with `|` between them.
fn gives_all(rt: &impl Abort, alloc: Global, made: Result<Vec<Text>, OutOfMemory>, wanted: &str) {
    let texts = made.expect(rt, "no memory");
    let reported = texts.join(alloc, "|").expect(rt, "no memory");
    reports(rt, reported, wanted);
}

const SPACED: &str = " a\u{2003}é  b\n";

#[test]
fn cut_texts(rt: HostRuntime) {
    let alloc = rt.alloc();
    gives_all(&rt, alloc, split(alloc, "a,,b", ","), "a||b");
    gives_all(&rt, alloc, split_whitespace(alloc, SPACED), "a|é|b");
    let words = split_whitespace(alloc, SPACED).expect(&rt, "no memory");
    words_are_changed(&rt, alloc, &words);
    let none = split_whitespace(alloc, " \t\n").expect(&rt, "no memory");
    is_so(&rt, "no word", none.is_empty());
}

// The words `a`, `é` and `b`, with something after or before each, and as one text.
fn words_are_changed(rt: &impl Abort, alloc: Global, words: &[Text]) {
    gives_all(rt, alloc, append(alloc, "!", words), "a!|é!|b!");
    gives_all(rt, alloc, prepend(alloc, "x", words), "xa|xé|xb");
    gives(rt, join_list(alloc, words, ", "), "a, é, b");
    gives(rt, join_list(alloc, &words[..0], ", "), "");
}

// Texts, and the same without their indentation.
const UNINDENTED: &[(&str, &str)] = &[
    ("", ""),
    ("  a", "a"),
    ("a\n  b", "a\n  b"),
    ("\n  a\n    b\n", "a\n  b\n"),
    ("\n  a\n  ", "a\n"),
    ("\t a\n\t b", "a\nb"),
    ("  a\n   \n  b\n", "a\n\nb\n"),
];

#[test]
fn unindented(rt: HostRuntime) {
    for (text, expected) in UNINDENTED {
        gives(&rt, unindent(rt.alloc(), text), expected);
    }
}
