// Word lists, positional words, and the names of an expression.

use crate::modules::Variable;
use crate::parts::made_prints;
use crate::scope::{from_pairs, from_parameters, gives};
use crate::sizes::{Long, long, repeated, thousand, variables};
use crate::words::are_reported;
use just_syntax::out_of_memory::OutOfMemory;
use just_value::expression_context::ExpressionContext;
use just_value::list::List;
use just_value::positional::Positional;
use std::alloc::Global;
use std::fmt::Display;
use std::process::Abort;

// An item whose construction may fail is written as a long text.
fn made_prints_long<T: Display + Drop>(
    rt: &impl Abort,
    alloc: Global,
    made: Result<T, OutOfMemory>,
    text: Long,
) {
    made_prints(rt, alloc, made, &long(rt, alloc, text));
}

#[test]
fn lists_of_a_thousand_words(rt: HostRuntime) {
    let alloc = rt.alloc();
    let words = ["a"; 1000];
    let list = List::or(alloc, words);
    made_prints_long(&rt, alloc, list, ("", "a, ", 999, "or a"));
    let list = List::and(alloc, words);
    made_prints_long(&rt, alloc, list, ("", "a, ", 999, "and a"));
    let list = List::or_ticked(alloc, words);
    made_prints_long(&rt, alloc, list, ("", "`a`, ", 999, "or `a`"));
    let list = List::and_ticked(alloc, words);
    made_prints_long(&rt, alloc, list, ("", "`a`, ", 999, "and `a`"));
}

// A thousand overrides, a directory, and a thousand arguments.
const WORDS: &[(&str, usize)] = &[("key=value ", 1000), ("up/", 1000), (" word", 1000)];

const REPORTED: &[(&str, usize)] = &[
    ("(key:value)", 1000),
    ("[", 1),
    ("up/", 1000),
    ("]", 1),
    ("'word'", 1000),
];

#[test]
fn thousands_of_positional_words(rt: HostRuntime) {
    let alloc = rt.alloc();
    let words = repeated(&rt, alloc, WORDS);
    let wanted = repeated(&rt, alloc, REPORTED);
    let positional = Positional::from_values(alloc, words.split(' '));
    are_reported(&rt, alloc, positional, &wanted);
}

#[test]
fn a_thousand_names(rt: HostRuntime) {
    let alloc = rt.alloc();
    let names = thousand(&rt, alloc);
    give_places(&rt, alloc, &variables(&rt, alloc, &names));
}

// A context of pairs and a context of parameters give each of a thousand names its number.
fn give_places(rt: &impl Abort, alloc: Global, names: &[Variable]) {
    gives_all(rt, &from_pairs(rt, alloc, names), names);
    gives_all(rt, &from_parameters(rt, alloc, names), names);
}

// A context gives each name its number, and no number to other names.
fn gives_all(rt: &impl Abort, context: &ExpressionContext, names: &[Variable]) {
    for (lexeme, number, _) in names {
        gives(rt, context, lexeme, Some(*number));
    }
    gives(rt, context, "x2000", None);
}
