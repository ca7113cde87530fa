// Calls at large sizes that no case reaches. If there is memory each must succeed; no clause forbids a call to give up.

mod scope;
mod syntax;
mod value;
mod words;

use crate::modules::Variable;
use crate::parts::{owned, push};
use std::alloc::Global;
use std::process::Abort;

// A text: its beginning, a piece and how often it occurs, and its end.
type Long = (&'static str, &'static str, usize, &'static str);

fn long(rt: &impl Abort, alloc: Global, (front, piece, times, back): Long) -> String {
    repeated(rt, alloc, &[(front, 1), (piece, times), (back, 1)])
}

// Pieces, each repeated as often as given.
fn repeated(rt: &impl Abort, alloc: Global, pieces: &[(&str, usize)]) -> String {
    let mut text = String::new(alloc);
    for (piece, times) in pieces {
        for _ in 0..*times {
            text.push_str(piece).expect(rt, "no memory");
        }
    }
    text
}

// A text, this many times.
fn texts(rt: &impl Abort, alloc: Global, text: &str, times: usize) -> Vec<String> {
    let mut all = Vec::new(alloc);
    for _ in 0..times {
        push(rt, &mut all, owned(rt, alloc, text));
    }
    all
}

// The names from `x1000` to `x1999`.
fn thousand(rt: &impl Abort, alloc: Global) -> Vec<String> {
    let mut all = Vec::new(alloc);
    for i in 1000..2000u64 {
        let name = format!(in alloc; "x{i}").expect(rt, "no memory");
        push(rt, &mut all, name);
    }
    all
}

// Each text next to itself.
fn beside_themselves<'a>(
    rt: &impl Abort,
    alloc: Global,
    texts: &'a [String],
) -> Vec<(&'a str, &'a str)> {
    let mut pairs = Vec::new(alloc);
    for text in texts {
        push(rt, &mut pairs, (text.as_str(), text.as_str()));
    }
    pairs
}

// The texts, borrowed.
fn borrowed<'a>(rt: &impl Abort, alloc: Global, texts: &'a [String]) -> Vec<&'a str> {
    let mut all = Vec::new(alloc);
    for text in texts {
        push(rt, &mut all, text.as_str());
    }
    all
}

// Each name, with its index as its number.
fn variables<'a>(rt: &impl Abort, alloc: Global, names: &'a [String]) -> Vec<Variable<'a>> {
    let mut all = Vec::new(alloc);
    for (place, lexeme) in names.iter().enumerate() {
        let variable: Variable = (lexeme, place as u64, &[]);
        push(rt, &mut all, variable);
    }
    all
}

// These texts, one after the other, twice.
fn twice(rt: &impl Abort, alloc: Global, texts: &[String]) -> String {
    let once = texts.join(alloc, "").expect(rt, "no memory");
    format!(in alloc; "{once}{once}").expect(rt, "no memory")
}
