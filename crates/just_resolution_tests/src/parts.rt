// Names and values for tests, and what is displayed.

use crate::compared::reports;
use just_syntax::name::Name;
use just_syntax::number::Number;
use just_syntax::out_of_memory::OutOfMemory;
use just_syntax::place::Place;
use just_syntax::token::Token;
use just_value::value::Value;
use std::alloc::Global;
use std::fmt::Display;
use std::process::Abort;

// The place of each token and each name.
const PLACE: Place = Place {
    column: 2,
    line: 1,
    offset: 7,
    path: "justfile",
};

pub(crate) fn token(lexeme: &str) -> Token<'_> {
    Token::new(lexeme, Some(PLACE))
}

pub(crate) fn name(lexeme: &str) -> Name<'_> {
    Name::new(lexeme, Some(PLACE))
}

// A variable's number, if it has one.
pub(crate) fn numbered(number: Option<u64>) -> Option<Number> {
    match number {
        Some(number) => Some(Number::new(number)),
        None => None,
    }
}

// A copy of a text.
pub(crate) fn owned(rt: &impl Abort, alloc: Global, text: &str) -> String {
    String::from_str(alloc, text).expect(rt, "no memory")
}

// Adds an item after others.
pub(crate) fn push<T: Drop>(rt: &impl Abort, items: &mut Vec<T>, item: T) {
    items.push(item).expect(rt, "no memory");
}

pub(crate) fn value(rt: &impl Abort, alloc: Global, elements: &[&str]) -> Value {
    let mut value = Value::new(alloc);
    for element in elements {
        value.push(element).expect(rt, "no memory");
    }
    value
}

// `Display` writes this text.
pub(crate) fn prints<T: Display>(rt: &impl Abort, alloc: Global, item: &T, text: &str) {
    let reported = format!(in alloc; "{item}").expect(rt, "no memory");
    reports(rt, reported, text);
}

// The same for an item whose construction may fail.
pub(crate) fn made_prints<T: Display + Drop>(
    rt: &impl Abort,
    alloc: Global,
    made: Result<T, OutOfMemory>,
    text: &str,
) {
    let item = made.expect(rt, "no memory");
    prints(rt, alloc, &item, text);
    drop(item);
}
