// Values.

use crate::compared::reports;
use crate::parts::{owned, prints, token, value};
use just_syntax::list_operator::ListOperator;
use just_syntax::out_of_memory::OutOfMemory;
use just_syntax::text::Text;
use just_value::element::Element;
use just_value::error::Error;
use just_value::value::Value;
use std::alloc::Global;
use std::cmp::Ordering;
use std::process::Abort;

// The elements of values, and the report on each value: how many elements it has, whether it is true, whether it is
// empty, how it is displayed, and its join.
const VALUES: &[(&[&str], &str)] = &[
    (&[], "0 false true [] "),
    (&[""], "1 true false \"\" "),
    (&["foo"], "1 true false \"foo\" foo"),
    (&["foo", "bar"], "2 true false [\"foo\", \"bar\"] foo bar"),
    (
        &["foo bar", "baz"],
        "2 true false [\"foo bar\", \"baz\"] foo bar baz",
    ),
    (&["", ""], "2 true false [\"\", \"\"]  "),
    (&["a\tb\"c"], "1 true false \"a\\tb\\\"c\" a\tb\"c"),
    (&["\\", "\n"], "2 true false [\"\\\\\", \"\\n\"] \\ \n"),
    (
        &["\r", "é", ""],
        "3 true false [\"\\r\", \"é\", \"\"] \r é ",
    ),
];

fn reported_of(rt: &impl Abort, alloc: Global, elements: &[&str]) -> String {
    let value = value(rt, alloc, elements);
    let joined = value.join(alloc).expect(rt, "no memory");
    let len = value.len();
    let is_true = value.is_truthy();
    let is_empty = value.is_empty();
    format!(in alloc; "{len} {is_true} {is_empty} {value} {joined}").expect(rt, "no memory")
}

#[test]
fn values(rt: HostRuntime) {
    let alloc = rt.alloc();
    for (elements, wanted) in VALUES {
        reports(&rt, reported_of(&rt, alloc, elements), wanted);
    }
    prints(&rt, alloc, &Element("x\ty"), "\"x\\ty\"");
    prints(
        &rt,
        alloc,
        &Element("a text of forty bytes, without an escape"),
        "\"a text of forty bytes, without an escape\"",
    );
    prints(
        &rt,
        alloc,
        &Element("a text of forty bytes, and then an escape\\"),
        "\"a text of forty bytes, and then an escape\\\\\"",
    );
}

// A value whose construction may fail has these elements, each followed by a `.`.
fn holds(rt: &impl Abort, alloc: Global, made: Result<Value, OutOfMemory>, elements: &str) {
    let value = made.expect(rt, "no memory");
    reports(rt, reported_of_elements(rt, alloc, value), elements);
}

const SEVERAL: &[&str] = &["a", "b c"];

#[test]
fn constructors(rt: HostRuntime) {
    let alloc = rt.alloc();
    holds(&rt, alloc, Value::from_text(alloc, "foo bar"), "foo bar.");
    holds(&rt, alloc, Value::from_bool(alloc, true), "true.");
    holds(&rt, alloc, Value::from_bool(alloc, false), "");
    let text = owned(&rt, alloc, "foo");
    holds(&rt, alloc, Value::from_string(alloc, text), "foo.");
    let one = Some(Text::from_string(owned(&rt, alloc, "bar")));
    holds(&rt, alloc, Value::from_iterator(alloc, one), "bar.");
    let texts = value(&rt, alloc, SEVERAL).into_elements();
    holds(&rt, alloc, Value::from_iterator(alloc, texts), "a.b c.");
    let texts = value(&rt, alloc, SEVERAL).into_elements();
    let copied = Value::from_elements(texts).try_clone(alloc);
    holds(&rt, alloc, copied, "a.b c.");
}

// Adds a text followed by a `.`.
fn add(rt: &impl Abort, reported: &mut String, text: &str) {
    write!(reported, "{text}.").expect(rt, "no memory");
}

// The elements from an iterator over references, each followed by a `.`.
pub(crate) fn reported(rt: &impl Abort, alloc: Global, value: &Value) -> String {
    let mut all = String::new(alloc);
    for text in value.iter() {
        add(rt, &mut all, text);
    }
    for text in value {
        add(rt, &mut all, text);
    }
    all
}

// The same for an iterator that takes the value.
pub(crate) fn reported_of_own(rt: &impl Abort, alloc: Global, value: Value) -> String {
    let mut all = String::new(alloc);
    for text in value {
        add(rt, &mut all, &text);
    }
    all
}

// The same for the elements themselves.
pub(crate) fn reported_of_elements(rt: &impl Abort, alloc: Global, value: Value) -> String {
    let mut all = String::new(alloc);
    for text in value.into_elements() {
        add(rt, &mut all, &text);
    }
    all
}

#[test]
fn iterators(rt: HostRuntime) {
    let alloc = rt.alloc();
    let value = value(&rt, alloc, &["a", "", "bc"]);
    reports(&rt, reported(&rt, alloc, &value), "a..bc.a..bc.");
    holds(&rt, alloc, value.try_clone(alloc), "a..bc.");
    reports(&rt, reported_of_own(&rt, alloc, value), "a..bc.");
}

// The elements of values, each less than the next.
const RISING: &[&[&str]] = &[
    &[],
    &[""],
    &["", ""],
    &["a"],
    &["a", "a"],
    &["aa"],
    &["b"],
    &["é"],
];

// Values with these elements compare like this.
fn compare(rt: &impl Abort, alloc: Global, left: &[&str], right: &[&str], order: Ordering) {
    let x = value(rt, alloc, left);
    let y = value(rt, alloc, right);
    assert!(rt; are_ordered(&x, &y, order), "{x} {y}");
}

fn are_ordered(x: &Value, y: &Value, order: Ordering) -> bool {
    (x == y) == order.is_eq() && (x < y) == order.is_lt() && x.cmp(y) == order
}

#[test]
fn comparisons(rt: HostRuntime) {
    for (i, left) in RISING.iter().enumerate() {
        for (j, right) in RISING.iter().enumerate() {
            compare(&rt, rt.alloc(), left, right, i.cmp(&j));
        }
    }
}

// The operands of an operator, and the result; `refused` if lists have lengths that cannot be combined.
const APPLIED: &[(&[&str], ListOperator, &[&str], &str)] = &[
    (&[], ListOperator::Concatenate, &[], "[]"),
    (
        &["a", "b"],
        ListOperator::Concatenate,
        &["c", "d"],
        "[\"ac\", \"bd\"]",
    ),
    (
        &["a"],
        ListOperator::Concatenate,
        &["b", "c", "d"],
        "[\"ab\", \"ac\", \"ad\"]",
    ),
    (
        &["a", "b", "c"],
        ListOperator::Concatenate,
        &["d"],
        "[\"ad\", \"bd\", \"cd\"]",
    ),
    (&["a"], ListOperator::Join, &["b"], "\"a/b\""),
    (
        &["a", "b"],
        ListOperator::Join,
        &["c", "d"],
        "[\"a/c\", \"b/d\"]",
    ),
    (
        &["a", "b"],
        ListOperator::Join,
        &["c"],
        "[\"a/c\", \"b/c\"]",
    ),
    (&[], ListOperator::Join, &["a"], "refused"),
    (&[], ListOperator::Join, &["a", "b"], "refused"),
    (&["a"], ListOperator::Join, &[], "refused"),
    (&["a", "b"], ListOperator::Join, &[], "refused"),
    (&["a", "b"], ListOperator::Join, &["c", "d", "e"], "refused"),
];

// The result of an operator between values; `refused` if it is a refusal with these values, at `/`.
fn reported_of_applied(
    rt: &impl Abort,
    alloc: Global,
    left: &Value,
    operator: ListOperator,
    right: &Value,
) -> String {
    match left.apply(alloc, right, operator, token("/")) {
        Ok(value) => value.to_string(alloc).expect(rt, "no memory"),
        Err(error) => {
            let reported = refused(&error, left, operator, right);
            drop(error);
            owned(rt, alloc, reported)
        }
    }
}

// `refused`, if it is a refusal of this operator with these lists.
fn refused(error: &Error, left: &Value, of: ListOperator, right: &Value) -> &'static str {
    match error {
        Error::ListOperation {
            lhs,
            operator,
            rhs,
            token: at,
        } if lhs == left && rhs == right && *operator == of && *at == token("/") => "refused",
        _ => "other",
    }
}

fn reported_between(
    rt: &impl Abort,
    alloc: Global,
    left: &[&str],
    operator: ListOperator,
    right: &[&str],
) -> String {
    let left = value(rt, alloc, left);
    let right = value(rt, alloc, right);
    reported_of_applied(rt, alloc, &left, operator, &right)
}

#[test]
fn operator_on_lists(rt: HostRuntime) {
    for (left, operator, right, wanted) in APPLIED {
        let reported = reported_between(&rt, rt.alloc(), left, *operator, right);
        reports(&rt, reported, wanted);
    }
}
