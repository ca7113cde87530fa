// Values of a thousand elements.

use crate::compared::{is_so, reports};
use crate::parts::token;
use crate::sizes::{long, texts, thousand};
use crate::value::{reported, reported_of_elements, reported_of_own};
use just_syntax::list_operator::ListOperator;
use just_value::error::Error;
use just_value::value::Value;
use std::alloc::Global;
use std::process::Abort;

// A value has these elements, in this order.
fn holds(rt: &impl Abort, alloc: Global, value: Value, wanted: &[String]) {
    let is_long = value.len() == wanted.len() && value.is_truthy() && !value.is_empty();
    is_so(rt, "a thousand", is_long);
    let elements = value.elements().join(alloc, "|").expect(rt, "no memory");
    let wanted = wanted.join(alloc, "|").expect(rt, "no memory");
    is_so(rt, "elements", elements == wanted);
    drop(value);
}

// A value to which each element was added.
fn pushed(rt: &impl Abort, alloc: Global, elements: &[String]) -> Value {
    let mut value = Value::new(alloc);
    for element in elements {
        value.push(element).expect(rt, "no memory");
    }
    value
}

// A copy of a value.
fn copied(rt: &impl Abort, alloc: Global, value: &Value) -> Value {
    value.try_clone(alloc).expect(rt, "no memory")
}

#[test]
fn made_of_a_thousand_elements(rt: HostRuntime) {
    let alloc = rt.alloc();
    let elements = thousand(&rt, alloc);
    holds(&rt, alloc, pushed(&rt, alloc, &elements), &elements);
    let value = Value::from_elements(pushed(&rt, alloc, &elements).into_elements());
    holds(&rt, alloc, value, &elements);
    let value = Value::from_iterator(alloc, pushed(&rt, alloc, &elements)).expect(&rt, "no memory");
    holds(&rt, alloc, copied(&rt, alloc, &value), &elements);
    holds(&rt, alloc, value, &elements);
}

// A text is `ab.`, this many times.
fn repeats(rt: &impl Abort, alloc: Global, text: String, times: usize) {
    reports(rt, text, &long(rt, alloc, ("", "ab.", times, "")));
}

// Values, joined and built from one long text, are these texts.
fn are_joined(rt: &impl Abort, alloc: Global, elements: &[String]) {
    let value = pushed(rt, alloc, &texts(rt, alloc, "ab", 1000));
    let joined = value.join(alloc).expect(rt, "no memory");
    drop(value);
    is_so(
        rt,
        "joined",
        joined == long(rt, alloc, ("", "ab ", 999, "ab")),
    );
    let value = Value::from_text(alloc, &joined).expect(rt, "no memory");
    is_so(rt, "from a text", is_one(&value, &joined));
    let value = Value::from_string(alloc, elements.join(alloc, " ").expect(rt, "no memory"));
    let value = value.expect(rt, "no memory");
    let joined = elements.join(alloc, " ").expect(rt, "no memory");
    is_so(rt, "from a string", is_one(&value, &joined));
}

fn is_one(value: &Value, text: &str) -> bool {
    match value.elements() {
        [element] => element.as_str() == text,
        _ => false,
    }
}

// An operator between a thousand elements and as many, one, or one less, gives the expected value.
fn are_applied(rt: &impl Abort, alloc: Global) {
    let many = pushed(rt, alloc, &texts(rt, alloc, "ab", 1000));
    let one = Value::from_text(alloc, "c").expect(rt, "no memory");
    let less = pushed(rt, alloc, &texts(rt, alloc, "c", 999));
    gives(rt, alloc, &many, &many, "abab");
    gives(rt, alloc, &many, &one, "abc");
    gives(rt, alloc, &one, &many, "cab");
    let refused = many.apply(alloc, &less, ListOperator::Join, token("/"));
    match refused {
        Err(Error::ListOperation { lhs, rhs, .. }) => {
            is_so(rt, "refused", lhs == many && rhs == less);
        }
        _ => panic!(rt; "not refused"),
    }
}

// `+` between two values gives this element a thousand times.
fn gives(rt: &impl Abort, alloc: Global, left: &Value, right: &Value, element: &str) {
    let given = left.apply(alloc, right, ListOperator::Concatenate, token("+"));
    match given {
        Ok(value) => holds(rt, alloc, value, &texts(rt, alloc, element, 1000)),
        Err(_) => panic!(rt; "a refusal"),
    }
}

#[test]
fn put_together_of_a_thousand_elements(rt: HostRuntime) {
    are_joined(&rt, rt.alloc(), &thousand(&rt, rt.alloc()));
    are_applied(&rt, rt.alloc());
}

#[test]
fn gone_over_a_thousand_elements(rt: HostRuntime) {
    let alloc = rt.alloc();
    let value = pushed(&rt, alloc, &texts(&rt, alloc, "ab", 1000));
    repeats(&rt, alloc, reported(&rt, alloc, &value), 2000);
    let own = reported_of_own(&rt, alloc, copied(&rt, alloc, &value));
    repeats(&rt, alloc, own, 1000);
    repeats(&rt, alloc, reported_of_elements(&rt, alloc, value), 1000);
}

#[test]
fn a_thousand_elements_compared(rt: HostRuntime) {
    let alloc = rt.alloc();
    let value = pushed(&rt, alloc, &thousand(&rt, alloc));
    let mut more = copied(&rt, alloc, &value);
    is_so(&rt, "equal", are_equal(&value, &more));
    more.push("").expect(&rt, "no memory");
    is_so(&rt, "less", is_less(&value, &more));
}

fn are_equal(value: &Value, same: &Value) -> bool {
    value == same && !(value < same) && value.cmp(same).is_eq()
}

fn is_less(value: &Value, more: &Value) -> bool {
    value != more && value < more && more.cmp(value).is_gt()
}
