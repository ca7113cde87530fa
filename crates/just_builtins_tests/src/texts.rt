// Texts, and comparisons of results with what is expected. A test ends if memory runs out.

use just_syntax::out_of_memory::OutOfMemory;
use just_value::value::Value;
use std::alloc::Global;
use std::process::Abort;

/// A text is as expected.
pub fn same(rt: &impl Abort, given: &str, wanted: &str) {
    assert_eq!(rt; given, wanted);
}

/// The result for a name is as expected.
pub fn same_of(rt: &impl Abort, name: &str, given: &str, wanted: &str) {
    assert_eq!(rt; given, wanted, "{name}");
}

/// A text whose computation may fail is as expected.
pub fn gives(rt: &impl Abort, made: Result<String, OutOfMemory>, wanted: &str) {
    same(rt, &text_of(rt, made), wanted);
}

/// A property of a name is as expected.
pub fn is_either(rt: &impl Abort, name: &str, given: bool, wanted: bool) {
    assert_eq!(rt; given, wanted, "{name}");
}

/// A text whose computation may fail.
pub fn text_of(rt: &impl Abort, made: Result<String, OutOfMemory>) -> String {
    match made {
        Ok(text) => text,
        Err(OutOfMemory) => panic!(rt; "no memory"),
    }
}

/// A copy of a text.
pub fn owned(rt: &impl Abort, alloc: Global, text: &str) -> String {
    String::from_str(alloc, text).expect(rt, "no memory")
}

/// Copies of texts.
pub fn all_owned(rt: &impl Abort, alloc: Global, texts: &[&str]) -> Vec<String> {
    let mut all = Vec::new(alloc);
    for text in texts {
        all.push(owned(rt, alloc, text)).expect(rt, "no memory");
    }
    all
}

/// The list of these texts.
pub fn list_of(rt: &impl Abort, alloc: Global, texts: &[&str]) -> Value {
    let mut list = Value::new(alloc);
    for text in texts {
        list.push(text).expect(rt, "no memory");
    }
    list
}

/// A text in which each piece between two `~` is repeated a thousand times.
pub fn long(rt: &impl Abort, alloc: Global, text: &str) -> String {
    let mut long = String::new(alloc);
    for (place, piece) in text.split('~').enumerate() {
        let times = if place % 2 == 0 { 1 } else { 1000 };
        add(rt, &mut long, piece, times);
    }
    long
}

fn add(rt: &impl Abort, text: &mut String, piece: &str, times: usize) {
    for _ in 0..times {
        text.push_str(piece).expect(rt, "no memory");
    }
}
