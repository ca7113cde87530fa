// Texts, and comparisons of results with what is expected. A test ends if memory runs out.

use just_bench::print::print_questions;
use just_bench::program::run;
use just_host::recorder::Recorder;
use std::alloc::Global;
use std::process::Abort;

/// A text is as expected.
pub(crate) fn same(rt: &impl Abort, of: &str, given: &str, wanted: &str) {
    assert_eq!(rt; given, wanted, "{of}");
}

/// The same for bytes.
pub(crate) fn same_bytes(rt: &impl Abort, of: &str, given: &[u8], wanted: &[u8]) {
    assert_eq!(rt; given, wanted, "{of}");
}

/// A status is as expected.
pub(crate) fn ends(rt: &impl Abort, of: &str, given: u8, wanted: u8) {
    assert_eq!(rt; given, wanted, "{of}");
}

/// A case has this answer and this status.
pub(crate) fn answers(
    rt: &impl Abort,
    alloc: Global,
    of: &str,
    case: &[u8],
    answer: &str,
    status: u8,
) {
    let mut reader = case;
    let mut out = Vec::new(alloc);
    ends(rt, of, run(alloc, &mut reader, &mut out), status);
    same_bytes(rt, of, &out, answer.as_bytes());
}

/// A condition holds.
pub(crate) fn is_so(rt: &impl Abort, of: &str, given: bool) {
    assert!(rt; given, "{of}");
}

/// A copy of a text.
pub(crate) fn owned(rt: &impl Abort, alloc: Global, text: &str) -> String {
    String::from_str(alloc, text).expect(rt, "no memory")
}

/// The questions that a host was asked, one per line.
pub(crate) fn questions_of<H>(rt: &impl Abort, alloc: Global, host: &Recorder<H>) -> String {
    let mut text = String::new(alloc);
    print_questions(&mut text, host.questions()).expect(rt, "no memory");
    text
}
