// Comparisons of results with what is expected.

use std::process::Abort;

/// The report on something is as expected.
pub(crate) fn reports(rt: &impl Abort, of: &str, reported: String, wanted: &str) {
    same(rt, of, &reported, wanted);
}

/// A text is as expected.
pub(crate) fn same(rt: &impl Abort, of: &str, given: &str, wanted: &str) {
    assert_eq!(rt; given, wanted, "{of}");
}

/// A property of a case is as expected.
pub(crate) fn equal(rt: &impl Abort, of: &str, given: bool, wanted: bool) {
    assert_eq!(rt; given, wanted, "{of}");
}
