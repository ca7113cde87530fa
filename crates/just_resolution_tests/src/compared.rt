// Comparisons of results with what is expected. `of` names what both are about.

use std::fmt::Debug;
use std::process::Abort;

/// A text is as expected.
pub(crate) fn same(rt: &impl Abort, given: &str, wanted: &str) {
    assert_eq!(rt; given, wanted);
}

/// A computed text is as expected.
pub(crate) fn reports(rt: &impl Abort, reported: String, wanted: &str) {
    same(rt, &reported, wanted);
}

/// A result is as expected.
pub(crate) fn equal<T: Copy + Debug + PartialEq>(rt: &impl Abort, of: &str, given: T, wanted: T) {
    assert_eq!(rt; given, wanted, "{of}");
}

/// A condition holds.
pub(crate) fn is_so(rt: &impl Abort, of: &str, given: bool) {
    assert!(rt; given, "{of}");
}
