// Texts, and comparisons of reports on a failing host with what is expected. A test ends if memory runs out.

use crate::recipes::failing::Failing;
use std::alloc::Global;
use std::process::Abort;

/// The report on something is as expected, with a host that fails in some way.
pub(crate) fn same_failing(
    rt: &impl Abort,
    of: &str,
    (passed, how): Failing,
    reported: &str,
    wanted: &str,
) {
    assert_eq!(rt; reported, wanted, "{of} {passed} {how:?}");
}

/// A copy of a text.
pub(crate) fn owned(rt: &impl Abort, alloc: Global, text: &str) -> String {
    String::from_str(alloc, text).expect(rt, "no memory")
}

/// Adds an item after others.
pub(crate) fn push<T: Drop>(rt: &impl Abort, items: &mut Vec<T>, item: T) {
    items.push(item).expect(rt, "no memory");
}

/// Adds a piece to the end of a text.
pub(crate) fn add(rt: &impl Abort, text: &mut String, piece: &str) {
    text.push_str(piece).expect(rt, "no memory");
}
