// How a host fails, and the expected reports then.

use crate::recipes::texts::{add, owned};
use just_script::fail_at::How;
use std::alloc::Global;
use std::process::Abort;

/// How a host fails: after how many questions, and in which way.
pub(crate) type Failing = (usize, How);

/// No question fails.
pub(crate) const NEVER: Failing = (usize::MAX, How::Memory);

/// The ways in which a question fails.
pub(crate) const WAYS: &[How] = &[How::Fault, How::Memory];

/// How many questions a report begins with.
pub(crate) fn questions(reported: &str) -> usize {
    let mut count = 0usize;
    for piece in reported.split(";") {
        if !piece.starts_with("? ") {
            return count;
        }
        count = count.saturating_add(1);
    }
    count
}

/// The report expected in place of another if its questions fail: the questions that are passed on, the first that is
/// not, and a refusal.
pub(crate) fn reported_failing(
    rt: &impl Abort,
    alloc: Global,
    reported: &str,
    (passed, how): Failing,
) -> String {
    if passed >= questions(reported) {
        return owned(rt, alloc, reported);
    }
    let mut expected = String::new(alloc);
    let mut left = passed;
    for question in reported.split(";") {
        add(rt, &mut expected, question);
        add(rt, &mut expected, ";");
        if left == 0 {
            add(rt, &mut expected, refusal(how));
            return expected;
        }
        left -= 1;
    }
    expected
}

/// How a report describes the refusal of a command that fails.
pub(crate) fn refusal(how: How) -> &'static str {
    match how {
        How::Fault => "refused",
        How::Memory => "no memory",
    }
}
