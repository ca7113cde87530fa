// How a case differs from its file.

ghost use Rattle.std.specs.Prelude.{◌≡◌, ◌↔◌, IsNone};

use crate::contradiction::Contradiction;
use crate::stored_case::StoredCase;
use just_bench::fail_at::How;
use std::fmt;

/// How a case differs from its file.
#[derive(Clone, Copy, Debug, PartialEq, Eq)]
pub enum Difference {
    /// The file cannot be read.
    Unreadable,
    /// The file has no status line.
    NoStatus,
    /// The case ends with another status.
    Status { expected: u8, given: u8 },
    /// The case has another answer.
    Answer,
    /// Its run contradicts what is constant before it.
    Constants(Contradiction),
    /// Its run asks this many questions, and then one that is outside of its reach.
    Reach { passed: usize },
    /// In the order that names give, its run has other bindings or is refused.
    Order,
    /// With this many questions passed on and each later one failed, the answer is not the expected one.
    Failing { passed: usize, how: How },
    /// Cut after this many bytes, it has an answer that is not expected of a cut case.
    Cut { length: usize },
    /// It does not end at a read that fails after this many reads.
    Read { reads: usize },
    /// It does not end at a write that fails after this many writes, or at the flush that fails after the last write.
    Write { writes: usize },
}

impl Difference {
    /// Returns how a status and an answer differ from the stored ones.
    pub fn between(stored: &StoredCase, status: u8, answer: &[u8]) -> Option<Difference>
        ensures { IsNone result ↔ ((status ≡ stored.now.status) × (answer.now ≡ stored.now.answer.now)) }
    {
        if status != stored.status {
            return Some(Difference::Status {
                expected: stored.status,
                given: status,
            });
        }
        if answer != stored.answer {
            return Some(Difference::Answer);
        }
        None
    }
}

impl fmt::Display for Difference {
    fn fmt<W: fmt::Write>(&self, f: &mut fmt::Formatter<W>) -> fmt::Result {
        match self {
            Difference::Unreadable => write!(f, "cannot be read"),
            Difference::NoStatus => write!(f, "has no line with a status"),
            Difference::Status { expected, given } => write!(
                f,
                "status {given} in place of {expected}"
            ),
            Difference::Answer => write!(f, "another answer"),
            Difference::Constants(contradiction) => write!(f, "{contradiction}"),
            Difference::Reach { passed } => write!(
                f,
                "asks outside of its reach after {passed} questions"
            ),
            Difference::Order => write!(f, "other bindings in the order that names give"),
            Difference::Failing { passed, how } => write!(
                f,
                "another answer where all but {passed} questions fail: {how:?}"
            ),
            Difference::Cut { length } => write!(f, "another answer to its first {length} bytes"),
            Difference::Read { reads } => write!(f, "goes on after {reads} reads and a failed one"),
            Difference::Write { writes } => write!(
                f,
                "goes on after {writes} writes and a failed one"
            ),
        }
    }
}
