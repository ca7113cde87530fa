// How a case's run contradicts what is constant before it.

use std::fmt;

/// How a case's run contradicts what is constant before it.
#[derive(Clone, Copy, Debug, PartialEq, Eq)]
pub enum Contradiction {
    /// The module is resolved in the run, and its assignments are not resolved before the run.
    Unresolved,
    /// The settled and open variables are not those that the run evaluates, or are in another order.
    Variables,
    /// A variable is settled, but reaches a call, a command or an open variable in the run.
    Settled,
    /// A settled variable has another value in the run.
    Value,
    /// A variable is open, but reaches no call, no command and no open variable in the run.
    Open,
    /// The refusal before the run does not occur in the run, or is a different one there.
    Refusal,
}

impl fmt::Display for Contradiction {
    fn fmt<W: fmt::Write>(&self, f: &mut fmt::Formatter<W>) -> fmt::Result {
        match self {
            Contradiction::Unresolved => write!(f, "resolved in the run alone"),
            Contradiction::Variables => write!(f, "the run takes other variables"),
            Contradiction::Settled => write!(f, "a settled variable is open in the run"),
            Contradiction::Value => write!(f, "a settled variable has another value in the run"),
            Contradiction::Open => write!(f, "a variable is open for nothing"),
            Contradiction::Refusal => write!(f, "the run is not refused alike"),
        }
    }
}
