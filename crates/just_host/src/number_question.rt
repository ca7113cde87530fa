// Questions that a number answers.

use std::fmt;

/// A question that a number answers.
#[derive(Clone, Copy, Debug, PartialEq, Eq)]
pub enum NumberQuestion {
    /// The id of the running process.
    ProcessId,
    /// The number of available processors.
    Cpus,
}

// `number process_id` or `number cpus`.
impl fmt::Display for NumberQuestion {
    ghost use Rattle.std.specs.Prelude.{Some};
    ghost use Rattle.just_host.specs.Printed.{printed_question};
    ghost use Rattle.just_host.specs.Question.{NumberOf};

    ghost output = { λ question. Some (printed_question (NumberOf question)) };

    ghost styled_output = { λ question _. Some (printed_question (NumberOf question)) };

    fn fmt<W: fmt::Write>(&self, f: &mut fmt::Formatter<W>) -> fmt::Result {
        match self {
            NumberQuestion::ProcessId => f.write_str("number process_id"),
            NumberQuestion::Cpus => f.write_str("number cpus"),
        }
    }
}
