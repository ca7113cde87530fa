// A count of the runs that ask within their reach.

use std::io;

/// How many runs ask within their reach, how many questions they ask, and how many of the runs reach nothing that asks.
#[derive(Clone, Copy, Debug, Default, PartialEq, Eq)]
pub struct WithinReach {
    runs: usize,
    questions: usize,
    silent: usize,
}

impl WithinReach {
    /// Counts a run with its questions, and whether it reaches something that may ask.
    pub(crate) fn count(&mut self, questions: usize, may_ask: bool) {
        self.runs = self.runs.saturating_add(1);
        self.questions = self.questions.saturating_add(questions);
        if !may_ask {
            self.silent = self.silent.saturating_add(1);
        }
    }

    /// Prints the count as one line.
    pub(crate) fn print<R: Print>(&self, rt: &R) -> io::Result<()> {
        let WithinReach {
            runs,
            questions,
            silent,
        } = *self;
        println!(rt;
            "{runs} runs ask within their reach: {questions} questions, {silent} runs that cannot ask"
        )
    }
}
