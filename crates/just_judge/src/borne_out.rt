// A count of the runs that agree with their constants.

use std::io;

/// How many runs agree with what is constant before them, and how many variables are settled, open or refused.
#[derive(Clone, Copy, Debug, Default, PartialEq, Eq)]
pub(crate) struct BorneOut {
    runs: usize,
    settled: usize,
    open: usize,
    refused: usize,
}

impl BorneOut {
    /// Counts a run with its constants.
    pub(crate) fn count(&mut self, constants: &str) {
        self.runs = self.runs.saturating_add(1);
        if constants.starts_with("refused: ") {
            self.refused = self.refused.saturating_add(1);
            return;
        }
        for line in constants.lines() {
            if line.ends_with(" open") {
                self.open = self.open.saturating_add(1);
            } else {
                self.settled = self.settled.saturating_add(1);
            }
        }
    }

    /// Prints the count as one line.
    pub(crate) fn print<R: Print>(&self, rt: &R) -> io::Result<()> {
        let BorneOut {
            runs,
            settled,
            open,
            refused,
        } = *self;
        println!(rt;
            "{runs} runs bear out their constants: {settled} settled, {open} open, {refused} refused"
        )
    }
}
