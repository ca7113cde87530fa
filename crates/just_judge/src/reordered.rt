// A count of the runs that bind the same in the order that names give.

use std::io;

/// How many runs bind the same in the order that names give, how many of these have another order themselves, and how
/// many runs are not compared.
#[derive(Clone, Copy, Debug, Default, PartialEq, Eq)]
pub struct Reordered {
    compared: usize,
    reordered: usize,
    skipped: usize,
}

impl Reordered {
    /// Counts a run that binds the same, and whether it has another order itself.
    pub(crate) fn count(&mut self, is_reordered: bool) {
        self.compared = self.compared.saturating_add(1);
        if is_reordered {
            self.reordered = self.reordered.saturating_add(1);
        }
    }

    /// Counts a run that is not compared.
    pub(crate) fn skip(&mut self) {
        self.skipped = self.skipped.saturating_add(1);
    }

    /// Prints the count as one line.
    pub(crate) fn print<R: Print>(&self, rt: &R) -> io::Result<()> {
        let Reordered {
            compared,
            reordered,
            skipped,
        } = *self;
        println!(rt;
            "{compared} runs bind the same in the order by names: {reordered} in another order, {skipped} not compared"
        )
    }
}
