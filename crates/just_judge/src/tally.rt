// A count of what was tried and of what differs.

use std::io;

/// How many uses of one kind were tried, and how many of them differ.
#[derive(Clone, Copy, Debug, Default, PartialEq, Eq)]
pub struct Tally {
    tried: usize,
    differing: usize,
}

impl Tally {
    /// Counts one use that was tried, and returns whether it differs.
    pub(crate) fn count(&mut self, differs: bool) -> bool {
        self.tried = self.tried.saturating_add(1);
        if differs {
            self.differing = self.differing.saturating_add(1);
        }
        differs
    }

    /// Whether one differs.
    pub(crate) fn has_differing(&self) -> bool {
        self.differing > 0
    }

    /// Prints one line: how many were tried, what they are, and how many differ.
    pub(crate) fn print<R: Print>(&self, rt: &R, what: &str) -> io::Result<()> {
        let tried = self.tried;
        match self.differing {
            0 => println!(rt; "{tried} {what}, none differs"),
            differing => println!(rt; "{tried} {what}, {differing} differ"),
        }
    }
}
