// What an explanation writes.

ghost use Rattle.std.specs.Prelude.{string_bytes, [], ◌≡◌};

use std::alloc::Global;

/// What an explanation writes, and the exit status: 0; 1 if something was refused; 2 if the words are wrong.
#[derive(Debug, Drop, PartialEq, Eq)]
pub struct Output {
    /// What is written to standard output: the results.
    pub out: String,
    /// What is written to standard error: the reports of errors.
    pub err: String,
    pub status: u8,
}

impl Output {
    /// Nothing, with the status 0. It allocates nothing.
    pub fn new(alloc: Global) -> Output
        ensures out { string_bytes result.out ≡ [] }
        ensures err { string_bytes result.err ≡ [] }
        ensures status { result.status ≡ 0 }
    {
        Output {
            out: String::new(alloc),
            err: String::new(alloc),
            status: 0,
        }
    }
}
