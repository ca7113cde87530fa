// Results of the search before evaluation.

ghost use Rattle.std.specs.Prelude.{IfOk, ◌≡◌};
ghost use Rattle.just_host.specs.Prelude.{search_view};

use just_syntax::out_of_memory::OutOfMemory;
use std::alloc::Global;

/// The root justfile that was found, and its working directory.
#[derive(Debug, Drop)]
pub struct Search {
    pub justfile: String,
    pub working_directory: String,
}

impl Search {
    /// The root justfile at a path, and its working directory, which usually contains it.
    ///
    /// # Errors
    ///
    /// `OutOfMemory`, if a path cannot be copied: nothing is created.
    pub fn new(
        alloc: Global,
        justfile: &str,
        working_directory: &str,
    ) -> Result<Search, OutOfMemory>
        ensures { IfOk result (λ search. search_view search ≡ record {
          justfile = justfile.now;
          working_directory = working_directory.now;
        }) }
    {
        Ok(Search {
            justfile: String::from_str(alloc, justfile)?,
            working_directory: String::from_str(alloc, working_directory)?,
        })
    }
}
