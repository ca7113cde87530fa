// What is given in place of a run.

ghost use Rattle.std.specs.Prelude.{string_bytes, [], false, ◌≡◌};
ghost use Rattle.just_syntax.specs.View.{pairs_view};

use std::alloc::Global;
use std::collections::BTreeMap;

/// What is given in place of a run: the answers to its questions, and its options.
#[derive(Debug, Drop)]
pub struct Given {
    /// Each is a command, `=` and what it outputs.
    pub answers: Vec<String>,
    /// The number of available processors.
    pub cpus: u64,
    /// The directory of the justfile.
    pub directory: String,
    /// The variables of dotenv files.
    pub dotenv: BTreeMap<String, String>,
    pub dry_run: bool,
    /// The paths that exist, as a question for one is printed.
    pub existing: Vec<String>,
    /// Whether `lists` is set, whatever the justfile sets.
    pub lists: bool,
    /// The id of the process.
    pub process_id: u64,
    /// Each is another question for a text, as it is printed, `=` and the text, such as `os=linux`.
    pub texts: Vec<String>,
    /// The environment variables.
    pub variables: BTreeMap<String, String>,
}

impl Given {
    /// Nothing, and one for each number. It allocates nothing.
    pub fn new(alloc: Global) -> Given
        ensures answers { result.answers.items ≡ [] }
        ensures cpus { result.cpus ≡ 1 }
        ensures directory { string_bytes result.directory ≡ [] }
        ensures dotenv { pairs_view result.dotenv ≡ [] }
        ensures dry_run { result.dry_run ≡ false }
        ensures existing { result.existing.items ≡ [] }
        ensures lists { result.lists ≡ false }
        ensures process_id { result.process_id ≡ 1 }
        ensures texts { result.texts.items ≡ [] }
        ensures variables { pairs_view result.variables ≡ [] }
    {
        Given {
            answers: Vec::new(alloc),
            cpus: 1,
            directory: String::new(alloc),
            dotenv: BTreeMap::new(alloc),
            dry_run: false,
            existing: Vec::new(alloc),
            lists: false,
            process_id: 1,
            texts: Vec::new(alloc),
            variables: BTreeMap::new(alloc),
        }
    }
}
