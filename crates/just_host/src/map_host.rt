// A host that answers from maps.

ghost use Rattle.std.specs.Prelude.{IfOk, None, string_bytes, ◌≡◌};
ghost use Rattle.std.specs.Option.{option_map};
ghost use Rattle.just_host.specs.MapHost.{or_absent, text_for_key};
ghost use Rattle.just_host.specs.Question.{UnlessNoMemory};
ghost use Rattle.just_host.specs.View.{text_replied};
ghost use Rattle.just_syntax.specs.Plain.{Text};

use crate::command_question::CommandQuestion;
use crate::host::Host;
use crate::number_question::NumberQuestion;
use crate::text_answer::TextAnswer;
use crate::text_question::TextQuestion;
use just_syntax::out_of_memory::OutOfMemory;
use just_value::error::CommandFault;
use std::alloc::Global;
use std::collections::BTreeMap;

/// A host that answers from maps. A command that is in none gets the fault `unknown command`, a variable or a file is
/// `Absent`, and so is every other text; only its files exist, and each number is 1. For example a test of a justfile
/// says what its commands output:
///
/// ```text
/// let mut host = MapHost::new(alloc);
/// host.commands.insert(String::from_str(alloc, "git rev-parse HEAD")?, String::from_str(alloc, "1f3a")?)?;
/// ```
#[derive(Debug, Drop)]
pub struct MapHost {
    /// The outputs of commands.
    pub commands: BTreeMap<String, String>,
    /// The values of environment variables.
    pub variables: BTreeMap<String, String>,
    /// The contents of files, by their paths.
    pub files: BTreeMap<String, String>,
}

impl MapHost {
    /// A host whose maps are empty. It allocates nothing.
    pub fn new(alloc: Global) -> MapHost
        ensures commands { (key : Text) → text_for_key result.commands key ≡ None }
        ensures variables { (key : Text) → text_for_key result.variables key ≡ None }
        ensures files { (key : Text) → text_for_key result.files key ≡ None }
    {
        MapHost {
            commands: BTreeMap::new(alloc),
            variables: BTreeMap::new(alloc),
            files: BTreeMap::new(alloc),
        }
    }
}

impl Host for MapHost {
    ghost use Rattle.std.specs.Prelude.{◌≡◌};
    ghost use Rattle.just_host.specs.Question.{UnlessNoMemory};
    ghost use Rattle.just_host.specs.MapHost.{answer_to, text_for_key};

    // The host stays as it is, and its maps give the answer.
    ghost step = { λ old question answer new.
        (new ≡ old)
        × UnlessNoMemory answer
        (answer_to (record {
          commands = text_for_key old.commands;
          variables = text_for_key old.variables;
          files = text_for_key old.files;
        }) question.blind) };

    fn command(
        &mut self,
        alloc: Global,
        question: &CommandQuestion,
    ) -> Result<String, CommandFault> {
        match copy_at(alloc, &self.commands, question.command)? {
            Some(text) => Ok(text),
            None => Err(CommandFault::Fault(String::from_str(alloc, "unknown command")?)),
        }
    }

    fn text(&mut self, alloc: Global, question: TextQuestion) -> TextAnswer {
        match question {
            TextQuestion::Variable(key) => answer_at(alloc, &self.variables, key),
            TextQuestion::Read(path) => answer_at(alloc, &self.files, path),
            _ => TextAnswer::Absent,
        }
    }

    fn exists(&mut self, _alloc: Global, path: &str) -> Result<bool, OutOfMemory> {
        Ok(self.files.get(path).is_some())
    }

    fn number(&mut self, _alloc: Global, _question: NumberQuestion) -> Result<u64, OutOfMemory> {
        Ok(1)
    }
}

// A copy of the text at a key.
fn copy_at(
    alloc: Global,
    map: &BTreeMap<String, String>,
    key: &str,
) -> Result<Option<String>, OutOfMemory>
    ensures { IfOk result (λ found. option_map string_bytes found ≡ text_for_key map.now key.now) }
{
    match map.get(key) {
        Some(text) => Ok(Some(String::from_str(alloc, text)?)),
        None => Ok(None),
    }
}

// The text at a key, as an answer.
fn answer_at(alloc: Global, map: &BTreeMap<String, String>, key: &str) -> TextAnswer
    ensures { UnlessNoMemory (text_replied result) (or_absent (text_for_key map.now key.now)) }
{
    match copy_at(alloc, map, key) {
        Ok(Some(text)) => TextAnswer::Text(text),
        Ok(None) => TextAnswer::Absent,
        Err(_) => TextAnswer::OutOfMemory,
    }
}
