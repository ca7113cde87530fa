// Positional words of a command line.

ghost use Rattle.std.specs.Prelude.{IfOk, List, None, OnOk, [], codes, map, string_bytes, ◌++◌, ◌≡◌};
ghost use Rattle.just_value.specs.Prelude.{Ends, GivesItems, positional, positional_view, with_override_or_word};
ghost use Rattle.just_value.specs.Prelude.{with_word};

use just_syntax::out_of_memory::OutOfMemory;
use std::alloc::Global;

/// The meaning of the words of a command line that are not flags, options or subcommands.
///
/// Words with `=` come first and are overrides. After them may come a search directory: `.`, `..`, or a word with a
/// `/`, whose text after the last `/` is the first argument. All other words are arguments.
#[derive(Debug, Drop, PartialEq, Eq)]
pub struct Positional {
    pub arguments: Vec<String>,
    /// The texts before and after the first `=`.
    pub overrides: Vec<(String, String)>,
    /// `.`, `..`, or a text that ends with `/`.
    pub search_directory: Option<String>,
}

impl Positional {
    /// The meaning of the words of an iterator. Upstream's `Positional::from_values`.
    ///
    /// # Errors
    ///
    /// `OutOfMemory`, if an allocation fails: nothing is created.
    pub fn from_values<'values, I: IntoIterator<Item = &'values str>>(
        alloc: Global,
        values: I,
    ) -> Result<Positional, OutOfMemory>
        requires { Ends I.into_iter_gives I.IntoIter.can_next I.IntoIter.remaining values }
        ensures { IfOk result (λ p. (words : List _) × GivesItems I.into_iter_gives I.IntoIter.next_gives values words
            × (positional_view p ≡ positional (map (λ word. word.now) words))) }
    {
        let mut positional = Positional {
            arguments: Vec::new(alloc),
            overrides: Vec::new(alloc),
            search_directory: None,
        };
        for value in values {
            positional.add(alloc, value)?;
        }
        Ok(positional)
    }

    // Adds a word.
    fn add(&mut self, alloc: Global, word: &str) -> Result<(), OutOfMemory>
        ensures { OnOk result (positional_view self.new ≡ with_word (positional_view self.old) word.now) }
    {
        if self.search_directory.is_some() || !self.arguments.is_empty() {
            self.arguments.push(String::from_str(alloc, word)?)?;
            return Ok(());
        }
        match word.split_once('=') {
            Some((name, value)) => {
                let name = String::from_str(alloc, name)?;
                let value = String::from_str(alloc, value)?;
                self.overrides.push((name, value))?;
                Ok(())
            }
            None => self.add_after_overrides(alloc, word),
        }
    }

    // Adds the first word after the overrides.
    fn add_after_overrides(&mut self, alloc: Global, word: &str) -> Result<(), OutOfMemory>
        requires no_directory { (positional_view self.old).search_directory ≡ None }
        requires no_argument { (positional_view self.old).arguments ≡ [] }
        ensures { OnOk result
            (positional_view self.new ≡ with_override_or_word (positional_view self.old) word.now None) }
    {
        if word == "." || word == ".." {
            self.search_directory = Some(String::from_str(alloc, word)?);
            return Ok(());
        }
        match word.rsplit_once('/') {
            Some((front, tail)) => {
                self.search_directory = Some(directory(alloc, front)?);
                if !tail.is_empty() {
                    self.arguments.push(String::from_str(alloc, tail)?)?;
                }
            }
            None => self.arguments.push(String::from_str(alloc, word)?)?,
        }
        Ok(())
    }
}

// A text with a slash appended.
fn directory(alloc: Global, front: &str) -> Result<String, OutOfMemory>
    ensures { IfOk result (λ text. string_bytes text ≡ front.now ++ codes "/") }
{
    let mut text = String::from_str(alloc, front)?;
    text.push('/')?;
    Ok(text)
}
