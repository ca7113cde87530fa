// Whether a case's run agrees with what is constant before it.

use crate::contradiction::Contradiction;
use crate::evaluated::{contains_line, evaluated, first_run};
use crate::pairing::is_paired;
use crate::predicted::{Predicted, taken};
use crate::stored_case::StoredCase;
use just_syntax::out_of_memory::OutOfMemory;
use std::alloc::Global;
use std::str;

/// A stored case that ends with `run`, and its answer.
#[derive(Clone, Copy, Debug)]
pub struct Run<'file> {
    // The lines before the line `run`.
    lines: &'file str,
    answer: &'file str,
    is_finished: bool,
}

impl<'file> Run<'file> {
    /// Returns a case's run, if the law on constants applies to it.
    ///
    /// The law `const_agrees` requires a resolved module, so a run of an unresolved module is skipped. If a run's
    /// module is resolved, its assignments are also resolved before any run, since that requires less.
    pub fn of_case(stored: &StoredCase<'file>) -> Option<Run<'file>> {
        let case = str::from_utf8(stored.case).ok()?;
        let answer = str::from_utf8(stored.answer).ok()?;
        if stored.status == 1 || answer.starts_with("unresolved\n") {
            return None;
        }
        Some(Run {
            lines: case.trim_end_matches('\n').strip_suffix("\nrun")?,
            answer,
            is_finished: stored.status == 0,
        })
    }

    /// Returns what is constant before it.
    ///
    /// # Errors
    ///
    /// `OutOfMemory` if an allocation fails.
    pub fn constants(&self, alloc: Global) -> Result<String, OutOfMemory> {
        evaluated(alloc, self.lines, "const")
    }

    /// Returns how it contradicts the given constants, if it does.
    ///
    /// # Errors
    ///
    /// `OutOfMemory` if an allocation fails.
    pub fn contradiction(
        &self,
        alloc: Global,
        constants: &str,
    ) -> Result<Option<Contradiction>, OutOfMemory> {
        if constants.starts_with("unresolved\n") {
            return Ok(Some(Contradiction::Unresolved));
        }
        let blocks = evaluated(alloc, self.lines, "blocks x")?;
        let predicted = Predicted::new(alloc, self.lines, taken(alloc, &blocks)?)?;
        match (refusal_in(constants), &predicted.refused) {
            (None, None) => Ok(self.contradicted_lines(&predicted, constants)),
            (Some(text), Some((variable, line))) => {
                let agrees = is_paired(alloc, text, line)?
                    && (!reaches(alloc, &blocks, variable)? || self.ends_with(line));
                Ok((!agrees).then_some(Contradiction::Refusal))
            }
            _ => Ok(Some(Contradiction::Refusal)),
        }
    }

    // Whether this is the last line of its answer.
    fn ends_with(&self, line: &str) -> bool {
        self.answer.lines().last() == Some(line)
    }

    // How the lines of the constants are contradicted. Each line must be about the variable at its place in the order.
    fn contradicted_lines(&self, predicted: &Predicted, constants: &str) -> Option<Contradiction> {
        let mut lines = constants.lines();
        for name in &predicted.taken {
            let Some(line) = lines.next() else {
                return Some(Contradiction::Variables);
            };
            if let Some(contradiction) = self.contradicted(line, name, predicted) {
                return Some(contradiction);
            }
        }
        lines.next().and(Some(Contradiction::Variables))
    }

    // How the line about a variable is contradicted.
    fn contradicted(&self, line: &str, name: &str, predicted: &Predicted) -> Option<Contradiction> {
        let Some(said) = line
            .strip_prefix(name)
            .and_then(|rest| rest.strip_prefix(' '))
        else {
            return Some(Contradiction::Variables);
        };
        match (said == "open", predicted.is_open(name)) {
            (true, true) => None,
            (true, false) => Some(Contradiction::Open),
            (false, true) => Some(Contradiction::Settled),
            (false, false) if self.binds(line, &predicted.bindings) => None,
            (false, false) => Some(Contradiction::Value),
        }
    }

    // Whether a line is among these bindings and among those of the answer. A refused run's answer has no bindings.
    fn binds(&self, line: &str, bindings: &str) -> bool {
        contains_line(bindings, line) && (!self.is_finished || contains_line(self.answer, line))
    }
}

// The text of the refusal that ends the constants. It can have several lines and end with any character.
fn refusal_in(constants: &str) -> Option<&str> {
    let text = constants.strip_prefix("refused: ")?;
    Some(text.strip_suffix('\n').unwrap_or(text))
}

// Whether the first of two runs reaches a variable.
fn reaches(alloc: Global, blocks: &str, variable: &str) -> Result<bool, OutOfMemory> {
    let begun = format!(in alloc; "block {variable}")?;
    Ok(contains_line(first_run(blocks), &begun))
}
