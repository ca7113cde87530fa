// A case changed so that its runs stop at the first call.

use crate::evaluated::named;
use just_syntax::out_of_memory::OutOfMemory;
use std::alloc::Global;

/// Returns the lines of a case, changed so that its runs show what the const rules refuse.
///
/// No call is entered: the limit is 1. The limit applies only to functions of the file, so each built-in function that
/// the case calls is defined in the file. Each command that is reached is asked, also if the case makes a dry run. Up
/// to the first call or command, a run evaluates what the case's own run evaluates.
pub(crate) fn watched(alloc: Global, described: &str) -> Result<String, OutOfMemory> {
    let mut lines = String::new(alloc);
    let mut functions = names_after(alloc, described, "fun ")?;
    for line in described.split('\n') {
        if line != "dry" {
            writeln!(lines, "{line}")?;
        }
    }
    for name in names_after(alloc, described, "call ")? {
        if named(&functions, name).is_none() {
            writeln!(lines, "str\nfun {name}")?;
            functions.push(name)?;
        }
    }
    lines.push_str("limit 1")?;
    Ok(lines)
}

// The first word after this beginning, for each line that has it.
fn names_after<'text>(
    alloc: Global,
    text: &'text str,
    beginning: &str,
) -> Result<Vec<&'text str>, OutOfMemory> {
    let mut names = Vec::new(alloc);
    for line in text.split('\n') {
        if let Some(name) = line
            .strip_prefix(beginning)
            .and_then(|rest| rest.split(' ').next())
        {
            names.push(name)?;
        }
    }
    Ok(names)
}
