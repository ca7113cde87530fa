// Pairs a refusal of a run with one before any run.

use just_syntax::out_of_memory::OutOfMemory;
use just_value::element::Element;
use std::alloc::Global;

/// Whether the text of a stage's refusal and the line of a run's refusal report the same refusal, with the same message
/// or lists.
pub(crate) fn is_paired(alloc: Global, text: &str, line: &str) -> Result<bool, OutOfMemory> {
    let Some(refusal) = line.strip_prefix("refused ") else {
        return Ok(false);
    };
    if let Some(lists) = refusal.strip_prefix("10 ListOperation ") {
        return says_lists(alloc, text, lists);
    }
    if let Some(value) = refusal.strip_prefix("9 ListInStringContext ") {
        return Ok(text.starts_with(&format!(in alloc; "list value {value} in ")?));
    }
    if refusal == "8 LeftOutRegex" {
        return Ok(text == "regular expression operators are left out");
    }
    Ok(
        says_message(alloc, text, "assert failed: ", refusal, "1 Assert")?
            || says_message(alloc, text, "internal error: ", refusal, "6 Internal")?,
    )
}

// Whether the message of a text, after its beginning, is the quoted message of a refusal, after its number and name.
fn says_message(
    alloc: Global,
    text: &str,
    beginning: &str,
    refusal: &str,
    name: &str,
) -> Result<bool, OutOfMemory> {
    let Some(message) = text.strip_prefix(beginning) else {
        return Ok(false);
    };
    let message = Element(message);
    Ok(refusal == format!(in alloc; "{name} {message}")?.as_str())
}

// Whether a text reports that an operator cannot be applied to two lists. They are written with the operator between
// them.
fn says_lists(alloc: Global, text: &str, lists: &str) -> Result<bool, OutOfMemory> {
    for operator in ["+", "/"] {
        let is_empty = lists.starts_with(&format!(in alloc; "[] {operator} ")?)
            || lists.ends_with(&format!(in alloc; " {operator} []")?);
        let why = if is_empty {
            String::from_str(alloc, "empty lists")?
        } else {
            format!(in alloc; "lists of different lengths: {lists}")?
        };
        let said = format!(in alloc; "operator `{operator}` cannot be applied to {why}")?;
        if text == said.as_str() && lists.contains(&format!(in alloc; " {operator} ")?) {
            return Ok(true);
        }
    }
    Ok(false)
}
