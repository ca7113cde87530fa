// The constants of a case, as its runs show them.

use crate::evaluated::{evaluated, first_run, named};
use crate::watched::watched;
use just_syntax::out_of_memory::OutOfMemory;
use std::alloc::Global;

/// The constants of a case, as its runs show them.
#[derive(Drop)]
pub(crate) struct Predicted<'text> {
    /// The variables that the case's run evaluates, in order.
    pub(crate) taken: Vec<&'text str>,
    // The variables whose expressions reach a call, a command or an open variable.
    open: Vec<&'text str>,
    /// The binding lines of the variables that are not open, up to the refused one.
    pub(crate) bindings: String,
    /// The first variable that is refused before it reaches a call, a command or an open variable, with its refusal's
    /// line.
    pub(crate) refused: Option<(&'text str, String)>,
}

impl<'text> Predicted<'text> {
    /// Finds the constants among these variables. The case's run evaluates them in this order.
    ///
    /// Each variable is tried in a run that has the values of the earlier variables, without the open ones, and that
    /// enters no call. The question or the refusal of such a run shows whether the variable is open.
    pub(crate) fn new(
        alloc: Global,
        described: &str,
        taken: Vec<&'text str>,
    ) -> Result<Predicted<'text>, OutOfMemory> {
        let lines = watched(alloc, described)?;
        let mut open = Vec::new(alloc);
        let mut refused = None;
        // Each run but the last finds one more open variable.
        for _ in 0..taken.len().saturating_add(1) {
            match first_end(alloc, &lines, &taken, &open)? {
                Some(end) if end.is_shut => open.push(end.variable)?,
                Some(end) => {
                    refused = Some((end.variable, end.line));
                    break;
                }
                None => break,
            }
        }
        let bindings = evaluated(alloc, &lines, &settled_then(alloc, &taken, &open, "run")?)?;
        Ok(Predicted {
            taken,
            open,
            bindings,
            refused,
        })
    }

    /// Whether a variable reaches a call, a command or an open variable.
    pub(crate) fn is_open(&self, name: &str) -> bool {
        named(&self.open, name).is_some()
    }
}

/// The variables that the first of two runs evaluates.
pub(crate) fn taken<'text>(
    alloc: Global,
    blocks: &'text str,
) -> Result<Vec<&'text str>, OutOfMemory> {
    let mut names = Vec::new(alloc);
    if let Some(order) = first_run(blocks)
        .lines()
        .next()
        .and_then(|line| line.strip_prefix("order "))
    {
        for name in order.split(' ') {
            names.push(name)?;
        }
    }
    Ok(names)
}

// The last lines of a case that evaluates the variables that are not open, in order.
fn settled_then(
    alloc: Global,
    taken: &[&str],
    open: &[&str],
    last: &str,
) -> Result<String, OutOfMemory> {
    let mut lines = String::from_str(alloc, "order")?;
    for name in taken {
        if named(open, name).is_none() {
            write!(lines, " {name}")?;
        }
    }
    write!(lines, "\n{last}")?;
    Ok(lines)
}

// The place at which a watched run first asks a question or is refused: the variable, the line of the question or
// refusal, and whether the run reached something that the const rules refuse.
#[derive(Drop)]
struct End<'text> {
    variable: &'text str,
    line: String,
    is_shut: bool,
}

// The place at which the run of the variables that are not open first asks a question or is refused.
fn first_end<'text>(
    alloc: Global,
    lines: &str,
    taken: &[&'text str],
    open: &[&str],
) -> Result<Option<End<'text>>, OutOfMemory> {
    let blocks = evaluated(alloc, lines, &settled_then(alloc, taken, open, "blocks x")?)?;
    let Some((name, line)) = first_line(&blocks) else {
        return Ok(None);
    };
    let Some(variable) = named(taken, name) else {
        return Ok(None);
    };
    Ok(Some(End {
        variable,
        line: String::from_str(alloc, line)?,
        is_shut: is_shut(alloc, open, line)?,
    }))
}

// The first variable of the first of two runs that asks a question or is refused, with the line of that.
fn first_line(blocks: &str) -> Option<(&str, &str)> {
    for block in first_run(blocks).split("\nblock ") {
        if let Some(line) = ending_line(block) {
            return Some((block.lines().next()?, line));
        }
    }
    None
}

// The first of these lines that is a question or a refusal.
fn ending_line(block: &str) -> Option<&str> {
    for line in block.lines() {
        if line.starts_with("? ") || line.starts_with("refused ") {
            return Some(line);
        }
    }
    None
}

// Whether a line of a watched run shows that the run reached something that the const rules refuse. A command shows as
// its question, a call as the refusal of the limit, and an open variable as a variable without a value.
fn is_shut(alloc: Global, open: &[&str], line: &str) -> Result<bool, OutOfMemory> {
    if line.starts_with("? ") || line.starts_with("refused 11 RecursionLimit ") {
        return Ok(true);
    }
    for name in open {
        let unevaluated = format!(in alloc; "attempted to evaluate unevaluated variable `{name}`")?;
        if line == format!(in alloc; "refused 6 Internal \"{unevaluated}\"")?.as_str() {
            return Ok(true);
        }
    }
    Ok(false)
}
