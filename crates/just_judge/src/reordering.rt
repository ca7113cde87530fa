// Runs in the order that names give.

use crate::answering::answer_by_command;
use crate::by_names::{ByNames, by_names};
use crate::difference::Difference;
use crate::evaluated::contains_line;
use crate::reordered::Reordered;
use crate::rerun::bound_by_run;
use crate::stored_case::StoredCase;
use bumpalo::Bump;
use just_host::recorded::Recorded;
use just_syntax::out_of_memory::OutOfMemory;
use std::alloc::Global;
use std::str;

/// Resolves the module of a case anew by its names, runs it, and compares the bindings with those of the case's answer.
/// `questions` are those of the case's own run.
///
/// Only a run that finishes is compared: another order can reach another refusal first. A case answers commands in the
/// order of the questions. So in another order each command has the answer that it has in the case's own run. If a
/// command has two different answers there, the case is not compared.
///
/// # Errors
///
/// `OutOfMemory` if an allocation fails.
pub fn check_order(
    alloc: Global,
    count: &mut Reordered,
    stored: &StoredCase,
    questions: &[Recorded],
) -> Result<Option<Difference>, OutOfMemory> {
    let Ok(answer) = str::from_utf8(stored.answer) else {
        return Ok(None);
    };
    if stored.status != 0 {
        return Ok(None);
    }
    let arena = Bump::new(alloc);
    let Some(named) = comparable(alloc, &arena, stored.case, questions)? else {
        count.skip();
        return Ok(None);
    };
    let is_reordered = named.is_reordered;
    match bound_by_run(alloc, named.case)? {
        Some(bindings) if binds(answer, &bindings) => {
            count.count(is_reordered);
            Ok(None)
        }
        _ => Ok(Some(Difference::Order)),
    }
}

// A case whose module is resolved by its names, if there is one, and if its answers do not depend on the order, or the
// order is that of the case itself.
fn comparable<'case>(
    alloc: Global,
    arena: &'case Bump,
    text: &'case [u8],
    questions: &[Recorded],
) -> Result<Option<ByNames<'case>>, OutOfMemory> {
    let Some(mut named) = by_names(alloc, arena, text)? else {
        return Ok(None);
    };
    if !named.is_reordered || answer_by_command(alloc, &mut named.case, questions)? {
        Ok(Some(named))
    } else {
        Ok(None)
    }
}

// Whether the bindings of an answer are these, in any order. Each line of an answer but the questions is a binding.
fn binds(answer: &str, bindings: &str) -> bool {
    let mut bound: usize = 0;
    for line in answer.lines() {
        if line.starts_with("? ") {
            continue;
        }
        if !contains_line(bindings, line) {
            return false;
        }
        bound = bound.saturating_add(1);
    }
    bound == bindings.lines().count()
}
