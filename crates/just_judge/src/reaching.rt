// Questions within the reach of a run.

use crate::asking::{Kind, kind_asked_by};
use crate::difference::Difference;
use crate::rerun::{described, module_of};
use crate::within_reach::WithinReach;
use bumpalo::Bump;
use just_case_reader::case::Case;
use just_host::recorded::Recorded;
use just_reach::member::Member;
use just_reach::reach::reach_of_run;
use just_syntax::out_of_memory::OutOfMemory;
use std::alloc::Global;
use std::mem;

/// Compares the questions of a run with the reach of a case's run. Returns the first question that no member of the
/// reach asks. The law `reaches_no_more` says that there is none, if the case asks these questions.
///
/// # Errors
///
/// `OutOfMemory` if an allocation fails.
pub fn check_reach(
    alloc: Global,
    count: &mut WithinReach,
    case: &[u8],
    questions: &[Recorded],
) -> Result<Option<Difference>, OutOfMemory> {
    let arena = Bump::new(alloc);
    match described(alloc, &arena, case)? {
        Some(case) => compared(alloc, count, case, questions),
        None => Ok(None),
    }
}

// Compares questions with the reach of a case's run.
fn compared(
    alloc: Global,
    count: &mut WithinReach,
    mut case: Case,
    questions: &[Recorded],
) -> Result<Option<Difference>, OutOfMemory> {
    let references = mem::replace(&mut case.references, None);
    let module = module_of(alloc, case)?;
    let members = reach_of_run(alloc, &module, references.as_ref())?;
    match first_outside(&members, questions) {
        Some(passed) => Ok(Some(Difference::Reach { passed })),
        None => {
            count.count(questions.len(), may_ask(&members));
            Ok(None)
        }
    }
}

// Whether one of these members may ask anything.
fn may_ask(members: &[Member]) -> bool {
    members.iter().any(|member| member.may_ask())
}

// How many questions come before the first that none of these members asks, if there is one.
fn first_outside(members: &[Member], questions: &[Recorded]) -> Option<usize> {
    for (passed, question) in questions.iter().enumerate() {
        if !is_within(members, question) {
            return Some(passed);
        }
    }
    None
}

// Whether one of these members asks a question.
fn is_within(members: &[Member], question: &Recorded) -> bool {
    for member in members {
        if asks(member, question) {
            return true;
        }
    }
    false
}

// Whether a member asks a question. It has to be one that may ask and, if the question is a command, one that may run a
// command.
fn asks(member: &Member, question: &Recorded) -> bool {
    let kind = Kind::of(question);
    member.may_ask()
        && match question {
            Recorded::Command { command, .. } => {
                member.may_run_command() && asks_command(member, command, kind)
            }
            _ => calls(member, kind),
        }
}

// Whether a member asks for a command in this way: it is the command in backticks, or a call of `shell`.
fn asks_command(member: &Member, command: &str, kind: Kind) -> bool {
    match member {
        Member::Command { contents, token: _ } => kind == Kind::Command && *contents == command,
        _ => calls(member, kind),
    }
}

// Whether a member is a call of a built-in function that asks questions of this kind.
fn calls(member: &Member, kind: Kind) -> bool {
    match member {
        Member::BuiltIn { name, function: _ } => kind_asked_by(name.lexeme()) == Some(kind),
        _ => false,
    }
}
