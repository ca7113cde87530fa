// The hosts of a case.

ghost use Rattle.std.specs.Prelude.{IfOk, map, ◌≡◌};
ghost use Rattle.just_bench.specs.Prelude.{case_view, command_reply_view, pair_view, script_of, script_view};
ghost use Rattle.just_bench.specs.Prelude.{without_answers};
ghost use Rattle.just_bench.specs.Hosts as cases;

use just_case_reader::case::Case;
use just_script::scripted_host::ScriptedHost;
use just_syntax::out_of_memory::OutOfMemory;
use just_value::error::CommandFault;
use std::alloc::Global;
use std::mem;

/// A host that answers commands by the script of a case, and has no answer to any other question. The script is taken
/// out of the case.
pub(crate) fn case_script(alloc: Global, case: &mut Case) -> ScriptedHost
    ensures host { script_view result ≡ cases.case_script (case_view case.old) }
    ensures rest { case_view case.new ≡ without_answers (case_view case.old) }
{
    let always = mem::replace(&mut case.always, Vec::new(alloc));
    let replies = mem::replace(&mut case.replies, Vec::new(alloc));
    scripted(alloc, always, replies)
}

/// The same host, with a copy of the script.
pub(crate) fn script_copy(alloc: Global, case: &Case) -> Result<ScriptedHost, OutOfMemory>
    ensures { IfOk result (λ host. script_view host ≡ cases.case_script (case_view case.now)) }
{
    let always = pairs_copy(alloc, &case.always)?;
    let replies = replies_copy(alloc, &case.replies)?;
    Ok(scripted(alloc, always, replies))
}

// A host that answers commands by these replies.
fn scripted(
    alloc: Global,
    always: Vec<(String, String)>,
    replies: Vec<Result<String, CommandFault>>,
) -> ScriptedHost
    ensures { script_view result ≡ script_of (map pair_view always.items) (map command_reply_view replies.items) }
{
    ScriptedHost::new(
        always,
        replies,
        Vec::new(alloc),
        Vec::new(alloc),
        Vec::new(alloc),
    )
}

// Copies of the pairs.
fn pairs_copy(
    alloc: Global,
    pairs: &[(String, String)],
) -> Result<Vec<(String, String)>, OutOfMemory>
    ensures { IfOk result (λ copies. map pair_view copies.items ≡ map pair_view pairs.now) }
{
    let mut copies = Vec::with_capacity(alloc, pairs.len())?;
    for (command, text) in pairs {
        let command = String::from_str(alloc, command)?;
        copies.push((command, String::from_str(alloc, text)?))?;
    }
    Ok(copies)
}

// Copies of the replies.
fn replies_copy(
    alloc: Global,
    replies: &[Result<String, CommandFault>],
) -> Result<Vec<Result<String, CommandFault>>, OutOfMemory>
    ensures { IfOk result (λ copies. map command_reply_view copies.items ≡ map command_reply_view replies.now) }
{
    let mut copies = Vec::with_capacity(alloc, replies.len())?;
    for reply in replies {
        copies.push(reply_copy(alloc, reply)?)?;
    }
    Ok(copies)
}

// A copy of a reply.
fn reply_copy(
    alloc: Global,
    reply: &Result<String, CommandFault>,
) -> Result<Result<String, CommandFault>, OutOfMemory>
    ensures { IfOk result (λ copy. command_reply_view copy ≡ command_reply_view reply.now) }
{
    Ok(match reply {
        Ok(text) => Ok(String::from_str(alloc, text)?),
        Err(CommandFault::Code(code)) => Err(CommandFault::Code(*code)),
        Err(CommandFault::Fault(text)) => Err(CommandFault::Fault(String::from_str(alloc, text)?)),
        Err(CommandFault::OutOfMemory) => Err(CommandFault::OutOfMemory),
    })
}
