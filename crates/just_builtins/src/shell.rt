// Commands.

ghost use Rattle.std.specs.Prelude.{IfOk, drop, length, map, string_bytes, ◌<◌, ◌≡◌};
ghost use Rattle.just_builtins.specs.Prelude.{Asked, HasOneEach, IsReply, first, frames_view, function_context_view};
ghost use Rattle.just_builtins.specs.Prelude.{quoted, replied, says};
ghost use Rattle.just_builtins.specs.Asking as spec;

use crate::argument::text_at;
use crate::call_fault::CallFault;
use just_host::ask::ask_command;
use just_host::fault::fault_text;
use just_host::function::Context;
use just_host::host::Host;
use just_syntax::out_of_memory::OutOfMemory;
use just_syntax::text::Text;
use just_text::join_list;
use just_value::element::Element;
use just_value::error::CommandFault;
use just_value::value::Value;
use std::alloc::Global;

/// The output of a command, which is the first text, with the others as its arguments. In a dry run the call is shown,
/// and the host is not asked.
///
/// # Errors
///
/// `Message` with the host's fault. `OutOfMemory`, if an allocation fails, or if the host reports it.
pub fn shell<'call, H: Host>(
    alloc: Global,
    host: &'call mut H,
    context: &'call Context,
    arguments: &[Value],
) -> Result<Value, CallFault>
    requires some { 0 < length arguments.now }
    requires texts { HasOneEach arguments.now }
    ensures { Asked H.step host.old (frames_view context.now.scope.now)
        (spec.asks_shell (function_context_view context.now) (map first arguments.now)) result host.new }
{
    if context.execution_context.config.dry_run {
        return shell_call(alloc, arguments);
    }
    let command = text_at(arguments, 0);
    let further = further_texts(alloc, arguments)?;
    let words = further.as_slice();
    let answer = ask_command(
        alloc,
        host,
        context.execution_context,
        context.env,
        context.scope,
        command,
        Some(words),
    );
    command_answered(alloc, answer)
}

// The result for the host's answer.
fn command_answered(alloc: Global, answer: Result<String, CommandFault>) -> Result<Value, CallFault>
    ensures { IsReply (spec.command_answered (replied answer)) result }
{
    match answer {
        Ok(text) => Ok(Value::from_string(alloc, text)?),
        Err(CommandFault::OutOfMemory) => Err(CallFault::OutOfMemory),
        Err(fault) => Err(CallFault::Message(fault_text(alloc, &fault)?)),
    }
}

// The texts after the first.
fn further_texts(alloc: Global, arguments: &[Value]) -> Result<Vec<String>, OutOfMemory>
    requires { HasOneEach arguments.now }
    ensures { IfOk result (λ texts. map string_bytes texts.items ≡ map first (drop 1 arguments.now)) }
{
    let mut texts = Vec::new(alloc);
    for i in 1..arguments.len() {
        texts.push(String::from_str(alloc, text_at(arguments, i))?)?;
    }
    Ok(texts)
}

// The texts as a call of `shell`.
fn shell_call(alloc: Global, arguments: &[Value]) -> Result<Value, CallFault>
    requires { HasOneEach arguments.now }
    ensures { IsReply (says (spec.shell_call (map first arguments.now))) result }
{
    let words = quoted_texts(alloc, arguments)?;
    let words = join_list::join_list(alloc, &words, ", ")?;
    let text = format!(in alloc; "shell({words})")?;
    Ok(Value::from_string(alloc, text)?)
}

// The texts, each in quotes.
fn quoted_texts(alloc: Global, arguments: &[Value]) -> Result<Vec<Text>, OutOfMemory>
    requires { HasOneEach arguments.now }
    ensures { IfOk result (λ texts. texts.items ≡ map quoted (map first arguments.now)) }
{
    let mut texts = Vec::new(alloc);
    for i in 0..arguments.len() {
        let text = Element(text_at(arguments, i)).to_string(alloc)?;
        texts.push(Text::from_string(text))?;
    }
    Ok(texts)
}
