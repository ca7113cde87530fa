// Running commands in a context.

ghost use Rattle.std.specs.Prelude.{false, map, option_map, string_bytes, ◌≡◌};
ghost use Rattle.just_host.specs.Prelude.{AsksOnce, command_question, fixed_view, frames_view, pairs_view, replied};
ghost use Rattle.just_host.specs.Prelude.{working_directory};

use crate::command_question::CommandQuestion;
use crate::execution_context::ExecutionContext;
use crate::host::Host;
use just_value::error::CommandFault;
use just_value::scope::Scope;
use std::alloc::Global;
use std::collections::BTreeMap;

/// Asks a host to run a command in a context, with a recipe's environment, the visible variables, and the arguments of
/// the command, if it takes any. It must not be called in a dry run. The text is the host's answer, unchanged.
/// Upstream's `Evaluator::run_command`, which starts the process.
///
/// # Errors
///
/// The host's fault. `OutOfMemory`, if the host reports it, or if an allocation fails before the host is asked: then
/// the host's state is unchanged.
pub fn ask_command<'call, 'src, 'run, H: Host>(
    alloc: Global,
    host: &'call mut H,
    context: &'call ExecutionContext<'src, 'run>,
    env: &BTreeMap<String, String>,
    scope: &Scope<'src, 'run>,
    command: &str,
    arguments: Option<&[String]>,
) -> Result<String, CommandFault>
    requires commands_run { context.now.config.now.dry_run ≡ false }
    ensures asked { let question = command_question (fixed_view context.now) (pairs_view env.now)
        (frames_view scope.now) command.now (option_map (λ words. map string_bytes words.now) arguments.entry) in
        AsksOnce H.step host.old question (replied result) host.new }
{
    match &context.module.settings.working_directory {
        Some(_) => {
            let directory = context.working_directory(alloc)?;
            ask_in(
                alloc, host, context, env, scope, command, arguments, &directory,
            )
        }
        None => ask_in(
            alloc,
            host,
            context,
            env,
            scope,
            command,
            arguments,
            context.base_directory(),
        ),
    }
}

// `ask_command`, with the directory that the command runs in.
fn ask_in<'call, 'src, 'run, H: Host>(
    alloc: Global,
    host: &'call mut H,
    context: &'call ExecutionContext<'src, 'run>,
    env: &BTreeMap<String, String>,
    scope: &Scope<'src, 'run>,
    command: &str,
    arguments: Option<&[String]>,
    directory: &str,
) -> Result<String, CommandFault>
    requires commands_run { context.now.config.now.dry_run ≡ false }
    requires chosen { directory.now ≡ working_directory (fixed_view context.now) }
    ensures asked { let question = command_question (fixed_view context.now) (pairs_view env.now)
        (frames_view scope.now) command.now (option_map (λ words. map string_bytes words.now) arguments.entry) in
        AsksOnce H.step host.old question (replied result) host.new }
{
    let question = CommandQuestion {
        command,
        arguments,
        env,
        scope,
        config: context.config,
        dotenv: context.dotenv,
        settings: &context.module.settings,
        unexports: &context.module.unexports,
        working_directory: directory,
    };
    host.command(alloc, &question)
}
