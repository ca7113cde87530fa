// Commands that a recipe runner itself runs.

ghost use Rattle.std.specs.Prelude.{false, map, option_map, string_bytes, ◌≡◌};
ghost use Rattle.just_eval.specs.Prelude.{AsksOnce, command_question, fixed_view, frames_view, pairs_view, replied};

use super::Evaluator;
use just_host::ask::ask_command;
use just_host::execution_context::ExecutionContext;
use just_host::host::Host;
use just_value::error::CommandFault;
use just_value::scope::Scope;
use std::alloc::Global;
use std::collections::BTreeMap;

impl<'src, 'run> Evaluator<'src, 'run> {
    /// Asks the host to run a command in a context, with this environment, the variables of a scope, and the arguments
    /// after the command, if any. It is not for a dry run. Upstream's `Evaluator::run_command`, which starts the
    /// process.
    ///
    /// # Errors
    ///
    /// The host's fault. `OutOfMemory` if the host reports it, or if an allocation fails; in the latter case the host
    /// is not asked and its state is unchanged.
    pub fn run_command<H: Host>(
        alloc: Global,
        host: &mut H,
        context: &ExecutionContext<'src, 'run>,
        env: &BTreeMap<String, String>,
        scope: &Scope<'src, 'run>,
        command: &str,
        arguments: Option<&[String]>,
    ) -> Result<String, CommandFault>
        requires commands_run { context.now.config.now.dry_run ≡ false }
        ensures asked { let question = command_question (fixed_view context.now) (pairs_view env.now)
            (frames_view scope.now) command.now (option_map (λ words. map string_bytes words.now) arguments.entry) in
            AsksOnce H.step host.old question (replied result) host.new }
    {
        ask_command(alloc, host, context, env, scope, command, arguments)
    }
}
