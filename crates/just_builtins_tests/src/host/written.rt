// What commands write with a host that answers from maps.

ghost use Rattle.std.specs.Prelude.{IfOk, Some, false, string_bytes, ◌≡◌};
ghost use Rattle.just_host.specs.MapHost.{text_for_key};

use just_host::ask::ask_command;
use just_host::execution_context::ExecutionContext;
use just_host::map_host::MapHost;
use just_value::error::CommandFault;
use std::alloc::Global;
use std::collections::BTreeMap;

/// What a command writes in a context: the text that the host's map has for it. The host stays as it is.
pub fn written<'call>(
    alloc: Global,
    host: &'call mut MapHost,
    context: &'call ExecutionContext,
    command: &str,
) -> Result<String, CommandFault>
    requires { context.now.config.now.dry_run ≡ false }
    ensures same { host.new ≡ host.old }
    ensures text { IfOk result (λ text. text_for_key host.old.commands command.now ≡ Some (string_bytes text)) }
{
    let env = BTreeMap::new(alloc);
    ask_command(alloc, host, context, &env, context.scope, command, None)
}
