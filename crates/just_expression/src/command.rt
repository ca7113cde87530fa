// The values of command expressions.

ghost use Rattle.std.specs.Prelude.{◌≡◌};
ghost use Rattle.just_expression.specs.Prelude.{Behaves, command_value, ended, fault_view, faulted, fixed_view};
ghost use Rattle.just_expression.specs.Prelude.{unchecked};
ghost use Rattle.just_expression.specs.Prelude.{frames_view, freely, pairs_view, refusal, token_view, without_value};

use just_host::ask::ask_command;
use just_host::execution_context::ExecutionContext;
use just_host::host::Host;
use just_syntax::token::Token;
use just_value::error::{CommandFault, Error};
use just_value::scope::Scope;
use just_value::value::Value;
use std::alloc::Global;
use std::collections::BTreeMap;

/// The value of a command expression: the text that the host answers or, in a dry run, its own text in backticks.
pub(crate) fn command_value<'call, 'src, 'run, H: Host>(
    alloc: Global,
    host: &'call mut H,
    context: &'call ExecutionContext<'src, 'run>,
    env: &BTreeMap<String, String>,
    scope: &Scope<'src, 'run>,
    contents: &str,
    token: &Token<'src>,
) -> Result<Value, Error<'src>>
    ensures { Behaves freely H.step unchecked host.old (command_value (fixed_view context.now) (pairs_view env.now)
        (frames_view scope.now) contents.now (token_view token.now)) (ended (λ v. v) result) host.new }
{
    if context.config.dry_run {
        let text = format!(in alloc; "`{contents}`")?;
        return Ok(Value::from_string(alloc, text)?);
    }
    match ask_command(alloc, host, &*context, env, scope, contents, None) {
        Ok(text) => Ok(Value::from_string(alloc, text)?),
        Err(fault) => Err(backtick_error(*token, fault)),
    }
}

// The error of a command expression's fault.
fn backtick_error(token: Token, output_error: CommandFault) -> Error
    ensures { without_value (refusal result) ≡ faulted (token_view token.entry) (fault_view output_error) }
{
    match output_error {
        CommandFault::OutOfMemory => Error::OutOfMemory,
        output_error => Error::Backtick {
            token,
            output_error,
        },
    }
}
