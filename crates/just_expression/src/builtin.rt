// Calls of built-in functions.

ghost use Rattle.std.specs.Prelude.{Some, length, ◌≡◌};
ghost use Rattle.just_syntax.specs.StringContext as contexts;
ghost use Rattle.just_expression.specs.Prelude.{Behaves, HasTexts, IsExpected, ListInStringContext, Refused, bind};
ghost use Rattle.just_expression.specs.Prelude.{unchecked};
ghost use Rattle.just_expression.specs.Prelude.{builtin_of, ended, frames_view, freely, function_context_view};
ghost use Rattle.just_expression.specs.Prelude.{function_named, name_view, reply, returned, tree};

use just_builtins::call_fault::CallFault;
use just_builtins::function::Function;
use just_host::function::Context;
use just_host::host::Host;
use just_syntax::name::Name;
use just_syntax::string_context::StringContext;
use just_value::error::Error;
use just_value::value::Value;
use std::alloc::Global;

/// Refuses an argument that is not one text where one is required.
pub(crate) fn refuse_list<'src>(name: &Name<'src>, value: Value) -> Result<Value, Error<'src>>
    ensures { ended (λ v. v) result ≡ Refused (ListInStringContext (contexts.Function (name_view name.now)) value) }
{
    Err(Error::ListInStringContext {
        context: StringContext::Function(*name),
        value,
    })
}

/// What a built-in function returns. Its own message is a refusal.
pub(crate) fn call<'call, 'src, H: Host>(
    alloc: Global,
    host: &'call mut H,
    context: &'call Context<'src, '_>,
    function: Function,
    arguments: &[Value],
) -> Result<Value, Error<'src>>
    requires named { function_named (name_view context.now.name).lexeme ≡ Some function }
    requires count { IsExpected function (length arguments.now) }
    requires texts { HasTexts function arguments.now }
    ensures { let answer = reply (builtin_of function) (function_context_view context.now) arguments.now in
        Behaves freely H.step unchecked host.old (bind (tree (frames_view context.now.scope.now) answer)
        (returned (name_view context.now.name))) (ended (λ v. v) result) host.new }
{
    match function.call(alloc, host, &*context, arguments) {
        Ok(value) => Ok(value),
        Err(CallFault::Message(message)) => Err(Error::FunctionCall {
            function: context.name,
            message,
        }),
        Err(CallFault::OutOfMemory) => Err(Error::OutOfMemory),
        // No function that a name denotes returns this.
        Err(CallFault::Internal) => unreachable!(),
    }
}
