// What calls reach.

ghost use Rattle.std.specs.Prelude.{IfErr, IfOk, None, Some, false, length, option_map, suc, true, ℕ, ◌≡◌};
ghost use Rattle.just_expression.specs.Prelude.{EndsBefore, Enters, Fits, IsExpected, ListInStringContext, Program};
ghost use Rattle.just_expression.specs.Prelude.{Token, callee, function_named, function_view, gives, look, name_view};
ghost use Rattle.just_expression.specs.Prelude.{program_view, reached_view, refusal, refuses, requires_text, undefined};
ghost use Rattle.just_expression.specs.Prelude.{value_at};
ghost use Rattle.just_syntax.specs.StringContext as contexts;
ghost use Rattle.just_meaning.specs.Callee as meant;

use crate::internal::Reason;
use just_builtins::function::{Function, get, is_left_out};
use just_host::execution_context::ExecutionContext;
use just_syntax::function_definition::FunctionDefinition;
use just_syntax::name::Name;
use just_value::error::Error;
use just_value::value::Value;
use std::alloc::Global;

/// What a call reaches.
#[derive(Clone, Copy)]
pub(crate) enum Callee<'src, 'run> {
    /// A built-in function.
    BuiltIn(Function),
    /// A function of the file, and how many further calls may be pending in its body.
    Defined(&'run FunctionDefinition<'src>, usize),
}

impl Callee<'_, '_> {
    /// Whether it takes a value as its argument with an index: any value, or one element where a built-in function
    /// takes a text.
    pub(crate) fn takes(&self, index: usize, value: &Value) -> bool
        ensures given { result ≡ true → (t : Token) → look (reached_view self.now) t index value.now ≡ gives value.now }
        ensures text { result ≡ true → requires_text (reached_view self.now) index ≡ true → length value.now ≡ 1 }
        ensures refused { result ≡ false → (t : Token) → look (reached_view self.now) t index value.now
            ≡ refuses (ListInStringContext (contexts.Function t) value.now) }
    {
        match self {
            Callee::BuiltIn(function) => !function.is_text(index) || value.len() == 1,
            Callee::Defined(_, _) => true,
        }
    }
}

/// What a call with this many arguments reaches, while `calls_left` further calls may be pending. A function of the
/// file hides a built-in function of its name. Out of line, so that arguments nest without its frame.
///
/// # Errors
///
/// For a function of the file, `RecursionLimit` if no further call may be pending, then `Internal` if the number of
/// arguments differs. For any other name, `LeftOut` if it is left out, and `Internal` if it is unknown or the number of
/// arguments does not fit.
#[inline(never)]
pub(crate) fn resolve_callee<'src, 'run>(
    alloc: Global,
    context: &ExecutionContext<'src, 'run>,
    name: &Name<'src>,
    calls_left: usize,
    arguments: usize,
) -> Result<Callee<'src, 'run>, Error<'src>>
    ensures enters { let t = name_view name.now in let p = program_view context.now in
        IfOk result (λ c. Enters p t (callee p.functions t.lexeme) calls_left arguments (reached_view c)) }
    ensures fits { IfOk result (λ c. Fits context.now.module.now.functions (name_view name.now).lexeme
        calls_left arguments c) }
    ensures refused { let t = name_view name.now in let p = program_view context.now in
        IfErr result (λ e. EndsBefore p t (callee p.functions t.lexeme) calls_left arguments (refusal e)) }
{
    match function_at(context, name) {
        Some(function) => {
            let left = calls_left_inside(alloc, name, function, calls_left, arguments)?;
            Ok(Callee::Defined(function, left))
        }
        None => Ok(Callee::BuiltIn(built_in(alloc, name, arguments)?)),
    }
}

// The function of the file with a name.
fn function_at<'src, 'run>(
    context: &ExecutionContext<'src, 'run>,
    name: &Name<'src>,
) -> Option<&'run FunctionDefinition<'src>>
    ensures { option_map (λ f. f.now) result ≡ value_at (λ f. f.name.token.lexeme.now) (name_view name.now).lexeme
        context.now.module.now.functions }
{
    context.module.functions.get(name.lexeme())
}

// How many further calls may be pending in the body of a function that is called with this many arguments, while
// `calls_left` may be pending at its call.
fn calls_left_inside<'src>(
    alloc: Global,
    name: &Name<'src>,
    function: &FunctionDefinition<'src>,
    calls_left: usize,
    arguments: usize,
) -> Result<usize, Error<'src>>
    ensures fewer { IfOk result (λ left. calls_left ≡ suc left) }
    ensures count { IfOk result (λ _. length function.now.parameters.items ≡ arguments) }
    ensures refused { IfErr result (λ e. (p : Program)
        → EndsBefore p (name_view name.now) (meant.Defined (function_view function.now)) calls_left
        arguments (refusal e)) }
{
    if calls_left == 0 {
        return Err(Error::RecursionLimit {
            last: function.name,
        });
    }
    if arguments != function.parameters.len() {
        return Err(Reason::Miscounted.error_at(alloc, name));
    }
    Ok(calls_left - 1)
}

// The built-in function that a call with this many arguments reaches.
fn built_in<'src>(
    alloc: Global,
    name: &Name<'src>,
    arguments: usize,
) -> Result<Function, Error<'src>>
    ensures occurs { IfOk result (λ f. undefined (name_view name.now).lexeme ≡ meant.BuiltIn f) }
    ensures named { IfOk result (λ f. function_named (name_view name.now).lexeme ≡ Some f) }
    ensures count { IfOk result (λ f. IsExpected f arguments) }
    ensures refused { IfErr result (λ e. (p : Program) (calls : ℕ)
        → EndsBefore p (name_view name.now) (undefined (name_view name.now).lexeme) calls arguments (refusal e)) }
{
    let Some(function) = get(name.lexeme()) else {
        return Err(no_function(alloc, name));
    };
    let expected = function.expected_arguments();
    if arguments < *expected.start() || *expected.end() < arguments {
        return Err(Reason::Miscounted.error_at(alloc, name));
    }
    Ok(function)
}

// The refusal of a call of a name with no function here: it is left out or unknown. Out of line; for a name with a
// function, one look-up suffices.
#[inline(never)]
fn no_function<'src>(alloc: Global, name: &Name<'src>) -> Error<'src>
    ensures { function_named (name_view name.now).lexeme ≡ None → (p : Program) (calls arguments : ℕ)
        → EndsBefore p (name_view name.now) (undefined (name_view name.now).lexeme) calls arguments (refusal result) }
{
    if is_left_out(name.lexeme()) {
        return Error::LeftOut { function: *name };
    }
    Reason::UnknownFunction.error_at(alloc, name)
}
