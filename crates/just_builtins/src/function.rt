// The built-in functions, by the shapes of their arguments.

ghost use Rattle.std.specs.Prelude.{Err, IsTrue, false, length, map, ◌≡◌};
ghost use Rattle.std.specs.Range.{range_inclusive_end, range_inclusive_exhausted, range_inclusive_start};
ghost use Rattle.just_builtins.specs.Prelude.{AskedBy, Behaves, HasTexts, Internal, IsExpected, IsUnnamed, Text};
ghost use Rattle.just_builtins.specs.Prelude.{unchecked};
ghost use Rattle.just_builtins.specs.Prelude.{builtin_of, entry_view, fewest_arguments, find_in, frames_view, freely};
ghost use Rattle.just_builtins.specs.Prelude.{function_context_view, function_named, is_left_out, is_text};
ghost use Rattle.just_builtins.specs.Prelude.{most_arguments, outcome, reply, rises, tree};

use crate::argument::{second, second_text, text_at};
use crate::binary::{
    binary, binary_opt_to_value, binary_opt_value_str_to_value, binary_plus, binary_str_value,
    value_binary, value_binary_opt,
};
use crate::builtin::Builtin;
use crate::call_fault::CallFault;
use crate::name::{find_function, is_among};
use crate::nullary::{nullary, value_nullary};
use crate::table::{LEFT_OUT, TABLE};
use crate::ternary::ternary;
use crate::unary::{unary, unary_map, unary_plus, unary_to_value, value_unary};
use just_host::function::Context;
use just_host::host::Host;
use just_value::value::Value;
use std::alloc::Global;
use std::ops::RangeInclusive;

/// A built-in function, with the shape of its arguments. A text is an argument of one element, a value any argument.
#[derive(Clone, Copy, Debug, PartialEq, Eq)]
pub enum Function {
    /// Nothing.
    Nullary(Builtin),
    /// One text.
    Unary(Builtin),
    /// One value, whose elements are mapped.
    UnaryMap(Builtin),
    /// At least one text.
    UnaryPlus(Builtin),
    /// One text. It returns a value.
    UnaryToValue(Builtin),
    /// Two texts.
    Binary(Builtin),
    /// A text and an optional text. It returns a value.
    BinaryOptToValue(Builtin),
    /// A value and an optional text.
    BinaryOptValueStr(Builtin),
    /// A value and an optional text. It returns a value.
    BinaryOptValueStrToValue(Builtin),
    /// At least two texts.
    BinaryPlus(Builtin),
    /// A text and a value.
    BinaryStrValue(Builtin),
    /// Two texts. It returns a value.
    BinaryToValue(Builtin),
    /// Three texts.
    Ternary(Builtin),
    /// Nothing. It returns a value.
    ValueNullary(Builtin),
    /// One value.
    ValueUnary(Builtin),
    /// Two values.
    ValueBinary(Builtin),
    /// A value and an optional value.
    ValueBinaryOpt(Builtin),
}

impl Function {
    /// The least and the greatest number of arguments of a call; if there is no greatest, it is `usize::MAX`. It
    /// allocates nothing. Upstream's `Function::expected_arguments`.
    pub fn expected_arguments(&self) -> RangeInclusive<usize>
        ensures fewest { range_inclusive_start result ≡ fewest_arguments self.now }
        ensures most { range_inclusive_end result ≡ most_arguments self.now }
        ensures whole { range_inclusive_exhausted result ≡ false }
    {
        match self {
            Function::Nullary(_) | Function::ValueNullary(_) => 0..=0,
            Function::Unary(_)
            | Function::UnaryMap(_)
            | Function::UnaryToValue(_)
            | Function::ValueUnary(_) => 1..=1,
            Function::UnaryPlus(_) => 1..=usize::MAX,
            Function::BinaryOptToValue(_)
            | Function::BinaryOptValueStr(_)
            | Function::BinaryOptValueStrToValue(_)
            | Function::ValueBinaryOpt(_) => 1..=2,
            Function::Binary(_)
            | Function::BinaryStrValue(_)
            | Function::BinaryToValue(_)
            | Function::ValueBinary(_) => 2..=2,
            Function::BinaryPlus(_) => 2..=usize::MAX,
            Function::Ternary(_) => 3..=3,
        }
    }

    /// Whether the argument at a position, counted from 0, must have exactly one element. It allocates nothing.
    pub fn is_text(&self, position: usize) -> bool
        ensures { result ≡ is_text self.now position }
    {
        match self {
            Function::Nullary(_)
            | Function::UnaryMap(_)
            | Function::ValueBinary(_)
            | Function::ValueBinaryOpt(_)
            | Function::ValueNullary(_)
            | Function::ValueUnary(_) => false,
            Function::Unary(_) | Function::UnaryToValue(_) | Function::BinaryStrValue(_) => {
                position == 0
            }
            Function::BinaryOptValueStr(_) | Function::BinaryOptValueStrToValue(_) => position == 1,
            Function::Binary(_)
            | Function::BinaryOptToValue(_)
            | Function::BinaryPlus(_)
            | Function::BinaryToValue(_)
            | Function::Ternary(_)
            | Function::UnaryPlus(_) => true,
        }
    }

    /// Calls the function with the values of its arguments: it asks the host, and returns the value. Upstream's
    /// `Evaluator::evaluate_builtin_function`, after the arguments are evaluated.
    ///
    /// # Errors
    ///
    /// `Message`, if the function gives a reason why it has no value. `OutOfMemory`, if an allocation fails, or if the
    /// host reports it. `Internal`, only if the function has no name; then nothing is asked. The questions asked before
    /// a refusal are not undone.
    pub fn call<'call, H: Host>(
        self,
        alloc: Global,
        host: &'call mut H,
        context: &'call Context,
        arguments: &[Value],
    ) -> Result<Value, CallFault>
        requires count { IsExpected self (length arguments.now) }
        requires texts { HasTexts self arguments.now }
        ensures replied { let answer = reply (builtin_of self) (function_context_view context.now) arguments.now in
            Behaves freely H.step unchecked host.old (tree (frames_view context.now.scope.now) answer)
            (outcome result) host.new }
        ensures internal { result ≡ Err Internal → IsUnnamed self × (host.new ≡ host.old) }
    {
        self.answer(alloc, host, context, arguments)
    }

    // The questions and the reply, by its shape.
    fn answer<'call, H: Host>(
        self,
        alloc: Global,
        host: &'call mut H,
        context: &'call Context,
        arguments: &[Value],
    ) -> Result<Value, CallFault>
        requires count { IsExpected self (length arguments.now) }
        requires texts { HasTexts self arguments.now }
        ensures { AskedBy self H.step host.old (frames_view context.now.scope.now)
            (reply (builtin_of self) (function_context_view context.now) arguments.now) result host.new }
    {
        match self {
            Function::Binary(builtin) => binary(alloc, builtin, arguments),
            Function::BinaryOptToValue(builtin) => {
                let separator = second_text(arguments);
                binary_opt_to_value(alloc, builtin, text_at(arguments, 0), separator)
            }
            Function::BinaryOptValueStrToValue(builtin) => {
                let separator = second_text(arguments);
                binary_opt_value_str_to_value(alloc, builtin, &arguments[0], separator)
            }
            Function::BinaryPlus(builtin) => binary_plus(alloc, builtin, arguments),
            Function::BinaryStrValue(builtin) => {
                binary_str_value(alloc, context, builtin, arguments)
            }
            Function::Nullary(builtin) => nullary(alloc, host, context, builtin),
            Function::Ternary(builtin) => ternary(alloc, builtin, arguments),
            Function::Unary(builtin) => unary(alloc, host, context, builtin, text_at(arguments, 0)),
            Function::UnaryMap(builtin) => unary_map(alloc, builtin, &arguments[0]),
            Function::UnaryPlus(builtin) => unary_plus(alloc, host, context, builtin, arguments),
            Function::UnaryToValue(builtin) => {
                unary_to_value(alloc, host, context, builtin, text_at(arguments, 0))
            }
            Function::ValueBinary(builtin) => {
                let other = &arguments[1];
                value_binary(alloc, host, context, builtin, &arguments[0], other)
            }
            Function::ValueBinaryOpt(builtin) => {
                let other = second(arguments);
                value_binary_opt(alloc, host, context, builtin, &arguments[0], other)
            }
            Function::ValueNullary(builtin) => value_nullary(alloc, context, builtin),
            Function::ValueUnary(builtin) => {
                value_unary(alloc, host, context, builtin, &arguments[0])
            }
            Function::BinaryOptValueStr(_) | Function::BinaryToValue(_) => {
                Err(CallFault::Internal)
            }
        }
    }
}

/// The built-in function with this name, unless it is left out. `_dir` at the end of a name is short for `_directory`,
/// and `_dir_native` for `_directory_native`. It allocates nothing. Upstream's `function::get`, where none is left out.
pub fn get(name: &str) -> Option<Function>
    ensures { result ≡ function_named name.now }
{
    find_function(&TABLE, name)
}

/// All names of built-in functions, each with its function, in strict order of bytes: 77 names of 63 functions, since a
/// name that ends with `_directory` or `_directory_native` also has a short form with `_dir` or `_dir_native`.
/// [`Function::expected_arguments`] and [`Function::is_text`] describe the arguments of each. It allocates nothing.
pub fn functions() -> &'static [(&'static str, Function)]
    ensures rising { IsTrue (rises (map (λ entry. entry.0.now) result.now)) }
    ensures named { (name : Text) → find_in (map entry_view result.now) name ≡ function_named name }
{
    &TABLE
}

/// Whether a name is that of a built-in function that is left out. `_dir` and `_dir_native` at its end are expanded as
/// in [`get`]. It allocates nothing.
pub fn is_left_out(name: &str) -> bool
    ensures { result ≡ is_left_out name.now }
{
    is_among(&LEFT_OUT, name)
}
