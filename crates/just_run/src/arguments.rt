// The arguments of a recipe.

ghost use Rattle.std.specs.Prelude.{IfErr, IfOk, IfSome, Option, Some, length, map, ◌≡◌, ◌≤◌};
ghost use Rattle.just_run.specs.Arguments as spec;
ghost use Rattle.just_run.specs.View.{miscount};
ghost use Rattle.just_syntax.specs.Prelude.{recipe_parameter_view, recipe_view};

use crate::argument_error::ArgumentError;
use just_syntax::out_of_memory::OutOfMemory;
use just_syntax::parameter::Parameter;
use just_syntax::parameter_kind::ParameterKind;
use just_syntax::recipe::Recipe;
use just_value::value::Value;
use std::alloc::Global;
use std::convert::AsStr;

/// The argument of each parameter, in order, for the words of a call. A parameter takes the next word, if there is one;
/// one with `+` or `*` takes all that are left. What takes no word has the empty argument, which its default replaces.
/// Only parameters that are no options should be given. For example `build 'x' 'y' 'z'` gives the parameters
/// `a b='1' *c` the arguments `['x']`, `['y']` and `['z']`.
///
/// # Errors
///
/// `Count`, if there are fewer words than parameters that need one, or more words than all take. `OutOfMemory`, if an
/// allocation fails: nothing is created.
pub fn group_arguments<'src, T: AsStr>(
    alloc: Global,
    recipe: &Recipe<'src>,
    parameters: &[Parameter<'src>],
    words: &[T],
) -> Result<Vec<Value>, ArgumentError<'src>>
    ensures { let meant = spec.arguments (recipe_view recipe.now).name.lexeme
        (map recipe_parameter_view parameters.now) (map T.text words.now) in
        (IfOk result (λ arguments. Ok arguments.items ≡ meant))
        × IfErr result (λ error. IfSome (miscount error) (λ m. Err m ≡ meant)) }
{
    let found = words.len();
    let fewest = fewest(parameters);
    let most = most(parameters);
    if found < fewest || most.is_some_and(|most| most < found) {
        return Err(ArgumentError::Count {
            recipe: recipe.name(),
            found,
            fewest,
            most,
        });
    }
    Ok(grouped(alloc, parameters, words)?)
}

// The fewest words.
fn fewest(parameters: &[Parameter]) -> usize
    ensures { result ≡ spec.fewest (map recipe_parameter_view parameters.now) }
{
    let mut fewest = 0;
    for parameter in parameters {
        if needs_word(parameter) {
            fewest += 1;
        }
    }
    fewest
}

// Whether a parameter needs a word.
fn needs_word(parameter: &Parameter) -> bool
    ensures { result ≡ spec.needs_word (recipe_parameter_view parameter.now) }
{
    parameter.default.is_none() && parameter.kind != ParameterKind::Star
}

// The most words, if there is a limit.
fn most(parameters: &[Parameter]) -> Option<usize>
    ensures { result ≡ spec.most (map recipe_parameter_view parameters.now) }
{
    for parameter in parameters {
        if parameter.kind.is_variadic() {
            return None;
        }
    }
    Some(parameters.len())
}

// The words that each parameter takes.
fn grouped<T: AsStr>(
    alloc: Global,
    parameters: &[Parameter],
    words: &[T],
) -> Result<Vec<Value>, OutOfMemory>
    ensures { IfOk result (λ arguments. arguments.items ≡ spec.grouped (map recipe_parameter_view parameters.now)
        (map T.text words.now)) }
{
    let mut arguments = Vec::with_capacity(alloc, parameters.len())?;
    let mut rest = words;
    for parameter in parameters {
        let (taken, left) = rest.split_at(taken(parameter, rest.len()));
        arguments.push(list_of(alloc, taken)?)?;
        rest = left;
    }
    Ok(arguments)
}

// How many of the words that are left a parameter takes.
fn taken(parameter: &Parameter, left: usize) -> usize
    ensures share { result ≡ spec.share (recipe_parameter_view parameter.now) left }
    ensures bound { result ≤ left }
{
    if parameter.kind.is_variadic() || left == 0 {
        left
    } else {
        1
    }
}

// The list of some words.
fn list_of<T: AsStr>(alloc: Global, words: &[T]) -> Result<Value, OutOfMemory>
    ensures { IfOk result (λ list. list ≡ map T.text words.now) }
{
    let mut list = Value::new(alloc);
    for word in words {
        list.push(word.as_str())?;
    }
    Ok(list)
}
