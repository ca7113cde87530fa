// Arguments of recipes: their values, bindings and positional words.

ghost use Rattle.std.specs.Prelude.{IfOk, OnOk, map, string_bytes, ◌++◌, ◌≡◌};
ghost use Rattle.just_eval.specs.Prelude.{IsJudged, bound_view, ended, none_or_refused, parameter_bound};
ghost use Rattle.just_eval.specs.Prelude.{recipe_parameter_view, recipe_view, repeated, words_of};

use just_expression::form::extended;
use just_syntax::attribute_set::AttributeSet;
use just_syntax::out_of_memory::OutOfMemory;
use just_syntax::parameter::Parameter;
use just_syntax::parameter_kind::ParameterKind;
use just_syntax::recipe::Recipe;
use just_value::binding::Binding;
use just_value::check_fault::CheckFault;
use just_value::error::Error;
use just_value::value::Value;
use std::alloc::Global;

/// The value for an empty argument of a parameter with no default: no element.
///
/// # Errors
///
/// `EmptyListArgument` if the parameter must have an element.
pub(crate) fn no_element<'src>(
    alloc: Global,
    parameter: &Parameter<'src>,
    recipe: &Recipe<'src>,
) -> Result<Value, Error<'src>>
    ensures { ended (λ v. v) result ≡ none_or_refused (recipe_view recipe.now).name.lexeme
        (recipe_parameter_view parameter.now) }
{
    if parameter.kind == ParameterKind::Star || parameter.flag {
        return Ok(Value::new(alloc));
    }
    Err(Error::EmptyListArgument {
        parameter: parameter.name.lexeme(),
        recipe: recipe.name(),
    })
}

/// The elements of a value, repeated `times` times.
pub(crate) fn repeated(alloc: Global, value: &Value, times: usize) -> Result<Value, OutOfMemory>
    ensures { IfOk result (λ v. v ≡ repeated times value.now) }
{
    let mut all = Value::new(alloc);
    for _ in 0..times {
        all = extended(all, value.try_clone(alloc)?)?;
    }
    Ok(all)
}

/// The value of a parameter, if a check passes it.
///
/// # Errors
///
/// `Check` if the check refuses the value, and `OutOfMemory` if it reports that.
pub(crate) fn checked<'src, C>(
    check: &C,
    recipe: &Recipe<'src>,
    parameter: &Parameter<'src>,
    value: Value,
) -> Result<Value, Error<'src>>
where
    C: Fn(&Recipe<'src>, &Parameter<'src>, &Value) -> Result<(), CheckFault>,
    requires callable { C.IsAlwaysCallable check.now }
    ensures { IsJudged C.Fn check.entry.now recipe.entry.now (recipe_parameter_view parameter.entry.now) value
        (ended (λ v. v) result) }
{
    match check(recipe, parameter, &value) {
        Ok(()) => Ok(value),
        Err(CheckFault::Refused(message)) => Err(Error::Check {
            parameter: parameter.name.lexeme(),
            message,
        }),
        Err(CheckFault::OutOfMemory) => Err(Error::OutOfMemory),
    }
}

// Appends the positional words of a parameter's value to others: its elements if there may be many, else its join.
fn add_words(
    alloc: Global,
    words: &mut Vec<String>,
    parameter: &Parameter,
    value: &Value,
) -> Result<(), OutOfMemory>
    ensures { OnOk result (map string_bytes words.new.items ≡ map string_bytes words.old.items
        ++ words_of (recipe_parameter_view parameter.now) value.now) }
{
    if parameter.kind.is_variadic() || parameter.multiple {
        let mut elements = value.to_strings(alloc)?;
        words.append(&mut elements)?;
    } else {
        words.push(value.join(alloc)?)?;
    }
    Ok(())
}

/// The binding of a parameter: its value with lists, else its join as one text. The value's positional words are
/// appended to others.
pub(crate) fn binding<'src>(
    alloc: Global,
    lists: bool,
    parameter: &Parameter<'src>,
    words: &mut Vec<String>,
    value: Value,
) -> Result<Binding<'src>, OutOfMemory>
    ensures words { OnOk result (map string_bytes words.new.items ≡ map string_bytes words.old.items
        ++ words_of (recipe_parameter_view parameter.now) value) }
    ensures bound { IfOk result
        (λ b. bound_view b ≡ parameter_bound lists (recipe_parameter_view parameter.now) value) }
{
    add_words(alloc, words, parameter, &value)?;
    let value = if lists {
        value
    } else {
        Value::from_string(alloc, value.join(alloc)?)?
    };
    Ok(Binding {
        attributes: AttributeSet::new(alloc),
        eager: false,
        export: parameter.export,
        file_depth: 0,
        name: parameter.name,
        number: parameter.number,
        prelude: false,
        private: false,
        value,
    })
}
