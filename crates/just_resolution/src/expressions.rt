// The expressions that are evaluated for a recipe.

ghost use Rattle.std.specs.Prelude.{IfOk, ◌≡◌};
ghost use Rattle.just_resolution.specs.Prelude.{attribute_expressions, attributes_of, attributes_view, expressions_of};
ghost use Rattle.just_resolution.specs.Prelude.{expressions_view, recipe_parameter_view};

use just_syntax::attribute::Attribute;
use just_syntax::attribute_set::AttributeSet;
use just_syntax::expression::Expression;
use just_syntax::out_of_memory::OutOfMemory;
use just_syntax::parameter::Parameter;
use just_syntax::recipe::Recipe;
use std::alloc::Global;

// The keys and the values of a recipe's `[env]` attributes, in order; none if there is no recipe.
pub(crate) fn recipe_expressions<'a, 'src>(
    alloc: Global,
    recipe: Option<&'a Recipe<'src>>,
) -> Result<Vec<&'a Expression<'src>>, OutOfMemory>
    ensures { IfOk result (λ all. expressions_view all.items ≡ attribute_expressions (attributes_of recipe.entry)) }
{
    match recipe {
        Some(recipe) => attribute_expressions(alloc, &recipe.attributes),
        None => Ok(Vec::new(alloc)),
    }
}

// The keys and the values of `[env]` attributes, in order.
fn attribute_expressions<'a, 'src>(
    alloc: Global,
    attributes: &'a AttributeSet<'src>,
) -> Result<Vec<&'a Expression<'src>>, OutOfMemory>
    ensures { IfOk result (λ all. expressions_view all.items ≡ attribute_expressions (attributes_view attributes.now)) }
{
    let mut all = Vec::new(alloc);
    for (attribute, _) in attributes.iter() {
        if let Attribute::Env(key, value) = attribute {
            all.push(key)?;
            all.push(value)?;
        }
    }
    Ok(all)
}

// The default and the value of a parameter, if it has them.
pub(crate) fn expressions_of<'a, 'src>(
    alloc: Global,
    parameter: &'a Parameter<'src>,
) -> Result<Vec<&'a Expression<'src>>, OutOfMemory>
    ensures { IfOk result (λ all. expressions_view all.items ≡ expressions_of (recipe_parameter_view parameter.now)) }
{
    let mut all = Vec::new(alloc);
    if let Some(default) = &parameter.default {
        all.push(default)?;
    }
    if let Some(value) = &parameter.value {
        all.push(value)?;
    }
    Ok(all)
}
