// The expressions of a recipe.

ghost use Rattle.std.specs.Prelude.{IfOk, OnOk, [], map, option_map, option_to_list, ◌++◌, ◌∷◌, ◌≡◌};
ghost use Rattle.just_meaning.specs.Here.{attribute_expressions, parameter_expressions};
ghost use Rattle.just_meaning.specs.Line.{line_expressions};
ghost use Rattle.just_parser.specs.View.{dependency_view};
ghost use Rattle.just_recipe.specs.Expressions.{body_expressions, dependency_expressions, part_view};
ghost use Rattle.just_recipe.specs.Expressions.{recipe_expressions};
ghost use Rattle.just_recipe.specs.Numbered.{numbered_recipe_view};
ghost use Rattle.just_syntax.specs.View.{fragment_view, line_view, recipe_parameter_view, recipe_view, view};

use crate::numbered_recipe::NumberedRecipe;
use just_parser::dependency::Dependency;
use just_syntax::attribute::Attribute;
use just_syntax::expression::Expression;
use just_syntax::fragment::Fragment;
use just_syntax::line::Line;
use just_syntax::out_of_memory::OutOfMemory;
use just_syntax::parameter::Parameter;
use just_syntax::recipe::Recipe;
use just_syntax::results::push;
use std::alloc::Global;

/// An expression of a recipe.
#[derive(Clone, Copy, Debug)]
pub struct Part<'src, 'a> {
    pub expression: &'a Expression<'src>,
}

/// The expressions of a recipe: those of its attributes, parameters, dependencies, lines, and dependencies after it.
///
/// # Errors
///
/// `OutOfMemory`, if an allocation fails.
pub fn expressions_of<'src, 'a>(
    alloc: Global,
    recipe: &'a NumberedRecipe<'src>,
) -> Result<Vec<Part<'src, 'a>>, OutOfMemory>
    ensures { IfOk result (λ parts. map part_view parts.items ≡ recipe_expressions (numbered_recipe_view recipe.now)) }
{
    let mut parts = Vec::new(alloc);
    add_attributes(&recipe.recipe, &mut parts)?;
    add_parameters(&recipe.parameters, &mut parts)?;
    add_dependencies(&recipe.dependencies, &mut parts)?;
    add_lines(&recipe.body, &mut parts)?;
    add_dependencies(&recipe.subsequents, &mut parts)?;
    Ok(parts)
}

// Adds the expressions of attributes.
fn add_attributes<'src, 'a>(
    recipe: &'a Recipe<'src>,
    parts: &mut Vec<Part<'src, 'a>>,
) -> Result<(), OutOfMemory>
    ensures { OnOk result (map part_view parts.new.items ≡ map part_view parts.old.items
        ++ attribute_expressions (recipe_view recipe.now).attributes) }
{
    for (attribute, _) in recipe.attributes.iter() {
        if let Attribute::Env(key, value) = attribute {
            add(key, parts)?;
            add(value, parts)?;
        }
    }
    Ok(())
}

// Adds the expressions of parameters.
fn add_parameters<'src, 'a>(
    parameters: &'a [Parameter<'src>],
    parts: &mut Vec<Part<'src, 'a>>,
) -> Result<(), OutOfMemory>
    ensures { OnOk result (map part_view parts.new.items ≡ map part_view parts.old.items
        ++ parameter_expressions (map recipe_parameter_view parameters.now)) }
{
    for parameter in parameters {
        add_option(parameter.default.as_ref(), parts)?;
        add_option(parameter.value.as_ref(), parts)?;
    }
    Ok(())
}

// Adds an expression, if there is one.
fn add_option<'src, 'a>(
    expression: Option<&'a Expression<'src>>,
    parts: &mut Vec<Part<'src, 'a>>,
) -> Result<(), OutOfMemory>
    ensures { OnOk result (map part_view parts.new.items ≡ map part_view parts.old.items
        ++ option_to_list (option_map (λ e. view e.now) expression.entry)) }
{
    match expression {
        Some(expression) => add(expression, parts),
        None => Ok(()),
    }
}

// Adds the arguments of dependencies.
fn add_dependencies<'src, 'a>(
    dependencies: &'a [Dependency<'src>],
    parts: &mut Vec<Part<'src, 'a>>,
) -> Result<(), OutOfMemory>
    ensures { OnOk result (map part_view parts.new.items ≡ map part_view parts.old.items
        ++ dependency_expressions (map dependency_view dependencies.now)) }
{
    for dependency in dependencies {
        add_arguments(dependency, parts)?;
    }
    Ok(())
}

// Adds the arguments of a dependency.
fn add_arguments<'src, 'a>(
    dependency: &'a Dependency<'src>,
    parts: &mut Vec<Part<'src, 'a>>,
) -> Result<(), OutOfMemory>
    ensures { OnOk result (map part_view parts.new.items ≡ map part_view parts.old.items
        ++ (dependency_view dependency.now).arguments) }
{
    for argument in &dependency.arguments {
        add(argument, parts)?;
    }
    Ok(())
}

// Adds the interpolations of lines.
fn add_lines<'src, 'a>(
    lines: &'a [Line<'src>],
    parts: &mut Vec<Part<'src, 'a>>,
) -> Result<(), OutOfMemory>
    ensures { OnOk result (map part_view parts.new.items ≡ map part_view parts.old.items
        ++ body_expressions (map line_view lines.now)) }
{
    for line in lines {
        add_line(line, parts)?;
    }
    Ok(())
}

// Adds the interpolations of a line.
fn add_line<'src, 'a>(
    line: &'a Line<'src>,
    parts: &mut Vec<Part<'src, 'a>>,
) -> Result<(), OutOfMemory>
    ensures { OnOk result (map part_view parts.new.items ≡ map part_view parts.old.items
        ++ line_expressions (line_view line.now)) }
{
    for fragment in &line.fragments {
        add_fragment(fragment, parts)?;
    }
    Ok(())
}

// Adds an interpolation.
fn add_fragment<'src, 'a>(
    fragment: &'a Fragment<'src>,
    parts: &mut Vec<Part<'src, 'a>>,
) -> Result<(), OutOfMemory>
    ensures { OnOk result (map part_view parts.new.items ≡ map part_view parts.old.items
        ++ line_expressions (fragment_view fragment.now ∷ [])) }
{
    match fragment {
        Fragment::Interpolation { expression } => add(expression, parts),
        Fragment::Text { token: _ } => Ok(()),
    }
}

// Adds an expression.
fn add<'src, 'a>(
    expression: &'a Expression<'src>,
    parts: &mut Vec<Part<'src, 'a>>,
) -> Result<(), OutOfMemory>
    ensures { OnOk result (map part_view parts.new.items ≡ map part_view parts.old.items
        ++ view expression.now ∷ []) }
{
    push(parts, Part { expression })
}
