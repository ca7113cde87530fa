// Recipes whose variables have numbers.

ghost use Rattle.std.specs.Prelude.{IfOk, None, Ok, OnOk, [], length, map, option_map, ◌++◌, ◌≡◌};
ghost use Rattle.just_recipe.specs.Numbered.{IsNumberedCopy, numbered_attribute, numbered_attributes};
ghost use Rattle.just_recipe.specs.Numbered.{numbered_dependency, numbered_fragment, numbered_in_turn, numbered_line};
ghost use Rattle.just_recipe.specs.Numbered.{numbered_parameter, numbered_recipe, numbered_recipe_view};
ghost use Rattle.just_recipe.specs.Numbered.{number_with_parameters};
ghost use Rattle.just_parser.specs.View.{dependency_view, recipe_definition_view};
ghost use Rattle.just_resolve.specs.Prelude.{Text, assignment_view, frames_view, functions_view, name_number};
ghost use Rattle.just_resolve.specs.Prelude.{name_view};
ghost use Rattle.just_resolve.specs.Prelude.{numbered_expression, parameter_named, parameter_view, variable_named};
ghost use Rattle.just_resolve.specs.Prelude.{view};
ghost use Rattle.just_syntax.specs.View.{attribute_view, attributes_view, fragment_view, line_view, recipe_view};
ghost use Rattle.just_syntax.specs.View.{recipe_parameter_view};

use crate::numbered_setting::add_numbered;
use crate::numbering::Numbering;
use just_host::justfile::Justfile;
use just_parser::dependency::Dependency;
use just_parser::recipe_definition::RecipeDefinition;
use just_resolve::names::Names;
use just_resolve::numbered::numbered;
use just_syntax::attribute::Attribute;
use just_syntax::attribute_set::AttributeSet;
use just_syntax::expression::Expression;
use just_syntax::fragment::Fragment;
use just_syntax::line::Line;
use just_syntax::name::Name;
use just_syntax::number::Number;
use just_syntax::out_of_memory::OutOfMemory;
use just_syntax::parameter::Parameter;
use just_syntax::recipe::Recipe;
use just_syntax::results::{followed, push};
use just_value::scope::Scope;
use std::alloc::Global;

/// A recipe whose parameters have numbers of their own, and whose variables have the numbers of their names.
#[derive(Debug, Drop)]
pub struct NumberedRecipe<'src> {
    pub body: Vec<Line<'src>>,
    pub dependencies: Vec<Dependency<'src>>,
    pub parameters: Vec<Parameter<'src>>,
    pub recipe: Recipe<'src>,
    pub subsequents: Vec<Dependency<'src>>,
}

/// A numbered copy of a recipe of a resolved module. Attributes can read the variables of the module and those that
/// `outer` binds, a parameter also the parameters before it, and lines and the arguments of dependencies all
/// parameters. A name that means nothing leaves its variable without a number. The parameters have numbers that nothing
/// else has. If two parameters have one name, the first counts. For several recipes of a module there is `Numbering`.
///
/// ```rust
/// resolve(alloc, &mut analysis.justfile, &outer)?;
/// let recipe = numbered_recipe(alloc, definition, &analysis.justfile, &outer)?;
/// let call = RecipeCall { recipe: &recipe.recipe, parameters: &recipe.parameters, .. };
/// ```
///
/// # Errors
///
/// `OutOfMemory`, if an allocation fails, if an expression nests too deeply to be copied, or if too few numbers are
/// left: nothing is created.
pub fn numbered_recipe<'src>(
    alloc: Global,
    definition: &RecipeDefinition<'src>,
    module: &Justfile<'src>,
    outer: &Scope<'src, '_>,
) -> Result<NumberedRecipe<'src>, OutOfMemory>
    ensures { IfOk result (λ copy. IsNumberedCopy (functions_view «module».now)
        (map assignment_view «module».now.assignments) (frames_view outer.now)
        (recipe_definition_view definition.now) (numbered_recipe_view copy)) }
{
    let mut numbering = Numbering::of(alloc, module, outer)?;
    numbering.number(alloc, definition, outer)
}

impl<'src> NumberedRecipe<'src> {
    /// Adds the parts of a recipe to an empty copy, whose parameters have these numbers.
    ///
    /// # Errors
    ///
    /// `OutOfMemory`, if an allocation fails, or if an expression nests too deeply to be copied: some parts are added.
    pub(crate) fn fill(
        &mut self,
        alloc: Global,
        definition: &RecipeDefinition<'src>,
        names: &mut Names<'src>,
        numbers: &[(Name<'src>, Number)],
    ) -> Result<(), OutOfMemory>
        requires recipe { recipe_view self.old.recipe
            ≡ record { attributes = []; name = name_view definition.now.recipe.name } }
        requires body { self.old.body.items ≡ [] }
        requires dependencies { self.old.dependencies.items ≡ [] }
        requires parameters { self.old.parameters.items ≡ [] }
        requires subsequents { self.old.subsequents.items ≡ [] }
        requires unset { (t : Text) → parameter_named names.old t ≡ None }
        requires numbers { length numbers.now ≡ length definition.now.parameters.items }
        ensures copy { OnOk result (numbered_recipe_view self.new ≡ numbered_recipe (variable_named names.old)
            (map parameter_view numbers.now) (recipe_definition_view definition.now)) }
        ensures names { (t : Text) → variable_named names.new t ≡ variable_named names.old t }
    {
        add_attributes(
            alloc,
            &definition.recipe,
            names,
            &mut self.recipe.attributes,
        )?;
        add_parameters(
            alloc,
            &definition.parameters,
            numbers,
            names,
            &mut self.parameters,
        )?;
        add_lines(alloc, &definition.body, names, &mut self.body)?;
        add_dependencies(
            alloc,
            &definition.dependencies,
            names,
            &mut self.dependencies,
        )?;
        add_dependencies(alloc, &definition.subsequents, names, &mut self.subsequents)
    }
}

// Adds copies of a recipe's attributes.
fn add_attributes<'src>(
    alloc: Global,
    recipe: &Recipe<'src>,
    names: &Names<'src>,
    copies: &mut AttributeSet<'src>,
) -> Result<(), OutOfMemory>
    ensures { OnOk result (attributes_view copies.new ≡ attributes_view copies.old
        ++ numbered_attributes (name_number names.now) (recipe_view recipe.now).attributes) }
{
    for (attribute, name) in recipe.attributes.iter() {
        match numbered_attribute(alloc, attribute, names) {
            Ok(attribute) => copies.push(attribute, *name)?,
            Err(_) => return Err(OutOfMemory),
        }
    }
    Ok(())
}

// A copy of an attribute.
fn numbered_attribute<'src>(
    alloc: Global,
    attribute: &Attribute<'src>,
    names: &Names<'src>,
) -> Result<Attribute<'src>, OutOfMemory>
    ensures { IfOk result
        (λ copy. attribute_view copy ≡ numbered_attribute (name_number names.now) (attribute_view attribute.now)) }
{
    match attribute {
        Attribute::Env(key, value) => {
            let (key, value) = paired(numbered(key, names)?, numbered(value, names))?;
            Ok(Attribute::Env(key, value))
        }
        Attribute::Other => Ok(Attribute::Other),
    }
}

// Adds copies of parameters, each with its number, and its name to the names. The expressions of each can read those
// before it.
fn add_parameters<'src>(
    alloc: Global,
    parameters: &[Parameter<'src>],
    numbers: &[(Name<'src>, Number)],
    names: &mut Names<'src>,
    copies: &mut Vec<Parameter<'src>>,
) -> Result<(), OutOfMemory>
    requires empty { copies.old.items ≡ [] }
    requires unset { (t : Text) → parameter_named names.old t ≡ None }
    requires numbers { length numbers.now ≡ length parameters.now }
    ensures copies { OnOk result (map recipe_parameter_view copies.new.items ≡ numbered_in_turn
        (variable_named names.old) [] (map recipe_parameter_view parameters.now) (map parameter_view numbers.now)) }
    ensures names { OnOk result ((t : Text) → name_number names.new t
        ≡ number_with_parameters (map parameter_view numbers.now) (variable_named names.old) t) }
    ensures variables { (t : Text) → variable_named names.new t ≡ variable_named names.old t }
{
    for (parameter, (name, number)) in parameters.iter().zip(numbers) {
        let copy = numbered_parameter(alloc, parameter, *number, names)?;
        push(copies, copy)?;
        names.add_parameter(name, *number)?;
    }
    Ok(())
}

// A copy of a parameter with a number.
fn numbered_parameter<'src>(
    alloc: Global,
    parameter: &Parameter<'src>,
    number: Number,
    names: &Names<'src>,
) -> Result<Parameter<'src>, OutOfMemory>
    ensures { IfOk result (λ copy. recipe_parameter_view copy
        ≡ numbered_parameter (name_number names.now) (recipe_parameter_view parameter.now) number) }
{
    let default = numbered_option(alloc, parameter.default.as_ref(), names)?;
    let value = numbered_option(alloc, parameter.value.as_ref(), names);
    let (default, value) = paired(default, value)?;
    Ok(Parameter {
        default,
        export: parameter.export,
        flag: parameter.flag,
        kind: parameter.kind,
        multiple: parameter.multiple,
        name: parameter.name,
        number,
        value,
    })
}

// A copy of an expression that may be left out.
fn numbered_option<'src>(
    alloc: Global,
    expression: Option<&Expression<'src>>,
    names: &Names<'src>,
) -> Result<Option<Expression<'src>>, OutOfMemory>
    ensures { IfOk result (λ copy. option_map view copy
        ≡ option_map (λ e. numbered_expression (name_number names.now) (view e.now)) expression.entry) }
{
    match expression {
        Some(expression) => match numbered(expression, names) {
            Ok(copy) => Ok(Some(copy)),
            Err(_) => Err(OutOfMemory),
        },
        None => Ok(None),
    }
}

// Adds copies of lines.
fn add_lines<'src>(
    alloc: Global,
    lines: &[Line<'src>],
    names: &Names<'src>,
    copies: &mut Vec<Line<'src>>,
) -> Result<(), OutOfMemory>
    ensures { OnOk result (map line_view copies.new.items ≡ map line_view copies.old.items
        ++ map (numbered_line (name_number names.now)) (map line_view lines.now)) }
{
    for line in lines {
        let mut fragments = Vec::new(alloc);
        let added = add_fragments(alloc, &line.fragments, names, &mut fragments);
        push(copies, Line::new(followed(fragments, added)?))?;
    }
    Ok(())
}

// Adds copies of fragments.
fn add_fragments<'src>(
    alloc: Global,
    fragments: &[Fragment<'src>],
    names: &Names<'src>,
    copies: &mut Vec<Fragment<'src>>,
) -> Result<(), OutOfMemory>
    ensures { OnOk result (map fragment_view copies.new.items ≡ map fragment_view copies.old.items
        ++ map (numbered_fragment (name_number names.now)) (map fragment_view fragments.now)) }
{
    for fragment in fragments {
        push(copies, numbered_fragment(alloc, fragment, names)?)?;
    }
    Ok(())
}

// A copy of a fragment.
fn numbered_fragment<'src>(
    alloc: Global,
    fragment: &Fragment<'src>,
    names: &Names<'src>,
) -> Result<Fragment<'src>, OutOfMemory>
    ensures { IfOk result
        (λ copy. fragment_view copy ≡ numbered_fragment (name_number names.now) (fragment_view fragment.now)) }
{
    match fragment {
        Fragment::Text { token } => Ok(Fragment::Text { token: *token }),
        Fragment::Interpolation { expression } => match numbered(expression, names) {
            Ok(expression) => Ok(Fragment::Interpolation { expression }),
            Err(_) => Err(OutOfMemory),
        },
    }
}

// Adds copies of dependencies.
fn add_dependencies<'src>(
    alloc: Global,
    dependencies: &[Dependency<'src>],
    names: &Names<'src>,
    copies: &mut Vec<Dependency<'src>>,
) -> Result<(), OutOfMemory>
    ensures { OnOk result (map dependency_view copies.new.items ≡ map dependency_view copies.old.items
        ++ map (numbered_dependency (name_number names.now)) (map dependency_view dependencies.now)) }
{
    for dependency in dependencies {
        let mut arguments = Vec::new(alloc);
        let added = add_numbered(&dependency.arguments, names, &mut arguments);
        let arguments = followed(arguments, added)?;
        let recipe = dependency.recipe;
        push(copies, Dependency { arguments, recipe })?;
    }
    Ok(())
}

// Two parts, if there is the second. It is generic, so that no caller drops syntax after a failure.
fn paired<T: Drop, U: Drop>(first: T, second: Result<U, OutOfMemory>) -> Result<(T, U), OutOfMemory>
    ensures { IfOk result (λ pair. (pair.0 ≡ first) × (second ≡ Ok pair.1)) }
{
    match second {
        Ok(second) => Ok((first, second)),
        Err(_) => Err(OutOfMemory),
    }
}
