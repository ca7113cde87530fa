// What attributes say of the parameters of a recipe.

ghost use Rattle.std.specs.Prelude.{IfErr, List, None, OnOk, Some, [], length, map, ℕ, ◌<◌, ◌≡◌};
ghost use Rattle.std.specs.Prelude.{bytes_eq, if◌then◌else◌};
ghost use Rattle.just_syntax.specs.View.{name_view, recipe_parameter_view};
ghost use Rattle.just_parser.specs.View.{arg_option_view, arg_view, recipe_definition_view};
ghost use Rattle.just_analyzer.specs.Outcome.{Grown};
ghost use Rattle.just_analyzer.specs.Parameters.{at_place, configured, distinct, duplicate, parameter_place};
ghost use Rattle.just_analyzer.specs.Parameters.{repeated_name, with_args, with_option, with_options};
ghost use Rattle.just_analyzer.specs.View.{IsAnalysisFault, place_in};

use crate::added::fault;
use crate::analysis_error::{AnalysisError, Fault};
use just_parser::arg_attribute::{ArgAttribute, ArgOption};
use just_parser::recipe_definition::RecipeDefinition;
use just_syntax::name::Name;
use just_syntax::parameter::Parameter;
use std::alloc::Global;
use std::collections::BTreeMap;

/// Makes the parameters of a recipe what its attributes say.
#[tactic(auto, unfolding(crate::specs::Parameters::configured))]
pub(crate) fn configure<'src>(
    alloc: Global,
    recipe: &mut RecipeDefinition<'src>,
) -> Result<(), AnalysisError<'src>>
    ensures ok { OnOk result
        (configured (recipe_definition_view recipe.old) ≡ Grown (recipe_definition_view recipe.new)) }
    ensures err { IfErr result (IsAnalysisFault (configured (recipe_definition_view recipe.old))) }
{
    let mut places = BTreeMap::new(alloc);
    add_places(&mut places, &recipe.parameters)?;
    apply_all(&places, &mut recipe.args, &mut recipe.parameters)
}

// Adds the places of parameters by their names, if these differ.
fn add_places<'src>(
    places: &mut BTreeMap<&'src str, usize>,
    parameters: &[Parameter<'src>],
) -> Result<(), AnalysisError<'src>>
    requires { (t : List ℕ) → place_in places.old t ≡ None }
    ensures places { OnOk result ((t : List ℕ) → place_in places.new t
        ≡ parameter_place t (map recipe_parameter_view parameters.now)) }
    ensures ok { OnOk result (distinct (duplicate [] (map recipe_parameter_view parameters.now)) ≡ Grown tt) }
    ensures err { IfErr result (IsAnalysisFault (distinct (duplicate [] (map recipe_parameter_view parameters.now)))) }
{
    for index in 0..parameters.len() {
        add_place(places, parameters[index].name, index)?;
    }
    Ok(())
}

// Adds the place of a name, if it has none.
fn add_place<'src>(
    places: &mut BTreeMap<&'src str, usize>,
    name: Name<'src>,
    place: usize,
) -> Result<(), AnalysisError<'src>>
    ensures places { OnOk result ((t : List ℕ) → place_in places.new t
        ≡ (if bytes_eq (name_view name.entry).lexeme t then Some place else place_in places.old t)) }
    ensures ok { OnOk result (place_in places.old (name_view name.entry).lexeme ≡ None) }
    ensures err { IfErr result (IsAnalysisFault
        (distinct (repeated_name (place_in places.old (name_view name.entry).lexeme) (name_view name.entry)))) }
{
    if places.contains_key(name.lexeme()) {
        return Err(fault(Fault::DuplicateParameter, name));
    }
    match places.insert(name.lexeme(), place) {
        Ok(_) => Ok(()),
        Err(_) => Err(AnalysisError::OutOfMemory),
    }
}

// Makes parameters what attributes say of them, one after another.
fn apply_all<'src>(
    places: &BTreeMap<&'src str, usize>,
    args: &mut Vec<ArgAttribute<'src>>,
    parameters: &mut Vec<Parameter<'src>>,
) -> Result<(), AnalysisError<'src>>
    requires { (t : List ℕ) → place_in places.now t
        ≡ parameter_place t (map recipe_parameter_view parameters.old.items) }
    ensures args { OnOk result (args.new.items ≡ []) }
    ensures ok { OnOk result (with_args (map arg_view args.old.items) (map recipe_parameter_view parameters.old.items)
        ≡ Grown (map recipe_parameter_view parameters.new.items)) }
    ensures err { IfErr result (IsAnalysisFault
        (with_args (map arg_view args.old.items) (map recipe_parameter_view parameters.old.items))) }
{
    args.reverse();
    while let Some(arg) = args.pop() {
        apply(places, arg, parameters)?;
    }
    Ok(())
}

// Makes a parameter what an attribute says of it.
fn apply<'src>(
    places: &BTreeMap<&'src str, usize>,
    arg: ArgAttribute<'src>,
    parameters: &mut Vec<Parameter<'src>>,
) -> Result<(), AnalysisError<'src>>
    requires { (t : List ℕ) → place_in places.now t
        ≡ parameter_place t (map recipe_parameter_view parameters.old.items) }
    ensures places { OnOk result ((t : List ℕ) → place_in places.now t
        ≡ parameter_place t (map recipe_parameter_view parameters.new.items)) }
    ensures ok { let a = arg_view arg.entry in let ps = map recipe_parameter_view parameters.old.items in
        OnOk result (at_place a ps (parameter_place a.parameter.cooked ps)
        ≡ Grown (map recipe_parameter_view parameters.new.items)) }
    ensures err { let a = arg_view arg.entry in let ps = map recipe_parameter_view parameters.old.items in
        IfErr result (IsAnalysisFault (at_place a ps (parameter_place a.parameter.cooked ps))) }
{
    match places.get(arg.parameter.cooked.as_str()) {
        Some(place) => {
            set_options(&mut parameters[*place], arg.options);
            Ok(())
        }
        None => Err(fault(Fault::UndefinedParameter, arg.name)),
    }
}

// Gives a parameter options.
fn set_options<'src>(parameter: &mut Parameter<'src>, mut options: Vec<ArgOption<'src>>)
    ensures { recipe_parameter_view parameter.new
        ≡ with_options (recipe_parameter_view parameter.old) (map arg_option_view options.entry.items) }
{
    options.reverse();
    while let Some(option) = options.pop() {
        set_option(parameter, option);
    }
}

// Gives a parameter an option.
fn set_option<'src>(parameter: &mut Parameter<'src>, option: ArgOption<'src>)
    ensures { recipe_parameter_view parameter.new
        ≡ with_option (recipe_parameter_view parameter.old) (arg_option_view option.entry) }
{
    match option {
        ArgOption::Flag => parameter.flag = true,
        ArgOption::Multiple => parameter.multiple = true,
        ArgOption::Value(value) => parameter.value = Some(value),
    }
}
