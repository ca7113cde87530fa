// Items, one after another. A refused item is dropped by a call, so that no function has code of its own for this.

ghost use Rattle.std.specs.Prelude.{IfErr, OnOk, ◌≡◌};
ghost use Rattle.std.specs.Option.{is_some};
ghost use Rattle.just_syntax.specs.Keyed.{value_at, with_value};
ghost use Rattle.just_syntax.specs.View.{assignment_view, function_view, name_view, set_view};
ghost use Rattle.just_parser.specs.View.{item_view, recipe_definition_view};
ghost use Rattle.just_analyzer.specs.Analysis.{added, has_alias, has_function, has_recipe, has_set};
ghost use Rattle.just_analyzer.specs.Analysis.{has_variable, with_alias, with_definition, with_recipe, with_set};
ghost use Rattle.just_analyzer.specs.Analysis.{with_assigned_variable, with_unexport};
ghost use Rattle.just_analyzer.specs.Outcome.{Grown};
ghost use Rattle.just_analyzer.specs.View.{IsAnalysisFault, alias_view, allowed_view, analysis_view};

use crate::alias::Alias;
use crate::analysis::Analysis;
use crate::analysis_error::{AnalysisError, Fault};
use crate::outcome::allocated;
use crate::parameters::configure;
use just_parser::item::Item;
use just_parser::recipe_definition::RecipeDefinition;
use just_syntax::assignment::Assignment;
use just_syntax::function_definition::FunctionDefinition;
use just_syntax::keyed::Keyed;
use just_syntax::name::Name;
use just_syntax::out_of_memory::OutOfMemory;
use just_syntax::results::followed;
use just_syntax::set::Set;
use just_syntax::table::Table;
use std::alloc::Global;

/// Whether recipes, and whether variables, may have one name.
#[derive(Clone, Copy)]
pub(crate) struct Allowed {
    pub recipes: bool,
    pub variables: bool,
}

impl<'src> Analysis<'src> {
    /// Adds an item.
    pub(crate) fn add(
        &mut self,
        alloc: Global,
        allowed: Allowed,
        item: Item<'src>,
    ) -> Result<(), AnalysisError<'src>>
        ensures ok { OnOk result (added (allowed_view allowed) (analysis_view self.old) (item_view item.entry)
            ≡ Grown (analysis_view self.new)) }
        ensures err { IfErr result
            (IsAnalysisFault (added (allowed_view allowed) (analysis_view self.old) (item_view item.entry))) }
    {
        match item {
            Item::Alias { name, target } => self.add_alias(Alias { name, target }),
            Item::Assignment(assignment) => self.add_assignment(allowed, assignment),
            Item::Function(function) => self.add_function(function),
            Item::Recipe(recipe) => self.add_recipe(alloc, allowed, recipe),
            Item::Set(set) => self.add_set(set),
            Item::Unexport { name } => self.add_unexport(alloc, name),
        }
    }

    // Adds another name of a recipe.
    #[tactic(auto, unfolding(crate::specs::Analysis::with_alias))]
    fn add_alias(&mut self, alias: Alias<'src>) -> Result<(), AnalysisError<'src>>
        ensures ok { OnOk result (with_alias (analysis_view self.old) (alias_view alias.entry)
            ≡ Grown (analysis_view self.new)) }
        ensures err { IfErr result (IsAnalysisFault (with_alias (analysis_view self.old) (alias_view alias.entry))) }
    {
        if self.has_alias(alias.name) || self.has_recipe(alias.name) {
            return Err(fault(Fault::DuplicateRecipe, alias.name));
        }
        inserted(&mut self.aliases, alias)
    }

    // Adds a variable.
    #[tactic(auto, unfolding(crate::specs::Analysis::with_assigned_variable))]
    fn add_assignment(
        &mut self,
        allowed: Allowed,
        assignment: Assignment<'src>,
    ) -> Result<(), AnalysisError<'src>>
        ensures ok { OnOk result (with_assigned_variable allowed.variables (analysis_view self.old)
            (assignment_view assignment.entry) ≡ Grown (analysis_view self.new)) }
        ensures err { IfErr result (IsAnalysisFault
            (with_assigned_variable allowed.variables (analysis_view self.old) (assignment_view assignment.entry))) }
    {
        let name = assignment.name;
        if !allowed.variables && self.has_variable(name) {
            drop(assignment);
            return Err(fault(Fault::DuplicateVariable, name));
        }
        allocated(self.justfile.assign(assignment))
    }

    // Adds a function.
    #[tactic(auto, unfolding(crate::specs::Analysis::with_definition))]
    fn add_function(
        &mut self,
        function: FunctionDefinition<'src>,
    ) -> Result<(), AnalysisError<'src>>
        ensures ok { OnOk result (with_definition (analysis_view self.old) (function_view function.entry)
            ≡ Grown (analysis_view self.new)) }
        ensures err { IfErr result
            (IsAnalysisFault (with_definition (analysis_view self.old) (function_view function.entry))) }
    {
        let name = function.name;
        if self.has_function(name) {
            drop(function);
            return Err(fault(Fault::DuplicateFunction, name));
        }
        allocated(self.justfile.define(function))
    }

    // Adds a recipe, whose parameters become what its attributes say.
    #[tactic(auto, unfolding(crate::specs::Analysis::with_recipe))]
    fn add_recipe(
        &mut self,
        alloc: Global,
        allowed: Allowed,
        mut recipe: RecipeDefinition<'src>,
    ) -> Result<(), AnalysisError<'src>>
        ensures ok { OnOk result (with_recipe allowed.recipes (analysis_view self.old)
            (recipe_definition_view recipe.entry) ≡ Grown (analysis_view self.new)) }
        ensures err { IfErr result (IsAnalysisFault
            (with_recipe allowed.recipes (analysis_view self.old) (recipe_definition_view recipe.entry))) }
    {
        let name = recipe.recipe.name;
        if self.has_alias(name) || !allowed.recipes && self.has_recipe(name) {
            return Err(fault(Fault::DuplicateRecipe, name));
        }
        let configured = configure(alloc, &mut recipe);
        match followed(recipe, configured) {
            Ok(recipe) => inserted(&mut self.recipes, recipe),
            Err(error) => Err(error),
        }
    }

    // Adds a setting.
    #[tactic(auto, unfolding(crate::specs::Analysis::with_set))]
    fn add_set(&mut self, set: Set<'src>) -> Result<(), AnalysisError<'src>>
        ensures ok { OnOk result (with_set (analysis_view self.old) (set_view set.entry)
            ≡ Grown (analysis_view self.new)) }
        ensures err { IfErr result (IsAnalysisFault (with_set (analysis_view self.old) (set_view set.entry))) }
    {
        let name = set.name;
        if self.has_set(name) {
            drop(set);
            return Err(fault(Fault::DuplicateSet, name));
        }
        inserted(&mut self.sets, set)
    }

    // Adds a variable that is not passed on.
    #[tactic(auto, unfolding(crate::specs::Analysis::with_unexport))]
    fn add_unexport(&mut self, alloc: Global, name: Name<'src>) -> Result<(), AnalysisError<'src>>
        ensures ok { OnOk result (with_unexport (analysis_view self.old) (name_view name.entry)
            ≡ Grown (analysis_view self.new)) }
        ensures err { IfErr result (IsAnalysisFault (with_unexport (analysis_view self.old) (name_view name.entry))) }
    {
        allocated(self.unexport(alloc, name))
    }

    // The same.
    #[tactic(auto, unfolding(crate::specs::Analysis::with_unexport))]
    fn unexport(&mut self, alloc: Global, name: Name<'src>) -> Result<(), OutOfMemory>
        ensures { OnOk result (with_unexport (analysis_view self.old) (name_view name.entry)
            ≡ Grown (analysis_view self.new)) }
    {
        let text = String::from_str(alloc, name.lexeme())?;
        self.justfile.unexports.push(text)?;
        Ok(())
    }

    // Whether an alias has this name.
    fn has_alias(&self, name: Name<'src>) -> bool
        ensures { result ≡ has_alias (analysis_view self.now) (name_view name.entry) }
    {
        has(&self.aliases, name.lexeme())
    }

    // Whether a function has this name.
    fn has_function(&self, name: Name<'src>) -> bool
        ensures { result ≡ has_function (analysis_view self.now) (name_view name.entry) }
    {
        has(&self.justfile.functions, name.lexeme())
    }

    // Whether a setting has this name.
    fn has_set(&self, name: Name<'src>) -> bool
        ensures { result ≡ has_set (analysis_view self.now) (name_view name.entry) }
    {
        has(&self.sets, name.lexeme())
    }

    // Whether a variable has this name.
    fn has_variable(&self, name: Name<'src>) -> bool
        ensures { result ≡ has_variable (analysis_view self.now) (name_view name.entry) }
    {
        has(&self.justfile.assignments, name.lexeme())
    }

    // Whether a recipe has this name.
    fn has_recipe(&self, name: Name<'src>) -> bool
        ensures { result ≡ has_recipe (analysis_view self.now) (name_view name.entry) }
    {
        has(&self.recipes, name.lexeme())
    }
}

/// An item does not fit.
pub(crate) fn fault<'src>(kind: Fault, name: Name<'src>) -> AnalysisError<'src>
    ensures { result ≡ AnalysisError.Fault kind name.entry }
{
    AnalysisError::Fault { kind, name }
}

// Whether a table has a value with this key.
fn has<V: Keyed>(table: &Table<V>, key: &str) -> bool
    ensures { result ≡ is_some (value_at V.key_text key.now table.now) }
{
    table.get(key).is_some()
}

// Inserts a value.
fn inserted<'src, V: Keyed + Drop>(
    table: &mut Table<V>,
    value: V,
) -> Result<(), AnalysisError<'src>>
    ensures ok { OnOk result (table.new ≡ with_value V.key_text table.old value) }
    ensures err { IfErr result (λ error. error ≡ AnalysisError.OutOfMemory) }
{
    allocated(table.insert(value))
}
