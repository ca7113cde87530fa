// Calls of recipes.

ghost use Rattle.std.specs.Prelude.{IfOk, Some, [], false, length, map, ◌<◌, ◌∷◌, ◌≡◌};
ghost use Rattle.just_eval.specs.Prelude.{GivesVerdict, GoesByAnswers, HaveOneElement, IfRefused, IsFinal};
ghost use Rattle.just_eval.specs.Prelude.{Behaves, IsNotInternal, IsResolvedWith, arguments_view, dynamic_meanings};
ghost use Rattle.just_eval.specs.Prelude.{ended, frames_view, freely, meanings, own_frame, recipe_parameter_view};
ghost use Rattle.just_eval.specs.Prelude.{recipe_start, recipe_view};
ghost use Rattle.just_meaning.specs.Parameters as meant;

use just_eval::evaluator::Evaluator;
use just_host::execution_context::ExecutionContext;
use just_host::host::Host;
use just_syntax::parameter::Parameter;
use just_syntax::recipe::Recipe;
use just_value::check_fault::CheckFault;
use just_value::error::Error;
use just_value::scope::Scope;
use just_value::value::Value;
use std::alloc::Global;
use std::collections::BTreeMap;

/// A call of a recipe with its arguments, one for each parameter.
#[derive(Debug, Drop)]
pub struct RecipeCall<'call, 'src> {
    pub recipe: &'call Recipe<'src>,
    pub parameters: &'call [Parameter<'src>],
    pub arguments: Vec<Value>,
    /// Whether the recipe runs as a dependency, whose arguments stay as they are.
    pub is_dependency: bool,
}

impl<'call, 'src> RecipeCall<'call, 'src> {
    /// Evaluates the attributes and the parameters in the scope of a context:
    /// [`Evaluator::evaluate_parameters`] with these arguments, whose results, refusals and clauses it has.
    pub fn evaluate<'run, H: Host, C>(
        &self,
        alloc: Global,
        host: &mut H,
        check: &C,
        context: &ExecutionContext<'src, 'run>,
    ) -> Result<(Scope<'src, 'run>, Vec<String>, BTreeMap<String, String>), Error<'src>>
    where
        C: Fn(&Recipe<'src>, &Parameter<'src>, &Value) -> Result<(), CheckFault>,
        requires may_call { 0 < context.now.recursion_limit }
        requires callable { C.IsAlwaysCallable check.now }
        ensures headline { let c = self.entry.now in
            let h = recipe_start context.entry.now c.is_dependency c.recipe.now context.entry.now.scope.now in
            IsResolvedWith context.entry.now h.situation.shown (recipe_view c.recipe.now).attributes
            (map recipe_parameter_view c.parameters.now) []
            → Behaves freely H.step (GivesVerdict C.Fn check.entry.now c.recipe.now) host.old
            (meant.parameters (meanings h) h.situation (recipe_view c.recipe.now)
            (map recipe_parameter_view c.parameters.now) c.arguments.items)
            (ended arguments_view result) host.new }
        ensures never_internal { let c = self.entry.now in
            IsResolvedWith context.entry.now ([] ∷ frames_view context.entry.now.scope.now)
            (recipe_view c.recipe.now).attributes (map recipe_parameter_view c.parameters.now) []
            → length c.arguments.items ≡ length c.parameters.now → IsNotInternal (ended arguments_view result) }
        ensures dynamic { let c = self.entry.now in
            let h = recipe_start context.entry.now c.is_dependency c.recipe.now context.entry.now.scope.now in
            Behaves freely H.step (GivesVerdict C.Fn check.entry.now c.recipe.now) host.old
            (meant.parameters (dynamic_meanings (Some context.entry.now)) h.situation (recipe_view c.recipe.now)
            (map recipe_parameter_view c.parameters.now) c.arguments.items)
            (ended arguments_view result) host.new }
        ensures never_const { IfRefused IsFinal (ended arguments_view result) }
        ensures answered { GoesByAnswers H.step host.old host.new }
        ensures one_element { context.entry.now.module.now.settings.lists ≡ false
            → IfOk result (λ given. HaveOneElement (own_frame (frames_view given.0))) }
    {
        Evaluator::evaluate_parameters(
            alloc,
            host,
            check,
            &self.arguments,
            context,
            self.is_dependency,
            self.parameters,
            self.recipe,
            context.scope,
        )
    }
}
