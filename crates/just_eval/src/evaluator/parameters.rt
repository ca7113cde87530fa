// Evaluation of a recipe's attributes and parameters.

ghost use Rattle.std.specs.Prelude.{IfOk, List, OnOk, Some, [], false, is_some, length, map, option_map, string_bytes};
ghost use Rattle.std.specs.Prelude.{true, ℕ, ◌++◌, ◌<◌, ◌↔◌, ◌∷◌, ◌≡◌};
ghost use Rattle.just_eval.specs.Prelude.{Expr, GivesVerdict, GoesByAnswers, HaveOneElement, IfRefused, IsFinal};
ghost use Rattle.just_eval.specs.Prelude.{IsInRun, IsNotInternal, IsResolvedWith, IsSameButScopeAndEnvironment};
ghost use Rattle.just_eval.specs.Prelude.{Behaves, MayCall, Resolves, arguments_view, bound_innermost, unchecked};
ghost use Rattle.just_eval.specs.Prelude.{dynamic_meaning, dynamic_meanings, ended, frames_view, freely, here};
ghost use Rattle.just_eval.specs.Prelude.{meanings, name_view, own_frame, pairs_view, parameter_bound, recipe_in};
ghost use Rattle.just_eval.specs.Prelude.{recipe_parameter_view, recipe_start, recipe_view, rules_of, situation_of};
ghost use Rattle.just_eval.specs.Prelude.{stage_state_of, with_variable, words_of};
ghost use Rattle.just_meaning.specs.Parameters as meant;

use super::Evaluator;
use crate::argument;
use just_expression::internal::Reason;
use just_expression::text::one_text;
use just_host::execution_context::ExecutionContext;
use just_host::host::Host;
use just_syntax::attribute::Attribute;
use just_syntax::name::Name;
use just_syntax::out_of_memory::OutOfMemory;
use just_syntax::parameter::Parameter;
use just_syntax::recipe::Recipe;
use just_syntax::string_context::StringContext;
use just_value::check_fault::CheckFault;
use just_value::error::Error;
use just_value::scope::Scope;
use just_value::value::Value;
use std::alloc::Global;
use std::collections::{BTreeMap, HashSet};

impl<'src, 'run> Evaluator<'src, 'run> {
    /// An evaluator for a recipe, or for none, in a new child of `scope`. Commands are run with the variables of `env`
    /// as well as those of the scope. A called body's scope is put on that of `context`, whose recursion limit is at
    /// least 1. Upstream's `Evaluator::new`.
    ///
    /// # Errors
    ///
    /// `OutOfMemory` if an allocation fails: no evaluator is returned, and `env` is dropped.
    pub fn new(
        alloc: Global,
        context: &ExecutionContext<'src, 'run>,
        env: BTreeMap<String, String>,
        is_dependency: bool,
        recipe: Option<Name<'src>>,
        scope: &'run Scope<'src, 'run>,
    ) -> Result<Evaluator<'src, 'run>, OutOfMemory>
        requires may_call { 0 < context.now.recursion_limit }
        ensures here { IfOk result (λ e. here e ≡ recipe_in context.now (pairs_view env) is_dependency
            (option_map (λ n. (name_view n).lexeme) recipe.entry) ([] ∷ frames_view scope.entry.now)) }
        ensures resolved { IfOk result (λ e. (es : List Expr) → Resolves e es
            ↔ IsResolvedWith context.now ([] ∷ frames_view scope.entry.now) [] [] es) }
        ensures in_run { IfOk result IsInRun }
        ensures may_call { IfOk result MayCall }
        ensures none_open { IfOk result (λ e. (n : ℕ) → (stage_state_of e).is_open n ≡ false) }
    {
        Evaluator::new_by_dynamic_scoping(alloc, context, env, is_dependency, recipe, scope)
    }

    // The same, with a clause about its situation.
    fn new_by_dynamic_scoping(
        alloc: Global,
        context: &ExecutionContext<'src, 'run>,
        env: BTreeMap<String, String>,
        is_dependency: bool,
        recipe: Option<Name<'src>>,
        scope: &'run Scope<'src, 'run>,
    ) -> Result<Evaluator<'src, 'run>, OutOfMemory>
        ensures context { IfOk result (λ e. e.context ≡ Some context.now) }
        ensures base { IfOk result (λ e. is_some e.base ≡ true) }
        ensures none_open { IfOk result (λ e. (n : ℕ) → (stage_state_of e).is_open n ≡ false) }
        ensures situation { IfOk result
            (λ e. situation_of e
            ≡ (recipe_in context.now (pairs_view env) is_dependency
            (option_map (λ n. (name_view n).lexeme) recipe.entry) ([] ∷ frames_view scope.entry.now)).situation) }
    {
        Ok(Evaluator {
            base: Some(context.scope),
            context: Some(*context),
            env,
            is_dependency,
            lists: context.module.settings.lists,
            non_const_assignments: HashSet::new(alloc),
            recipe,
            scope: scope.child(alloc)?,
        })
    }

    /// Evaluates the attributes and the parameters of a recipe. Returns a child of `scope` in which the parameters are
    /// bound, the positional words, and the environment that `[env]` attributes give. Upstream's
    /// `Evaluator::evaluate_parameters`; `check` takes the place of its own checks.
    ///
    /// The attributes come first, each with the environment so far; then the number of arguments is checked; then come
    /// the parameters in order, and a default can read the earlier ones. An empty argument is replaced by the default,
    /// or by no element if the parameter may have none. Any other argument is replaced by `value`, repeated once for
    /// each of the argument's elements, unless the recipe runs as a dependency. `check` is called once for each
    /// parameter, with its value. A parameter that may have many elements gives each as a word; any other gives its
    /// join. Without lists the bound value has one element.
    ///
    /// # Errors
    ///
    /// The first refusal: those of `evaluate_value`; `ListInStringContext` if the key of an attribute does not have
    /// exactly one element; `Internal` if the numbers of arguments and parameters differ; `EmptyListArgument` for an
    /// empty argument that nothing replaces; `Check` if the check refuses a value. `OutOfMemory` also if the check
    /// reports it. A refusal returns none of the three: the bindings are dropped. Questions already asked are not
    /// undone.
    pub fn evaluate_parameters<H: Host, C>(
        alloc: Global,
        host: &mut H,
        check: &C,
        arguments: &[Value],
        context: &ExecutionContext<'src, 'run>,
        is_dependency: bool,
        parameters: &[Parameter<'src>],
        recipe: &Recipe<'src>,
        scope: &'run Scope<'src, 'run>,
    ) -> Result<(Scope<'src, 'run>, Vec<String>, BTreeMap<String, String>), Error<'src>>
    where
        C: Fn(&Recipe<'src>, &Parameter<'src>, &Value) -> Result<(), CheckFault>,
        requires may_call { 0 < context.now.recursion_limit }
        requires callable { C.IsAlwaysCallable check.now }

        // If everything reached is resolved, the scope, the words and the environment, or the refusal, are those of
        // lexical scope, as are the questions asked; the verdicts are those of the check.
        ensures headline { let h = recipe_start context.entry.now is_dependency recipe.entry.now scope.entry.now in
            IsResolvedWith context.entry.now h.situation.shown (recipe_view recipe.entry.now).attributes
            (map recipe_parameter_view parameters.entry.now) []
            → Behaves freely H.step (GivesVerdict C.Fn check.entry.now recipe.entry.now) host.old
            (meant.parameters (meanings h) h.situation (recipe_view recipe.entry.now)
            (map recipe_parameter_view parameters.entry.now) arguments.entry.now)
            (ended arguments_view result) host.new }
        ensures never_internal { IsResolvedWith context.entry.now ([] ∷ frames_view scope.entry.now)
            (recipe_view recipe.entry.now).attributes (map recipe_parameter_view parameters.entry.now) []
            → length arguments.entry.now ≡ length parameters.entry.now → IsNotInternal (ended arguments_view result) }

        // Resolved or not, they are those of dynamic scope.
        ensures dynamic { let h = recipe_start context.entry.now is_dependency recipe.entry.now scope.entry.now in
            Behaves freely H.step (GivesVerdict C.Fn check.entry.now recipe.entry.now) host.old
            (meant.parameters (dynamic_meanings (Some context.entry.now)) h.situation (recipe_view recipe.entry.now)
            (map recipe_parameter_view parameters.entry.now) arguments.entry.now)
            (ended arguments_view result) host.new }

        // Resolved or not, the refusal is never `Const`, and only answered questions change the host's state.
        ensures never_const { IfRefused IsFinal (ended arguments_view result) }
        ensures answered { GoesByAnswers H.step host.old host.new }

        // Without lists each bound parameter has one element.
        ensures one_element { context.entry.now.module.now.settings.lists ≡ false
            → IfOk result (λ given. HaveOneElement (own_frame (frames_view given.0))) }
    {
        Evaluator::evaluate_parameters_by_dynamic_scoping(
            alloc,
            host,
            check,
            arguments,
            context,
            is_dependency,
            parameters,
            recipe,
            scope,
        )
    }

    // The same under dynamic scope.
    fn evaluate_parameters_by_dynamic_scoping<H: Host, C>(
        alloc: Global,
        host: &mut H,
        check: &C,
        arguments: &[Value],
        context: &ExecutionContext<'src, 'run>,
        is_dependency: bool,
        parameters: &[Parameter<'src>],
        recipe: &Recipe<'src>,
        scope: &'run Scope<'src, 'run>,
    ) -> Result<(Scope<'src, 'run>, Vec<String>, BTreeMap<String, String>), Error<'src>>
    where
        C: Fn(&Recipe<'src>, &Parameter<'src>, &Value) -> Result<(), CheckFault>,
        requires may_call { 0 < context.now.recursion_limit }
        requires callable { C.IsAlwaysCallable check.now }
        ensures { let h = recipe_start context.entry.now is_dependency recipe.entry.now scope.entry.now in
            Behaves freely H.step (GivesVerdict C.Fn check.entry.now recipe.entry.now) host.old
            (meant.parameters (dynamic_meanings (Some context.entry.now)) h.situation (recipe_view recipe.entry.now)
            (map recipe_parameter_view parameters.entry.now) arguments.entry.now)
            (ended arguments_view result) host.new }
    {
        let env = BTreeMap::new(alloc);
        let name = Some(recipe.name);
        let mut evaluator = Evaluator::new_by_dynamic_scoping(
            alloc,
            context,
            env,
            is_dependency,
            name,
            scope,
        )?;
        evaluator.evaluate_attributes(alloc, host, recipe)?;
        if arguments.len() != parameters.len() {
            return Err(Reason::Mismatched.error_at(alloc, &recipe.name));
        }
        let words = evaluator.bind_parameters(alloc, host, check, recipe, parameters, arguments)?;
        let Evaluator { env, scope, .. } = evaluator;
        Ok((scope, words, env))
    }

    // Sets the variables that `[env]` attributes give.
    fn evaluate_attributes<H: Host>(
        &mut self,
        alloc: Global,
        host: &mut H,
        recipe: &Recipe<'src>,
    ) -> Result<(), Error<'src>>
        requires may_call { MayCall self.old }
        ensures same { IsSameButScopeAndEnvironment self.old self.new × (self.new.scope ≡ self.old.scope) }
        ensures environment { Behaves (rules_of self.old) H.step unchecked host.old
            (meant.environment (dynamic_meanings self.old.context) (situation_of self.old)
            (recipe_view recipe.now).attributes) (ended (λ _. pairs_view self.new.env) result) host.new }
    {
        for (attribute, name) in recipe.attributes.iter() {
            if let Attribute::Env(key, value) = attribute {
                let context = StringContext::EnvKey(*name);
                let key = self.evaluate_string_by_dynamic_scoping(alloc, host, key, context)?;
                let value = self.evaluate_expression(alloc, host, value)?;
                self.set_variable(alloc, key, value)?;
            }
        }
        Ok(())
    }

    // Sets a variable to a joined value, if the value has an element.
    fn set_variable(&mut self, alloc: Global, key: String, value: Value) -> Result<(), OutOfMemory>
        ensures same { IsSameButScopeAndEnvironment self.old self.new × (self.new.scope ≡ self.old.scope) }
        ensures set { OnOk result (pairs_view self.new.env ≡ with_variable (pairs_view self.old.env)
            (string_bytes key) value) }
    {
        if !value.is_empty() {
            self.env.insert(key, value.join(alloc)?)?;
        }
        Ok(())
    }

    // Binds the parameters to their values, and returns the positional words.
    fn bind_parameters<H: Host, C>(
        &mut self,
        alloc: Global,
        host: &mut H,
        check: &C,
        recipe: &Recipe<'src>,
        parameters: &[Parameter<'src>],
        arguments: &[Value],
    ) -> Result<Vec<String>, Error<'src>>
    where
        C: Fn(&Recipe<'src>, &Parameter<'src>, &Value) -> Result<(), CheckFault>,
        requires may_call { MayCall self.old }
        requires based { is_some self.old.base ≡ true }
        requires callable { C.IsAlwaysCallable check.now }
        ensures { Behaves (rules_of self.old) H.step (GivesVerdict C.Fn check.entry.now recipe.entry.now) host.old
            (meant.bindings (dynamic_meanings self.old.context) (recipe_view recipe.entry.now).name.lexeme
            (situation_of self.old) [] (map recipe_parameter_view parameters.entry.now) arguments.entry.now)
            (ended (λ words. record {
              frames = frames_view self.new.scope;
              words = map string_bytes words.items;
              environment = pairs_view self.new.env;
            }) result) host.new }
    {
        let mut words = Vec::new(alloc);
        for (parameter, argument) in parameters.iter().zip(arguments) {
            let value = self.parameter_value(alloc, host, recipe, parameter, argument)?;
            let value = argument::checked(check, recipe, parameter, value)?;
            self.bind_parameter(alloc, &mut words, parameter, value)?;
        }
        Ok(words)
    }

    // The value of a parameter, before it is checked.
    fn parameter_value<H: Host>(
        &self,
        alloc: Global,
        host: &mut H,
        recipe: &Recipe<'src>,
        parameter: &Parameter<'src>,
        argument: &Value,
    ) -> Result<Value, Error<'src>>
        requires may_call { MayCall self.now }
        ensures { Behaves (rules_of self.now) H.step unchecked host.old
            (meant.valued (dynamic_meaning self.now) self.now.is_dependency (recipe_view recipe.now).name.lexeme
            (recipe_parameter_view parameter.now) argument.now) (ended (λ v. v) result) host.new }
    {
        if argument.is_empty() {
            return match &parameter.default {
                Some(default) => self.evaluate_expression(alloc, host, default),
                None => argument::no_element(alloc, parameter, recipe),
            };
        }
        match &parameter.value {
            Some(value) if !self.is_dependency => {
                let value = self.evaluate_expression(alloc, host, value)?;
                Ok(argument::repeated(alloc, &value, argument.len())?)
            }
            _ => Ok(argument.try_clone(alloc)?),
        }
    }

    // Binds a parameter to its value, and adds its words after the others.
    fn bind_parameter(
        &mut self,
        alloc: Global,
        words: &mut Vec<String>,
        parameter: &Parameter<'src>,
        value: Value,
    ) -> Result<(), OutOfMemory>
        ensures same { IsSameButScopeAndEnvironment self.old self.new × (self.new.env ≡ self.old.env) }
        ensures words { OnOk result (map string_bytes words.new.items ≡ map string_bytes words.old.items
            ++ words_of (recipe_parameter_view parameter.now) value) }
        ensures bound { OnOk result (frames_view self.new.scope ≡ bound_innermost (frames_view self.old.scope)
            (parameter_bound self.old.lists (recipe_parameter_view parameter.now) value)) }
    {
        let binding = argument::binding(alloc, self.lists, parameter, words, value)?;
        self.scope.bind(binding)?;
        Ok(())
    }
}
