// Evaluates the assignments of a module.

ghost use Rattle.std.specs.Prelude.{IfErr, OnErr, Some, [], false, is_some, map, max, ℕ, ◌<◌, ◌∷◌, ◌≡◌};
ghost use Rattle.std.specs.Option.{ForSome};
ghost use Rattle.just_eval.specs.Prelude.{Assigned, GoesByAnswers, IfRefused, IsAtStart, IsConst, IsConstEval, IsFinal};
ghost use Rattle.just_eval.specs.Prelude.{IsInRun, IsNotInternal, IsResolvedRun, IsResolvedOn, IsSameButScope};
ghost use Rattle.just_eval.specs.Prelude.{Behaves, MayCall, MayCallIn, Resolves, UnlessStopped, assignment_view};
ghost use Rattle.just_eval.specs.Prelude.{bound_of, bound_view, calls_left_of, const_value, dynamic_meaning};
ghost use Rattle.just_eval.specs.Prelude.{dynamically, ended, exports_all, frames_view, freely, innermost};
ghost use Rattle.just_eval.specs.Prelude.{lexical_meaning, lexically, module_view, name_view, or_override, program};
ghost use Rattle.just_eval.specs.Prelude.{program_of, refusal, rules, rules_of, run_of, situation, situation_of};
ghost use Rattle.just_eval.specs.Prelude.{run, stage_state_of, text_numbered, turn, unchecked, view, with_limit};

mod commands;
mod constants;
mod lines;
mod parameters;
mod recipe_lines;
mod sets;
mod survey;

use just_expression::evaluator::ExpressionEvaluator;
use just_expression::internal::Reason;
use just_host::config::Config;
use just_host::execution_context::ExecutionContext;
use just_host::host::Host;
use just_host::justfile::Justfile;
use just_host::search::Search;
use just_resolution::references::is_referenced;
use just_syntax::assignment::Assignment;
use just_syntax::attribute_set::AttributeSet;
use just_syntax::expression::Expression;
use just_syntax::name::Name;
use just_syntax::number::Number;
use just_value::binding::Binding;
use just_value::error::Error;
use just_value::scope::Scope;
use just_value::value::Value;
use std::alloc::Global;
use std::collections::{BTreeMap, HashMap, HashSet};
use std::{fmt, mem};

/// Evaluates the assignments of a module, one after another, in a scope of its own.
///
/// The stack budget of an evaluation, in bytes, is what the host's `stack_budget` returns. By default, and in calls
/// without a host, it is `STACK_BUDGET`, which suits a stack of 8 MiB. If forms and calls nest too deeply for the
/// budget, evaluation fails with `OutOfMemory`, with a context and without.
#[derive(Drop)]
pub struct Evaluator<'src, 'run> {
    // The scope below a called body's; `None` if that is `scope`.
    base: Option<&'run Scope<'src, 'run>>,
    // What is fixed in a run. Before any run there is none, and the const rules apply.
    context: Option<ExecutionContext<'src, 'run>>,
    env: BTreeMap<String, String>,
    is_dependency: bool,
    lists: bool,
    non_const_assignments: HashSet<Number>,
    recipe: Option<Name<'src>>,
    scope: Scope<'src, 'run>,
}

impl<'src, 'run> Evaluator<'src, 'run> {
    /// Evaluates the assignments of a module in its evaluation order, and returns a child of `parent` with their
    /// bindings. If `variable_references` is given, only those assignments are evaluated. Upstream's
    /// `Evaluator::evaluate_assignments`.
    ///
    /// A number that `parent` binds, or that is already bound, is neither evaluated nor overridden. Otherwise an
    /// override is one element; without one, the expression is evaluated, and the host is asked what it reaches.
    /// `recursion_limit` is one more than the number of calls that may be pending, so it is at least 1.
    ///
    /// # Errors
    ///
    /// The first refusal ends the run: a failed assertion (`Assert`), a command's fault (`Backtick`), lists that cannot
    /// be combined (`ListOperation`), a regular expression operator (`LeftOutRegex`), too many pending calls
    /// (`RecursionLimit`). A built-in function is refused with its own message (`FunctionCall`), for a list where it
    /// takes one text (`ListInStringContext`), or because it is left out (`LeftOut`). On an unresolved module the
    /// refusal may also be `Internal`. `OutOfMemory` if an allocation fails, if the host reports it, or if forms and
    /// calls nest too deeply for the stack budget (see `Evaluator`).
    ///
    /// A refusal returns no scope: the bindings are dropped. Questions already asked are not undone.
    pub fn evaluate_assignments<H: Host>(
        alloc: Global,
        host: &mut H,
        config: &'run Config,
        dotenv: &'run BTreeMap<String, String>,
        module: &'run Justfile<'src>,
        overrides: &'run HashMap<Number, String>,
        parent: &'run Scope<'src, 'run>,
        search: &'run Search,
        recursion_limit: usize,
        variable_references: Option<&HashSet<Number>>,
    ) -> Result<Scope<'src, 'run>, Error<'src>>
        requires may_call { 0 < recursion_limit }

        // On a resolved module the scope or the refusal, and the questions asked, are those of lexical scope.
        ensures headline { let m = run_of config.entry dotenv.entry «module».entry overrides.entry parent.entry
            search.entry recursion_limit variable_references.entry in
            let outer = frames_view parent.entry.now in
            IsResolvedRun m outer
            → Behaves freely H.step unchecked host.old (run lexically m ([] ∷ outer) m.assignments.order)
            (ended frames_view result) host.new }
        ensures never_internal { let m = run_of config.entry dotenv.entry «module».entry overrides.entry parent.entry
            search.entry recursion_limit variable_references.entry in
            IsResolvedRun m (frames_view parent.entry.now) → IsNotInternal (ended frames_view result) }

        // On any module they are those of dynamic scope: a body reads from its caller what is neither its own nor the
        // module's.
        ensures dynamic { let m = run_of config.entry dotenv.entry «module».entry overrides.entry parent.entry
            search.entry recursion_limit variable_references.entry in
            Behaves freely H.step unchecked host.old
            (run dynamically m ([] ∷ frames_view parent.entry.now) m.assignments.order)
            (ended frames_view result) host.new }

        // On any module the refusal is never `Const`, and only answered questions change the host's state.
        ensures never_const { IfRefused IsFinal (ended frames_view result) }
        ensures answered { GoesByAnswers H.step host.old host.new }
    {
        let context = ExecutionContext {
            config,
            dotenv,
            module,
            overrides,
            recursion_limit,
            scope: parent,
            search,
        };
        Evaluator::run(
            alloc,
            host,
            &context,
            variable_references,
            &module.evaluation_order,
        )
    }

    // Evaluates the referenced assignments with these names. Below its own parameters a body reads what its caller
    // reads.
    fn run<H: Host>(
        alloc: Global,
        host: &mut H,
        context: &ExecutionContext<'src, 'run>,
        references: Option<&HashSet<Number>>,
        names: &[Name<'src>],
    ) -> Result<Scope<'src, 'run>, Error<'src>>
        requires may_call { 0 < context.now.recursion_limit }
        ensures { Behaves freely H.step unchecked host.old
            (run dynamically (module_view context.now references.entry) ([] ∷ frames_view context.now.scope.now)
            (map name_view names.entry.now))
            (ended frames_view result) host.new }
    {
        let bindings = most_bound(references, names);
        let scope = context.scope.child_with_capacity(alloc, bindings)?;
        let lists = context.module.settings.lists;
        let mut evaluator = Evaluator::of_assignments(alloc, Some(*context), lists, scope);
        for name in names {
            evaluator.evaluate_named(alloc, host, context, references, name)?;
        }
        let Evaluator { scope, .. } = evaluator;
        Ok(scope)
    }

    // Evaluates the assignment with this name in a scope, by an evaluator of its own. A recursion limit of 0 acts as 1.
    pub(crate) fn evaluate_step<H: Host>(
        scope: &mut Scope<'src, 'run>,
        alloc: Global,
        host: &mut H,
        context: &ExecutionContext<'src, 'run>,
        references: Option<&HashSet<Number>>,
        name: &Name<'src>,
    ) -> Result<(), Error<'src>>
        ensures kept { OnErr result (frames_view scope.new ≡ frames_view scope.old) }
        ensures ran { Behaves freely H.step unchecked host.old
            (turn dynamically (module_view context.now references.entry) (frames_view scope.old) (name_view name.now))
            (ended (λ _. frames_view scope.new) result) host.new }
    {
        let context = with_some_limit(context);
        let own = mem::replace(scope, context.scope.child(alloc)?);
        let has_lists = context.module.settings.lists;
        let mut evaluator = Evaluator::of_assignments(alloc, Some(context), has_lists, own);
        let result = evaluator.evaluate_named(alloc, host, &context, references, name);
        let Evaluator { scope: own, .. } = evaluator;
        *scope = own;
        result
    }

    // Evaluates the assignment with this name, if it is referenced and its number is not bound.
    #[inline(always)]
    fn evaluate_named<H: Host>(
        &mut self,
        alloc: Global,
        host: &mut H,
        context: &ExecutionContext<'src, 'run>,
        references: Option<&HashSet<Number>>,
        name: &Name<'src>,
    ) -> Result<(), Error<'src>>
        requires start { IsAtStart self.old }
        requires here { self.old.context ≡ Some context.now }
        requires lists { self.old.lists ≡ context.now.«module».now.settings.lists }
        ensures same { IsSameButScope self.old self.new × IsAtStart self.new }
        ensures kept { OnErr result (frames_view self.new.scope ≡ frames_view self.old.scope) }
        ensures ran { Behaves freely H.step unchecked host.old
            (turn dynamically (module_view context.now references.entry) (frames_view self.old.scope)
            (name_view name.now))
            (ended (λ _. frames_view self.new.scope) result) host.new }
    {
        let Some(assignment) = context.module.assignments.get(name.lexeme()) else {
            return Err(Reason::UnknownAssignment.error_at(alloc, name));
        };
        if !is_referenced(references, assignment.number) {
            return Ok(());
        }
        self.evaluate_assignment(alloc, host, context.overrides, assignment)
    }

    // An evaluator of assignments in a scope, for no recipe: in a run with its context, before any run without one. No
    // number is open.
    fn of_assignments(
        alloc: Global,
        context: Option<ExecutionContext<'src, 'run>>,
        lists: bool,
        scope: Scope<'src, 'run>,
    ) -> Evaluator<'src, 'run>
        requires may_call { MayCallIn context }
        ensures start { IsAtStart result }
        ensures context { result.context ≡ context.entry }
        ensures lists { result.lists ≡ lists }
        ensures frames { frames_view result.scope ≡ frames_view scope.entry }
        ensures none_open { (n : ℕ) → (stage_state_of result).is_open n ≡ false }
    {
        Evaluator {
            base: None,
            context,
            env: BTreeMap::new(alloc),
            is_dependency: false,
            lists,
            non_const_assignments: HashSet::new(alloc),
            recipe: None,
            scope,
        }
    }

    /// The value of an expression under the current bindings. Upstream's `Evaluator::evaluate_value`.
    ///
    /// # Errors
    ///
    /// The first refusal of a part, in the order of the parts, of the kinds listed at `evaluate_assignments`.
    /// `OutOfMemory` if an allocation fails, if the host reports it, or if forms and calls nest too deeply for the
    /// stack budget. On an evaluator from `evaluate_const_assignments` the const rules apply, and the host is not
    /// asked: the first call, command or open variable is refused with `Const`.
    ///
    /// A refusal leaves the evaluator unchanged. Questions already asked are not undone.
    pub fn evaluate_value<H: Host>(
        &self,
        alloc: Global,
        host: &mut H,
        expression: &Expression<'src>,
    ) -> Result<Value, Error<'src>>
        requires may_call { MayCall self.now }

        // In a run, if everything reached is resolved, the value or the refusal, and the questions asked, are those of
        // lexical scope.
        ensures headline { Resolves self.now (view expression.now ∷ [])
            → Behaves freely H.step unchecked host.old (lexical_meaning self.now (view expression.now))
            (ended (λ v. v) result) host.new }
        ensures never_internal { Resolves self.now (view expression.now ∷ []) → IsNotInternal (ended (λ v. v) result) }

        // Resolved or not, they are those of dynamic scope.
        ensures dynamic { Behaves (rules_of self.now) H.step unchecked host.old
            (dynamic_meaning self.now (view expression.now))
            (ended (λ v. v) result) host.new }

        // Resolved or not, the refusal in a run is never `Const`, and only answered questions change the host's state.
        ensures never_const { IsInRun self.now → IfRefused IsFinal (ended (λ v. v) result) }
        ensures answered { GoesByAnswers H.step host.old host.new }

        // Before any run the result is that of the const rules, and nothing is asked. If each variable is bound or
        // open, the refusal is not `Internal`.
        ensures constants { IsConst self.now
            → UnlessStopped (ended (λ v. v) result) (const_value (stage_state_of self.now) (view expression.now)) }
        ensures few { IsConst self.now → IfErr result (λ e. ForSome (refusal e) IsConstEval) }
        ensures still { IsConst self.now → host.new ≡ host.old }
        ensures resolved_constants { IsConst self.now → IsResolvedOn (stage_state_of self.now) (view expression.now)
            → IsNotInternal (ended (λ v. v) result) }
    {
        self.evaluate_expression(alloc, host, expression)
    }

    // Binds the value of an assignment, if its number is not bound. Out of line, and shared by runs and const stages.
    #[inline(never)]
    fn evaluate_assignment<H: Host>(
        &mut self,
        alloc: Global,
        host: &mut H,
        overrides: &HashMap<Number, String>,
        assignment: &Assignment<'src>,
    ) -> Result<(), Error<'src>>
        requires start { IsAtStart self.old }
        ensures same { IsSameButScope self.old self.new × IsAtStart self.new }
        ensures kept { OnErr result (frames_view self.new.scope ≡ frames_view self.old.scope) }
        ensures assigned { let a = assignment_view assignment.now in
            Assigned (rules_of self.old) H.step host.old
            (or_override (text_numbered overrides.now a.number) (dynamic_meaning self.old a.value))
            (exports_all self.old) a (frames_view self.old.scope) (ended (λ _. frames_view self.new.scope) result)
            host.new }
    {
        if self.is_bound(assignment.number) {
            return Ok(());
        }
        let value = self.assigned_value(alloc, host, overrides, assignment)?;
        let binding = self.binding_of(alloc, assignment, value);
        self.scope.bind(binding)?;
        Ok(())
    }

    // Whether a number is bound, in this scope or outside it.
    fn is_bound(&self, number: Number) -> bool
        ensures { result ≡ is_some (innermost number (frames_view self.now.scope)) }
    {
        self.scope.binding(number).is_some()
    }

    // The value of an assignment: an override, or the value of its expression.
    fn assigned_value<H: Host>(
        &self,
        alloc: Global,
        host: &mut H,
        overrides: &HashMap<Number, String>,
        assignment: &Assignment<'src>,
    ) -> Result<Value, Error<'src>>
        requires start { IsAtStart self.now }
        ensures { Behaves (rules_of self.now) H.step unchecked host.old
            (or_override (text_numbered overrides.now assignment.now.number)
            (dynamic_meaning self.now (view assignment.now.value))) (ended (λ v. v) result) host.new }
    {
        match overrides.get(&assignment.number) {
            Some(text) => Ok(Value::from_text(alloc, text)?),
            None => self.evaluate_expression(alloc, host, &assignment.value),
        }
    }

    // The value of an expression under the bindings so far.
    fn evaluate_expression<H: Host>(
        &self,
        alloc: Global,
        host: &mut H,
        expression: &Expression<'src>,
    ) -> Result<Value, Error<'src>>
        requires may_call { MayCall self.now }
        ensures { Behaves (rules_of self.now) H.step unchecked host.old (dynamic_meaning self.now (view expression.now))
            (ended (λ v. v) result) host.new }
    {
        let budget = host.stack_budget();
        self.expression_evaluator()
            .evaluate_value(alloc, host, expression, budget)
    }

    // An evaluator of expressions under the bindings so far.
    fn expression_evaluator(&self) -> ExpressionEvaluator<'src, 'run, '_>
        requires may_call { MayCall self.now }
        ensures rules { rules result ≡ rules_of self.now }
        ensures program { program result ≡ program_of self.now.context }
        ensures calls { result.calls_left ≡ calls_left_of self.now }
        ensures situation { situation result ≡ situation_of self.now }
    {
        ExpressionEvaluator {
            context: self.context.as_ref(),
            calls_left: self.calls_left(),
            env: &self.env,
            is_dependency: self.is_dependency,
            lists: self.lists,
            non_const_assignments: &self.non_const_assignments,
            recipe: self.recipe.as_ref(),
            scope: &self.scope,
            below: match self.base {
                Some(base) => base,
                None => &self.scope,
            },
        }
    }

    // How many calls may be pending. Before any run no call is entered.
    fn calls_left(&self) -> usize
        requires may_call { MayCall self.now }
        ensures { result ≡ calls_left_of self.now }
    {
        match &self.context {
            Some(context) => context.recursion_limit - 1,
            None => 0,
        }
    }

    // The binding of an assignment. Before any run no setting exports every variable.
    fn binding_of(
        &self,
        alloc: Global,
        assignment: &Assignment<'src>,
        value: Value,
    ) -> Binding<'src>
        ensures { bound_view result ≡ bound_of (exports_all self.now) (assignment_view assignment.now) value }
    {
        Binding {
            attributes: AttributeSet::new(alloc),
            eager: assignment.eager,
            export: assignment.export || self.exports_all(),
            file_depth: 0,
            name: assignment.name,
            number: assignment.number,
            prelude: false,
            private: assignment.private,
            value,
        }
    }

    // Whether a setting exports every variable.
    fn exports_all(&self) -> bool
        ensures { result ≡ exports_all self.now }
    {
        match &self.context {
            Some(context) => context.module.settings.export,
            None => false,
        }
    }
}

// The context with a recursion limit of at least 1.
fn with_some_limit<'src, 'run>(
    context: &ExecutionContext<'src, 'run>,
) -> ExecutionContext<'src, 'run>
    ensures { result ≡ with_limit (max context.now.recursion_limit 1) context.now }
{
    ExecutionContext {
        recursion_limit: context.recursion_limit.max(1),
        ..*context
    }
}

// How many assignments a run may bind: each once, and only those that are referenced.
fn most_bound(references: Option<&HashSet<Number>>, names: &[Name]) -> usize {
    match references {
        Some(numbers) => numbers.len().min(names.len()),
        None => names.len(),
    }
}

// Each field by its name, then the scopes and the context. The format is unspecified.
impl fmt::Debug for Evaluator<'_, '_> {
    fn fmt<W: fmt::Write>(&self, f: &mut fmt::Formatter<W>) -> fmt::Result {
        f.debug_struct("Evaluator")
            .field("env", &self.env)
            .field("is_dependency", &self.is_dependency)
            .field("lists", &self.lists)
            .field("non_const_assignments", &self.non_const_assignments)
            .field("recipe", &self.recipe)
            .finish()?;
        f.write_str(" with scope ")?;
        fmt::Debug::fmt(&self.scope, f)?;
        if let Some(base) = self.base {
            f.write_str(" on ")?;
            fmt::Debug::fmt(base, f)?;
        }
        if let Some(context) = self.context {
            f.write_str(" with ")?;
            fmt::Debug::fmt(&context, f)?;
        }
        Ok(())
    }
}
