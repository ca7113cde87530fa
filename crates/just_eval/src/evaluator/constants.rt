// Evaluation before any run: which assignments are settled, and what expressions evaluate to.

ghost use Rattle.std.specs.Prelude.{IfErr, IfOk, List, OnErr, [], string_bytes, ◌∷◌, ◌≡◌};
ghost use Rattle.std.specs.BTreeMap.{IsEmpty};
ghost use Rattle.std.specs.Option.{ForSome};
ghost use Rattle.just_eval.specs.Prelude.{Expr, HasOwnToken, IsConst, IsConstEval, IsNotInternal, IsResolvedConst};
ghost use Rattle.just_eval.specs.Prelude.{IsResolvedOn, OpensOrEnds, Staged, UnlessStopped, and_then, at_start};
ghost use Rattle.just_eval.specs.Prelude.{const_ended, const_meaning, const_value, constantly, constants_of, ended};
ghost use Rattle.just_eval.specs.Prelude.{frames_view, meaning, name_view, refusal, rules, stage_state_of};
ghost use Rattle.just_eval.specs.Prelude.{string_context_view, text_in, view};

use super::Evaluator;
use just_expression::evaluator::ExpressionEvaluator;
use just_expression::internal::Reason;
use just_expression::text::one_text;
use just_expression::variable;
use just_host::host::Host;
use just_host::no_host::NoHost;
use just_resolution::references::is_referenced;
use just_syntax::assignment::Assignment;
use just_syntax::expression::Expression;
use just_syntax::name::Name;
use just_syntax::number::Number;
use just_syntax::string_context::StringContext;
use just_syntax::table::Table;
use just_value::compile_error::CompileError;
use just_value::error::Error;
use just_value::scope::Scope;
use just_value::value::Value;
use std::alloc::Global;
use std::collections::{BTreeMap, HashMap, HashSet};

impl<'src, 'run> Evaluator<'src, 'run> {
    /// Evaluates the referenced assignments before any run, in their evaluation order, and returns an evaluator whose
    /// scope is a child of `scope` with the settled values. It asks nothing. Upstream's
    /// `Evaluator::evaluate_const_assignments`.
    ///
    /// A number that `scope` binds, or that is already bound or open, is skipped. Otherwise an override settles it;
    /// without one, its expression does, unless evaluation reaches a call, a command or an open variable. In that case
    /// the number is open, and the stage continues. The contents of a branch that is not taken do not matter.
    ///
    /// # Errors
    ///
    /// Any other refusal ends the stage, as `ConstEval`: a failed assertion, lists that cannot be combined, or a
    /// regular expression operator; if the stage is not resolved, also `Internal`. `OutOfMemory` if an allocation
    /// fails, or if forms nest too deeply for the stack budget. In each case no evaluator is returned.
    pub fn evaluate_const_assignments(
        alloc: Global,
        assignments: &Table<Assignment<'src>>,
        evaluation_order: &[Name<'src>],
        overrides: &HashMap<Number, String>,
        scope: &'run Scope<'src, 'run>,
        variable_references: Option<&HashSet<Number>>,
        lists: bool,
    ) -> Result<Evaluator<'src, 'run>, CompileError<'src>>
        // The settled and the open numbers, or the refusal, are those of the const rules.
        ensures headline { let m = constants_of assignments.now evaluation_order.now overrides.now
            variable_references.entry in
            Staged m (at_start lists (frames_view scope.entry.now)) m.assignments.order
            (const_ended stage_state_of result) }
        ensures before_runs { IfOk result IsConst }
        ensures never_internal { let m = constants_of assignments.now evaluation_order.now overrides.now
            variable_references.entry in
            IsResolvedConst m.assignments (frames_view scope.entry.now)
            → IsNotInternal (const_ended stage_state_of result) }

        // A refusal carries its own token.
        ensures token { IfErr result HasOwnToken }
    {
        let child = scope.child_with_capacity(alloc, evaluation_order.len())?;
        let mut evaluator = Evaluator::of_assignments(alloc, None, lists, child);
        for name in evaluation_order {
            evaluator.evaluate_const_named(
                alloc,
                assignments,
                overrides,
                variable_references,
                name,
            )?;
        }
        Ok(evaluator)
    }

    // Settles or opens the assignment with a name, if it is referenced.
    pub(super) fn evaluate_const_named(
        &mut self,
        alloc: Global,
        assignments: &Table<Assignment<'src>>,
        overrides: &HashMap<Number, String>,
        references: Option<&HashSet<Number>>,
        name: &Name<'src>,
    ) -> Result<(), CompileError<'src>>
        requires start { IsConst self.old }
        ensures same { IsConst self.new }
        ensures staged { (order : List Name)
            → Staged (constants_of assignments.now order overrides.now references.entry) (stage_state_of self.old)
            (name_view name.now ∷ []) (const_ended (λ _. stage_state_of self.new) result) }
        ensures kept { OnErr result (stage_state_of self.new ≡ stage_state_of self.old) }
        ensures token { IfErr result HasOwnToken }
    {
        let Some(assignment) = assignments.get(name.lexeme()) else {
            let error = Reason::UnknownAssignment.error_at(alloc, name);
            return Err(error.unwrap_const());
        };
        if !is_referenced(references, assignment.number) {
            return Ok(());
        }
        if self.is_open(assignment.number) {
            return Ok(());
        }
        match self.evaluate_assignment(alloc, &mut NoHost, overrides, assignment) {
            Ok(()) => Ok(()),
            Err(error) => self.open_or_end(assignment.number, error),
        }
    }

    // Opens a number whose expression only a run can evaluate; any other refusal ends the stage. Out of line, to keep
    // the frame of the settled case small.
    #[cold]
    #[inline(never)]
    fn open_or_end(&mut self, number: Number, error: Error<'src>) -> Result<(), CompileError<'src>>
        requires start { IsConst self.old }
        requires few { ForSome (refusal error) IsConstEval }
        ensures same { IsConst self.new }
        ensures ended { OpensOrEnds (refusal error.entry) (stage_state_of self.old) number
            (const_ended (λ _. stage_state_of self.new) result) }
        ensures kept { OnErr result (stage_state_of self.new ≡ stage_state_of self.old) }
        ensures token { IfErr result HasOwnToken }
    {
        match error {
            Error::Const(_) => {
                self.non_const_assignments.insert(number)?;
                Ok(())
            }
            error => Err(error.unwrap_const()),
        }
    }

    /// The value of an expression by the const rules, under what is settled and what is open. It asks nothing. On an
    /// evaluator of a run its bindings are settled, and nothing is open. Upstream's `Evaluator::evaluate_value_const`.
    ///
    /// # Errors
    ///
    /// The first refusal, as `ConstEval`: `Const` at the first call, command or open variable; a failed assertion;
    /// lists that cannot be combined; a regular expression operator; if a variable has no number or no value, also
    /// `Internal`. `OutOfMemory` if an allocation fails, or if forms nest too deeply for the stack budget. The
    /// evaluator is unchanged.
    pub fn evaluate_value_const(
        &self,
        alloc: Global,
        expression: &Expression<'src>,
    ) -> Result<Value, CompileError<'src>>
        ensures headline { UnlessStopped (const_ended (λ v. v) result)
            (const_value (stage_state_of self.now) (view expression.now)) }
        ensures never_internal { IsResolvedOn (stage_state_of self.now) (view expression.now)
            → IsNotInternal (const_ended (λ v. v) result) }
        ensures token { IfErr result HasOwnToken }
    {
        match self.constant_value(alloc, expression) {
            Ok(value) => Ok(value),
            Err(error) => Err(error.unwrap_const()),
        }
    }

    // The value of an expression by the const rules.
    fn constant_value(
        &self,
        alloc: Global,
        expression: &Expression<'src>,
    ) -> Result<Value, Error<'src>>
        ensures constants { UnlessStopped (ended (λ v. v) result)
            (const_value (stage_state_of self.now) (view expression.now)) }
        ensures few { IfErr result (λ e. ForSome (refusal e) IsConstEval) }
        ensures resolved_constants { IsResolvedOn (stage_state_of self.now) (view expression.now)
            → IsNotInternal (ended (λ v. v) result) }
    {
        let env = BTreeMap::new(alloc);
        let budget = NoHost.stack_budget();
        Evaluator::constant_evaluator(&*self, &env).evaluate_value(
            alloc,
            &mut NoHost,
            expression,
            budget,
        )
    }

    // An evaluator of expressions by the const rules, with an empty environment.
    fn constant_evaluator<'here>(
        &'here self,
        env: &'here BTreeMap<String, String>,
    ) -> ExpressionEvaluator<'src, 'run, 'here>
        requires empty { IsEmpty env.now }
        ensures rules { rules result ≡ constantly (stage_state_of self.now).is_open }
        ensures meaning { (e : Expr) → meaning result e ≡ const_meaning (stage_state_of self.now) e }
    {
        ExpressionEvaluator {
            context: None,
            calls_left: 0,
            env,
            is_dependency: false,
            lists: self.lists,
            non_const_assignments: &self.non_const_assignments,
            recipe: None,
            scope: &self.scope,
            below: &self.scope,
        }
    }

    /// The text of an expression by the const rules, where a single text is required, as `evaluate_value_const` has its
    /// value. It asks nothing. Upstream's `Evaluator::evaluate_string_const`.
    ///
    /// # Errors
    ///
    /// Those of `evaluate_value_const`, including `OutOfMemory`. `ListInStringContext` if the value does not have
    /// exactly one element. The evaluator is unchanged.
    pub fn evaluate_string_const(
        &self,
        alloc: Global,
        expression: &Expression<'src>,
        context: StringContext<'src>,
    ) -> Result<String, CompileError<'src>>
        ensures headline { UnlessStopped (const_ended string_bytes result)
            (and_then (const_value (stage_state_of self.now) (view expression.now))
            (text_in (string_context_view context.entry))) }
        ensures never_internal { IsResolvedOn (stage_state_of self.now) (view expression.now)
            → IsNotInternal (const_ended string_bytes result) }
        ensures token { IfErr result HasOwnToken }
    {
        let value = self.evaluate_value_const(alloc, expression)?;
        match one_text(value, context) {
            Ok(text) => Ok(text.into_string(alloc)?),
            Err(error) => Err(error.unwrap_const()),
        }
    }

    /// The bindings: the settled values, in a child of the scope that the evaluator was created with.
    pub fn scope(&self) -> &Scope<'src, 'run>
        ensures { frames_view result.now ≡ (stage_state_of self.now).frames }
    {
        &self.scope
    }

    /// Whether an assignment's number is open: its expression reaches a call, a command or an open variable, so that
    /// only a run determines its value. It does not allocate.
    pub fn is_open(&self, number: Number) -> bool
        ensures { result ≡ (stage_state_of self.now).is_open number }
    {
        variable::is_open(&self.non_const_assignments, number)
    }
}
