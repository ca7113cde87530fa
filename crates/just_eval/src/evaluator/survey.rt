// Evaluation before any run that goes on after refusals.

ghost use Rattle.std.specs.Prelude.{IfOk, List, OnOk, [], map, ◌++◌, ◌∷◌, ◌≡◌};
ghost use Rattle.just_eval.specs.Prelude.{AreNotInternal, IsConst, IsResolvedConst, Staged, Survey};
ghost use Rattle.just_eval.specs.Prelude.{assignment_view, at_start, constants_of};
ghost use Rattle.just_eval.specs.Prelude.{frames_view, name_view, opened_for, refused_view, stage_outcome};
ghost use Rattle.just_eval.specs.Prelude.{stage_state_of, value_at};

use super::Evaluator;
use crate::const_survey::{ConstSurvey, RefusedConstant};
use just_syntax::assignment::Assignment;
use just_syntax::name::Name;
use just_syntax::number::Number;
use just_syntax::out_of_memory::OutOfMemory;
use just_syntax::table::Table;
use just_value::compile_error::CompileError;
use just_value::scope::Scope;
use std::alloc::Global;
use std::collections::{HashMap, HashSet};

impl<'src, 'run> Evaluator<'src, 'run> {
    /// Evaluates the referenced assignments before any run, as `evaluate_const_assignments`, and goes on after a
    /// refusal. So a linter gets all refusals of a module by one call. A refused variable counts as open: a variable
    /// that reads it is open too. For example `a := assert('x' == 'y')`, `b := a`, `c := 'z'` give one refusal, that
    /// of `a`; `b` is open, and `c` is settled.
    ///
    /// # Errors
    ///
    /// `OutOfMemory` if an allocation fails, or if forms nest too deeply for the stack budget: nothing is returned.
    pub fn survey_const_assignments(
        alloc: Global,
        assignments: &Table<Assignment<'src>>,
        evaluation_order: &[Name<'src>],
        overrides: &HashMap<Number, String>,
        scope: &'run Scope<'src, 'run>,
        variable_references: Option<&HashSet<Number>>,
        lists: bool,
    ) -> Result<ConstSurvey<'src, 'run>, OutOfMemory>
        // Each name is evaluated as in a stage of its own, after what was found before it.
        ensures headline { let m = constants_of assignments.now evaluation_order.now overrides.now
            variable_references.entry in
            IfOk result (λ survey. Survey m (at_start lists (frames_view scope.entry.now)) m.assignments.order
            (refused_view survey.refused.items) (stage_state_of survey.evaluator)) }
        ensures before_runs { IfOk result (λ survey. IsConst survey.evaluator) }

        // Its first refusal, or what it finds without one, is the outcome of `evaluate_const_assignments`.
        ensures stage { let m = constants_of assignments.now evaluation_order.now overrides.now
            variable_references.entry in
            IfOk result (λ survey. Staged m (at_start lists (frames_view scope.entry.now)) m.assignments.order
            (stage_outcome (refused_view survey.refused.items) (stage_state_of survey.evaluator))) }

        // If the stage is resolved, no refusal is `Internal`.
        ensures never_internal { let m = constants_of assignments.now evaluation_order.now overrides.now
            variable_references.entry in
            IfOk result (λ survey. IsResolvedConst m.assignments (frames_view scope.entry.now)
            → AreNotInternal (refused_view survey.refused.items)) }
    {
        let child = scope.child_with_capacity(alloc, evaluation_order.len())?;
        let mut evaluator = Evaluator::of_assignments(alloc, None, lists, child);
        let mut refused = Vec::new(alloc);
        for name in evaluation_order {
            evaluator.survey_named(
                alloc,
                assignments,
                overrides,
                variable_references,
                name,
                &mut refused,
            )?;
        }
        Ok(ConstSurvey { evaluator, refused })
    }

    // Settles or opens the assignment with a name, if it is referenced. A refusal is added to `refused`.
    fn survey_named(
        &mut self,
        alloc: Global,
        assignments: &Table<Assignment<'src>>,
        overrides: &HashMap<Number, String>,
        references: Option<&HashSet<Number>>,
        name: &Name<'src>,
        refused: &mut Vec<RefusedConstant<'src>>,
    ) -> Result<(), OutOfMemory>
        requires start { IsConst self.old }
        ensures same { IsConst self.new }
        ensures found { OnOk result ((order : List Name) → (rs : List _)
            × Survey (constants_of assignments.now order overrides.now references.entry) (stage_state_of self.old)
            (name_view name.now ∷ []) rs (stage_state_of self.new)
            × (refused_view refused.new.items ≡ refused_view refused.old.items ++ rs)) }
    {
        match self.evaluate_const_named(alloc, assignments, overrides, references, name) {
            Ok(()) => Ok(()),
            Err(CompileError::OutOfMemory) => Err(OutOfMemory),
            Err(CompileError::ConstEval { token: _, error }) => {
                self.open_named(assignments, name)?;
                refused.push(RefusedConstant { name: *name, error })?;
                Ok(())
            }
        }
    }

    // Opens the number of the assignment with a name, if there is one.
    fn open_named(
        &mut self,
        assignments: &Table<Assignment<'src>>,
        name: &Name<'src>,
    ) -> Result<(), OutOfMemory>
        requires start { IsConst self.old }
        ensures same { IsConst self.new }
        ensures opened { OnOk result (stage_state_of self.new ≡ opened_for (stage_state_of self.old)
            (value_at (λ a. a.name.lexeme) (name_view name.now).lexeme (map assignment_view assignments.now))) }
    {
        if let Some(assignment) = assignments.get(name.lexeme()) {
            self.non_const_assignments.insert(assignment.number)?;
        }
        Ok(())
    }
}
