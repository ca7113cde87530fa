// The output of a stage before any run.

ghost use Rattle.std.specs.Prelude.{IfOk, IsTrue, OnOk, flat_map, map, option_map, string_bytes, ◌++◌, ◌↔◌, ◌≡◌, ◌≤◌};
ghost use Rattle.just_bench.specs.Prelude.{Added, ConstPrints, IsResolvedConst, Staged, assigned_in, assignment_view};
ghost use Rattle.just_bench.specs.Prelude.{at_start, case_constants, case_view, const_ended, const_references};
ghost use Rattle.just_bench.specs.Prelude.{frames_view, name_view, number_set_view, stage_lines, stage_state_of};
ghost use Rattle.just_bench.specs.Prelude.{stage_view, status_of, taken_view, variable_line};

use crate::print::{print_const_refusal, print_open, print_value};
use crate::run::print_unless_resolved;
use crate::taken::taken_variables;
use just_case_reader::case::Case;
use just_eval::evaluator::Evaluator;
use just_eval::resolved_const;
use just_syntax::assignment::Assignment;
use just_syntax::name::Name;
use just_syntax::number::Number;
use just_syntax::out_of_memory::OutOfMemory;
use just_syntax::table::Table;
use just_value::compile_error::CompileError;
use just_value::scope::Scope;
use std::alloc::Global;
use std::collections::{HashMap, HashSet};

// The arguments of a stage before any run, except the scope.
#[derive(Drop)]
struct Stage<'src> {
    assignments: Table<Assignment<'src>>,
    evaluation_order: Vec<Name<'src>>,
    lists: bool,
    overrides: HashMap<Number, String>,
    references: HashSet<Number>,
}

/// Evaluates a case before any run, by the const rules, in a scope whose bindings it can read. Adds its output, and
/// returns the exit status. There is no host, so nothing is asked.
pub(crate) fn evaluate_const<'src>(
    alloc: Global,
    text: &mut String,
    case: Case<'src>,
    parent: &Scope<'src, '_>,
) -> Result<u8, OutOfMemory>
    ensures status { IfOk result (λ status. status ≤ 2) }
    ensures answer { IfOk result (λ status. Added (string_bytes text.old) (string_bytes text.new) (λ printed.
        ConstPrints (case_view case.entry) (frames_view parent.entry.now) printed status)) }
{
    let stage = Stage::of_case(alloc, case)?;
    let resolved = stage.is_resolved(alloc, parent)?;
    print_unless_resolved(text, resolved)?;
    let outcome = stage.evaluate(alloc, parent);
    stage.print_outcome(alloc, text, &outcome)
}

impl<'src> Stage<'src> {
    // The stage of a case, in its order.
    fn of_case(alloc: Global, case: Case<'src>) -> Result<Stage<'src>, OutOfMemory>
        ensures constants { IfOk result (λ stage. stage_view stage ≡ case_constants (case_view case.entry)) }
        ensures lists { IfOk result (λ stage. stage.lists ≡ case.entry.lists) }
    {
        let references = case_references(alloc, case.references, &case.assignments)?;
        Ok(Stage {
            assignments: case.assignments,
            evaluation_order: case.evaluation_order,
            lists: case.lists,
            overrides: case.overrides,
            references,
        })
    }

    // Whether the stage is resolved in a scope.
    fn is_resolved(&self, alloc: Global, parent: &Scope<'src, '_>) -> Result<bool, OutOfMemory>
        ensures { IfOk result (λ answer. IsTrue answer ↔ IsResolvedConst (stage_view self.now).assignments
            (frames_view parent.now)) }
    {
        resolved_const(
            alloc,
            &self.assignments,
            &self.evaluation_order,
            parent,
            Some(&self.references),
        )
    }

    // Evaluates the stage in a scope whose bindings it can read.
    fn evaluate<'run>(
        &'run self,
        alloc: Global,
        parent: &'run Scope<'src, 'run>,
    ) -> Result<Evaluator<'src, 'run>, CompileError<'src>>
        ensures { let m = stage_view self.now in
            Staged m (at_start self.now.lists (frames_view parent.entry.now)) m.assignments.order
            (const_ended stage_state_of result) }
    {
        Evaluator::evaluate_const_assignments(
            alloc,
            &self.assignments,
            &self.evaluation_order,
            &self.overrides,
            parent,
            Some(&self.references),
            self.lists,
        )
    }

    // Adds the taken variables, or the refusal, and returns the exit status.
    fn print_outcome(
        &self,
        alloc: Global,
        text: &mut String,
        outcome: &Result<Evaluator<'src, '_>, CompileError<'src>>,
    ) -> Result<u8, OutOfMemory>
        ensures printed { OnOk result (string_bytes text.new ≡ string_bytes text.old ++ stage_lines
            (stage_view self.now) (const_ended stage_state_of outcome.now)) }
        ensures status { IfOk result (λ status. status ≤ 2) }
        ensures ends { IfOk result (λ status. status ≡ status_of (const_ended stage_state_of outcome.now)) }
    {
        match outcome {
            Ok(evaluator) => {
                let references = Some(&self.references);
                let order = &self.evaluation_order;
                let taken = taken_variables(alloc, &self.assignments, order, references)?;
                print_settled(evaluator, text, &taken)?;
                Ok(0)
            }
            Err(refusal) => {
                print_const_refusal(text, refusal)?;
                Ok(2)
            }
        }
    }
}

// The variables that a case references: those that it lists, or else all that it assigns.
fn case_references(
    alloc: Global,
    determined: Option<HashSet<Number>>,
    assignments: &Table<Assignment>,
) -> Result<HashSet<Number>, OutOfMemory>
    ensures { IfOk result (λ references. number_set_view references
        ≡ const_references (option_map number_set_view determined) (map assignment_view assignments.now)) }
{
    match determined {
        Some(references) => Ok(references),
        None => assigned_numbers(alloc, assignments),
    }
}

// The numbers of assignments.
fn assigned_numbers(
    alloc: Global,
    assignments: &Table<Assignment>,
) -> Result<HashSet<Number>, OutOfMemory>
    ensures { IfOk result (λ numbers. number_set_view numbers ≡ assigned_in (map assignment_view assignments.now)) }
{
    let mut numbers = HashSet::with_capacity(alloc, assignments.len())?;
    for assignment in assignments {
        numbers.insert(assignment.number)?;
    }
    Ok(numbers)
}

// Adds a line on each of these variables.
fn print_settled(
    evaluator: &Evaluator,
    text: &mut String,
    taken: &[(&Name, Number)],
) -> Result<(), OutOfMemory>
    ensures { OnOk result (string_bytes text.new ≡ string_bytes text.old
        ++ flat_map (variable_line (stage_state_of evaluator.now)) (map taken_view taken.now)) }
{
    for (name, number) in taken {
        print_variable(evaluator, text, name, *number)?;
    }
    Ok(())
}

// Adds a line on a variable: its name, and its value or that it is open.
fn print_variable(
    evaluator: &Evaluator,
    text: &mut String,
    name: &Name,
    number: Number,
) -> Result<(), OutOfMemory>
    ensures { OnOk result (string_bytes text.new ≡ string_bytes text.old ++ variable_line (stage_state_of evaluator.now)
        (name_view name.now, number)) }
{
    if evaluator.is_open(number) {
        print_open(text, name)?;
    } else if let Some(value) = evaluator.scope().value(number) {
        print_value(text, name, value)?;
    }
    Ok(())
}
