// Names of an evaluation order that may not come next.

ghost use Rattle.std.specs.Prelude.{IfOk, IsTrue, OnOk, [], map, option_map, ℕ, ◌↔◌, ◌≡◌, ◌⊎◌};
ghost use Rattle.just_faults.specs.Prelude.{AddsFaults, FindsMisplaced, IsNumberOf, IsPassed};
ghost use Rattle.just_faults.specs.Prelude.{frames_view, function_view};
ghost use Rattle.just_faults.specs.Prelude.{is_name_in, is_number_taken, is_readable, module_fault_view, name_places};
ghost use Rattle.just_faults.specs.Prelude.{name_view, ordered_view};

use crate::pushing::add_some;
use just_resolution::fault::Fault;
use just_resolution::order::take;
use just_resolution::readable::Readable;
use just_resolution::references::is_referenced;
use just_syntax::assignment::Assignment;
use just_syntax::function_definition::FunctionDefinition;
use just_syntax::name::Name;
use just_syntax::number::Number;
use just_syntax::occurrence::Occurrence;
use just_syntax::out_of_memory::OutOfMemory;
use just_syntax::table::Table;
use just_value::scope::Scope;
use std::alloc::Global;
use std::collections::{BTreeSet, HashSet};

// Adds a fault for each name that is no assignment's, or that of an assignment that reads what is neither taken earlier
// nor bound outside.
pub(crate) fn add_order_faults<'src, 'a>(
    alloc: Global,
    all: &mut Vec<Fault<'src>>,
    functions: &'a Table<FunctionDefinition<'src>>,
    assignments: &'a Table<Assignment<'src>>,
    evaluation_order: &[Name<'src>],
    outer: &Scope<'src, '_>,
    variable_references: Option<&HashSet<Number>>,
) -> Result<(), OutOfMemory>
    ensures { let ordered = ordered_view assignments.now evaluation_order.now variable_references.entry in
        OnOk result (AddsFaults (map function_view functions.now) ordered (frames_view outer.now)
        (name_places ordered [] ordered.order) (map module_fault_view all.old.items)
        (map module_fault_view all.new.items)) }
{
    let mut readable = Readable::new(alloc, outer, assignments.len())?;
    let mut passed = BTreeSet::new(alloc);
    let mut admitted = BTreeSet::new(alloc);
    let mut occurrences = Vec::new(alloc);
    let mut pending = Vec::new(alloc);
    for name in evaluation_order {
        let fault = take_next(
            alloc,
            &mut occurrences,
            &mut pending,
            functions,
            assignments,
            variable_references,
            &mut readable,
            &mut passed,
            &mut admitted,
            name,
        )?;
        add_some(all, fault)?;
    }
    Ok(())
}

// Takes the assignment with a name if it is referenced, and returns the reason if it may not come next. One that passed
// may come again. The numbers of assignments need not be distinct here, so it is the name that passes. The rest of the
// order does not matter: the clauses use an empty one.
fn take_next<'src, 'a>(
    alloc: Global,
    occurrences: &mut Vec<Occurrence<'src, 'a>>,
    pending: &mut Vec<&'src str>,
    functions: &'a Table<FunctionDefinition<'src>>,
    assignments: &'a Table<Assignment<'src>>,
    variable_references: Option<&HashSet<Number>>,
    readable: &mut Readable<'src, '_, '_>,
    passed: &mut BTreeSet<&'src str>,
    admitted: &mut BTreeSet<&'src str>,
    name: &Name<'src>,
) -> Result<Option<Fault<'src>>, OutOfMemory>
    requires passed { let all = ordered_view assignments.now [] variable_references in
        IsPassed (map function_view functions.now) all (is_number_taken readable.old) (is_readable readable.old)
        (is_name_in passed.old) (is_name_in admitted.old) }
    ensures outer { readable.new.outer ≡ readable.old.outer }
    ensures exact { let all = ordered_view assignments.now [] variable_references.entry in
        IfOk result (λ fault. FindsMisplaced (map function_view functions.now) all (is_readable readable.old)
        (name_view name.now) (option_map module_fault_view fault)) }
    ensures number { let all = ordered_view assignments.now [] variable_references.entry in
        OnOk result ((n : ℕ) → IsTrue (is_number_taken readable.new n)
        ↔ (IsTrue (is_number_taken readable.old n) ⊎ IsNumberOf all (name_view name.now) n)) }
    ensures passed { let all = ordered_view assignments.now [] variable_references.entry in
        OnOk result (IsPassed (map function_view functions.now) all (is_number_taken readable.new)
        (is_readable readable.new) (is_name_in passed.new) (is_name_in admitted.new)) }
{
    match assignments.get(name.lexeme()) {
        Some(assignment) => {
            if !is_referenced(variable_references, assignment.number) {
                return Ok(None);
            }
            if passed.contains(name.lexeme()) {
                return Ok(None);
            }
            let fault = take(
                alloc,
                occurrences,
                pending,
                functions,
                readable,
                admitted,
                assignment,
            )?;
            if fault.is_some() {
                return Ok(fault);
            }
            passed.insert(name.lexeme())?;
            Ok(None)
        }
        None => Ok(Some(Fault::UnknownAssignment { assignment: *name })),
    }
}
