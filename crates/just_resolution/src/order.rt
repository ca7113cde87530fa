// The first name of an evaluation order that may not come next.

ghost use Rattle.std.specs.Prelude.{IfOk, IsNone, IsTrue, MatchOption, OnOk, Some, [], map, option_map, ℕ};
ghost use Rattle.std.specs.Prelude.{◌↔◌, ◌≡◌, ◌⊎◌};
ghost use Rattle.just_resolution.specs.Prelude.{AreDistinct, Finds, FindsMisplaced, IsAdmitted, IsFaulty, IsNumberOf};
ghost use Rattle.just_resolution.specs.Prelude.{IsSound, IsTakenBy, ReadsReadable, ReadsUntaken, assignment_view};
ghost use Rattle.just_resolution.specs.Prelude.{frames_view, function_view, is_name_in, is_number_taken, is_readable};
ghost use Rattle.just_resolution.specs.Prelude.{module_fault_view, name_places, name_view, ordered_view};

use crate::admitted::first_unreadable;
use crate::fault::Fault;
use crate::readable::Readable;
use crate::references::is_referenced;
use just_syntax::assignment::Assignment;
use just_syntax::function_definition::FunctionDefinition;
use just_syntax::name::Name;
use just_syntax::number::Number;
use just_syntax::occurrence::Occurrence;
use just_syntax::out_of_memory::OutOfMemory;
use just_syntax::table::Table;
use just_value::scope::Scope;
use std::alloc::Global;
use std::collections::{BTreeSet, HashSet};

// The fault of the first name that is no assignment's, or that of an assignment that reads what is neither taken
// earlier nor bound outside.
pub(crate) fn order_fault<'src, 'a>(
    alloc: Global,
    functions: &'a Table<FunctionDefinition<'src>>,
    assignments: &'a Table<Assignment<'src>>,
    evaluation_order: &[Name<'src>],
    outer: &Scope<'src, '_>,
    variable_references: Option<&HashSet<Number>>,
) -> Result<Option<Fault<'src>>, OutOfMemory>
    requires distinct { AreDistinct (map (λ a. a.number) (map assignment_view assignments.now)) }
    ensures { let all = map function_view functions.now in let ordered =
        ordered_view assignments.now evaluation_order.now variable_references.entry in
        IfOk result (λ fault. Finds (IsSound all ordered (frames_view outer.now))
        (IsFaulty all ordered (frames_view outer.now)) (name_places ordered [] ordered.order)
        (option_map module_fault_view fault)) }
{
    let mut readable = Readable::new(alloc, outer, assignments.len())?;
    let mut admitted = BTreeSet::new(alloc);
    let mut occurrences = Vec::new(alloc);
    let mut pending = Vec::new(alloc);
    for name in evaluation_order {
        let fault = take_next(
            alloc,
            &mut occurrences,
            &mut pending,
            functions,
            assignments,
            variable_references,
            &mut readable,
            &mut admitted,
            name,
        )?;
        if fault.is_some() {
            return Ok(fault);
        }
    }
    Ok(None)
}

// Takes the assignment with a name if it is referenced, and returns the reason if it may not come next. One that was
// already taken may come again. The rest of the order does not matter: the clauses use an empty one.
fn take_next<'src, 'a>(
    alloc: Global,
    occurrences: &mut Vec<Occurrence<'src, 'a>>,
    pending: &mut Vec<&'src str>,
    functions: &'a Table<FunctionDefinition<'src>>,
    assignments: &'a Table<Assignment<'src>>,
    variable_references: Option<&HashSet<Number>>,
    readable: &mut Readable<'src, '_, '_>,
    admitted: &mut BTreeSet<&'src str>,
    name: &Name<'src>,
) -> Result<Option<Fault<'src>>, OutOfMemory>
    requires distinct { AreDistinct (map (λ a. a.number) (map assignment_view assignments.now)) }
    requires taken { let all = ordered_view assignments.now [] variable_references in
        IsTakenBy (map function_view functions.now) all (is_number_taken readable.old) (is_readable readable.old)
        (is_name_in admitted.old) }
    ensures outer { readable.new.outer ≡ readable.old.outer }
    ensures exact { let all = ordered_view assignments.now [] variable_references.entry in
        IfOk result (λ fault. FindsMisplaced (map function_view functions.now) all (is_readable readable.old)
        (name_view name.now) (option_map module_fault_view fault)) }
    ensures number { let all = ordered_view assignments.now [] variable_references.entry in
        IfOk result (λ fault. IsNone fault → (n : ℕ) → IsTrue (is_number_taken readable.new n)
        ↔ (IsTrue (is_number_taken readable.old n) ⊎ IsNumberOf all (name_view name.now) n)) }
    ensures taken { let all = ordered_view assignments.now [] variable_references.entry in
        IfOk result
        (λ fault. IsNone fault → IsTakenBy (map function_view functions.now) all (is_number_taken readable.new)
        (is_readable readable.new) (is_name_in admitted.new)) }
{
    match assignments.get(name.lexeme()) {
        Some(assignment) => {
            if !is_referenced(variable_references, assignment.number) {
                return Ok(None);
            }
            if readable.has_taken(assignment.number) {
                return Ok(None);
            }
            take(
                alloc,
                occurrences,
                pending,
                functions,
                readable,
                admitted,
                assignment,
            )
        }
        None => Ok(Some(Fault::UnknownAssignment { assignment: *name })),
    }
}

/// Takes an assignment, also if it reads what is not readable: then the answer is a fault that names the first such
/// variable.
///
/// After a fault no function stays admitted, since some of the admitted ones were not scanned to the end. So each fault
/// costs at most one more scan of the functions that later assignments reach; without a fault none is scanned twice.
///
/// # Errors
///
/// `OutOfMemory`, if an allocation fails: what `readable` and `admitted` say then is not to be used.
pub fn take<'src, 'a>(
    alloc: Global,
    occurrences: &mut Vec<Occurrence<'src, 'a>>,
    pending: &mut Vec<&'src str>,
    functions: &'a Table<FunctionDefinition<'src>>,
    readable: &mut Readable<'src, '_, '_>,
    admitted: &mut BTreeSet<&'src str>,
    assignment: &'a Assignment<'src>,
) -> Result<Option<Fault<'src>>, OutOfMemory>
    requires closed { IsAdmitted (map function_view functions.now) (is_readable readable.old)
        (is_name_in admitted.old) }
    ensures outer { readable.new.outer ≡ readable.old.outer }
    ensures exact { let seen = assignment_view assignment.now in
        IfOk result
        (λ fault. MatchOption fault (ReadsReadable (map function_view functions.now) (is_readable readable.old)
        seen) (λ found. ReadsUntaken (map function_view functions.now)
        (λ n. IsTrue (is_readable readable.old n)) seen (module_fault_view found))) }
    ensures taken { OnOk result ((n : ℕ) → IsTrue (is_number_taken readable.new n)
        ↔ (IsTrue (is_number_taken readable.old n) ⊎ (assignment.now.number ≡ n))) }
    ensures closed { OnOk result (IsAdmitted (map function_view functions.now) (is_readable readable.old)
        (is_name_in admitted.new)) }
{
    let value = &assignment.value;
    let found = first_unreadable(
        alloc,
        occurrences,
        pending,
        functions,
        readable,
        readable,
        admitted,
        value,
    )?;
    readable.take(assignment.number)?;
    if let Some(variable) = found {
        admitted.clear();
        return Ok(Some(Fault::UntakenVariable {
            assignment: assignment.name,
            variable,
        }));
    }
    Ok(None)
}
