// The order in which assignments are evaluated.

ghost use Rattle.std.specs.Prelude.{IfOk, IfSome, IsSome, IsTrue, OnOk, Some, [], if◌then◌else◌, map, nat_eq, ℕ, ◌++◌};
ghost use Rattle.std.specs.Prelude.{◌↔◌, ◌∷◌, ◌≡◌};
ghost use Rattle.std.specs.List.{AllByRecursion};
ghost use Rattle.just_resolve.specs.Prelude.{AreDistinct, AreFoundByName, AreSorted, HasNames, IsIn, IsInOrder};
ghost use Rattle.just_resolve.specs.Prelude.{IsNameOf, IsOrder, IsSortedOrder, assignment_view, frames_view};
ghost use Rattle.just_resolve.specs.Prelude.{functions_view, graph_view, name_numbered, name_view, read_by};

use crate::walk::{Walk, add_variable};
use just_host::justfile::Justfile;
use just_needs::graph::Graph;
use just_syntax::assignment::Assignment;
use just_syntax::name::Name;
use just_syntax::number::Number;
use just_syntax::out_of_memory::OutOfMemory;
use just_syntax::results::push;
use just_syntax::table::Table;
use just_value::scope::Scope;
use std::alloc::Global;
use std::collections::HashMap;

// The names of a module's assignments, each after those that it depends on, unless it depends on itself. Otherwise they
// are in the order of the text.
pub(crate) fn order<'src>(
    alloc: Global,
    module: &Justfile<'src>,
    outer: &Scope<'src, '_>,
) -> Result<Vec<Name<'src>>, OutOfMemory>
    requires { AreDistinct (map (λ a. a.number) (map assignment_view «module».now.assignments)) }
    ensures order { IfOk result (λ order. IsOrder (map assignment_view «module».now.assignments)
        (map name_view order.items)) }
    ensures sorted { IfOk result (λ order. IsSortedOrder (functions_view «module».now)
        (map assignment_view «module».now.assignments) (frames_view outer.now) (map name_view order.items)) }
    ensures found { OnOk result (AreFoundByName (map assignment_view «module».now.assignments)) }
{
    let graph = Graph::new(alloc, module, outer)?;
    let starts = in_text_order(alloc, &module.assignments)?;
    let numbers = postorder(alloc, &graph, &starts)?;
    names_of(alloc, &module.assignments, &numbers)
}

// The numbers of assignments in the order of the text: by their offsets, and then by their names.
fn in_text_order(alloc: Global, assignments: &Table<Assignment>) -> Result<Vec<Number>, OutOfMemory>
    ensures same { IfOk result (λ numbers. (n : ℕ) → IsIn numbers.items n
        ↔ IsIn (map (λ a. a.number) (map assignment_view assignments.now)) n) }
    ensures in_order { OnOk result (IsInOrder (λ a. a.name.lexeme) (map assignment_view assignments.now)) }
{
    let mut places = Vec::new(alloc);
    for assignment in assignments.iter() {
        push(
            &mut places,
            (assignment.name.token.offset, assignment.number),
        )?;
    }
    places.sort_by_key(|place| place.0)?;
    numbers_at(alloc, &places)
}

// The numbers of places, in their order.
fn numbers_at(alloc: Global, places: &[(usize, Number)]) -> Result<Vec<Number>, OutOfMemory>
    ensures { IfOk result (λ numbers. numbers.items ≡ map (λ p. p.1) places.now) }
{
    let mut numbers = Vec::new(alloc);
    for (_, number) in places {
        numbers.push(*number)?;
    }
    Ok(numbers)
}

// The variables that some variables reach, including themselves, in the order in which a walk from them leaves them.
// Each comes after those that it depends on, unless it depends on itself. What a node reads is looked for once, when it
// is entered.
fn postorder<'src>(
    alloc: Global,
    graph: &Graph<'src, '_>,
    starts: &[Number],
) -> Result<Vec<Number>, OutOfMemory>
    requires { (n : ℕ) → IsTrue ((graph_view graph.now).is_followed n) → IsIn starts.now n }
    ensures once { IfOk result (λ left. AreDistinct left.items) }
    ensures same { IfOk result (λ left. (n : ℕ) → IsIn left.items n ↔ IsIn starts.now n) }
    ensures sorted { IfOk result (λ left. AreSorted (read_by (graph_view graph.now)) [] left.items) }
{
    let mut left = Vec::new(alloc);
    let mut walk = Walk::new(alloc, starts)?;
    while let Some(step) = walk.pop() {
        if step.is_entered {
            add_variable(&mut left, &step.node)?;
            continue;
        }
        walk.enter(alloc, graph, &step.node)?;
    }
    Ok(left)
}

// The names of the assignments with these numbers.
pub(crate) fn names_of<'src>(
    alloc: Global,
    assignments: &Table<Assignment<'src>>,
    numbers: &[Number],
) -> Result<Vec<Name<'src>>, OutOfMemory>
    requires { (n : ℕ) → IsIn numbers.now n → IsIn (map (λ a. a.number) (map assignment_view assignments.now)) n }
    ensures { IfOk result (λ names. HasNames (map assignment_view assignments.now) numbers.now
        (map name_view names.items)) }
{
    let by_number = by_number(alloc, assignments)?;
    let mut names = Vec::new(alloc);
    for number in numbers {
        let Some(name) = by_number.get(number) else {
            continue;
        };
        add_name(&mut names, name)?;
    }
    Ok(names)
}

// Adds a name.
fn add_name<'src>(names: &mut Vec<Name<'src>>, name: &Name<'src>) -> Result<(), OutOfMemory>
    ensures { OnOk result (map name_view names.new.items ≡ map name_view names.old.items ++ name_view name.now ∷ []) }
{
    push(names, *name)
}

// The names of assignments by their numbers.
fn by_number<'src>(
    alloc: Global,
    assignments: &Table<Assignment<'src>>,
) -> Result<HashMap<Number, Name<'src>>, OutOfMemory>
    ensures known { IfOk result (λ names. AllByRecursion (λ a. IsSome (name_numbered names a.number))
        (map assignment_view assignments.now)) }
    ensures named { IfOk result (λ names. (n : ℕ) → IfSome (name_numbered names n)
        (IsNameOf (map assignment_view assignments.now) n)) }
{
    let mut names = HashMap::new(alloc);
    for assignment in assignments {
        add_named(&mut names, assignment)?;
    }
    Ok(names)
}

// Adds the name of an assignment under its number.
fn add_named<'src>(
    names: &mut HashMap<Number, Name<'src>>,
    assignment: &Assignment<'src>,
) -> Result<(), OutOfMemory>
    ensures { OnOk result ((n : ℕ) → name_numbered names.new n ≡ (if nat_eq assignment.now.number n
        then Some (name_view assignment.now.name) else name_numbered names.old n)) }
{
    match names.insert(assignment.number, assignment.name) {
        Ok(_) => Ok(()),
        Err(_) => Err(OutOfMemory),
    }
}
