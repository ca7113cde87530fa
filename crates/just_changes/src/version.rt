// A module and its overrides, by numbers and names.

ghost use Rattle.std.specs.Prelude.{IfOk, IsTrue, None, OnOk, Some, if◌then◌else◌, map, nat_eq, option_map, ℕ, ◌↔◌};
ghost use Rattle.std.specs.Prelude.{◌≡◌};
ghost use Rattle.std.specs.Option.{option_or};
ghost use Rattle.just_changes.specs.Prelude.{IsFree, IsUnchanged, IsWhole, assignment_in, assignment_numbered};
ghost use Rattle.just_changes.specs.Prelude.{assignment_view, frames_view, node_view, version_view};

use crate::same_definition::{is_same_assignment, is_same_function, is_same_override};
use just_host::justfile::Justfile;
use just_needs::node::Node;
use just_syntax::assignment::Assignment;
use just_syntax::function_definition::FunctionDefinition;
use just_syntax::number::Number;
use just_syntax::out_of_memory::OutOfMemory;
use just_syntax::table::Table;
use just_value::scope::Scope;
use std::alloc::Global;
use std::collections::{BTreeMap, HashMap};

// A module's assignments and functions, and its overrides. If assignments share a number, the first counts.
#[derive(Drop)]
pub(crate) struct Version<'src, 'a> {
    pub(crate) assignments: &'a Table<Assignment<'src>>,
    pub(crate) functions: &'a Table<FunctionDefinition<'src>>,
    numbered: BTreeMap<Number, &'a Assignment<'src>>,
    pub(crate) overrides: &'a HashMap<Number, String>,
}

impl<'a, 'src> Version<'src, 'a> {
    // A module and these overrides.
    pub(crate) fn new(
        alloc: Global,
        justfile: &'a Justfile<'src>,
        overrides: &'a HashMap<Number, String>,
    ) -> Result<Version<'src, 'a>, OutOfMemory>
        ensures whole { IfOk result IsWhole }
        ensures assignments { IfOk result (λ version. version.assignments.now ≡ justfile.entry.now.assignments) }
        ensures functions { IfOk result (λ version. version.functions.now ≡ justfile.entry.now.functions) }
        ensures overrides { IfOk result (λ version. version.overrides.now ≡ overrides.entry.now) }
    {
        let numbered = by_number(alloc, &justfile.assignments)?;
        Ok(Version {
            assignments: &justfile.assignments,
            functions: &justfile.functions,
            numbered,
            overrides,
        })
    }

    // Whether a node is the same in another version.
    pub(crate) fn is_same(&self, other: &Version<'src, '_>, node: &Node<'src>) -> bool
        ensures { IsTrue result ↔ IsUnchanged (version_view self.now) (version_view other.now) (node_view node.now) }
    {
        match node {
            Node::Function { name } => self.is_same_function(other, name),
            Node::Variable { number } => self.is_same_variable(other, *number),
        }
    }

    // Whether a name has the same function in another version.
    fn is_same_function(&self, other: &Version<'src, '_>, name: &str) -> bool
        ensures { IsTrue result
            ↔ ((version_view self.now).function name.now ≡ (version_view other.now).function name.now) }
    {
        is_same_function(self.functions.get(name), other.functions.get(name))
    }

    // Whether a number has the same assignment and the same override in another version.
    fn is_same_variable(&self, other: &Version<'src, '_>, number: Number) -> bool
        ensures { IsTrue result
            ↔ (((version_view self.now).assignment number ≡ (version_view other.now).assignment number)
            × ((version_view self.now).override number ≡ (version_view other.now).override number)) }
    {
        is_same_assignment(self.assignment(number), other.assignment(number))
            && is_same_override(self.overrides.get(&number), other.overrides.get(&number))
    }

    // Whether an assignment is the first with its number.
    pub(crate) fn is_first(&self, assignment: &Assignment<'src>) -> bool
        ensures { IsTrue result
            ↔ ((version_view self.now).assignment assignment.now.number ≡ Some (assignment_view assignment.now)) }
    {
        is_same_assignment(self.assignment(assignment.number), Some(assignment))
    }

    // Whether a number is neither overridden nor bound outside.
    pub(crate) fn is_free(&self, parent: &Scope, number: Number) -> bool
        ensures { IsTrue result ↔ IsFree (version_view self.now) (frames_view parent.now) number }
    {
        self.overrides.get(&number).is_none() && parent.value(number).is_none()
    }

    // The first assignment with a number.
    fn assignment(&self, number: Number) -> Option<&Assignment<'src>>
        ensures { option_map (λ a. assignment_view a.now) result ≡ (version_view self.now).assignment number }
    {
        match self.numbered.get(&number) {
            Some(assignment) => Some(*assignment),
            None => None,
        }
    }
}

// The assignments by number; if several share one, the first.
fn by_number<'a, 'src>(
    alloc: Global,
    assignments: &'a Table<Assignment<'src>>,
) -> Result<BTreeMap<Number, &'a Assignment<'src>>, OutOfMemory>
    ensures { IfOk result (λ all. (n : ℕ)
        → assignment_in all n ≡ assignment_numbered (map assignment_view assignments.entry.now) n) }
{
    let mut all = BTreeMap::new(alloc);
    for assignment in assignments {
        add(&mut all, assignment)?;
    }
    Ok(all)
}

// Adds an assignment, unless there is one with its number.
fn add<'a, 'src>(
    all: &mut BTreeMap<Number, &'a Assignment<'src>>,
    assignment: &'a Assignment<'src>,
) -> Result<(), OutOfMemory>
    ensures { OnOk result ((n : ℕ) → assignment_in all.new n ≡ option_or (assignment_in all.old n)
        (if nat_eq assignment.entry.now.number n then Some (assignment_view assignment.entry.now) else None)) }
{
    if all.contains_key(&assignment.number) {
        return Ok(());
    }
    match all.insert(assignment.number, assignment) {
        Ok(_) => Ok(()),
        Err(_) => Err(OutOfMemory),
    }
}
