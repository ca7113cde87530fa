// What reads what in a module.

ghost use Rattle.std.specs.Prelude.{IfOk, IsTrue, OnOk, ◌↔◌, ◌≡◌, ◌⊎◌};
ghost use Rattle.just_changes.specs.Prelude.{AmongOccurrences, AssignmentReads, FunctionReads, IsIn, IsNodeAt};
ghost use Rattle.just_changes.specs.Prelude.{IsOneVariable, IsWhole, Mentions, OfFunction, OfVariable, PlainNode};
ghost use Rattle.just_changes.specs.Prelude.{ReadsItself, assignment_view, frames_view, function_view, is_number_in};
ghost use Rattle.just_changes.specs.Prelude.{node_view, occurrence_view, occurrences_view, readers_of, version_view};
ghost use Rattle.just_changes.specs.Prelude.{view};

use crate::readers::Readers;
use crate::version::Version;
use just_needs::node::Node;
use just_resolution::numbers::own_numbers;
use just_syntax::assignment::Assignment;
use just_syntax::expression::Expression;
use just_syntax::function_definition::FunctionDefinition;
use just_syntax::name::Name;
use just_syntax::number::Number;
use just_syntax::occurrence::Occurrence;
use just_syntax::occurrences::occurrences_in;
use just_syntax::out_of_memory::OutOfMemory;
use just_value::scope::Scope;
use std::alloc::Global;
use std::collections::BTreeSet;

// The readers of each node: the assignments that are evaluated, and the functions.
pub(crate) fn readers_in<'src>(
    alloc: Global,
    version: &Version<'src, '_>,
    parent: &Scope,
) -> Result<Readers<'src>, OutOfMemory>
    requires whole { IsWhole version.now }
    ensures { IfOk result (λ readers. (x y : PlainNode) → IsIn (readers_of readers x) y
        ↔ ReadsItself (version_view version.now) (frames_view parent.now) y x) }
{
    let mut readers = Readers::new(alloc);
    for assignment in version.assignments {
        add_assignment(alloc, &mut readers, version, parent, assignment)?;
    }
    for function in version.functions.iter() {
        add_function(alloc, &mut readers, function)?;
    }
    Ok(readers)
}

// Adds what an assignment reads and calls, if it is evaluated.
fn add_assignment<'src>(
    alloc: Global,
    readers: &mut Readers<'src>,
    version: &Version<'src, '_>,
    parent: &Scope,
    assignment: &Assignment<'src>,
) -> Result<(), OutOfMemory>
    ensures { OnOk result ((x y : PlainNode) → IsIn (readers_of readers.new x) y
        ↔ (((OfVariable assignment.now.number ≡ y) × AssignmentReads (version_view version.now)
        (frames_view parent.now) (assignment_view assignment.now) x) ⊎ IsIn (readers_of readers.old x) y)) }
{
    if !version.is_first(assignment) {
        return Ok(());
    }
    if !version.is_free(parent, assignment.number) {
        return Ok(());
    }
    let number = assignment.number;
    let own = BTreeSet::new(alloc);
    let reader = Node::Variable { number };
    add_mentions(alloc, readers, &reader, &own, &assignment.value)?;
    Ok(())
}

// Adds what a function reads and calls.
fn add_function<'src>(
    alloc: Global,
    readers: &mut Readers<'src>,
    function: &FunctionDefinition<'src>,
) -> Result<(), OutOfMemory>
    ensures { OnOk result ((x y : PlainNode) → IsIn (readers_of readers.new x) y
        ↔ (((OfFunction (function_view function.now).name.lexeme ≡ y) × FunctionReads (function_view function.now)
        x) ⊎ IsIn (readers_of readers.old x) y)) }
{
    let own = own_numbers(alloc, &function.parameters)?;
    let name = function.name.lexeme();
    let reader = Node::Function { name };
    add_mentions(alloc, readers, &reader, &own, &function.body)?;
    Ok(())
}

// Adds what an expression reads, own numbers aside, and what it calls.
fn add_mentions<'src>(
    alloc: Global,
    readers: &mut Readers<'src>,
    reader: &Node<'src>,
    own: &BTreeSet<Number>,
    expression: &Expression<'src>,
) -> Result<(), OutOfMemory>
    ensures { OnOk result ((x y : PlainNode) → IsIn (readers_of readers.new x) y
        ↔ (((node_view reader.now ≡ y) × Mentions (λ n. IsTrue (is_number_in own.now n)) (view expression.now) x)
        ⊎ IsIn (readers_of readers.old x) y)) }
{
    let occurrences = occurrences_in(alloc, expression)?;
    add_occurrences(readers, reader, own, &occurrences)?;
    Ok(())
}

// Adds a reader of these occurrences, own numbers aside.
fn add_occurrences<'src>(
    readers: &mut Readers<'src>,
    reader: &Node<'src>,
    own: &BTreeSet<Number>,
    occurrences: &[Occurrence<'src, '_>],
) -> Result<(), OutOfMemory>
    ensures { OnOk result ((x y : PlainNode) → IsIn (readers_of readers.new x) y
        ↔ (((node_view reader.now ≡ y) × AmongOccurrences (λ n. IsTrue (is_number_in own.now n))
        (occurrences_view occurrences.now) x)
        ⊎ IsIn (readers_of readers.old x) y)) }
{
    for occurrence in occurrences {
        add_occurrence(readers, reader, own, occurrence)?;
    }
    Ok(())
}

// Adds a reader of an occurrence, own numbers aside.
fn add_occurrence<'src>(
    readers: &mut Readers<'src>,
    reader: &Node<'src>,
    own: &BTreeSet<Number>,
    occurrence: &Occurrence<'src, '_>,
) -> Result<(), OutOfMemory>
    ensures { OnOk result ((x y : PlainNode) → IsIn (readers_of readers.new x) y
        ↔ (((node_view reader.now ≡ y) × IsNodeAt (λ n. IsTrue (is_number_in own.now n))
        (occurrence_view occurrence.now) x) ⊎ IsIn (readers_of readers.old x) y)) }
{
    match occurrence {
        Occurrence::Command {
            contents: _,
            token: _,
        } => Ok(()),
        Occurrence::Call { name, arguments: _ } => add_call(readers, reader, name),
        Occurrence::Variable { name: _, number } => add_variable(readers, reader, own, *number),
    }
}

// Adds a reader of a variable, unless it has no number or an own one.
fn add_variable<'src>(
    readers: &mut Readers<'src>,
    reader: &Node<'src>,
    own: &BTreeSet<Number>,
    number: Option<Number>,
) -> Result<(), OutOfMemory>
    ensures { OnOk result ((x y : PlainNode) → IsIn (readers_of readers.new x) y
        ↔ (((node_view reader.now ≡ y) × IsOneVariable (λ n. IsTrue (is_number_in own.now n)) number x)
        ⊎ IsIn (readers_of readers.old x) y)) }
{
    let Some(number) = number else {
        return Ok(());
    };
    if own.contains(&number) {
        return Ok(());
    }
    readers.add(&Node::Variable { number }, reader)?;
    Ok(())
}

// Adds a reader of the function with a name.
fn add_call<'src>(
    readers: &mut Readers<'src>,
    reader: &Node<'src>,
    name: &Name<'src>,
) -> Result<(), OutOfMemory>
    ensures { OnOk result ((x y : PlainNode) → IsIn (readers_of readers.new x) y
        ↔ (((node_view reader.now ≡ y) × (OfFunction name.now.token.lexeme.now ≡ x))
        ⊎ IsIn (readers_of readers.old x) y)) }
{
    let name = name.lexeme();
    readers.add(&Node::Function { name }, reader)?;
    Ok(())
}
