// Where two versions differ.

ghost use Rattle.std.specs.Prelude.{IfOk, OnOk, map, ◌++◌, ◌≡◌, ◌⊎◌};
ghost use Rattle.std.specs.HashMap.{keys};
ghost use Rattle.just_changes.specs.Prelude.{IsIn, IsUnchanged, IsWhole, OfFunction, OfVariable, PlainNode, all_nodes};
ghost use Rattle.just_changes.specs.Prelude.{assignment_view, function_view, nodes_view, version_view};

use crate::version::Version;
use just_needs::node::{Node, push};
use just_syntax::assignment::Assignment;
use just_syntax::function_definition::FunctionDefinition;
use just_syntax::number::Number;
use just_syntax::out_of_memory::OutOfMemory;
use just_syntax::table::Table;
use std::alloc::Global;
use std::collections::HashMap;

// The nodes that differ. A node may occur more than once.
pub(crate) fn differences<'src>(
    alloc: Global,
    before: &Version<'src, '_>,
    after: &Version<'src, '_>,
) -> Result<Vec<Node<'src>>, OutOfMemory>
    requires before { IsWhole before.now }
    requires after { IsWhole after.now }
    ensures differ { IfOk result (λ nodes. (x : PlainNode) → IsIn (nodes_view nodes.items) x
        → IsUnchanged (version_view before.now) (version_view after.now) x → ⊥) }
    ensures all { IfOk result (λ nodes. (x : PlainNode) → IsIn (nodes_view nodes.items) x
        ⊎ IsUnchanged (version_view before.now) (version_view after.now) x) }
{
    let mut all = Vec::new(alloc);
    add_nodes(&mut all, before)?;
    add_nodes(&mut all, after)?;
    different(alloc, before, after, &all)
}

// Those of these nodes that differ.
fn different<'src>(
    alloc: Global,
    before: &Version<'src, '_>,
    after: &Version<'src, '_>,
    nodes: &[Node<'src>],
) -> Result<Vec<Node<'src>>, OutOfMemory>
    ensures differ { IfOk result (λ different. (x : PlainNode) → IsIn (nodes_view different.items) x
        → IsUnchanged (version_view before.now) (version_view after.now) x → ⊥) }
    ensures all { IfOk result (λ different. (x : PlainNode) → IsIn (nodes_view nodes.now) x
        → IsIn (nodes_view different.items) x ⊎ IsUnchanged (version_view before.now) (version_view after.now) x) }
{
    let mut different = Vec::new(alloc);
    for node in nodes {
        if before.is_same(after, node) {
            continue;
        }
        push(&mut different, node)?;
    }
    Ok(different)
}

// Adds the nodes of a version.
fn add_nodes<'src>(
    nodes: &mut Vec<Node<'src>>,
    version: &Version<'src, '_>,
) -> Result<(), OutOfMemory>
    ensures { OnOk result (nodes_view nodes.new.items ≡ nodes_view nodes.old.items ++ all_nodes version.now) }
{
    add_assignments(nodes, version.assignments)?;
    add_functions(nodes, version.functions)?;
    add_overrides(nodes, version.overrides)
}

// Adds the variables of assignments.
fn add_assignments<'src>(
    nodes: &mut Vec<Node<'src>>,
    assignments: &Table<Assignment<'src>>,
) -> Result<(), OutOfMemory>
    ensures { OnOk result (nodes_view nodes.new.items ≡ nodes_view nodes.old.items ++ map (λ a. OfVariable a.number)
        (map assignment_view assignments.now)) }
{
    for assignment in assignments {
        let number = assignment.number;
        push(nodes, &Node::Variable { number })?;
    }
    Ok(())
}

// Adds functions.
fn add_functions<'src>(
    nodes: &mut Vec<Node<'src>>,
    functions: &Table<FunctionDefinition<'src>>,
) -> Result<(), OutOfMemory>
    ensures { OnOk result (nodes_view nodes.new.items ≡ nodes_view nodes.old.items
        ++ map (λ f. OfFunction f.name.lexeme) (map function_view functions.now)) }
{
    for function in functions {
        let name = function.name.lexeme();
        push(nodes, &Node::Function { name })?;
    }
    Ok(())
}

// Adds the overridden variables.
fn add_overrides<'src>(
    nodes: &mut Vec<Node<'src>>,
    overrides: &HashMap<Number, String>,
) -> Result<(), OutOfMemory>
    ensures { OnOk result (nodes_view nodes.new.items ≡ nodes_view nodes.old.items ++ map OfVariable
        (keys overrides.now)) }
{
    for number in overrides.keys() {
        push(nodes, &Node::Variable { number: *number })?;
    }
    Ok(())
}
