// What the variables and the functions of a module read.

ghost use Rattle.std.specs.Prelude.{IfOk, IsTrue, OnOk, map, not, ℕ, ◌&&◌, ◌++◌, ◌↔◌, ◌≡◌};
ghost use Rattle.std.specs.List.{flat_map};
ghost use Rattle.just_needs.specs.Prelude.{IsFollowed, OfFunction, OfVariable, assignment_view, found_values};
ghost use Rattle.just_needs.specs.Prelude.{frames_view, graph_view, is_member, is_number_in, node_at, node_view};
ghost use Rattle.just_needs.specs.Prelude.{nodes_at, nodes_in, nodes_view, read_by, occurrence_view, occurrences_view};
ghost use Rattle.just_needs.specs.Prelude.{values_in, values_numbered, variable_at, view};

use crate::node::{Node, push};
use crate::numbered::{Valued, by_number, followed_numbers};
use just_host::justfile::Justfile;
use just_resolution::numbers::own_numbers;
use just_syntax::expression::Expression;
use just_syntax::function_definition::FunctionDefinition;
use just_syntax::number::Number;
use just_syntax::number_set::NumberSet;
use just_syntax::occurrence::Occurrence;
use just_syntax::occurrences::occurrences_in;
use just_syntax::out_of_memory::OutOfMemory;
use just_syntax::table::Table;
use just_value::scope::Scope;
use std::alloc::Global;
use std::collections::{BTreeSet, HashMap};

/// The functions of a module, its assignments by their numbers, and the numbers that are followed: those of assignments
/// that are not bound outside.
#[derive(Drop)]
pub struct Graph<'src, 'a> {
    functions: &'a Table<FunctionDefinition<'src>>,
    followed: NumberSet,
    numbered: HashMap<Number, Vec<Valued<'src, 'a>>>,
}

impl<'a, 'src> Graph<'src, 'a> {
    /// The graph of a module within a scope.
    ///
    /// # Errors
    ///
    /// `OutOfMemory`, if an allocation fails: nothing is created.
    pub fn new(
        alloc: Global,
        module: &'a Justfile<'src>,
        outer: &Scope<'src, '_>,
    ) -> Result<Graph<'src, 'a>, OutOfMemory>
        ensures functions { IfOk result (λ graph. graph.functions.now ≡ «module».entry.now.functions) }
        ensures values { IfOk result (λ graph. (n : ℕ)
            → values_in graph.numbered n ≡ values_numbered (map assignment_view «module».entry.now.assignments) n) }
        ensures followed { IfOk result (λ graph. (n : ℕ) → IsTrue (is_member graph.followed n)
            ↔ IsFollowed (map assignment_view «module».entry.now.assignments) (frames_view outer.now) n) }
    {
        let followed = followed_numbers(alloc, &module.assignments, outer)?;
        let numbered = by_number(alloc, &module.assignments)?;
        Ok(Graph {
            functions: &module.functions,
            followed,
            numbered,
        })
    }

    /// Adds what a node reads by itself, in the order of its text.
    ///
    /// # Errors
    ///
    /// `OutOfMemory`, if an allocation fails: some of what it reads may have been added.
    pub fn add_read_by(
        &self,
        alloc: Global,
        nodes: &mut Vec<Node<'src>>,
        node: &Node<'src>,
    ) -> Result<(), OutOfMemory>
        ensures { OnOk result (nodes_view nodes.new.items ≡ nodes_view nodes.old.items
            ++ read_by (graph_view self.now) (node_view node.now)) }
    {
        match node {
            Node::Function { name } => self.add_read_by_function(alloc, nodes, name),
            Node::Variable { number } => self.add_read_by_variable(alloc, nodes, *number),
        }
    }

    // Adds what the body of a function reads beyond its own parameters. A name that the file does not define reads
    // nothing.
    fn add_read_by_function(
        &self,
        alloc: Global,
        nodes: &mut Vec<Node<'src>>,
        name: &str,
    ) -> Result<(), OutOfMemory>
        ensures { OnOk result (nodes_view nodes.new.items ≡ nodes_view nodes.old.items
            ++ read_by (graph_view self.now) (OfFunction name.now)) }
    {
        match self.functions.get(name) {
            Some(function) => {
                let own = own_numbers(alloc, &function.parameters)?;
                add_nodes(alloc, nodes, &self.followed, &own, &function.body)
            }
            None => Ok(()),
        }
    }

    // Adds what the values of a number read.
    fn add_read_by_variable(
        &self,
        alloc: Global,
        nodes: &mut Vec<Node<'src>>,
        number: Number,
    ) -> Result<(), OutOfMemory>
        ensures { OnOk result (nodes_view nodes.new.items ≡ nodes_view nodes.old.items
            ++ read_by (graph_view self.now) (OfVariable number)) }
    {
        match self.numbered.get(&number) {
            Some(assignments) => add_all_nodes(alloc, nodes, &self.followed, assignments),
            None => Ok(()),
        }
    }
}

// Adds the nodes that occur in the values of some assignments.
fn add_all_nodes<'src>(
    alloc: Global,
    nodes: &mut Vec<Node<'src>>,
    followed: &NumberSet,
    assignments: &[Valued<'src, '_>],
) -> Result<(), OutOfMemory>
    ensures { OnOk result (nodes_view nodes.new.items ≡ nodes_view nodes.old.items
        ++ flat_map (nodes_in (is_member followed.now)) (found_values assignments.now)) }
{
    let own = BTreeSet::new(alloc);
    for assignment in assignments {
        add_nodes(alloc, nodes, followed, &own, assignment.value)?;
    }
    Ok(())
}

// Adds the nodes that occur in an expression, own numbers aside.
fn add_nodes<'src>(
    alloc: Global,
    nodes: &mut Vec<Node<'src>>,
    followed: &NumberSet,
    own: &BTreeSet<Number>,
    expression: &Expression<'src>,
) -> Result<(), OutOfMemory>
    ensures { OnOk result (nodes_view nodes.new.items ≡ nodes_view nodes.old.items
        ++ nodes_in (λ n. is_member followed.now n && not (is_number_in own.now n)) (view expression.now)) }
{
    let occurrences = occurrences_in(alloc, expression)?;
    add_occurrences(nodes, followed, own, &occurrences)
}

// Adds the nodes of these occurrences, own numbers aside.
fn add_occurrences<'src>(
    nodes: &mut Vec<Node<'src>>,
    followed: &NumberSet,
    own: &BTreeSet<Number>,
    occurrences: &[Occurrence<'src, '_>],
) -> Result<(), OutOfMemory>
    ensures { OnOk result (nodes_view nodes.new.items ≡ nodes_view nodes.old.items
        ++ nodes_at (λ n. is_member followed.now n && not (is_number_in own.now n))
        (occurrences_view occurrences.now)) }
{
    for occurrence in occurrences {
        add_occurrence(nodes, followed, own, occurrence)?;
    }
    Ok(())
}

// Adds the node of an occurrence, own numbers aside.
fn add_occurrence<'src>(
    nodes: &mut Vec<Node<'src>>,
    followed: &NumberSet,
    own: &BTreeSet<Number>,
    occurrence: &Occurrence<'src, '_>,
) -> Result<(), OutOfMemory>
    ensures { OnOk result (nodes_view nodes.new.items ≡ nodes_view nodes.old.items
        ++ node_at (λ n. is_member followed.now n && not (is_number_in own.now n))
        (occurrence_view occurrence.now)) }
{
    match occurrence {
        Occurrence::Command {
            contents: _,
            token: _,
        } => Ok(()),
        Occurrence::Call { name, arguments: _ } => {
            let name = name.lexeme();
            push(nodes, &Node::Function { name })
        }
        Occurrence::Variable { name: _, number } => add_variable(nodes, followed, own, *number),
    }
}

// Adds a variable whose number is followed and not an own one.
fn add_variable<'src>(
    nodes: &mut Vec<Node<'src>>,
    followed: &NumberSet,
    own: &BTreeSet<Number>,
    number: Option<Number>,
) -> Result<(), OutOfMemory>
    ensures { OnOk result (nodes_view nodes.new.items ≡ nodes_view nodes.old.items
        ++ variable_at (λ n. is_member followed.now n && not (is_number_in own.now n)) number) }
{
    let Some(number) = number else {
        return Ok(());
    };
    if followed.contains(number) && !own.contains(&number) {
        push(nodes, &Node::Variable { number })?;
    }
    Ok(())
}
