// What some nodes reach.

ghost use Rattle.std.specs.Prelude.{IfOk, IsTrue, List, OnOk, false, not, ℕ, ◌++◌, ◌↔◌, ◌≡◌, ◌⊎◌};
ghost use Rattle.just_needs.specs.Prelude.{AreAll, IsReadFrom, OfVariable, PlainNode, graph_nodes, has, is_reached};
ghost use Rattle.just_needs.specs.Prelude.{node_view, nodes_view, read_in};

use crate::graph::Graph;
use crate::node::Node;
use just_syntax::number::Number;
use just_syntax::out_of_memory::OutOfMemory;
use std::alloc::Global;
use std::collections::{BTreeSet, HashMap, HashSet};

/// What each node reads by itself. Only the nodes `all` read something.
pub trait Reads<'src> {
    ghost reads: { Self → PlainNode → List PlainNode };

    ghost all: { Self → List PlainNode };

    /// Adds what a node reads by itself.
    ///
    /// # Errors
    ///
    /// `OutOfMemory`, if an allocation fails: some of what it reads may have been added.
    fn add_read_by(
        &self,
        alloc: Global,
        nodes: &mut Vec<Node<'src>>,
        node: &Node<'src>,
    ) -> Result<(), OutOfMemory>
        ensures added { OnOk result (nodes_view nodes.new.items ≡ nodes_view nodes.old.items
            ++ reads self.now (node_view node.now)) }
        ensures all { AreAll (reads self.now) (all self.now) };
}

/// The variables and the functions that were reached.
#[derive(Drop)]
pub struct Reached<'src> {
    functions: BTreeSet<&'src str>,
    variables: HashSet<Number>,
}

impl<'src> Reached<'src> {
    /// With nothing reached. It does not allocate.
    pub fn new(alloc: Global) -> Reached<'src>
        ensures { (x : PlainNode) → is_reached result x ≡ false }
    {
        Reached {
            functions: BTreeSet::new(alloc),
            variables: HashSet::new(alloc),
        }
    }

    /// Adds a node, and returns whether it was new.
    ///
    /// # Errors
    ///
    /// `OutOfMemory`, if an allocation fails: the nodes are unchanged.
    pub fn insert(&mut self, node: &Node<'src>) -> Result<bool, OutOfMemory>
        ensures fresh { IfOk result (λ fresh. fresh ≡ not (is_reached self.old (node_view node.now))) }
        ensures reached { OnOk result ((x : PlainNode) → IsTrue (is_reached self.new x)
            ↔ ((node_view node.now ≡ x) ⊎ IsTrue (is_reached self.old x))) }
    {
        let is_new = match node {
            Node::Function { name } => self.functions.insert(*name)?,
            Node::Variable { number } => self.variables.insert(*number)?,
        };
        Ok(is_new)
    }

    /// The variables that were reached.
    pub fn into_variables(self) -> HashSet<Number>
        ensures { (n : ℕ) → has result n ≡ is_reached self.entry (OfVariable n) }
    {
        self.variables
    }
}

/// What these nodes reach, including themselves.
///
/// What a node reads is looked for once, when it is first reached. So cyclic readings terminate.
///
/// # Errors
///
/// `OutOfMemory`, if an allocation fails: nothing is created.
pub fn reached_from<'src, R: Reads<'src>>(
    alloc: Global,
    graph: &R,
    mut pending: Vec<Node<'src>>,
) -> Result<Reached<'src>, OutOfMemory>
    ensures { IfOk result (λ reached. (x : PlainNode) → IsTrue (is_reached reached x)
        ↔ IsReadFrom (R.reads graph.now) (nodes_view pending.entry.items) x) }
{
    let mut reached = Reached::new(alloc);
    while let Some(node) = pending.pop() {
        let is_new = reached.insert(&node)?;
        if !is_new {
            continue;
        }
        graph.add_read_by(alloc, &mut pending, &node)?;
    }
    Ok(reached)
}

/// A graph in which overridden variables read nothing.
#[derive(Clone, Copy)]
pub(crate) struct Overridden<'src, 'a, 'b> {
    pub(crate) graph: &'b Graph<'src, 'a>,
    pub(crate) overrides: &'b HashMap<Number, String>,
}

impl<'src> Reads<'src> for Overridden<'src, '_, '_> {
    ghost reads = { λ g. read_in g.overrides.now g.graph.now };

    ghost all = { λ g. graph_nodes g.graph.now };

    fn add_read_by(
        &self,
        alloc: Global,
        nodes: &mut Vec<Node<'src>>,
        node: &Node<'src>,
    ) -> Result<(), OutOfMemory> {
        if let Node::Variable { number } = node {
            if self.overrides.contains_key(number) {
                return Ok(());
            }
        }
        self.graph.add_read_by(alloc, nodes, node)
    }
}
