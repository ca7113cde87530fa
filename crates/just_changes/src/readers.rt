// Which nodes read which.

ghost use Rattle.std.specs.Prelude.{IfOk, OnOk, [], option_map, ◌++◌, ◌↔◌, ◌∷◌, ◌≡◌, ◌⊎◌};
ghost use Rattle.just_changes.specs.Prelude.{IsIn, PlainNode, all_read, found_nodes, node_view, nodes_view, readers_of};

use just_needs::node::{Node, push};
use just_needs::reached::Reads;
use just_syntax::number::Number;
use just_syntax::out_of_memory::OutOfMemory;
use std::alloc::Global;
use std::collections::BTreeMap;

// The readers of each node.
#[derive(Drop)]
pub(crate) struct Readers<'src> {
    alloc: Global,
    of_functions: BTreeMap<&'src str, Vec<Node<'src>>>,
    of_variables: BTreeMap<Number, Vec<Node<'src>>>,
}

impl<'src> Readers<'src> {
    // With no readers. It does not allocate.
    pub(crate) fn new(alloc: Global) -> Readers<'src>
        ensures { (x : PlainNode) → readers_of result x ≡ [] }
    {
        Readers {
            alloc,
            of_functions: BTreeMap::new(alloc),
            of_variables: BTreeMap::new(alloc),
        }
    }

    // Adds a reader of a node.
    pub(crate) fn add(&mut self, read: &Node<'src>, reader: &Node<'src>) -> Result<(), OutOfMemory>
        ensures { OnOk result ((x y : PlainNode) → IsIn (readers_of self.new x) y
            ↔ (((node_view read.now ≡ x) × (node_view reader.now ≡ y)) ⊎ IsIn (readers_of self.old x) y)) }
    {
        match read {
            Node::Function { name } => {
                let all = with_reader(self.alloc, self.of_functions.remove(name), reader)?;
                self.of_functions.insert(*name, all)?;
            }
            Node::Variable { number } => {
                let all = with_reader(self.alloc, self.of_variables.remove(number), reader)?;
                self.of_variables.insert(*number, all)?;
            }
        }
        Ok(())
    }
}

// A difference spreads to what reads it, so here a node leads to its readers.
impl<'src> Reads<'src> for Readers<'src> {
    ghost reads = { readers_of };

    ghost all = { all_read };

    fn add_read_by(
        &self,
        _: Global,
        nodes: &mut Vec<Node<'src>>,
        node: &Node<'src>,
    ) -> Result<(), OutOfMemory> {
        match node {
            Node::Function { name } => push_found(nodes, self.of_functions.get(name)),
            Node::Variable { number } => push_found(nodes, self.of_variables.get(number)),
        }
    }
}

// Adds the nodes found, if there are any.
fn push_found<'src>(
    nodes: &mut Vec<Node<'src>>,
    found: Option<&Vec<Node<'src>>>,
) -> Result<(), OutOfMemory>
    ensures { OnOk result (nodes_view nodes.new.items ≡ nodes_view nodes.old.items
        ++ found_nodes (option_map (λ ns. ns.now) found.entry)) }
{
    match found {
        Some(found) => push_all(nodes, found),
        None => Ok(()),
    }
}

// Adds these nodes.
fn push_all<'src>(nodes: &mut Vec<Node<'src>>, added: &[Node<'src>]) -> Result<(), OutOfMemory>
    ensures { OnOk result (nodes_view nodes.new.items ≡ nodes_view nodes.old.items ++ nodes_view added.now) }
{
    for node in added {
        push(nodes, node)?;
    }
    Ok(())
}

// The readers found, or none.
fn list<'src>(alloc: Global, readers: Option<Vec<Node<'src>>>) -> Vec<Node<'src>>
    ensures { nodes_view result.items ≡ found_nodes readers.entry }
{
    match readers {
        Some(readers) => readers,
        None => Vec::new(alloc),
    }
}

// The readers found, and one more.
fn with_reader<'src>(
    alloc: Global,
    readers: Option<Vec<Node<'src>>>,
    reader: &Node<'src>,
) -> Result<Vec<Node<'src>>, OutOfMemory>
    ensures { IfOk result (λ all. nodes_view all.items ≡ found_nodes readers.entry ++ node_view reader.now ∷ []) }
{
    let mut all = list(alloc, readers);
    push(&mut all, reader)?;
    Ok(all)
}
