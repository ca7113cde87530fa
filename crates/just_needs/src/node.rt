// Variables and functions as the nodes of a graph.

ghost use Rattle.std.specs.Prelude.{IfOk, OnOk, [], map, ◌++◌, ◌∷◌, ◌≡◌};
ghost use Rattle.just_needs.specs.Prelude.{OfVariable, node_view, nodes_view};

use just_syntax::number::Number;
use just_syntax::out_of_memory::OutOfMemory;
use just_syntax::results;
use std::alloc::Global;
use std::collections::HashSet;

/// A variable, or a function of the file by its name.
#[derive(Drop)]
pub enum Node<'src> {
    Function { name: &'src str },
    Variable { number: Number },
}

impl<'src> Node<'src> {
    /// A copy of the node.
    pub fn duplicate(&self) -> Node<'src>
        ensures { node_view result ≡ node_view self.now }
    {
        match self {
            Node::Function { name } => Node::Function { name },
            Node::Variable { number } => Node::Variable { number: *number },
        }
    }
}

/// Adds a node to a list.
///
/// # Errors
///
/// `OutOfMemory`, if an allocation fails: the list is unchanged.
pub fn push<'src>(nodes: &mut Vec<Node<'src>>, node: &Node<'src>) -> Result<(), OutOfMemory>
    ensures { OnOk result (nodes_view nodes.new.items ≡ nodes_view nodes.old.items ++ node_view node.now ∷ []) }
{
    results::push(nodes, node.duplicate())
}

// The variables with these numbers.
pub(crate) fn variables<'src>(
    alloc: Global,
    numbers: &HashSet<Number>,
) -> Result<Vec<Node<'src>>, OutOfMemory>
    ensures { IfOk result (λ nodes. nodes_view nodes.items ≡ map OfVariable numbers.now.keys) }
{
    let mut nodes = Vec::new(alloc);
    for number in numbers {
        push(&mut nodes, &Node::Variable { number: *number })?;
    }
    Ok(nodes)
}
