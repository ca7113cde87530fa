// Walks over the graph of what variables and functions read, depth first.

ghost use Rattle.std.specs.Prelude.{IfOk, IsTrue, MatchOption, OnOk, [], false, if◌then◌else◌, map, not};
ghost use Rattle.std.specs.Prelude.{◌++◌, ◌↔◌, ◌∷◌, ◌≡◌, ◌⊎◌};
ghost use Rattle.just_resolve.specs.Prelude.{Enter, Leave, OfVariable, PlainNode, all_entered, entered_in, graph_view};
ghost use Rattle.just_resolve.specs.Prelude.{node_view, nodes_view, path_in, read_by, step_view, steps_in, variable_in};
ghost use Rattle.just_resolve.specs.Prelude.{variables_in};

use just_needs::graph::Graph;
use just_needs::node::Node;
use just_needs::reached::Reached;
use just_syntax::number::Number;
use just_syntax::out_of_memory::OutOfMemory;
use just_syntax::results::push;
use std::alloc::Global;

// A node that is to be entered, or one that was entered and is left after the steps above it.
#[derive(Drop)]
pub(crate) struct Step<'src> {
    pub(crate) node: Node<'src>,
    pub(crate) is_entered: bool,
}

// The nodes that were entered, and the steps that are left to do, the next one last. The entered nodes among the steps
// are a path: each reads the next one.
#[derive(Drop)]
pub(crate) struct Walk<'src> {
    entered: Reached<'src>,
    steps: Vec<Step<'src>>,
}

impl<'src> Walk<'src> {
    // A walk from some variables, the first of them first.
    pub(crate) fn new(alloc: Global, starts: &[Number]) -> Result<Walk<'src>, OutOfMemory>
        ensures steps { IfOk result (λ walk. steps_in walk ≡ all_entered (map OfVariable starts.now)) }
        ensures entered { IfOk result (λ walk. (x : PlainNode) → entered_in walk x ≡ false) }
    {
        let mut steps = Vec::new(alloc);
        for number in starts.iter().rev() {
            add_step(&mut steps, &Node::Variable { number: *number }, false)?;
        }
        Ok(Walk {
            entered: Reached::new(alloc),
            steps,
        })
    }

    // The next step, which is done.
    pub(crate) fn pop(&mut self) -> Option<Step<'src>>
        ensures steps { MatchOption result (steps_in self.old ≡ [])
            (λ step. steps_in self.old ≡ steps_in self.new ++ step_view step ∷ []) }
        ensures entered { (x : PlainNode) → entered_in self.new x ≡ entered_in self.old x }
    {
        self.steps.pop()
    }

    // Enters a node, unless it was entered; the steps are then what it reads, in the order of its text, and to leave
    // it. It returns whether the node is new.
    pub(crate) fn enter(
        &mut self,
        alloc: Global,
        graph: &Graph<'src, '_>,
        node: &Node<'src>,
    ) -> Result<bool, OutOfMemory>
        ensures fresh { IfOk result (λ is_new. is_new ≡ not (entered_in self.old (node_view node.now))) }
        ensures entered { OnOk result ((x : PlainNode) → IsTrue (entered_in self.new x)
            ↔ ((node_view node.now ≡ x) ⊎ IsTrue (entered_in self.old x))) }
        ensures steps { IfOk result (λ is_new. steps_in self.new ≡ (if is_new then steps_in self.old
            ++ Leave (node_view node.now) ∷ all_entered (read_by (graph_view graph.now) (node_view node.now))
            else steps_in self.old)) }
    {
        let is_new = self.entered.insert(node)?;
        if is_new {
            let mut read = Vec::new(alloc);
            graph.add_read_by(alloc, &mut read, node)?;
            add_step(&mut self.steps, node, true)?;
            add_backwards(&mut self.steps, read)?;
        }
        Ok(is_new)
    }

    // The variables of the path, in the order in which they were entered.
    pub(crate) fn path(&self, alloc: Global) -> Result<Vec<Number>, OutOfMemory>
        ensures { IfOk result (λ path. path.items ≡ variables_in (path_in (steps_in self.now))) }
    {
        let mut path = Vec::new(alloc);
        for step in &self.steps {
            if step.is_entered {
                add_variable(&mut path, &step.node)?;
            }
        }
        Ok(path)
    }
}

// Adds the number of a variable; a function adds nothing.
pub(crate) fn add_variable(numbers: &mut Vec<Number>, node: &Node) -> Result<(), OutOfMemory>
    ensures { OnOk result (numbers.new.items ≡ numbers.old.items ++ variable_in (node_view node.now)) }
{
    if let Node::Variable { number } = node {
        numbers.push(*number)?;
    }
    Ok(())
}

// Adds nodes that are to be entered, the first of them last.
fn add_backwards<'src>(
    steps: &mut Vec<Step<'src>>,
    mut nodes: Vec<Node<'src>>,
) -> Result<(), OutOfMemory>
    ensures { OnOk result (map step_view steps.new.items
        ≡ map step_view steps.old.items ++ all_entered (nodes_view nodes.entry.items)) }
{
    while let Some(node) = nodes.pop() {
        add_step(steps, &node, false)?;
    }
    Ok(())
}

// Adds a step.
fn add_step<'src>(
    steps: &mut Vec<Step<'src>>,
    node: &Node<'src>,
    is_entered: bool,
) -> Result<(), OutOfMemory>
    ensures { OnOk result (map step_view steps.new.items ≡ map step_view steps.old.items
        ++ (if is_entered then Leave (node_view node.now) else Enter (node_view node.now)) ∷ []) }
{
    let node = node.duplicate();
    push(steps, Step { node, is_entered })
}
