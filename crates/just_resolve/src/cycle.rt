// Assignments that depend on themselves.

ghost use Rattle.std.specs.Prelude.{IfOk, IfSome, IsNone, IsTrue, map, ◌↔◌, ◌≡◌};
ghost use Rattle.just_resolve.specs.Prelude.{AreDistinct, DependsOn, DependsOnItself, IsCycle, IsPathBack, OfVariable};
ghost use Rattle.just_resolve.specs.Prelude.{assignment_view, frames_view, functions_view, graph_view, name_view};
ghost use Rattle.just_resolve.specs.Prelude.{node_view, read_by};

use crate::order::names_of;
use crate::walk::Walk;
use just_host::justfile::Justfile;
use just_needs::graph::Graph;
use just_needs::node::Node;
use just_syntax::name::Name;
use just_syntax::number::Number;
use just_syntax::out_of_memory::OutOfMemory;
use just_syntax::variables::number_of;
use just_value::scope::Scope;
use std::alloc::Global;

// The names of assignments that form a cycle through the assignment with a name, which is the first. Each reads the
// next one, by itself or through functions, and the last one reads the first. It is `None` only if there is no such
// assignment, or if the assignment does not depend on itself.
pub(crate) fn cycle<'src>(
    alloc: Global,
    module: &Justfile<'src>,
    outer: &Scope<'src, '_>,
    name: &str,
) -> Result<Option<Vec<Name<'src>>>, OutOfMemory>
    requires { AreDistinct (map (λ a. a.number) (map assignment_view «module».now.assignments)) }
    ensures some { IfOk result (λ found. IfSome found (λ names. IsCycle (functions_view «module».now)
        (map assignment_view «module».now.assignments) (map name_view names.items))) }
    ensures none { IfOk result (λ found. IsNone found → DependsOnItself (functions_view «module».now)
        (map assignment_view «module».now.assignments) (frames_view outer.now) name.now → ⊥) }
{
    let Some(start) = number_of(&module.assignments, name) else {
        return Ok(None);
    };
    let graph = Graph::new(alloc, module, outer)?;
    match path_back(alloc, &graph, start)? {
        Some(path) => Ok(Some(names_of(alloc, &module.assignments, &path)?)),
        None => Ok(None),
    }
}

// The variables on a path from a variable back to itself; `None` if it does not depend on itself.
fn path_back<'src>(
    alloc: Global,
    graph: &Graph<'src, '_>,
    start: Number,
) -> Result<Option<Vec<Number>>, OutOfMemory>
    ensures some { IfOk result (λ found. IfSome found (λ path. IsPathBack (read_by (graph_view graph.now)) start
        path.items)) }
    ensures none { IfOk result (λ found. IsNone found → DependsOn (read_by (graph_view graph.now)) start start → ⊥) }
{
    let mut walk = Walk::new(alloc, &[start])?;
    while let Some(step) = walk.pop() {
        if step.is_entered {
            continue;
        }
        let is_start = is_variable(&step.node, start);
        let is_new = walk.enter(alloc, graph, &step.node)?;
        if is_start && !is_new {
            return Ok(Some(walk.path(alloc)?));
        }
    }
    Ok(None)
}

// Whether a node is the variable with a number.
fn is_variable(node: &Node, sought: Number) -> bool
    ensures { IsTrue result ↔ (node_view node.now ≡ OfVariable sought) }
{
    match node {
        Node::Function { name: _ } => false,
        Node::Variable { number } => *number == sought,
    }
}
