// The variables that a run has to evaluate for some names.

ghost use Rattle.std.specs.Prelude.{IfErr, IfOk, IfSome, IsTrue, None, OnOk, Some, map, nat_eq, ℕ, ◌↔◌, ◌≡◌};
ghost use Rattle.std.specs.List.{list_any};
ghost use Rattle.just_needs.specs.Prelude.{IsNeeded, StaysResolved, assignment_view};
ghost use Rattle.just_needs.specs.Prelude.{first_unknown, frames_view, functions_view, text_numbered, unknown_name};

use crate::graph::Graph;
use crate::node::variables;
use crate::reached::{Overridden, reached_from};
use just_host::justfile::Justfile;
use just_syntax::number::Number;
use just_syntax::variable_error::VariableError;
use just_syntax::variables::references_of;
use just_value::scope::Scope;
use std::alloc::Global;
use std::collections::{HashMap, HashSet};

/// The numbers of the variables that a run has to evaluate for some names. It is the least set that holds the variables
/// with these names and, for each assignment whose number it holds and that no override replaces, the variables that
/// the assignment reads, by itself or in the bodies of the functions that it reaches. A number that `outer` binds is in
/// the set only if it is asked for by name.
///
/// A run that takes the set as its references evaluates only what is asked for, as upstream does:
///
/// ```rust
/// let set = needed(alloc, &module, &outer, &run.overrides, &["greeting"])?;
/// run.references = Some(set);
/// ```
///
/// If a module is resolved with all its variables, a run of it with these overrides is resolved with the set as its
/// references.
///
/// The module does not need to be resolved. If several assignments have one number, what each of them reads counts. The
/// value of each needed assignment is scanned once, and so is the body of each function that they reach.
///
/// # Errors
///
/// `Unknown` with the first name that no assignment has. `OutOfMemory`, if an allocation fails. Either way nothing is
/// created.
pub fn needed<'src, 'name>(
    alloc: Global,
    module: &Justfile<'src>,
    outer: &Scope<'src, '_>,
    overrides: &HashMap<Number, String>,
    names: &[&'name str],
) -> Result<HashSet<Number>, VariableError<'name>>
    ensures exact { IfOk result (λ set. (n : ℕ) → IsTrue (list_any (nat_eq n) set.keys)
        ↔ IsNeeded (functions_view «module».now) (map assignment_view «module».now.assignments)
        (frames_view outer.now) (text_numbered overrides.now) (map (λ name. name.now) names.now) n) }
    ensures stays_resolved { IfOk result (StaysResolved «module».now (frames_view outer.now)
        (text_numbered overrides.now)) }
    ensures known { OnOk result (first_unknown (map assignment_view «module».now.assignments)
        (map (λ name. name.now) names.now) ≡ None) }
    ensures unknown { IfErr result (λ error. IfSome (unknown_name error)
        (λ name. first_unknown (map assignment_view «module».now.assignments) (map (λ name. name.now) names.now)
        ≡ Some name)) }
{
    let asked = references_of(alloc, &module.assignments, names)?;
    let graph = Graph::new(alloc, module, outer)?;
    let starts = variables(alloc, &asked)?;
    let reads = Overridden {
        graph: &graph,
        overrides,
    };
    let reached = reached_from(alloc, &reads, starts)?;
    Ok(reached.into_variables())
}
