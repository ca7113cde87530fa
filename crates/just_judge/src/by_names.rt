// Cases whose modules are resolved anew, by their names.

use crate::rerun::{described, module_of};
use bumpalo::Bump;
use just_case_reader::case::Case;
use just_host::justfile::Justfile;
use just_resolution::references::is_referenced;
use just_resolve::resolve::resolve;
use just_resolve::resolve_error::ResolveError;
use just_syntax::assignment::Assignment;
use just_syntax::number::Number;
use just_syntax::out_of_memory::OutOfMemory;
use just_syntax::table::Table;
use just_value::scope::Scope;
use std::alloc::Global;
use std::collections::{HashMap, HashSet};
use std::mem;

/// A case with the numbers and the order that `resolve` gives its module.
#[derive(Drop)]
pub(crate) struct ByNames<'src> {
    pub(crate) case: Case<'src>,
    /// Whether the case itself evaluates the same variables in another order.
    pub(crate) is_reordered: bool,
}

/// The case that a text describes, with the numbers and the order that `resolve` gives its module. Its run evaluates
/// the variables that the run of the case itself evaluates. There is none if names alone do not resolve the module: a
/// run can be resolved in its own order although an assignment that it does not evaluate reads what nothing has.
pub(crate) fn by_names<'case>(
    alloc: Global,
    arena: &'case Bump,
    text: &'case [u8],
) -> Result<Option<ByNames<'case>>, OutOfMemory> {
    let Some(module) = resolved_module(alloc, arena, text)? else {
        return Ok(None);
    };
    match described(alloc, arena, text)? {
        Some(case) => Ok(Some(with_module(alloc, case, module)?)),
        None => Ok(None),
    }
}

// The module of the case that a text describes, resolved by its names, if that is possible.
fn resolved_module<'case>(
    alloc: Global,
    arena: &'case Bump,
    text: &'case [u8],
) -> Result<Option<Justfile<'case>>, OutOfMemory> {
    let Some(case) = described(alloc, arena, text)? else {
        return Ok(None);
    };
    let mut module = module_of(alloc, case)?;
    let is_resolved = try_resolve(alloc, &mut module)?;
    Ok(if is_resolved { Some(module) } else { None })
}

// The case with the numbers and the order of its resolved module.
fn with_module<'case>(
    alloc: Global,
    mut case: Case<'case>,
    mut module: Justfile<'case>,
) -> Result<ByNames<'case>, OutOfMemory> {
    let is_reordered = exchange(alloc, &mut case, &mut module)?;
    Ok(ByNames { case, is_reordered })
}

// Gives a case the numbers and the order of its resolved module, and returns whether the order of what is evaluated is
// another one.
fn exchange<'case>(
    alloc: Global,
    case: &mut Case<'case>,
    module: &mut Justfile<'case>,
) -> Result<bool, OutOfMemory> {
    let own = evaluated_names(alloc, case)?;
    renumber(alloc, case, &own, &module.assignments)?;
    mem::swap(&mut case.assignments, &mut module.assignments);
    mem::swap(&mut case.evaluation_order, &mut module.evaluation_order);
    mem::swap(&mut case.functions, &mut module.functions);
    let new = evaluated_names(alloc, case)?;
    Ok(new.as_slice() != own.as_slice())
}

// Resolves a module by its names, and returns whether it was possible.
fn try_resolve(alloc: Global, module: &mut Justfile) -> Result<bool, OutOfMemory> {
    let outer = Scope::root(alloc, &[])?;
    match resolve(alloc, module, &outer) {
        Ok(()) => Ok(true),
        Err(ResolveError::OutOfMemory) => Err(OutOfMemory),
        Err(_) => Ok(false),
    }
}

// The names that a case's run evaluates, in its order.
fn evaluated_names<'src>(alloc: Global, case: &Case<'src>) -> Result<Vec<&'src str>, OutOfMemory> {
    let mut names = Vec::new(alloc);
    for name in &case.evaluation_order {
        let Some(assignment) = case.assignments.get(name.lexeme()) else {
            continue;
        };
        if is_referenced(case.references.as_ref(), assignment.number) {
            names.push(name.lexeme())?;
        }
    }
    Ok(names)
}

// Gives the overrides of a case the numbers that these assignments have, and makes the variables with these names the
// referenced ones.
fn renumber(
    alloc: Global,
    case: &mut Case,
    names: &[&str],
    resolved: &Table<Assignment>,
) -> Result<(), OutOfMemory> {
    let mut overrides = mem::replace(&mut case.overrides, HashMap::new(alloc));
    add_overrides(case, &mut overrides, resolved)?;
    let mut references = HashSet::new(alloc);
    add_numbers(&mut references, names, resolved)?;
    case.references = Some(references);
    Ok(())
}

// Adds the numbers of the assignments with these names.
fn add_numbers(
    numbers: &mut HashSet<Number>,
    names: &[&str],
    resolved: &Table<Assignment>,
) -> Result<(), OutOfMemory> {
    for name in names {
        if let Some(assignment) = resolved.get(name) {
            numbers.insert(assignment.number)?;
        }
    }
    Ok(())
}

// Adds the overrides of a case's assignments, by their new numbers.
fn add_overrides(
    case: &mut Case,
    overrides: &mut HashMap<Number, String>,
    resolved: &Table<Assignment>,
) -> Result<(), OutOfMemory> {
    for new in resolved {
        let Some(old) = case.assignments.get(new.name.lexeme()) else {
            continue;
        };
        if let Some(text) = overrides.remove(&old.number) {
            case.overrides.insert(new.number, text)?;
        }
    }
    Ok(())
}
