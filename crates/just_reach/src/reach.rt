// What an expression and the assignments of a module reach.

ghost use Rattle.std.specs.Prelude.{IfOk, OnOk, map, option_map, ◌↔◌, ◌≡◌};
ghost use Rattle.just_reach.specs.Prelude.{BeginsWith, HasBodiesOnce, IsIn, IsReached, IsReachedFrom, IsReachedInRun};
ghost use Rattle.just_reach.specs.Prelude.{PlainMember, assignment_view, function_at, function_view, functions_view};
ghost use Rattle.just_reach.specs.Prelude.{is_referenced_in, member_view, members_in, members_of_body};
ghost use Rattle.just_reach.specs.Prelude.{members_of_value};
ghost use Rattle.just_reach.specs.Prelude.{members_of_values, members_view, name_of_call, value_members, view};

use crate::member::Member;
use crate::occurring::add;
use just_host::justfile::Justfile;
use just_syntax::assignment::Assignment;
use just_syntax::expression::Expression;
use just_syntax::function_definition::FunctionDefinition;
use just_syntax::number::Number;
use just_syntax::occurrence::Occurrence;
use just_syntax::out_of_memory::OutOfMemory;
use just_syntax::table::Table;
use std::alloc::Global;
use std::collections::{BTreeSet, HashSet};

/// What evaluating an expression may reach: each command, call and variable that occurs in it, and in the body of each
/// function of the file that it reaches. The members of the expression come first, in the order of its text. Then each
/// body follows once, in the order in which calls are listed. What occurs twice in one text is listed twice.
///
/// For example, `f()` with `f() := env("HOME") + x` gives the call of `f`, the built-in function `env` and the variable
/// `x`.
///
/// Everything that occurs counts, whatever the values are: also the branch that is not taken, and the arguments of a
/// call that is refused. The law [`reaches_no_more`] says that evaluation reaches nothing else.
///
/// ```rust
/// for member in &reach(alloc, &module.functions, &assignment.value)? {
///     println!(rt; "line {}: {member}", member.token().line + 1)?;
/// }
/// ```
///
/// [`reaches_no_more`]: crate::laws::reaches_no_more
///
/// # Errors
///
/// `OutOfMemory` if an allocation fails: nothing is returned.
pub fn reach<'src, 'a>(
    alloc: Global,
    functions: &'a Table<FunctionDefinition<'src>>,
    expression: &'a Expression<'src>,
) -> Result<Vec<Member<'src, 'a>>, OutOfMemory>
    ensures exact { IfOk result (λ all. (x : PlainMember) → IsIn (members_view all.items) x
        ↔ IsReached (map function_view functions.now) (view expression.now) x) }
    ensures begins { let known = map function_view functions.now in
        IfOk result (λ all. BeginsWith (members_in known (view expression.now)) (members_view all.items)) }
    ensures once { let known = map function_view functions.now in
        IfOk result (λ all. HasBodiesOnce known (members_in known (view expression.now)) (members_view all.items)) }
{
    let mut all = Vec::new(alloc);
    let mut occurrences = Vec::new(alloc);
    add(&mut all, &mut occurrences, functions, expression)?;
    add_bodies(alloc, &mut all, &mut occurrences, functions)?;
    Ok(all)
}

/// What a run over a module may reach: what [`reach`] gives for the values of the assignments whose number is in
/// `references`, or of all assignments if there is no set. The members of the values come first, in the order of the
/// assignments' names. Then each body follows once.
///
/// The evaluation order does not matter, nor do overrides and outer values. The value of an assignment counts even if a
/// run does not evaluate it, because it is overridden or already bound.
///
/// # Errors
///
/// `OutOfMemory` if an allocation fails: nothing is returned.
pub fn reach_of_run<'src, 'a>(
    alloc: Global,
    module: &'a Justfile<'src>,
    references: Option<&HashSet<Number>>,
) -> Result<Vec<Member<'src, 'a>>, OutOfMemory>
    ensures exact { IfOk result (λ all. (x : PlainMember) → IsIn (members_view all.items) x
        ↔ IsReachedInRun (functions_view «module».now) (map assignment_view «module».now.assignments)
        (is_referenced_in references.entry) x) }
    ensures begins { IfOk result (λ all. BeginsWith (value_members (functions_view «module».now)
        (is_referenced_in references.entry) (map assignment_view «module».now.assignments)) (members_view all.items)) }
    ensures once { let known = functions_view «module».now in IfOk result (λ all. HasBodiesOnce known
        (value_members known (is_referenced_in references.entry) (map assignment_view «module».now.assignments))
        (members_view all.items)) }
{
    let mut all = Vec::new(alloc);
    let mut occurrences = Vec::new(alloc);
    let functions = &module.functions;
    add_values(
        &mut all,
        &mut occurrences,
        functions,
        &module.assignments,
        references,
    )?;
    add_bodies(alloc, &mut all, &mut occurrences, functions)?;
    Ok(all)
}

// Adds what occurs in the values of the referenced assignments. `occurrences` is filled anew for each, here and below.
fn add_values<'src, 'a>(
    all: &mut Vec<Member<'src, 'a>>,
    occurrences: &mut Vec<Occurrence<'src, 'a>>,
    functions: &'a Table<FunctionDefinition<'src>>,
    assignments: &'a Table<Assignment<'src>>,
    references: Option<&HashSet<Number>>,
) -> Result<(), OutOfMemory>
    ensures { OnOk result (members_view all.new.items ≡ members_of_values (map function_view functions.now)
        (is_referenced_in references.entry) (members_view all.old.items) (map assignment_view assignments.now)) }
{
    for assignment in assignments {
        add_value(all, occurrences, functions, assignment, references)?;
    }
    Ok(())
}

// Adds what occurs in the value of an assignment, if it is referenced.
fn add_value<'src, 'a>(
    all: &mut Vec<Member<'src, 'a>>,
    occurrences: &mut Vec<Occurrence<'src, 'a>>,
    functions: &'a Table<FunctionDefinition<'src>>,
    assignment: &'a Assignment<'src>,
    references: Option<&HashSet<Number>>,
) -> Result<(), OutOfMemory>
    ensures { OnOk result (members_view all.new.items ≡ members_of_value (map function_view functions.now)
        (is_referenced_in references.entry) (members_view all.old.items) (assignment_view assignment.now)) }
{
    if is_referenced(references, assignment.number) {
        add(all, occurrences, functions, &assignment.value)
    } else {
        Ok(())
    }
}

// Whether a number is in the set, or there is no set.
fn is_referenced(references: Option<&HashSet<Number>>, number: Number) -> bool
    ensures { result ≡ is_referenced_in references.entry number }
{
    match references {
        Some(references) => references.contains(&number),
        None => true,
    }
}

// Adds what is reached through the functions of the file that members call, each body once.
fn add_bodies<'src, 'a>(
    alloc: Global,
    all: &mut Vec<Member<'src, 'a>>,
    occurrences: &mut Vec<Occurrence<'src, 'a>>,
    functions: &'a Table<FunctionDefinition<'src>>,
) -> Result<(), OutOfMemory>
    ensures exact { OnOk result ((x : PlainMember) → IsIn (members_view all.new.items) x
        ↔ IsReachedFrom (map function_view functions.now) (members_view all.old.items) x) }
    ensures begins { OnOk result (BeginsWith (members_view all.old.items) (members_view all.new.items)) }
    ensures once { OnOk result (HasBodiesOnce (map function_view functions.now) (members_view all.old.items)
        (members_view all.new.items)) }
{
    let mut called = BTreeSet::new(alloc);
    let mut next = 0;
    while next < all.len() {
        let name = called_name(&all[next]);
        next += 1;
        let Some(name) = name else {
            continue;
        };
        let is_new = called.insert(name)?;
        if !is_new {
            continue;
        }
        add_body(all, occurrences, functions, name)?;
    }
    Ok(())
}

// The name of the function of the file that a member calls, if it calls one.
fn called_name<'src>(member: &Member<'src, '_>) -> Option<&'src str>
    ensures { option_map (λ name. name.now) result ≡ name_of_call (member_view member.now) }
{
    match member {
        Member::Call { name } => Some(name.lexeme()),
        _ => None,
    }
}

// Adds what occurs in the body of the function with a name, if the file defines one.
fn add_body<'src, 'a>(
    all: &mut Vec<Member<'src, 'a>>,
    occurrences: &mut Vec<Occurrence<'src, 'a>>,
    functions: &'a Table<FunctionDefinition<'src>>,
    name: &str,
) -> Result<(), OutOfMemory>
    ensures { let known = map function_view functions.now in OnOk result (members_view all.new.items
        ≡ members_of_body known (members_view all.old.items) (function_at known name.now)) }
{
    match functions.get(name) {
        Some(function) => add(all, occurrences, functions, &function.body),
        None => Ok(()),
    }
}
