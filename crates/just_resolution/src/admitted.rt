// The first variable that may not be read: in an expression, or in the functions that it reaches.

ghost use Rattle.std.specs.Prelude.{IfOk, IsNone, IsTrue, OnOk, Some, map, option_map, ◌++◌, ◌||◌, ◌≡◌};
ghost use Rattle.just_resolution.specs.Prelude.{FindsBeyond, FindsBody, FindsUnreadable, IsAdmitted, called_names};
ghost use Rattle.just_resolution.specs.Prelude.{calls_of, function_at, function_view, is_name_in, is_number_in};
ghost use Rattle.just_resolution.specs.Prelude.{is_readable, may_be_read, may_occur, name_called};
ghost use Rattle.just_resolution.specs.Prelude.{name_view, occurrence_view, occurrences_in, occurrences_view};
ghost use Rattle.just_resolution.specs.Prelude.{occurs_at, texts, view};

use crate::numbers::own_numbers;
use crate::readable::Readable;
use just_syntax::expression::Expression;
use just_syntax::function_definition::FunctionDefinition;
use just_syntax::name::Name;
use just_syntax::number::Number;
use just_syntax::occurrence::Occurrence;
use just_syntax::occurrences::refill;
use just_syntax::out_of_memory::OutOfMemory;
use just_syntax::table::Table;
use std::alloc::Global;
use std::collections::BTreeSet;

/// The first variable that an expression may not read: by itself one that is not readable `here`, or through functions
/// one that is not `readable` in bodies.
///
/// Each function that it reaches is scanned, unless it is admitted: then it and what it calls were scanned before, and
/// what bodies could read then they can read now. A function is admitted before it is scanned, so that none is scanned
/// twice, and mutual recursion terminates. If nothing is found, the admitted functions are a closed set: it holds what
/// they call. `occurrences` is filled anew for each scan, and `pending` for each expression.
///
/// # Errors
///
/// `OutOfMemory` if an allocation fails: nothing is decided.
pub fn first_unreadable<'src, 'a>(
    alloc: Global,
    occurrences: &mut Vec<Occurrence<'src, 'a>>,
    pending: &mut Vec<&'src str>,
    functions: &'a Table<FunctionDefinition<'src>>,
    here: &Readable<'src, '_, '_>,
    readable: &Readable<'src, '_, '_>,
    admitted: &mut BTreeSet<&'src str>,
    expression: &'a Expression<'src>,
) -> Result<Option<Name<'src>>, OutOfMemory>
    requires closed { IsAdmitted (map function_view functions.now) (is_readable readable.now)
        (is_name_in admitted.old) }
    ensures exact { IfOk result (λ found. FindsBeyond (map function_view functions.now) (view expression.now)
        (is_readable here.now) (is_readable readable.now) (option_map name_view found)) }
    ensures closed { IfOk result (λ found. IsNone found
        → IsAdmitted (map function_view functions.now) (is_readable readable.now) (is_name_in admitted.new)) }
{
    pending.clear();
    let own = BTreeSet::new(alloc);
    let at_once = look_through(occurrences, here, &own, pending, expression)?;
    if at_once.is_some() {
        return Ok(at_once);
    }
    while let Some(name) = pending.pop() {
        let is_new = admitted.insert(name)?;
        if !is_new {
            continue;
        }
        let beyond = look_through_function(alloc, occurrences, functions, readable, pending, name)?;
        if beyond.is_some() {
            return Ok(beyond);
        }
    }
    Ok(None)
}

// The first variable in the body of the function with a name, if there is one, that is neither its own parameter nor
// readable. If nothing is found, the names that the body calls are added to `pending`.
fn look_through_function<'src, 'a>(
    alloc: Global,
    occurrences: &mut Vec<Occurrence<'src, 'a>>,
    functions: &'a Table<FunctionDefinition<'src>>,
    readable: &Readable<'src, '_, '_>,
    pending: &mut Vec<&'src str>,
    name: &str,
) -> Result<Option<Name<'src>>, OutOfMemory>
    ensures reads { IfOk result (λ found. FindsBody (function_at (map function_view functions.now) name.now)
        (λ n. IsTrue (is_readable readable.now n)) (option_map name_view found)) }
    ensures calls { IfOk result (λ found. IsNone found → texts pending.new.items ≡ texts pending.old.items
        ++ calls_of (function_at (map function_view functions.now) name.now)) }
{
    match functions.get(name) {
        Some(function) => {
            let own = own_numbers(alloc, &function.parameters)?;
            look_through(occurrences, readable, &own, pending, &function.body)
        }
        None => Ok(None),
    }
}

// The first variable in an expression that is neither own nor readable. If nothing is found, the names that it calls
// are added to `pending`.
fn look_through<'src, 'a>(
    occurrences: &mut Vec<Occurrence<'src, 'a>>,
    readable: &Readable<'src, '_, '_>,
    own: &BTreeSet<Number>,
    pending: &mut Vec<&'src str>,
    expression: &'a Expression<'src>,
) -> Result<Option<Name<'src>>, OutOfMemory>
    ensures reads { IfOk result
        (λ found. FindsUnreadable (λ n. IsTrue (is_number_in own.now n || is_readable readable.now n))
        (occurrences_in (view expression.now)) (option_map name_view found)) }
    ensures calls { IfOk result (λ found. IsNone found → texts pending.new.items ≡ texts pending.old.items
        ++ called_names (occurrences_in (view expression.now))) }
{
    refill(occurrences, expression)?;
    let unreadable = first_unreadable_occurrence(readable, own, occurrences.as_slice());
    if unreadable.is_some() {
        return Ok(unreadable);
    }
    add_names(pending, occurrences.as_slice())?;
    Ok(None)
}

// The first variable that has a number and is neither own nor readable.
fn first_unreadable_occurrence<'src>(
    readable: &Readable<'src, '_, '_>,
    own: &BTreeSet<Number>,
    occurrences: &[Occurrence<'src, '_>],
) -> Option<Name<'src>>
    ensures { FindsUnreadable (λ n. IsTrue (is_number_in own.now n || is_readable readable.now n))
        (occurrences_view occurrences.now) (option_map name_view result) }
{
    for occurrence in occurrences {
        if !may_occur(readable, own, occurrence) {
            return Some(name_at(occurrence));
        }
    }
    None
}

// The name of a call or a variable, or the token of a command as one.
fn name_at<'src>(occurrence: &Occurrence<'src, '_>) -> Name<'src>
    ensures { name_view result ≡ occurs_at (occurrence_view occurrence.now) }
{
    match occurrence {
        Occurrence::Command { contents: _, token } => Name { token: *token },
        Occurrence::Call { name, arguments: _ } | Occurrence::Variable { name, number: _ } => *name,
    }
}

// Whether it is no variable, or one whose number, if it has one, is own or readable.
fn may_occur(readable: &Readable, own: &BTreeSet<Number>, occurrence: &Occurrence) -> bool
    ensures { result ≡ may_occur (λ n. is_number_in own.now n || is_readable readable.now n)
        (occurrence_view occurrence.now) }
{
    match occurrence {
        Occurrence::Variable { name: _, number } => may_be_read(readable, own, *number),
        _ => true,
    }
}

// Whether a number, if there is one, is own or readable.
fn may_be_read(readable: &Readable, own: &BTreeSet<Number>, number: Option<Number>) -> bool
    ensures { result ≡ may_be_read (λ n. is_number_in own.now n || is_readable readable.now n) number }
{
    match number {
        Some(number) => own.contains(&number) || readable.contains(number),
        None => true,
    }
}

// Adds the names of calls.
fn add_names<'src>(
    names: &mut Vec<&'src str>,
    occurrences: &[Occurrence<'src, '_>],
) -> Result<(), OutOfMemory>
    ensures { OnOk result (texts names.new.items
        ≡ texts names.old.items ++ called_names (occurrences_view occurrences.now)) }
{
    for occurrence in occurrences {
        add_name(names, occurrence)?;
    }
    Ok(())
}

// Adds the name of a call.
fn add_name<'src>(
    names: &mut Vec<&'src str>,
    occurrence: &Occurrence<'src, '_>,
) -> Result<(), OutOfMemory>
    ensures { OnOk result (texts names.new.items
        ≡ texts names.old.items ++ name_called (occurrence_view occurrence.now)) }
{
    if let Occurrence::Call { name, arguments: _ } = occurrence {
        names.push(name.lexeme())?;
    }
    Ok(())
}
