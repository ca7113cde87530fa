// The first variable without a number, or call that its name does not take.

ghost use Rattle.std.specs.Prelude.{IfOk, IsTrue, [], map, not, option_map, ◌↔◌, ◌≡◌};
ghost use Rattle.std.specs.List.{list_all};
ghost use Rattle.just_resolution.specs.Prelude.{AllNumbered, FindsUnknown, IsNumbered, VariableAt, accepts};
ghost use Rattle.just_resolution.specs.Prelude.{all_occurrences, assignment_view, call_fault, callee, function_view};
ghost use Rattle.just_resolution.specs.Prelude.{is_numbered, is_unknown, module_fault_view, name_view};
ghost use Rattle.just_resolution.specs.Prelude.{occurrence_fault, occurrence_view, occurrences_in, occurrences_view};
ghost use Rattle.just_resolution.specs.Prelude.{undefined, view};

use crate::fault::Fault;
use just_builtins::function::{get, is_left_out};
use just_syntax::assignment::Assignment;
use just_syntax::expression::Expression;
use just_syntax::function_definition::FunctionDefinition;
use just_syntax::name::Name;
use just_syntax::number::Number;
use just_syntax::occurrence::Occurrence;
use just_syntax::occurrences::refill;
use just_syntax::out_of_memory::OutOfMemory;
use just_syntax::table::Table;
use std::alloc::Global;

// Whether a name can be called with this many arguments, as a function of the file or otherwise.
fn is_callable(functions: &Table<FunctionDefinition>, name: &str, arguments: usize) -> bool
    ensures { result ≡ accepts (callee (map function_view functions.now) name.now) arguments }
{
    match functions.get(name) {
        Some(function) => function.parameters.len() == arguments,
        None => is_callable_outside(name, arguments),
    }
}

// The same for a name that the file does not define: that of a built-in function, or of one that is left out.
fn is_callable_outside(name: &str, arguments: usize) -> bool
    ensures { result ≡ accepts (undefined name.now) arguments }
{
    match get(name) {
        Some(function) => {
            let expected = function.expected_arguments();
            *expected.start() <= arguments && arguments <= *expected.end()
        }
        None => is_left_out(name),
    }
}

// Whether a name stands for a function: of the file, built in, or left out.
fn is_function(functions: &Table<FunctionDefinition>, name: &str) -> bool
    ensures { result ≡ not (is_unknown (callee (map function_view functions.now) name.now)) }
{
    match functions.get(name) {
        Some(_) => true,
        None => is_function_outside(name),
    }
}

// The same for a name that the file does not define.
fn is_function_outside(name: &str) -> bool
    ensures { result ≡ not (is_unknown (undefined name.now)) }
{
    get(name).is_some() || is_left_out(name)
}

// The fault of a call, if there is one.
fn call_fault<'src>(
    functions: &Table<FunctionDefinition<'src>>,
    name: &Name<'src>,
    arguments: usize,
) -> Option<Fault<'src>>
    ensures { let seen = name_view name.now in option_map module_fault_view result
        ≡ call_fault (callee (map function_view functions.now) seen.lexeme) seen arguments }
{
    let function = *name;
    if is_callable(functions, name.lexeme(), arguments) {
        None
    } else if is_function(functions, name.lexeme()) {
        Some(Fault::ArgumentCountMismatch {
            function,
            found: arguments,
        })
    } else {
        Some(Fault::UndefinedFunction { function })
    }
}

// The fault of a variable, if there is one.
fn variable_fault<'src>(name: &Name<'src>, number: Option<Number>) -> Option<Fault<'src>>
    ensures { option_map module_fault_view result
        ≡ occurrence_fault [] (VariableAt (name_view name.now) number) }
{
    match number {
        Some(_) => None,
        None => Some(Fault::UndefinedVariable { variable: *name }),
    }
}

/// The fault of a variable or a call, if there is one; a command has none. It allocates nothing.
pub fn occurrence_fault<'src>(
    functions: &Table<FunctionDefinition<'src>>,
    occurrence: &Occurrence<'src, '_>,
) -> Option<Fault<'src>>
    ensures { option_map module_fault_view result
        ≡ occurrence_fault (map function_view functions.now) (occurrence_view occurrence.now) }
{
    match occurrence {
        Occurrence::Command {
            contents: _,
            token: _,
        } => None,
        Occurrence::Call { name, arguments } => call_fault(functions, name, *arguments),
        Occurrence::Variable { name, number } => variable_fault(name, *number),
    }
}

// The first fault among these occurrences.
fn occurrences_fault<'src>(
    functions: &Table<FunctionDefinition<'src>>,
    occurrences: &[Occurrence<'src, '_>],
) -> Option<Fault<'src>>
    ensures { FindsUnknown (map function_view functions.now) (occurrences_view occurrences.now)
        (option_map module_fault_view result) }
{
    for occurrence in occurrences {
        let fault = occurrence_fault(functions, occurrence);
        if fault.is_some() {
            return fault;
        }
    }
    None
}

// The first fault in an expression. `occurrences` is filled anew.
pub(crate) fn expression_fault<'src, 'a>(
    occurrences: &mut Vec<Occurrence<'src, 'a>>,
    functions: &Table<FunctionDefinition<'src>>,
    expression: &'a Expression<'src>,
) -> Result<Option<Fault<'src>>, OutOfMemory>
    ensures { IfOk result (λ fault. FindsUnknown (map function_view functions.now)
        (occurrences_in (view expression.now)) (option_map module_fault_view fault)) }
{
    refill(occurrences, expression)?;
    Ok(occurrences_fault(functions, occurrences.as_slice()))
}

// The first fault in the values of assignments.
pub(crate) fn values_fault<'src>(
    alloc: Global,
    functions: &Table<FunctionDefinition<'src>>,
    assignments: &Table<Assignment<'src>>,
) -> Result<Option<Fault<'src>>, OutOfMemory>
    ensures { IfOk result (λ fault. FindsUnknown (map function_view functions.now)
        (all_occurrences (map (λ a. a.value) (map assignment_view assignments.now)))
        (option_map module_fault_view fault)) }
{
    let mut occurrences = Vec::new(alloc);
    for assignment in assignments {
        let fault = expression_fault(&mut occurrences, functions, &assignment.value)?;
        if fault.is_some() {
            return Ok(fault);
        }
    }
    Ok(None)
}

// The first fault in the bodies of functions.
pub(crate) fn bodies_fault<'src>(
    alloc: Global,
    functions: &Table<FunctionDefinition<'src>>,
) -> Result<Option<Fault<'src>>, OutOfMemory>
    ensures { let all = map function_view functions.now in
        IfOk result (λ fault. FindsUnknown all (all_occurrences (map (λ f. f.body) all))
        (option_map module_fault_view fault)) }
{
    let mut occurrences = Vec::new(alloc);
    for function in functions {
        let fault = expression_fault(&mut occurrences, functions, &function.body)?;
        if fault.is_some() {
            return Ok(fault);
        }
    }
    Ok(None)
}

// Whether each variable has a number.
fn are_numbered(occurrences: &[Occurrence]) -> bool
    ensures { result ≡ list_all (λ o. is_numbered (occurrence_view o)) occurrences.now }
{
    occurrences.iter().all(|occurrence| is_numbered(occurrence))
}

// Whether it is no variable, or one with a number.
fn is_numbered(occurrence: &Occurrence) -> bool
    ensures { result ≡ is_numbered (occurrence_view occurrence.now) }
{
    match occurrence {
        Occurrence::Variable { name: _, number } => number.is_some(),
        _ => true,
    }
}

// Whether each variable in an expression has a number. `occurrences` is filled anew.
fn is_expression_numbered<'src, 'a>(
    occurrences: &mut Vec<Occurrence<'src, 'a>>,
    expression: &'a Expression<'src>,
) -> Result<bool, OutOfMemory>
    ensures { IfOk result (λ answer. IsTrue answer ↔ IsNumbered (view expression.now)) }
{
    refill(occurrences, expression)?;
    Ok(are_numbered(occurrences.as_slice()))
}

// Whether each variable in the values of assignments has a number.
pub(crate) fn are_values_numbered<'src>(
    alloc: Global,
    assignments: &Table<Assignment<'src>>,
) -> Result<bool, OutOfMemory>
    ensures { IfOk result (λ answer. IsTrue answer
        ↔ AllNumbered (map (λ a. a.value) (map assignment_view assignments.now))) }
{
    let mut occurrences = Vec::new(alloc);
    for assignment in assignments {
        if !is_expression_numbered(&mut occurrences, &assignment.value)? {
            return Ok(false);
        }
    }
    Ok(true)
}
