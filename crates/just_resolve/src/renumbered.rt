// A copy of a module's assignments and functions, with new numbers.

ghost use Rattle.std.specs.Prelude.{IfOk, List, OnOk, [], map, ℕ, ◌++◌, ◌∷◌, ◌≡◌};
ghost use Rattle.just_resolve.specs.Prelude.{AreTaken, IsInOrder, IsRenumbered, IsRenumberedFunction, Pairwise, Token};
ghost use Rattle.just_resolve.specs.Prelude.{assignment_view, declared_view, first_named, frames_view, function_view};
ghost use Rattle.just_resolve.specs.Prelude.{functions_view, name_number, name_view, next_free, parameter_numbers};
ghost use Rattle.just_resolve.specs.Prelude.{parameter_view, variable_named, with_number};

use crate::free::Free;
use crate::names::Names;
use crate::numbered::numbered;
use just_host::justfile::Justfile;
use just_syntax::assignment::Assignment;
use just_syntax::function_definition::FunctionDefinition;
use just_syntax::name::Name;
use just_syntax::number::Number;
use just_syntax::out_of_memory::OutOfMemory;
use just_syntax::results::push;
use just_syntax::table::Table;
use just_value::scope::Scope;
use std::alloc::Global;

// An assignment, and its new number.
#[derive(Clone, Copy)]
struct Declared<'src, 'a> {
    assignment: &'a Assignment<'src>,
    number: Number,
}

// A module with copies of the assignments and of the functions of another. Their numbers are the first that the scope
// does not bind: those of the assignments, and then those of the parameters. Each variable has the number of its name.
// The module is otherwise empty.
pub(crate) fn renumbered<'src>(
    alloc: Global,
    module: &Justfile<'src>,
    outer: &Scope<'src, '_>,
) -> Result<Justfile<'src>, OutOfMemory>
    ensures { IfOk result (λ made. IsRenumbered (frames_view outer.now) (functions_view «module».now)
        (map assignment_view «module».now.assignments) (functions_view made)
        (map assignment_view made.assignments)) }
{
    let mut made = Justfile::new(alloc, "", "")?;
    add_all(alloc, &mut made, module, outer)?;
    Ok(made)
}

// Adds the copies to an empty module.
fn add_all<'src>(
    alloc: Global,
    made: &mut Justfile<'src>,
    module: &Justfile<'src>,
    outer: &Scope<'src, '_>,
) -> Result<(), OutOfMemory>
    requires assignments { made.old.assignments ≡ [] }
    requires functions { made.old.functions ≡ [] }
    ensures { OnOk result (IsRenumbered (frames_view outer.now) (functions_view «module».now)
        (map assignment_view «module».now.assignments) (functions_view made.new)
        (map assignment_view made.new.assignments)) }
{
    let mut free = Free::new();
    let declared = declare_all(alloc, &module.assignments, outer, &mut free)?;
    let variables = variables(alloc, &declared)?;
    let mut names = Names::new(alloc, &variables, outer)?;
    add_assignments(alloc, &mut made.assignments, &declared, &names)?;
    add_functions(
        alloc,
        &mut made.functions,
        &module.functions,
        outer,
        &mut free,
        &mut names,
    )
}

// The assignments with new numbers, in the order of their names.
fn declare_all<'a, 'src>(
    alloc: Global,
    assignments: &'a Table<Assignment<'src>>,
    outer: &Scope<'src, '_>,
    free: &mut Free,
) -> Result<Vec<Declared<'src, 'a>>, OutOfMemory>
    ensures assignments { IfOk result (λ all. map (λ d. d.0) (map declared_view all.items)
        ≡ map assignment_view assignments.entry.now) }
    ensures taken { IfOk result (λ all. AreTaken (frames_view outer.now) (next_free free.old)
        (map (λ d. d.1) (map declared_view all.items)) (next_free free.new)) }
    ensures in_order { IfOk result (λ all. IsInOrder (λ a. a.name.lexeme)
        (map (λ d. d.0) (map declared_view all.items))) }
{
    let mut all = Vec::new(alloc);
    for assignment in assignments.iter() {
        add_declared(&mut all, assignment, free.take(outer)?)?;
    }
    Ok(all)
}

// Adds an assignment with its number.
fn add_declared<'a, 'src>(
    all: &mut Vec<Declared<'src, 'a>>,
    assignment: &'a Assignment<'src>,
    number: Number,
) -> Result<(), OutOfMemory>
    ensures { OnOk result (map declared_view all.new.items
        ≡ map declared_view all.old.items ++ (assignment_view assignment.entry.now, number) ∷ []) }
{
    push(all, Declared { assignment, number })
}

// The names of assignments with their numbers.
fn variables<'src>(
    alloc: Global,
    declared: &[Declared<'src, '_>],
) -> Result<Vec<(Name<'src>, Number)>, OutOfMemory>
    ensures { IfOk result (λ variables. map parameter_view variables.items
        ≡ map (λ d. (d.0.name, d.1)) (map declared_view declared.now)) }
{
    let mut variables = Vec::new(alloc);
    for one in declared {
        add_pair(&mut variables, &one.assignment.name, one.number)?;
    }
    Ok(variables)
}

// Adds a name with its number.
pub(crate) fn add_pair<'src>(
    pairs: &mut Vec<(Name<'src>, Number)>,
    name: &Name<'src>,
    number: Number,
) -> Result<(), OutOfMemory>
    ensures { OnOk result (map parameter_view pairs.new.items
        ≡ map parameter_view pairs.old.items ++ (name_view name.now, number) ∷ []) }
{
    push(pairs, (*name, number))
}

// Adds copies of assignments with their new numbers.
fn add_assignments<'src>(
    alloc: Global,
    made: &mut Table<Assignment<'src>>,
    declared: &[Declared<'src, '_>],
    names: &Names<'src>,
) -> Result<(), OutOfMemory>
    requires empty { made.old ≡ [] }
    requires in_order { IsInOrder (λ a. a.name.lexeme) (map (λ d. d.0) (map declared_view declared.now)) }
    ensures { OnOk result (map assignment_view made.new
        ≡ map (with_number (name_number names.now)) (map declared_view declared.now)) }
{
    for one in declared {
        let copy = with_number(alloc, one.assignment, one.number, names)?;
        made.insert(copy)?;
    }
    Ok(())
}

// A copy of an assignment with this number.
fn with_number<'src>(
    alloc: Global,
    assignment: &Assignment<'src>,
    number: Number,
    names: &Names<'src>,
) -> Result<Assignment<'src>, OutOfMemory>
    ensures { IfOk result (λ a. assignment_view a
        ≡ with_number (name_number names.now) (assignment_view assignment.now, number)) }
{
    Ok(Assignment {
        eager: assignment.eager,
        export: assignment.export,
        name: assignment.name,
        number,
        private: assignment.private,
        value: numbered(&assignment.value, names)?,
    })
}

// Adds copies of functions, whose parameters have new numbers.
fn add_functions<'src>(
    alloc: Global,
    made: &mut Table<FunctionDefinition<'src>>,
    functions: &Table<FunctionDefinition<'src>>,
    outer: &Scope<'src, '_>,
    free: &mut Free,
    names: &mut Names<'src>,
) -> Result<(), OutOfMemory>
    requires empty { made.old ≡ [] }
    ensures functions { OnOk result ((others : List (Token × ℕ))
        → ((t : List ℕ) → variable_named names.old t ≡ first_named others t)
        → Pairwise (IsRenumberedFunction others) (map function_view functions.now) (map function_view made.new)) }
    ensures taken { OnOk result (AreTaken (frames_view outer.now) (next_free free.old)
        (parameter_numbers (map function_view made.new)) (next_free free.new)) }
{
    for function in functions.iter() {
        let copy = function_with_numbers(alloc, function, outer, free, names)?;
        made.insert(copy)?;
    }
    Ok(())
}

// A copy of a function, whose parameters have new numbers.
fn function_with_numbers<'src>(
    alloc: Global,
    function: &FunctionDefinition<'src>,
    outer: &Scope<'src, '_>,
    free: &mut Free,
    names: &mut Names<'src>,
) -> Result<FunctionDefinition<'src>, OutOfMemory>
    ensures function { IfOk result (λ made. (others : List (Token × ℕ))
        → ((t : List ℕ) → variable_named names.old t ≡ first_named others t)
        → IsRenumberedFunction others (function_view function.now) (function_view made)) }
    ensures name { IfOk result (λ made. (function_view made).name ≡ (function_view function.now).name) }
    ensures taken { IfOk result (λ made. AreTaken (frames_view outer.now) (next_free free.old)
        (map (λ p. p.1) (function_view made).parameters) (next_free free.new)) }
    ensures names { (t : List ℕ) → variable_named names.new t ≡ variable_named names.old t }
{
    let parameters = parameters(alloc, &function.parameters, outer, free)?;
    names.set_parameters(&parameters)?;
    let body = numbered(&function.body, names)?;
    Ok(FunctionDefinition::new(function.name, parameters, body))
}

// Parameters with new numbers.
fn parameters<'src>(
    alloc: Global,
    parameters: &[(Name<'src>, Number)],
    outer: &Scope<'src, '_>,
    free: &mut Free,
) -> Result<Vec<(Name<'src>, Number)>, OutOfMemory>
    ensures names { IfOk result (λ all. map (λ p. p.0) (map parameter_view all.items)
        ≡ map (λ p. p.0) (map parameter_view parameters.now)) }
    ensures taken { IfOk result (λ all. AreTaken (frames_view outer.now) (next_free free.old)
        (map (λ p. p.1) (map parameter_view all.items)) (next_free free.new)) }
{
    let mut all = Vec::new(alloc);
    for (name, _) in parameters {
        add_pair(&mut all, name, free.take(outer)?)?;
    }
    Ok(all)
}
