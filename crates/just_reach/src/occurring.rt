// The members that occur in an expression.

ghost use Rattle.std.specs.Prelude.{OnOk, [], map, ◌++◌, ◌∷◌, ◌≡◌};
ghost use Rattle.just_reach.specs.Prelude.{callee, called_member, function_view, member_of, members};
ghost use Rattle.just_reach.specs.Prelude.{members_view, name_view, occurrence_view, occurrences_view, undefined, view};
ghost use Rattle.just_reach.specs.Prelude.{with_members};

use crate::member::Member;
use just_builtins::function::get;
use just_syntax::expression::Expression;
use just_syntax::function_definition::FunctionDefinition;
use just_syntax::name::Name;
use just_syntax::occurrence::Occurrence;
use just_syntax::occurrences::refill;
use just_syntax::out_of_memory::OutOfMemory;
use just_syntax::results::push;
use just_syntax::table::Table;

// Adds the members that occur in an expression, in the order of its text. `occurrences` is filled anew.
pub(crate) fn add<'src, 'a>(
    all: &mut Vec<Member<'src, 'a>>,
    occurrences: &mut Vec<Occurrence<'src, 'a>>,
    functions: &Table<FunctionDefinition<'src>>,
    expression: &'a Expression<'src>,
) -> Result<(), OutOfMemory>
    ensures { OnOk result (members_view all.new.items ≡ members (map function_view functions.now)
        (members_view all.old.items) (view expression.now)) }
{
    refill(occurrences, expression)?;
    add_members(all, functions, occurrences.as_slice())
}

// Adds a member for each occurrence.
fn add_members<'src, 'a>(
    all: &mut Vec<Member<'src, 'a>>,
    functions: &Table<FunctionDefinition<'src>>,
    occurrences: &[Occurrence<'src, 'a>],
) -> Result<(), OutOfMemory>
    ensures { OnOk result (members_view all.new.items ≡ with_members (map function_view functions.now)
        (members_view all.old.items) (occurrences_view occurrences.now)) }
{
    for occurrence in occurrences {
        add_member(all, functions, occurrence)?;
    }
    Ok(())
}

// Adds a member for an occurrence.
fn add_member<'src, 'a>(
    all: &mut Vec<Member<'src, 'a>>,
    functions: &Table<FunctionDefinition<'src>>,
    occurrence: &Occurrence<'src, 'a>,
) -> Result<(), OutOfMemory>
    ensures { OnOk result (members_view all.new.items ≡ members_view all.old.items
        ++ member_of (map function_view functions.now) (occurrence_view occurrence.now) ∷ []) }
{
    match occurrence {
        Occurrence::Command { contents, token } => push(
            all,
            Member::Command {
                contents,
                token: *token,
            },
        ),
        Occurrence::Call { name, arguments: _ } => add_call(all, functions, name),
        Occurrence::Variable { name, number } => push(
            all,
            Member::Variable {
                name: *name,
                number: *number,
            },
        ),
    }
}

// Adds a call of a name. A function of the file hides a built-in function of its name.
fn add_call<'src>(
    all: &mut Vec<Member<'src, '_>>,
    functions: &Table<FunctionDefinition<'src>>,
    name: &Name<'src>,
) -> Result<(), OutOfMemory>
    ensures { let seen = name_view name.now in OnOk result (members_view all.new.items ≡ members_view all.old.items
        ++ called_member (callee (map function_view functions.now) seen.lexeme) seen ∷ []) }
{
    match functions.get(name.lexeme()) {
        Some(_) => push(all, Member::Call { name: *name }),
        None => add_outside(all, name),
    }
}

// The same for a name that the file does not define.
fn add_outside<'src>(all: &mut Vec<Member<'src, '_>>, name: &Name<'src>) -> Result<(), OutOfMemory>
    ensures { let seen = name_view name.now in OnOk result (members_view all.new.items ≡ members_view all.old.items
        ++ called_member (undefined seen.lexeme) seen ∷ []) }
{
    match get(name.lexeme()) {
        Some(function) => push(
            all,
            Member::BuiltIn {
                name: *name,
                function,
            },
        ),
        None => push(all, Member::Unknown { name: *name }),
    }
}
