// Settings whose variables have numbers.

ghost use Rattle.std.specs.Prelude.{IfOk, IsOkAnd, OnOk, map, option_map, ◌++◌, ◌≡◌};
ghost use Rattle.just_recipe.specs.Setting.{numbered_interpreter, numbered_setting};
ghost use Rattle.just_resolve.specs.Prelude.{name_number, numbered_expression, view};
ghost use Rattle.just_syntax.specs.View.{expression_interpreter_view, setting_view};

use just_resolve::names::Names;
use just_resolve::numbered::numbered;
use just_syntax::expression::Expression;
use just_syntax::interpreter::Interpreter;
use just_syntax::out_of_memory::OutOfMemory;
use just_syntax::results::{followed, push};
use just_syntax::setting::Setting;
use std::alloc::Global;

/// A copy of a setting with the numbers of names in its expressions; `None`, if it has none.
///
/// ```rust
/// if let Some(value) = numbered_setting(alloc, &set.value, &names)? {
///     let set = Set::new(set.name, value);
///     ..
/// }
/// ```
///
/// # Errors
///
/// `OutOfMemory`, if an allocation fails, or if an expression nests too deeply to be copied.
pub fn numbered_setting<'src>(
    alloc: Global,
    setting: &Setting<'src>,
    names: &Names<'src>,
) -> Result<Option<Setting<'src>>, OutOfMemory>
    ensures { IfOk result
        (λ copy. option_map setting_view copy ≡ numbered_setting (name_number names.now) (setting_view setting.now)) }
{
    match setting {
        Setting::DotenvCommand(value)
        | Setting::DotenvFilename(value)
        | Setting::DotenvPath(value)
        | Setting::Tempdir(value)
        | Setting::WorkingDirectory(value) => {
            let value = numbered(value, names)?;
            Ok(Setting::of_expression(setting.name(), value))
        }
        Setting::ScriptInterpreter(value) | Setting::Shell(value) | Setting::WindowsShell(value) =>
            {
                let value = numbered_interpreter(alloc, value, names)?;
                Ok(Setting::of_interpreter(setting.name(), value))
            }
        _ => Ok(None),
    }
}

// A copy of a command, with the numbers of names in it.
fn numbered_interpreter<'src>(
    alloc: Global,
    interpreter: &Interpreter<Expression<'src>>,
    names: &Names<'src>,
) -> Result<Interpreter<Expression<'src>>, OutOfMemory>
    ensures { IfOk result (λ copy. expression_interpreter_view copy
        ≡ numbered_interpreter (name_number names.now) (expression_interpreter_view interpreter.now)) }
{
    let mut arguments = Vec::new(alloc);
    let added = add_numbered(&interpreter.arguments, names, &mut arguments);
    let arguments = followed(arguments, added);
    let command = numbered(&interpreter.command, names);
    interpreter_of(command, arguments)
}

// A command with its arguments.
fn interpreter_of<T: Drop>(
    command: Result<T, OutOfMemory>,
    arguments: Result<Vec<T>, OutOfMemory>,
) -> Result<Interpreter<T>, OutOfMemory>
    ensures { IfOk result (λ made. IsOkAnd command (λ c. made.command ≡ c)
        × IsOkAnd arguments (λ all. made.arguments.items ≡ all.items)) }
{
    Ok(Interpreter::new(command?, arguments?))
}

// Adds copies of expressions, with the numbers of names in them.
pub(crate) fn add_numbered<'src>(
    expressions: &[Expression<'src>],
    names: &Names<'src>,
    copies: &mut Vec<Expression<'src>>,
) -> Result<(), OutOfMemory>
    ensures { OnOk result (map view copies.new.items ≡ map view copies.old.items
        ++ map (numbered_expression (name_number names.now)) (map view expressions.now)) }
{
    for expression in expressions {
        push(copies, numbered(expression, names)?)?;
    }
    Ok(())
}
