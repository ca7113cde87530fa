// The contexts of built-in functions.

ghost use Rattle.std.specs.Prelude.{◌≡◌, true, IfSome, length};
ghost use Rattle.just_builtins.specs.Argument.{HasTexts, IsExpected};

use crate::around::{Around, called as called_here, insert, module_at};
use crate::builtins::scripted::Scripted;
use crate::texts::owned;
use just_builtins::call_fault::CallFault;
use just_builtins::function::{Function, get};
use just_host::execution_context::ExecutionContext;
use just_host::function::Context;
use just_syntax::name::Name;
use just_syntax::place::Place as FilePlace;
use just_value::value::Value;
use std::alloc::{AllocError, Global};
use std::collections::BTreeMap;
use std::process::Abort;

/// Where calls occur: in a submodule in the directory `/work/sub`, in a program called in `/called/here`.
pub struct Place {
    /// The path of the calling file.
    pub caller: &'static str,
    pub dry_run: bool,
    pub jobs: Option<u64>,
    pub justfile: &'static str,
    pub lists: bool,
    pub module_path: &'static str,
    /// The recipe of the calls, which runs as a dependency, if there is one.
    pub recipe: Option<&'static str>,
    /// The value of the variable `set` in a dotenv file, if there is one.
    pub set: Option<&'static str>,
    /// The path of the module's own file.
    pub source: &'static str,
}

/// What the context of a place borrows.
pub fn around_at<'src>(rt: &impl Abort, alloc: Global, place: &'src Place) -> Around<'src> {
    let mut config = called_here(rt, alloc);
    config.dry_run = place.dry_run;
    config.jobs = place.jobs;
    let mut module = module_at(rt, alloc, place.source, "/work/sub");
    module.module_path = owned(rt, alloc, place.module_path);
    module.settings.lists = place.lists;
    module.submodule = true;
    let mut around = Around::new(rt, alloc, module, config, place.justfile, "/work");
    if let Some(text) = place.set {
        insert(rt, alloc, &mut around.dotenv, "set", text);
    }
    around
}

fn name<'src>(lexeme: &'src str, path: &'src str) -> Name<'src> {
    Name::new(lexeme, Some(FilePlace::start_of(path)))
}

/// The result of a call that is written as in [`Row`]: its value, or its message after `! `.
///
/// [`Row`]: crate::builtins::rows::Row
pub fn answer<'src>(
    context: &ExecutionContext<'src, '_>,
    rt: &impl Abort,
    alloc: Global,
    host: &mut Scripted,
    place: &'src Place,
    call: &'src str,
) -> String {
    let name = call.split(';').next().expect(rt, "no name");
    let arguments = arguments(rt, alloc, call);
    let answer = answer_to(context, alloc, host, place, name, &arguments);
    drop(arguments);
    answer.expect(rt, "no memory")
}

// The arguments of a call, each after `;`.
fn arguments(rt: &impl Abort, alloc: Global, call: &str) -> Vec<Value> {
    let mut arguments = Vec::new(alloc);
    let mut pieces = call.split(';');
    pieces.next();
    for piece in pieces {
        let argument = value(rt, alloc, piece);
        arguments.push(argument).expect(rt, "no memory");
    }
    arguments
}

// A list that is written with `|` between its elements, or as `[]`.
fn value(rt: &impl Abort, alloc: Global, written: &str) -> Value {
    let mut value = Value::new(alloc);
    if written != "[]" {
        for element in written.split('|') {
            value.push(element).expect(rt, "no memory");
        }
    }
    value
}

fn answer_to<'src>(
    context: &ExecutionContext<'src, '_>,
    alloc: Global,
    host: &mut Scripted,
    place: &'src Place,
    name: &'src str,
    arguments: &[Value],
) -> Result<String, AllocError> {
    match callable(name, arguments) {
        Some(function) => written(
            alloc,
            &called(context, alloc, host, place, name, function, arguments),
        ),
        None => String::from_str(alloc, "not called"),
    }
}

fn written(alloc: Global, answer: &Result<Value, CallFault>) -> Result<String, AllocError> {
    match answer {
        Ok(value) if value.is_empty() => String::from_str(alloc, "[]"),
        Ok(value) => value.elements().join(alloc, "|"),
        Err(CallFault::Message(message)) => format!(in alloc; "! {message}"),
        Err(fault) => format!(in alloc; "{fault:?}"),
    }
}

// Calls a function by name.
fn called<'src>(
    context: &ExecutionContext<'src, '_>,
    alloc: Global,
    host: &mut Scripted,
    place: &'src Place,
    lexeme: &'src str,
    function: Function,
    arguments: &[Value],
) -> Result<Value, CallFault>
    requires count { IsExpected function (length arguments.now) }
    requires texts { HasTexts function arguments.now }
{
    let env = BTreeMap::new(alloc);
    let context = called_in(context, &env, place, lexeme);
    call(alloc, host, &context, function, arguments)
}

// The context of a call of a function with this name.
fn called_in<'src, 'call>(
    context: &'call ExecutionContext<'src, '_>,
    env: &'call BTreeMap<String, String>,
    place: &'src Place,
    lexeme: &'src str,
) -> Context<'src, 'call> {
    let recipe = match place.recipe {
        Some(recipe) => Some(name(recipe, "justfile")),
        None => None,
    };
    Context {
        env,
        execution_context: context,
        is_dependency: place.recipe.is_some(),
        name: name(lexeme, place.caller),
        recipe,
        scope: context.scope,
    }
}

// Calls a function, with the lifetimes in the order of `Function::call`.
fn call<'call>(
    alloc: Global,
    host: &'call mut Scripted,
    context: &'call Context,
    function: Function,
    arguments: &[Value],
) -> Result<Value, CallFault>
    requires count { IsExpected function (length arguments.now) }
    requires texts { HasTexts function arguments.now }
{
    function.call(alloc, host, context, arguments)
}

// The function that a name denotes, if it can be called with these arguments.
fn callable(name: &str, arguments: &[Value]) -> Option<Function>
    ensures count { IfSome result (λ function. IsExpected function (length arguments.now)) }
    ensures texts { IfSome result (λ function. HasTexts function arguments.now) }
{
    let function = get(name)?;
    let counts = function.expected_arguments();
    if counts.contains(&arguments.len()) && has_texts(function, arguments) {
        Some(function)
    } else {
        None
    }
}

// Whether each argument at a text position has one element.
fn has_texts(function: Function, arguments: &[Value]) -> bool
    ensures { result ≡ true → HasTexts function arguments.now }
{
    for i in 0..arguments.len() {
        if function.is_text(i) && arguments[i].len() != 1 {
            return false;
        }
    }
    true
}
