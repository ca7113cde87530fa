// Interpreters before any run, each evaluated by itself. The assignment `e` of a case, which is not referenced, is a
// list: a command and its arguments.

ghost use Rattle.just_eval_tests.specs.Prelude.{IsConst};

use crate::cases::{Subject, reported, said};
use crate::compared::{reports, same};
use just_case_reader::token::name;
use just_eval::evaluator::Evaluator;
use just_syntax::assignment::Assignment;
use just_syntax::expression::Expression;
use just_syntax::interpreter::Interpreter;
use just_syntax::out_of_memory::OutOfMemory;
use just_syntax::table::Table;
use just_value::element::Element;
use std::alloc::Global;
use std::process::Abort;

/// What a list is as an interpreter: its first element is the command, and the others are arguments.
pub(crate) fn interpreter<'src>(
    rt: &impl Abort,
    list: Expression<'src>,
) -> Interpreter<Expression<'src>> {
    let (command, arguments) = first_and_others(rt, elements_of(rt, list));
    Interpreter::new(command, arguments)
}

fn first_and_others<T: Drop>(rt: &impl Abort, mut elements: Vec<T>) -> (T, Vec<T>) {
    assert!(rt; !elements.is_empty(), "no command");
    let first = elements.remove(0);
    (first, elements)
}

fn elements_of<'src>(rt: &impl Abort, list: Expression<'src>) -> Vec<Expression<'src>> {
    match list {
        Expression::List { elements, token: _ } => elements,
        _ => panic!(rt; "no list"),
    }
}

// The lines that push a list, and what it evaluates to as an interpreter.
const INTERPRETERS: &[(&str, &str)] = &[
    ("str sh\nlist 1", "\"sh\""),
    ("str sh\nstr -c\nlist 2", "\"sh\" \"-c\""),
    // One word with a space in it is neither a command with an argument nor two arguments.
    ("str sh -c\nlist 1", "\"sh -c\""),
    ("str sh\nstr -c -u\nlist 2", "\"sh\" \"-c -u\""),
    ("str sh\nstr -c\nstr -u\nlist 3", "\"sh\" \"-c\" \"-u\""),
    // The command is the first element of all.
    ("list 0\nstr a\nstr b\nlist 2\nlist 2", "\"a\" \"b\""),
    ("str a\nstr b\nlist 2\nstr c\nlist 2", "\"a\" \"b\" \"c\""),
    ("var s\nstr -c\nlist 2", "\"zsh\" \"-c\""),
    (
        "list 0\nlist 0\nlist 2",
        "`shell` setting requires at least one element but evaluated to empty list",
    ),
    (
        "str sh\ncmd c\nlist 2",
        "cannot call backticks in const context",
    ),
    (
        "call trim 0\ncmd c\nlist 2",
        "cannot call functions in const context",
    ),
];

#[test]
fn const_interpreters(rt: HostRuntime) {
    for (list, expected) in INTERPRETERS {
        reports(&rt, list, staged(&rt, rt.alloc(), list), expected);
    }
}

/// The report on a list, with `s` settled.
pub(crate) fn staged(rt: &impl Abort, alloc: Global, list: &str) -> String {
    let case = format!(in alloc; "str zsh\nassign s\n{list}\nassign e\nonly s\nconst");
    let case = case.expect(rt, "no memory");
    reported(rt, alloc, &case, &[], Subject::Interpreter)
}

/// What the interpreter of a case evaluates to, or the message of its refusal.
pub(crate) fn reported_by<'src>(
    evaluator: &Evaluator<'src, '_>,
    rt: &impl Abort,
    alloc: Global,
    assignments: Table<Assignment<'src>>,
) -> String
    requires before_runs { IsConst evaluator.now }
{
    let list = interpreter(rt, first_of(rt, assignments));
    let reported = reported_of(evaluator, rt, alloc, &list);
    drop(list);
    reported
}

// The same for an interpreter.
fn reported_of<'src>(
    evaluator: &Evaluator<'src, '_>,
    rt: &impl Abort,
    alloc: Global,
    list: &Interpreter<Expression<'src>>,
) -> String
    requires before_runs { IsConst evaluator.now }
{
    match evaluator.evaluate_interpreter(alloc, list, name("shell")) {
        Ok(interpreter) => {
            let reported = printed(rt, alloc, &interpreter);
            drop(interpreter);
            reported
        }
        Err(error) => said(rt, alloc, &error),
    }
}

// The expression of the assignment `e`, which is the first by its name.
fn first_of<'src>(rt: &impl Abort, assignments: Table<Assignment<'src>>) -> Expression<'src> {
    let mut assignments = assignments.into_iter();
    let first = assignments.next();
    drop(assignments);
    expression_of(rt, first.expect(rt, "no assignment"))
}

// The expression of an assignment, which must be `e`.
fn expression_of<'src>(rt: &impl Abort, assignment: Assignment<'src>) -> Expression<'src> {
    same(rt, "name", assignment.name.lexeme(), "e");
    assignment.value
}

fn printed(rt: &impl Abort, alloc: Global, interpreter: &Interpreter<String>) -> String {
    let mut text = String::new(alloc);
    print(&mut text, interpreter).expect(rt, "no memory");
    text
}

// Adds a command and its arguments, each in quotes.
fn print(text: &mut String, interpreter: &Interpreter<String>) -> Result<(), OutOfMemory> {
    let command = Element(&interpreter.command);
    write!(text, "{command}")?;
    for argument in &interpreter.arguments {
        let argument = Element(argument);
        write!(text, " {argument}")?;
    }
    Ok(())
}
