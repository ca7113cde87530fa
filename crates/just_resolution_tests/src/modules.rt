// Modules for tests.

use crate::parts::{name, numbered, push, token};
use just_host::justfile::Justfile;
use just_host::settings::Settings;
use just_syntax::assignment::Assignment;
use just_syntax::expression::Expression;
use just_syntax::function_definition::FunctionDefinition;
use just_syntax::keyed::Keyed;
use just_syntax::name::Name;
use just_syntax::number::Number;
use just_syntax::table::Table;
use just_syntax::token::Token;
use std::alloc::Global;
use std::collections::HashSet;
use std::process::Abort;

// What occurs in an expression.
#[derive(Clone, Copy)]
pub(crate) enum Part<'a> {
    // A variable with a number.
    Read(u64),
    // A variable without one.
    Unnumbered,
    // A call whose arguments are variables with these numbers.
    Call(&'a str, &'a [u64]),
}

// A function of the file: its name, the numbers of its parameters, and what occurs in its body.
pub(crate) type Function<'a> = (&'a str, &'a [u64], &'a [Part<'a>]);

// An assignment: its name, its number, and what occurs in its value.
pub(crate) type Variable<'a> = (&'a str, u64, &'a [Part<'a>]);

// A module: its functions, its assignments, and the order of these.
pub(crate) type Sketch<'a> = (&'a [Function<'a>], &'a [Variable<'a>], &'a [&'a str]);

// A name at an offset in its file.
pub(crate) fn name_at(lexeme: &str, offset: usize) -> Name<'_> {
    Name {
        token: Token {
            offset,
            ..token(lexeme)
        },
    }
}

fn variable<'a>(number: Option<u64>, offset: usize) -> Expression<'a> {
    Expression::Variable {
        name: name_at("v", offset),
        number: numbered(number),
    }
}

fn made<'a>(rt: &impl Abort, alloc: Global, part: Part<'a>, offset: usize) -> Expression<'a> {
    match part {
        Part::Read(number) => variable(Some(number), offset),
        Part::Unnumbered => variable(None, offset),
        Part::Call(callee, numbers) => {
            let arguments = arguments(rt, alloc, numbers, offset);
            Expression::call(name_at(callee, offset), arguments)
        }
    }
}

// Variables with these numbers, as the arguments of a call.
fn arguments<'a>(
    rt: &impl Abort,
    alloc: Global,
    numbers: &[u64],
    offset: usize,
) -> Vec<Expression<'a>> {
    let mut arguments = Vec::new(alloc);
    for number in numbers {
        push(rt, &mut arguments, variable(Some(*number), offset));
    }
    arguments
}

// A list of these parts, each at its index as offset.
fn list<'a>(rt: &impl Abort, alloc: Global, parts: &[Part<'a>]) -> Expression<'a> {
    let mut elements = Vec::new(alloc);
    for (offset, part) in parts.iter().enumerate() {
        push(rt, &mut elements, made(rt, alloc, *part, offset));
    }
    Expression::list(elements, name("[").token)
}

// Adds an item to a table.
fn insert<T: Drop + Keyed>(rt: &impl Abort, table: &mut Table<T>, item: T) {
    table.insert(item).expect(rt, "no memory");
}

// Parameters with these numbers.
fn parameters<'a>(rt: &impl Abort, alloc: Global, numbers: &[u64]) -> Vec<(Name<'a>, Number)> {
    let mut parameters = Vec::new(alloc);
    for number in numbers {
        let added = parameters.extend_from_slice(&[(name("p"), Number::new(*number))]);
        added.expect(rt, "no memory");
    }
    parameters
}

fn functions<'a>(
    rt: &impl Abort,
    alloc: Global,
    all: &[Function<'a>],
) -> Table<FunctionDefinition<'a>> {
    let mut table = Table::new(alloc);
    for (lexeme, numbers, parts) in all {
        let parameters = parameters(rt, alloc, numbers);
        let body = list(rt, alloc, parts);
        let function = FunctionDefinition::new(name(lexeme), parameters, body);
        insert(rt, &mut table, function);
    }
    table
}

pub(crate) fn assignments<'a>(
    rt: &impl Abort,
    alloc: Global,
    all: &[Variable<'a>],
) -> Table<Assignment<'a>> {
    let mut table = Table::new(alloc);
    for (lexeme, number, parts) in all {
        let value = list(rt, alloc, parts);
        let assignment = Assignment::new(name(lexeme), Number::new(*number), value);
        insert(rt, &mut table, assignment);
    }
    table
}

fn order<'a>(rt: &impl Abort, alloc: Global, lexemes: &[&'a str]) -> Vec<Name<'a>> {
    let mut order = Vec::new(alloc);
    for lexeme in lexemes {
        push(rt, &mut order, name(lexeme));
    }
    order
}

pub(crate) fn module<'a>(rt: &impl Abort, alloc: Global, sketch: &Sketch<'a>) -> Justfile<'a> {
    let (all, variables, lexemes) = *sketch;
    Justfile {
        assignments: assignments(rt, alloc, variables),
        evaluation_order: order(rt, alloc, lexemes),
        functions: functions(rt, alloc, all),
        module_path: String::new(alloc),
        settings: Settings::new(alloc),
        source: String::new(alloc),
        submodule: false,
        unexports: Vec::new(alloc),
        working_directory: String::new(alloc),
    }
}

// The number that the scope around the tests' modules binds.
pub(crate) const OUTER: u64 = 100;

pub(crate) fn references(rt: &impl Abort, alloc: Global, numbers: &[u64]) -> HashSet<Number> {
    let mut referenced = HashSet::new(alloc);
    for number in numbers {
        let inserted = referenced.insert(Number::new(*number));
        inserted.expect(rt, "no memory");
    }
    referenced
}
