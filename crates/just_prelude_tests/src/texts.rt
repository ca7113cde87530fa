// Modules and recipes from texts.

use just_analyzer::analysis::Analysis;
use just_analyzer::analyze;
use just_host::justfile::Justfile;
use just_parser::parse;
use just_resolve::names::Names;
use just_resolve::numbered::numbered;
use just_syntax::assignment::Assignment;
use just_syntax::expression::Expression;
use just_syntax::function_definition::FunctionDefinition;
use just_syntax::name::Name;
use just_syntax::number::Number;
use just_value::scope::Scope;
use std::alloc::Global;
use std::collections::HashSet;
use std::process::Abort;

/// The parts of a text. Its variables have no numbers.
pub(crate) fn analyzed<'src>(rt: &impl Abort, alloc: Global, text: &'src str) -> Analysis<'src> {
    let items = parse(alloc, "justfile", text).expect(rt, "items");
    analyze(alloc, items, "/work/justfile", "/work").expect(rt, "a justfile")
}

/// The module of a text, in which each name has the number that is written after it. A name without one is read without
/// a number, and declared with 0, as in what `analyze` returns.
pub(crate) fn numbered_module<'src>(
    rt: &impl Abort,
    alloc: Global,
    text: &'src str,
    numbers: &'src str,
) -> Justfile<'src> {
    let analysis = analyzed(rt, alloc, text);
    let names = names_of(rt, alloc, numbers);
    let module = with_numbers(&analysis.justfile, &names, rt, alloc);
    drop(analysis);
    module
}

/// Names that have the numbers that are written after them.
pub(crate) fn names_of<'src>(rt: &impl Abort, alloc: Global, numbers: &'src str) -> Names<'src> {
    let nothing = Justfile::new(alloc, "", "").expect(rt, "no memory");
    let outer = Scope::root(alloc, &[]).expect(rt, "no memory");
    let mut names = Names::of(alloc, &nothing, &outer).expect(rt, "no memory");
    let set = names.set_parameters(&pairs(rt, alloc, numbers));
    set.expect(rt, "no memory");
    drop(outer);
    drop(nothing);
    names
}

/// Names, each with the number that is written after it.
pub(crate) fn pairs<'src>(
    rt: &impl Abort,
    alloc: Global,
    written: &'src str,
) -> Vec<(Name<'src>, Number)> {
    let mut pairs = Vec::new(alloc);
    let mut words = written.split_whitespace();
    while let (Some(name), Some(number)) = (words.next(), words.next()) {
        let number = number_of(rt, number);
        push(rt, &mut pairs, (Name::new(name, None), number));
    }
    pairs
}

pub(crate) fn number_of(rt: &impl Abort, word: &str) -> Number {
    Number::new(word.parse::<u64>().expect(rt, "a number"))
}

/// A set of numbers.
pub(crate) fn set_of(rt: &impl Abort, alloc: Global, numbers: &str) -> HashSet<Number> {
    let mut set = HashSet::new(alloc);
    for word in numbers.split_whitespace() {
        set.insert(number_of(rt, word)).expect(rt, "no memory");
    }
    set
}

// A module with the numbers of its names.
fn with_numbers<'src>(
    module: &Justfile<'src>,
    names: &Names<'src>,
    rt: &impl Abort,
    alloc: Global,
) -> Justfile<'src> {
    let mut made = Justfile::new(alloc, "justfile", "/").expect(rt, "no memory");
    for assignment in &module.assignments {
        let value = copied(&assignment.value, names, rt, alloc);
        let number = declared(names, assignment.name);
        let assigned = made.assign(Assignment::new(assignment.name, number, value));
        assigned.expect(rt, "no memory");
    }
    for function in &module.functions {
        let mut parameters = Vec::new(alloc);
        for (name, _) in &function.parameters {
            push(rt, &mut parameters, (*name, declared(names, *name)));
        }
        let body = copied(&function.body, names, rt, alloc);
        let defined = made.define(FunctionDefinition::new(function.name, parameters, body));
        defined.expect(rt, "no memory");
    }
    made
}

// An expression with the numbers of its names.
fn copied<'src>(
    expression: &Expression<'src>,
    names: &Names<'src>,
    rt: &impl Abort,
    alloc: Global,
) -> Expression<'src> {
    numbered(expression, names).expect(rt, "no memory")
}

// The number that a name is declared with.
fn declared(names: &Names, name: Name) -> Number {
    names.get(name.lexeme()).unwrap_or(Number::new(0))
}

pub(crate) fn push<T: Drop>(rt: &impl Abort, items: &mut Vec<T>, item: T) {
    items.push(item).expect(rt, "no memory");
}
