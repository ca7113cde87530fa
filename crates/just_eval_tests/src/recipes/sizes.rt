// Recipes with a thousand attributes and parameters, and lines of a thousand fragments. Twice as many take about twice
// as long.

use crate::compared::same;
use crate::recipes::called::{Called, parameter};
use crate::recipes::failing::NEVER;
use crate::recipes::hosts::ReportingHost;
use crate::recipes::texts::{add, owned, push};
use crate::recipes::{lines, parameters};
use just_case_reader::token::{name, token};
use just_syntax::attribute::Attribute;
use just_syntax::expression::Expression;
use just_syntax::fragment::Fragment;
use just_syntax::line::Line;
use just_syntax::number::Number;
use just_value::value::Value;
use std::alloc::Global;
use std::process::Abort;

// The variable with a name and a number.
fn variable<'src>(lexeme: &'src str, number: u64) -> Expression<'src> {
    Expression::variable(name(lexeme), Number::new(number))
}

// This many parameters of one name, and as many attributes, each of which sets a variable of its own. Only the first
// parameter has an argument; the default of each other one reads the one before.
fn in_a_row<'src>(rt: &impl Abort, alloc: Global, lexeme: &'src str, count: u64) -> Called<'src> {
    let mut called = Called::new(alloc);
    let argument = Value::from_text(alloc, "a").expect(rt, "no memory");
    called.push(rt, parameter(lexeme, 0, None), argument);
    for number in 1..count {
        let default = variable(lexeme, number.saturating_sub(1));
        let parameter = parameter(lexeme, number, Some(default));
        called.push(rt, parameter, Value::new(alloc));
    }
    for number in 0..count {
        push_attribute(&mut called, rt, alloc, number);
    }
    called
}

// Adds an attribute that sets a variable to the text `v`.
fn push_attribute(called: &mut Called, rt: &impl Abort, alloc: Global, number: u64) {
    let key = format!(in alloc; "K{number:04}").expect(rt, "no memory");
    let attribute = Attribute::Env(literal(rt, alloc, &key), literal(rt, alloc, "v"));
    let pushed = called.recipe.attributes.push(attribute, name("env"));
    pushed.expect(rt, "no memory");
}

fn literal<'src>(rt: &impl Abort, alloc: Global, text: &str) -> Expression<'src> {
    Expression::literal(alloc, text, "'..'").expect(rt, "no memory")
}

// Adds a piece this many times.
fn repeat(rt: &impl Abort, text: &mut String, piece: &str, count: u64) {
    for _ in 0..count {
        add(rt, text, piece);
    }
}

// A word and a binding for each parameter, and a variable for each attribute.
fn wanted_in_a_row(rt: &impl Abort, alloc: Global, count: u64) -> String {
    let mut wanted = owned(rt, alloc, "words");
    repeat(rt, &mut wanted, " \"a\"", count);
    add(rt, &mut wanted, "; (");
    repeat(rt, &mut wanted, "x = \"a\"", count);
    add(rt, &mut wanted, ") env");
    for number in 0..count {
        write!(wanted, " K{number:04}=v").expect(rt, "no memory");
    }
    add(rt, &mut wanted, ";");
    wanted
}

// The argument of the first parameter becomes the value of each.
fn reads_the_one_before<'src>(rt: &impl Abort, alloc: Global, lexeme: &'src str, count: u64) {
    let mut host = ReportingHost::new(alloc, NEVER);
    let called = in_a_row(rt, alloc, lexeme, count);
    parameters::report(&called, rt, alloc, lexeme, &mut host);
    drop(called);
    let wanted = wanted_in_a_row(rt, alloc, count);
    same(rt, "parameters in a row", &host.reported, &wanted);
    drop(wanted);
    drop(host);
}

// This many texts and interpolations of number 1000.
fn line_of<'src>(rt: &impl Abort, alloc: Global, text: &'src str, count: u64) -> Line<'src> {
    let mut line = Line::new(Vec::new(alloc));
    for _ in 0..count {
        push_pair(&mut line, rt, text);
    }
    line
}

// Adds a text and an interpolation.
fn push_pair<'src>(line: &mut Line<'src>, rt: &impl Abort, text: &'src str) {
    let token = token(text);
    push(rt, &mut line.fragments, Fragment::Text { token });
    let expression = variable("x", 1000);
    push(
        rt,
        &mut line.fragments,
        Fragment::Interpolation { expression },
    );
}

// A line of this many texts and interpolations consists of all of them.
fn line_of_many<'src>(rt: &impl Abort, alloc: Global, text: &'src str, count: u64) {
    let mut host = ReportingHost::new(alloc, NEVER);
    let line = line_of(rt, alloc, text, count);
    lines::report(&line, rt, alloc, text, &mut host);
    drop(line);
    let mut wanted = String::new(alloc);
    repeat(rt, &mut wanted, "{{xz", count);
    same(rt, "a line of many", &host.reported, &wanted);
    drop(wanted);
    drop(host);
}

#[test]
fn a_thousand_and_two_thousand(rt: HostRuntime) {
    for count in [1000, 2000] {
        reads_the_one_before(&rt, rt.alloc(), "x", count);
        line_of_many(&rt, rt.alloc(), "{{{{x", count);
    }
}
