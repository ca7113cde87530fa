// Copies of syntax. A copy prints as the original does, with its numbers and its places.

use crate::compared::{equal, reports};
use crate::constructors::{FORMS, made, pair, variable};
use crate::parts::{name, push, token};
use crate::setting_names::{SETTINGS, by_name, indentation, minimum_version};
use just_syntax::assignment::Assignment;
use just_syntax::attribute::Attribute;
use just_syntax::attribute_set::AttributeSet;
use just_syntax::expression::Expression;
use just_syntax::fragment::Fragment;
use just_syntax::function_definition::FunctionDefinition;
use just_syntax::interpreter::Interpreter;
use just_syntax::line::Line;
use just_syntax::number::Number;
use just_syntax::parameter::Parameter;
use just_syntax::parameter_kind::ParameterKind;
use just_syntax::recipe::Recipe;
use just_syntax::set::Set;
use just_syntax::setting::Setting;
use just_syntax::string_literal::StringLiteral;
use std::alloc::Global;
use std::fmt::Debug;
use std::process::Abort;

// A copy prints as the original does.
fn is_copied<T: Clone + Debug + Drop>(rt: &impl Abort, alloc: Global, original: T) {
    let copy = original.clone().expect(rt, "no copy");
    let reported = format!(in alloc; "{copy:?}").expect(rt, "no memory");
    let wanted = format!(in alloc; "{original:?}").expect(rt, "no memory");
    reports(rt, reported, &wanted);
}

#[test]
fn forms_of_expressions(rt: HostRuntime) {
    let alloc = rt.alloc();
    for (form, lexeme, _) in FORMS {
        let expression = made(alloc, *form, token(lexeme)).expect(&rt, "no memory");
        is_copied(&rt, alloc, expression);
    }
}

#[test]
fn rows_of_expressions(rt: HostRuntime) {
    let alloc = rt.alloc();
    is_copied(&rt, alloc, Expression::call(name("f"), pair(&rt, alloc)));
    is_copied(&rt, alloc, Expression::call(name("f"), Vec::new(alloc)));
    is_copied(&rt, alloc, Expression::list(pair(&rt, alloc), token("[")));
    is_copied(&rt, alloc, Expression::list(Vec::new(alloc), token("[")));
}

#[test]
fn leaves_of_expressions(rt: HostRuntime) {
    let alloc = rt.alloc();
    is_copied(&rt, alloc, Expression::variable(name("v"), Number::new(7)));
    let unnumbered = Expression::Variable {
        name: name("v"),
        number: None,
    };
    is_copied(&rt, alloc, unnumbered);
    let literal = Expression::literal(alloc, "a\tb", "\"a\\tb\"").expect(&rt, "no memory");
    is_copied(&rt, alloc, literal);
}

// A literal with this text, which was unindented.
fn unindented<'src>(rt: &impl Abort, alloc: Global, text: &'src str) -> StringLiteral<'src> {
    let mut literal = StringLiteral::new(alloc, text, text).expect(rt, "no memory");
    literal.indented = true;
    literal
}

#[test]
fn literals_and_format_strings(rt: HostRuntime) {
    let alloc = rt.alloc();
    for text in ["", "short", "a text of more than sixteen bytes"] {
        is_copied(&rt, alloc, unindented(&rt, alloc, text));
        is_copied(&rt, alloc, format_string(&rt, alloc, text));
    }
}

// A format string with this text before and after a variable.
fn format_string<'src>(rt: &impl Abort, alloc: Global, text: &'src str) -> Expression<'src> {
    let start = StringLiteral::new(alloc, text, text).expect(rt, "no memory");
    let end = unindented(rt, alloc, text);
    let pieces = vec![in alloc; (variable("a"), end)].expect(rt, "no memory");
    Expression::format_string(start, pieces)
}

#[test]
fn assignments(rt: HostRuntime) {
    let alloc = rt.alloc();
    for place in 0..3 {
        is_copied(&rt, alloc, assignment(place));
    }
}

// An assignment that is eager, exported or private.
fn assignment<'src>(place: u64) -> Assignment<'src> {
    let mut assignment = Assignment::new(name("x"), Number::new(3), variable("a"));
    assignment.eager = place == 0;
    assignment.export = place == 1;
    assignment.private = place == 2;
    assignment
}

#[test]
fn functions(rt: HostRuntime) {
    let alloc = rt.alloc();
    is_copied(&rt, alloc, function(&rt, alloc, &[]));
    is_copied(&rt, alloc, function(&rt, alloc, &[("p", 4), ("q", 2)]));
}

// A function with these parameters.
fn function<'src>(
    rt: &impl Abort,
    alloc: Global,
    all: &[(&'src str, u64)],
) -> FunctionDefinition<'src> {
    let mut parameters = Vec::new(alloc);
    for (lexeme, number) in all {
        let added = parameters.extend_from_slice(&[(name(lexeme), Number::new(*number))]);
        added.expect(rt, "no memory");
    }
    FunctionDefinition::new(name("f"), parameters, variable("p"))
}

const KINDS: &[ParameterKind] = &[
    ParameterKind::Singular,
    ParameterKind::Plus,
    ParameterKind::Star,
];

#[test]
fn parameters(rt: HostRuntime) {
    let alloc = rt.alloc();
    for kind in KINDS {
        let bare = Parameter::new(name("p"), Number::new(5), *kind);
        is_copied(&rt, alloc, bare);
    }
    for place in 0..5 {
        is_copied(&rt, alloc, parameter(place));
    }
}

// A parameter that is exported, a flag or an option that may be repeated, or that has a default or a value.
fn parameter<'src>(place: u64) -> Parameter<'src> {
    let mut parameter = Parameter::new(name("p"), Number::new(5), ParameterKind::Star);
    parameter.export = place == 0;
    parameter.flag = place == 1;
    parameter.multiple = place == 2;
    match place {
        3 => parameter.default = Some(variable("a")),
        4 => parameter.value = Some(variable("b")),
        _ => {}
    }
    parameter
}

#[test]
fn recipes_and_attributes(rt: HostRuntime) {
    let alloc = rt.alloc();
    is_copied(&rt, alloc, Attribute::Other);
    is_copied(&rt, alloc, env_attribute());
    is_copied(&rt, alloc, Recipe::new(alloc, name("build")));
    is_copied(&rt, alloc, attributes(&rt, alloc));
    let recipe = Recipe {
        attributes: attributes(&rt, alloc),
        name: name("build"),
    };
    is_copied(&rt, alloc, recipe);
}

// `[env(a, b)]`
fn env_attribute<'src>() -> Attribute<'src> {
    Attribute::Env(variable("a"), variable("b"))
}

// Two attributes, in this order.
fn attributes<'src>(rt: &impl Abort, alloc: Global) -> AttributeSet<'src> {
    let mut attributes = AttributeSet::new(alloc);
    let pushed = attributes.push(env_attribute(), name("env"));
    pushed.expect(rt, "no memory");
    let pushed = attributes.push(Attribute::Other, name("private"));
    pushed.expect(rt, "no memory");
    attributes
}

#[test]
fn lines_and_fragments(rt: HostRuntime) {
    let alloc = rt.alloc();
    is_copied(&rt, alloc, text());
    is_copied(&rt, alloc, interpolation());
    is_copied(&rt, alloc, Line::new(Vec::new(alloc)));
    let mut fragments = Vec::new(alloc);
    push(&rt, &mut fragments, text());
    push(&rt, &mut fragments, interpolation());
    is_copied(&rt, alloc, Line::new(fragments));
}

// `echo `
fn text<'src>() -> Fragment<'src> {
    let token = token("echo ");
    Fragment::Text { token }
}

// `{{a}}`
fn interpolation<'src>() -> Fragment<'src> {
    let expression = variable("a");
    Fragment::Interpolation { expression }
}

#[test]
fn settings(rt: HostRuntime) {
    let alloc = rt.alloc();
    for (name, takes, _) in SETTINGS {
        let setting = by_name(&rt, alloc, name, *takes).expect(&rt, "a setting");
        is_copied(&rt, alloc, setting);
    }
    let off = Setting::flag("lazy", false).expect(&rt, "a setting");
    is_copied(&rt, alloc, off);
    is_copied(&rt, alloc, indentation());
    is_copied(&rt, alloc, minimum_version(&rt, alloc));
}

#[test]
fn sets_and_interpreters(rt: HostRuntime) {
    let alloc = rt.alloc();
    is_copied(&rt, alloc, Set::new(name("indentation"), indentation()));
    is_copied(
        &rt,
        alloc,
        Interpreter::new(variable("a"), pair(&rt, alloc)),
    );
    is_copied(&rt, alloc, Interpreter::new("sh", Vec::new(alloc)));
}

// A thousand of an item.
fn thousand<T: Clone + Drop>(rt: &impl Abort, alloc: Global, item: T) -> Vec<T> {
    let mut all = Vec::new(alloc);
    for _ in 0..1000 {
        push(rt, &mut all, item.clone().expect(rt, "no copy"));
    }
    all
}

#[test]
fn rows_of_a_thousand(rt: HostRuntime) {
    let alloc = rt.alloc();
    let arguments = thousand(&rt, alloc, variable("a"));
    is_copied(&rt, alloc, Expression::call(name("f"), arguments));
    let elements = thousand(&rt, alloc, variable("a"));
    is_copied(&rt, alloc, Expression::list(elements, token("[")));
    let fragments = thousand(&rt, alloc, interpolation());
    is_copied(&rt, alloc, Line::new(fragments));
    is_copied(&rt, alloc, thousand_pieces(&rt, alloc));
    is_copied(&rt, alloc, thousand_attributes(&rt, alloc));
}

// A format string of a thousand variables.
fn thousand_pieces<'src>(rt: &impl Abort, alloc: Global) -> Expression<'src> {
    let piece = (variable("a"), unindented(rt, alloc, "}}{{"));
    Expression::format_string(unindented(rt, alloc, "{{"), thousand(rt, alloc, piece))
}

fn thousand_attributes<'src>(rt: &impl Abort, alloc: Global) -> AttributeSet<'src> {
    let mut attributes = AttributeSet::new(alloc);
    for _ in 0..1000 {
        let pushed = attributes.push(env_attribute(), name("env"));
        pushed.expect(rt, "no memory");
    }
    attributes
}

#[test]
fn thousand_parameters_and_long_texts(rt: HostRuntime) {
    let alloc = rt.alloc();
    let parameters = thousand(&rt, alloc, (name("p"), Number::new(2)));
    let function = FunctionDefinition::new(name("f"), parameters, variable("p"));
    is_copied(&rt, alloc, function);
    let text = "ab ".repeat(alloc, 1000).expect(&rt, "no memory");
    is_copied(&rt, alloc, Expression::literal(alloc, &text, "'..'"));
    is_copied(
        &rt,
        alloc,
        Expression::backtick(alloc, &text, token("`..`")),
    );
}

// How many levels an expression has, and whether it can be copied. A copy takes the stack of 8 MiB that a program has.
// `rt try` compiles it with checks, whose frames are several times as large, and ends this test by a signal: `rt test`
// runs it.
const LEVELS: &[(usize, bool)] = &[(1, true), (4_915, true), (4_916, false), (19_000, false)];

#[test]
fn levels_of_expressions(rt: HostRuntime) {
    for (levels, is_copied) in LEVELS {
        let copies = copies(tower(&rt, rt.alloc(), *levels));
        equal(&rt, "copied", copies, *is_copied);
    }
}

// A variable below `!`, with this many levels in all.
fn tower<'src>(rt: &impl Abort, alloc: Global, levels: usize) -> Expression<'src> {
    let mut tower = variable("a");
    for _ in 1..levels {
        tower = Expression::not(alloc, tower).expect(rt, "no memory");
    }
    tower
}

// Whether a value can be copied.
fn copies<T: Clone + Drop>(original: T) -> bool {
    original.clone().is_ok()
}
