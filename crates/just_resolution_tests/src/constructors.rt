// Syntax built by hand.

use crate::compared::{equal, is_so, same};
use crate::parts::{made_prints, name, prints, token};
use just_syntax::assignment::Assignment;
use just_syntax::conditional_operator::ConditionalOperator::{
    self, Equality, Inequality, RegexMatch, RegexMismatch,
};
use just_syntax::expression::Expression;
use just_syntax::function_definition::FunctionDefinition;
use just_syntax::name::Name;
use just_syntax::number::Number;
use just_syntax::out_of_memory::OutOfMemory;
use just_syntax::parameter::Parameter;
use just_syntax::parameter_kind::ParameterKind;
use just_syntax::place::Place;
use just_syntax::recipe::Recipe;
use just_syntax::string_literal::StringLiteral;
use just_syntax::token::Token;
use std::alloc::Global;
use std::process::Abort;

pub(crate) fn variable(lexeme: &str) -> Expression<'_> {
    Expression::variable(name(lexeme), Number::new(0))
}

#[test]
fn tokens_at_places(rt: HostRuntime) {
    let place = Place {
        column: 4,
        line: 2,
        offset: 17,
        path: "a/justfile",
    };
    for (place, column, line, offset, path) in [
        (Some(place), 4, 2, 17, "a/justfile"),
        (Some(Place::start_of("b.just")), 0, 0, 0, "b.just"),
        (None, 0, 0, 0, ""),
    ] {
        let wanted = Token {
            column,
            line,
            offset,
            lexeme: "x",
            path,
        };
        equal(&rt, path, Token::new("x", place), wanted);
        equal(&rt, path, Name::new("x", place).token, wanted);
    }
}

// Forms of expressions. A form with an optional part occurs with it and without it.
#[derive(Clone, Copy)]
pub(crate) enum Form {
    And,
    Assert,
    AssertWithMessage,
    Backtick,
    Comparison(ConditionalOperator),
    Concatenation,
    Conditional,
    ConditionalWithElse,
    Group,
    Join,
    JoinAtRoot,
    ListConcatenation,
    Not,
    Or,
}

// Forms, the token that each is built with, if it has one, and how it is written. Its parts are the variables `a`, `b`
// and `c`.
pub(crate) const FORMS: &[(Form, &str, &str)] = &[
    (Form::And, "", "a && b"),
    (Form::Or, "", "a || b"),
    (Form::Not, "", "!a"),
    (Form::Group, "", "(a)"),
    (Form::Concatenation, "+", "a + b"),
    (Form::ListConcatenation, "++", "a ++ b"),
    (Form::Join, "/", "a / b"),
    (Form::JoinAtRoot, "/", "/ b"),
    (Form::Comparison(Equality), "==", "a == b"),
    (Form::Comparison(Inequality), "!=", "a != b"),
    (Form::Comparison(RegexMatch), "=~", "a =~ b"),
    (Form::Comparison(RegexMismatch), "!~", "a !~ b"),
    (Form::ConditionalWithElse, "", "if a { b } else { c }"),
    (Form::Conditional, "", "if a { b }"),
    (Form::AssertWithMessage, "assert", "assert(a, b)"),
    (Form::Assert, "assert", "assert(a)"),
    (Form::Backtick, "`date -u`", "`date -u`"),
];

// An expression of this form.
pub(crate) fn made<'src>(
    alloc: Global,
    form: Form,
    at: Token<'src>,
) -> Result<Expression<'src>, OutOfMemory> {
    match form {
        Form::And => Expression::and(alloc, variable("a"), variable("b")),
        Form::Assert => Expression::assert(alloc, Name { token: at }, variable("a"), None),
        Form::AssertWithMessage => {
            let message = Some(variable("b"));
            Expression::assert(alloc, Name { token: at }, variable("a"), message)
        }
        Form::Backtick => Expression::backtick(alloc, "date -u", at),
        Form::Comparison(operator) => {
            Expression::comparison(alloc, variable("a"), operator, variable("b"), at)
        }
        Form::Concatenation => Expression::concatenation(alloc, variable("a"), at, variable("b")),
        Form::Conditional => Expression::conditional(alloc, variable("a"), variable("b"), None),
        Form::ConditionalWithElse => {
            let otherwise = Some(variable("c"));
            Expression::conditional(alloc, variable("a"), variable("b"), otherwise)
        }
        Form::Group => Expression::group(alloc, variable("a")),
        Form::Join => Expression::join(alloc, Some(variable("a")), at, variable("b")),
        Form::JoinAtRoot => Expression::join(alloc, None, at, variable("b")),
        Form::ListConcatenation => {
            Expression::list_concatenation(alloc, variable("a"), at, variable("b"))
        }
        Form::Not => Expression::not(alloc, variable("a")),
        Form::Or => Expression::or(alloc, variable("a"), variable("b")),
    }
}

#[test]
fn forms_of_expressions(rt: HostRuntime) {
    let alloc = rt.alloc();
    for (form, lexeme, text) in FORMS {
        made_prints(&rt, alloc, made(alloc, *form, token(lexeme)), text);
    }
}

#[test]
fn rows_of_expressions(rt: HostRuntime) {
    let alloc = rt.alloc();
    let call = Expression::call(name("f"), pair(&rt, alloc));
    made_prints(&rt, alloc, Ok(call), "f(a, 'x')");
    let none = Expression::call(name("pid"), Vec::new(alloc));
    made_prints(&rt, alloc, Ok(none), "pid()");
    let list = Expression::list(pair(&rt, alloc), token("["));
    made_prints(&rt, alloc, Ok(list), "[a, 'x']");
}

// A variable and a literal.
pub(crate) fn pair<'src>(rt: &impl Abort, alloc: Global) -> Vec<Expression<'src>> {
    let literal = Expression::literal(alloc, "x", "'x'").expect(rt, "no memory");
    vec![in alloc; variable("a"), literal].expect(rt, "no memory")
}

#[test]
fn format_strings(rt: HostRuntime) {
    let alloc = rt.alloc();
    let first = StringLiteral::new(alloc, "first ", "f'first {{").expect(&rt, "no memory");
    let last = StringLiteral::new(alloc, " last", "}} last'").expect(&rt, "no memory");
    let pieces = vec![in alloc; (variable("a"), last)].expect(&rt, "no memory");
    let written = Expression::format_string(first, pieces);
    made_prints(&rt, alloc, Ok(written), "f'first {{a}} last'");
}

// Texts, and how their literals are written.
const LITERALS: &[(&str, &str)] = &[("x", "'x'"), ("a\tb", "\"a\\tb\""), ("", "''")];

#[test]
fn texts_of_literals(rt: HostRuntime) {
    for (text, lexeme) in LITERALS {
        let literal = StringLiteral::new(rt.alloc(), text, lexeme).expect(&rt, "no memory");
        same(&rt, literal.cooked.as_str(), text);
        same(&rt, literal.lexeme, lexeme);
        is_so(&rt, lexeme, !literal.indented);
        drop(literal);
    }
}

// Whether a name and its number are as expected.
fn is_numbered(given: Name, number: Number, lexeme: &str, wanted: u64) -> bool {
    given.token == token(lexeme) && number == Number::new(wanted)
}

#[test]
fn numbers(rt: HostRuntime) {
    let alloc = rt.alloc();
    is_so(&rt, "value", Number::new(7).get() == 7);
    prints(&rt, alloc, &Number::new(0), "0");
    prints(&rt, alloc, &Number::new(u64::MAX), "18446744073709551615");
}

#[test]
fn plain_assignments(rt: HostRuntime) {
    let alloc = rt.alloc();
    let assignment = Assignment::new(name("x"), Number::new(3), variable("a"));
    is_so(&rt, "assignment", is_plain_assignment(&assignment));
    prints(&rt, alloc, &assignment.value, "a");
    drop(assignment);
}

// Whether an assignment is that of `x`, with number 3, and sets nothing else.
fn is_plain_assignment(assignment: &Assignment) -> bool {
    let says_more = assignment.eager || assignment.export || assignment.private;
    is_numbered(assignment.name, assignment.number, "x", 3) && !says_more
}

#[test]
fn plain_functions(rt: HostRuntime) {
    defines("p", &rt, rt.alloc());
}

// A function of one parameter can be defined with this name, and its body is written like the parameter.
fn defines<'src>(lexeme: &'src str, rt: &impl Abort, alloc: Global) {
    let mut parameters = Vec::new(alloc);
    let filled = parameters.extend_from_slice(&[(name(lexeme), Number::new(7))]);
    filled.expect(rt, "no memory");
    let function = FunctionDefinition::new(name("f"), parameters, variable(lexeme));
    is_so(rt, "function", takes_one(&function));
    prints(rt, alloc, &function.body, lexeme);
    drop(function);
}

// Whether a function is named `f` and has one parameter, `p`, with number 7.
fn takes_one(function: &FunctionDefinition) -> bool {
    match function.parameters.as_slice() {
        [(parameter, number)] => {
            function.name.token == token("f") && is_numbered(*parameter, *number, "p", 7)
        }
        _ => false,
    }
}

#[test]
fn plain_parameters(rt: HostRuntime) {
    let parameter = Parameter::new(name("p"), Number::new(5), ParameterKind::Plus);
    is_so(&rt, "parameter", is_plain_parameter(&parameter));
    drop(parameter);
}

// Whether a parameter is `p`, with number 5, takes several arguments, and sets nothing else.
fn is_plain_parameter(parameter: &Parameter) -> bool {
    let says_more = parameter.export || parameter.flag || parameter.multiple;
    let holds_more = parameter.default.is_some() || parameter.value.is_some();
    is_numbered(parameter.name, parameter.number, "p", 5)
        && parameter.kind == ParameterKind::Plus
        && !says_more
        && !holds_more
}

#[test]
fn plain_recipes(rt: HostRuntime) {
    let recipe = Recipe::new(rt.alloc(), name("build"));
    is_so(&rt, "recipe", is_bare_recipe(&recipe));
    drop(recipe);
}

// Whether a recipe is named `build` and has no attribute.
fn is_bare_recipe(recipe: &Recipe) -> bool {
    recipe.name() == "build" && recipe.attributes.iter().len() == 0
}
