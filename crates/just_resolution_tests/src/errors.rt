// The messages of errors, and their places.

use crate::compared::{equal, reports};
use crate::parts::{name, owned, prints, token, value};
use just_builtins::call_fault::CallFault;
use just_case_reader::case::CaseError;
use just_case_reader::line_error::LineError;
use just_resolution::fault::Fault;
use just_syntax::list_operator::ListOperator;
use just_syntax::out_of_memory::OutOfMemory;
use just_syntax::string_context::StringContext;
use just_syntax::token::Token;
use just_value::check_fault::CheckFault;
use just_value::compile_error::CompileError;
use just_value::const_error::ConstError;
use just_value::const_eval_error::ConstEvalError;
use just_value::error::{CommandFault, Error};
use just_value::value::Value;
use std::alloc::Global;
use std::fmt::Display;
use std::process::Abort;

// `Display` writes this text, with and without format options.
pub(crate) fn says<T: Display + Drop>(rt: &impl Abort, alloc: Global, error: T, text: &str) {
    prints(rt, alloc, &error, text);
    let reported = format!(in alloc; "{error:#120}").expect(rt, "no memory");
    reports(rt, reported, text);
    let reported = format!(in alloc; "{error:>40}").expect(rt, "no memory");
    reports(rt, reported, text);
    drop(error);
}

// The place of an error is the token of this lexeme, or there is none.
pub(crate) fn occurs(rt: &impl Abort, text: &str, given: Option<Token>, at: Option<&str>) {
    let wanted = match at {
        Some(lexeme) => Some(token(lexeme)),
        None => None,
    };
    equal(rt, text, given, wanted);
}

fn expect(rt: &impl Abort, alloc: Global, error: Error, text: &str, at: Option<&str>) {
    occurs(rt, text, error.token(), at);
    says(rt, alloc, error, text);
}

#[test]
fn refusals_that_hold_a_message(rt: HostRuntime) {
    let alloc = rt.alloc();
    let error = Error::Assert {
        message: owned(&rt, alloc, "no bar"),
        name: name("assert"),
    };
    expect(&rt, alloc, error, "assert failed: no bar", Some("assert"));
    let error = Error::Internal {
        message: owned(&rt, alloc, "unknown assignment `a`"),
        token: token("a"),
    };
    let text = "internal error: unknown assignment `a`";
    expect(&rt, alloc, error, text, Some("a"));
    let error = Error::FunctionCall {
        function: name("env"),
        message: owned(&rt, alloc, "environment variable `X` not present"),
    };
    let text = "call to function `env` failed: environment variable `X` not present";
    expect(&rt, alloc, error, text, Some("env"));
    let error = Error::Check {
        parameter: "target",
        message: owned(&rt, alloc, "`../x` leads out"),
    };
    let text = "argument of parameter `target` was refused: `../x` leads out";
    expect(&rt, alloc, error, text, None);
}

#[test]
fn refusals_of_expressions(rt: HostRuntime) {
    let alloc = rt.alloc();
    let error = Error::Const(ConstError::Variable(name("x")));
    let text = "cannot access non-const variable `x` in const context";
    expect(&rt, alloc, error, text, Some("x"));
    let error = Error::LeftOutRegex { token: token("=~") };
    let text = "regular expression operators are left out";
    expect(&rt, alloc, error, text, Some("=~"));
    let error = Error::ListInStringContext {
        context: StringContext::Function(name("quote")),
        value: value(&rt, alloc, &["a", "b"]),
    };
    let text = "list value [\"a\", \"b\"] in argument to function `quote`\n\
        the behavior of lists with many built-in functions is undecided\n\
        see https://github.com/casey/just#lists";
    expect(&rt, alloc, error, text, Some("quote"));
}

#[test]
fn refusals_of_calls(rt: HostRuntime) {
    let alloc = rt.alloc();
    let error = Error::LeftOut {
        function: name("uuid"),
    };
    let text = "function `uuid` is left out";
    expect(&rt, alloc, error, text, Some("uuid"));
    let error = Error::RecursionLimit { last: name("f") };
    let text = "call to function `f` reached the recursion limit";
    expect(&rt, alloc, error, text, Some("f"));
    let error = Error::EmptyListArgument {
        parameter: "files",
        recipe: "pack",
    };
    let text = "parameter `files` of recipe `pack` requires at least one element";
    expect(&rt, alloc, error, text, None);
}

// A command that is refused so is reported to have failed with this text.
fn expect_fault(rt: &impl Abort, alloc: Global, output_error: CommandFault, text: &str) {
    let token = token("`exit`");
    let error = Error::Backtick {
        token,
        output_error,
    };
    expect(rt, alloc, error, text, Some("`exit`"));
}

#[test]
fn refusals_of_commands(rt: HostRuntime) {
    let alloc = rt.alloc();
    let text = "backtick failed: process exited with status code 3";
    expect_fault(&rt, alloc, CommandFault::Code(3), text);
    let text = "backtick failed: process exited with status code -9";
    expect_fault(&rt, alloc, CommandFault::Code(-9), text);
    let fault = CommandFault::Fault(owned(&rt, alloc, "no shell"));
    expect_fault(&rt, alloc, fault, "backtick failed: no shell");
    let text = "backtick failed: out of memory";
    expect_fault(&rt, alloc, CommandFault::OutOfMemory, text);
}

// Left operands of `+`, whose right operand is the list of `c`, `d` and `e`, and the message of the refusal.
const ILL_MATCHED: &[(&[&str], &str)] = &[
    (&[], "operator `+` cannot be applied to empty lists"),
    (
        &["a", "b"],
        "operator `+` cannot be applied to lists of different lengths: [\"a\", \"b\"] + [\"c\", \"d\", \"e\"]",
    ),
];

#[test]
fn refusals_of_lists(rt: HostRuntime) {
    let alloc = rt.alloc();
    for (lhs, text) in ILL_MATCHED {
        let error = Error::ListOperation {
            lhs: value(&rt, alloc, lhs),
            operator: ListOperator::Concatenate,
            rhs: value(&rt, alloc, &["c", "d", "e"]),
            token: token("+"),
        };
        expect(&rt, alloc, error, text, Some("+"));
    }
}

#[test]
fn faults_say(rt: HostRuntime) {
    let alloc = rt.alloc();
    let text = "process exited with status code 1";
    says(&rt, alloc, CommandFault::Code(1), text);
    let fault = CommandFault::Fault(owned(&rt, alloc, "not UTF-8"));
    says(&rt, alloc, fault, "not UTF-8");
    let fault = CheckFault::Refused(owned(&rt, alloc, "no digit"));
    says(&rt, alloc, fault, "no digit");
    let fault = CallFault::Message(owned(&rt, alloc, "path `/` has no parent"));
    says(&rt, alloc, fault, "path `/` has no parent");
    let text = "function has no such shape";
    says(&rt, alloc, CallFault::Internal, text);
}

#[test]
fn errors_of_cases_say(rt: HostRuntime) {
    let alloc = rt.alloc();
    says(&rt, alloc, LineError::Bad, "bad line");
    says(&rt, alloc, CaseError::BadLine(12), "bad line 12");
}

#[test]
fn out_of_memory_says(rt: HostRuntime) {
    let alloc = rt.alloc();
    let text = "out of memory";
    expect(&rt, alloc, Error::OutOfMemory, text, None);
    expect(&rt, alloc, Error::from(OutOfMemory), text, None);
    says(&rt, alloc, CommandFault::from(OutOfMemory), text);
    says(&rt, alloc, CheckFault::from(OutOfMemory), text);
    says(&rt, alloc, CallFault::from(OutOfMemory), text);
    says(&rt, alloc, LineError::from(OutOfMemory), text);
    says(&rt, alloc, CaseError::OutOfMemory, text);
    occurs(&rt, text, CompileError::OutOfMemory.token(), None);
    says(&rt, alloc, CompileError::OutOfMemory, text);
}

// The result of an error that a program passes on.
fn passed_on<E: std::error::Error>(error: E) -> anyhow::Result<()> {
    Err(error)?
}

// An error that is passed on has this message.
fn expect_passed_on<E: std::error::Error>(rt: &impl Abort, alloc: Global, error: E, text: &str) {
    let error = passed_on(error).expect_err(rt, text);
    let reported = format!(in alloc; "{error}").expect(rt, "no memory");
    reports(rt, reported, text);
}

#[test]
fn errors_are_passed_on(rt: HostRuntime) {
    let alloc = rt.alloc();
    let error = Error::LeftOut {
        function: name("uuid"),
    };
    expect_passed_on(&rt, alloc, error, "function `uuid` is left out");
    expect_passed_on(&rt, alloc, CompileError::OutOfMemory, "out of memory");
    expect_passed_on(&rt, alloc, OutOfMemory, "out of memory");
    let text = "process exited with status code 2";
    expect_passed_on(&rt, alloc, CommandFault::Code(2), text);
    expect_passed_on(&rt, alloc, CheckFault::OutOfMemory, "out of memory");
    let refusal = ConstError::FunctionCall(name("f"));
    let text = "cannot call functions in const context";
    expect_passed_on(&rt, alloc, refusal, text);
    expect_passed_on(&rt, alloc, ConstEvalError::Const(refusal), text);
}

#[test]
fn faults_are_passed_on(rt: HostRuntime) {
    let alloc = rt.alloc();
    let fault = Fault::UndefinedFunction {
        function: name("f"),
    };
    expect_passed_on(&rt, alloc, fault, "unknown function `f`");
    let text = "function has no such shape";
    expect_passed_on(&rt, alloc, CallFault::Internal, text);
    expect_passed_on(&rt, alloc, LineError::Bad, "bad line");
    expect_passed_on(&rt, alloc, CaseError::BadLine(1), "bad line 1");
}

// A check that accepts one element. It passes on a failed allocation with `?`.
fn takes_one(alloc: Global, value: &Value) -> Result<(), CheckFault> {
    if value.len() == 1 {
        return Ok(());
    }
    let elements = value.join(alloc)?;
    let message = format!(in alloc; "not one element: {elements}")?;
    Err(CheckFault::Refused(message))
}

// Values, and the message with which the check refuses them.
const CHECKED: &[(&[&str], Option<&str>)] = &[
    (&["a"], None),
    (&["a", "b"], Some("not one element: a b")),
    (&[], Some("not one element: ")),
];

#[test]
fn checks_are_refused_memory_by_question_marks(rt: HostRuntime) {
    let alloc = rt.alloc();
    for (elements, refused) in CHECKED {
        let value = value(&rt, alloc, elements);
        expect_checked(&rt, alloc, takes_one(alloc, &value), *refused);
        drop(value);
    }
}

// A check refuses a value with this message, or accepts it.
fn expect_checked(
    rt: &impl Abort,
    alloc: Global,
    checked: Result<(), CheckFault>,
    refused: Option<&str>,
) {
    match refused {
        Some(text) => says(rt, alloc, checked.expect_err(rt, text), text),
        None => checked.expect(rt, "taken"),
    }
}
