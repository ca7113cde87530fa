// The refusals of constant evaluation: the message and the place of each.

use crate::compared::is_so;
use crate::errors::{occurs, says};
use crate::parts::{name, owned, prints, token, value};
use just_syntax::list_operator::ListOperator;
use just_syntax::out_of_memory::OutOfMemory;
use just_syntax::string_context::StringContext;
use just_value::compile_error::CompileError;
use just_value::const_error::ConstError;
use just_value::const_eval_error::ConstEvalError;
use just_value::error::Error;
use std::alloc::Global;
use std::process::Abort;

// A refusal says this text at the token of this lexeme, and so does the compile error that it becomes.
fn expect(rt: &impl Abort, alloc: Global, error: ConstEvalError, text: &str, at: &str) {
    prints(rt, alloc, &error, text);
    occurs(rt, text, Some(error.token()), Some(at));
    let ended = error.into_compile_error();
    occurs(rt, text, ended.token(), Some(at));
    says(rt, alloc, ended, text);
}

#[test]
fn const_errors_say(rt: HostRuntime) {
    let alloc = rt.alloc();
    for (error, text, at) in [
        (
            ConstError::Backtick(token("`pwd`")),
            "cannot call backticks in const context",
            "`pwd`",
        ),
        (
            ConstError::FunctionCall(name("uuid")),
            "cannot call functions in const context",
            "uuid",
        ),
        (
            ConstError::Variable(name("x")),
            "cannot access non-const variable `x` in const context",
            "x",
        ),
    ] {
        prints(&rt, alloc, &error, text);
        occurs(&rt, text, Some(error.token()), Some(at));
        expect(&rt, alloc, ConstEvalError::Const(error), text, at);
    }
}

#[test]
fn refusals_say(rt: HostRuntime) {
    let alloc = rt.alloc();
    let assert = ConstEvalError::Assert {
        message: owned(&rt, alloc, "no bar"),
        name: name("assert"),
    };
    expect(&rt, alloc, assert, "assert failed: no bar", "assert");
    let internal = ConstEvalError::Internal {
        message: owned(&rt, alloc, "no such assignment"),
        token: token("foo"),
    };
    let text = "internal error: no such assignment";
    expect(&rt, alloc, internal, text, "foo");
    let interpreter = ConstEvalError::EmptyInterpreter {
        setting: name("shell"),
    };
    let text = "`shell` setting requires at least one element but evaluated to empty list";
    expect(&rt, alloc, interpreter, text, "shell");
    let regex = ConstEvalError::LeftOutRegex { token: token("=~") };
    let text = "regular expression operators are left out";
    expect(&rt, alloc, regex, text, "=~");
}

fn expect_list(
    rt: &impl Abort,
    alloc: Global,
    elements: &[&str],
    context: StringContext,
    text: &str,
    at: &str,
) {
    let value = value(rt, alloc, elements);
    let error = ConstEvalError::ListInStringContext { context, value };
    expect(rt, alloc, error, text, at);
}

#[test]
fn lists_where_one_text_is_wanted(rt: HostRuntime) {
    let alloc = rt.alloc();
    let setting = StringContext::Setting(name("tempdir"));
    let text = "list value [\"a\", \"b\"] in setting `tempdir`";
    expect_list(&rt, alloc, &["a", "b"], setting, text, "tempdir");
    let key = StringContext::EnvKey(name("env"));
    let text = "list value [] in key of `env` attribute";
    expect_list(&rt, alloc, &[], key, text, "env");
    let function = StringContext::Function(name("quote"));
    let text = "list value [] in argument to function `quote`\n\
        the behavior of lists with many built-in functions is undecided\n\
        see https://github.com/casey/just#lists";
    expect_list(&rt, alloc, &[], function, text, "quote");
}

// Two lists with an operator between them, and the message of its refusal.
const ILL_MATCHED: &[(&[&str], ListOperator, &[&str], &str)] = &[
    (
        &[],
        ListOperator::Concatenate,
        &["a", "b"],
        "operator `+` cannot be applied to empty lists",
    ),
    (
        &["a"],
        ListOperator::Join,
        &[],
        "operator `/` cannot be applied to empty lists",
    ),
    (
        &["a", "b"],
        ListOperator::Join,
        &["c", "d", "e"],
        "operator `/` cannot be applied to lists of different lengths: [\"a\", \"b\"] / [\"c\", \"d\", \"e\"]",
    ),
];

#[test]
fn lists_that_do_not_go_together(rt: HostRuntime) {
    let alloc = rt.alloc();
    for (lhs, operator, rhs, text) in ILL_MATCHED {
        let error = ConstEvalError::ListOperation {
            lhs: value(&rt, alloc, lhs),
            operator: *operator,
            rhs: value(&rt, alloc, rhs),
            token: token("/"),
        };
        expect(&rt, alloc, error, text, "/");
    }
}

// Compilation ends with this error.
fn ends(rt: &impl Abort, given: CompileError, wanted: CompileError) {
    let is_same = given == wanted;
    drop(given);
    drop(wanted);
    is_so(rt, "compilation ends so", is_same);
}

#[test]
fn refusals_before_a_run(rt: HostRuntime) {
    let alloc = rt.alloc();
    let name = name("assert");
    let error = Error::Assert {
        message: owned(&rt, alloc, "no bar"),
        name,
    };
    let same = ConstEvalError::Assert {
        message: owned(&rt, alloc, "no bar"),
        name,
    };
    ends(&rt, error.unwrap_const(), same.into_compile_error());
    let variable = ConstError::Variable(name);
    let same = ConstEvalError::Const(variable).into_compile_error();
    ends(&rt, Error::Const(variable).unwrap_const(), same);
    let same = CompileError::OutOfMemory;
    ends(&rt, Error::OutOfMemory.unwrap_const(), same);
    let same = CompileError::from(OutOfMemory);
    ends(&rt, same, CompileError::OutOfMemory);
}
