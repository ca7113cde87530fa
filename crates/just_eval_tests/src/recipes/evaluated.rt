// What an evaluator evaluates: a line, or a command.

ghost use Rattle.just_eval_tests.specs.Prelude.{MayCall};
ghost use Rattle.std.specs.Prelude.{◌<◌};

use crate::recipes::RECIPE;
use crate::recipes::hosts::{ReportingHost, refusal};
use just_case_reader::token::name;
use just_eval::evaluator::Evaluator;
use just_host::execution_context::ExecutionContext;
use just_syntax::expression::Expression;
use just_syntax::line::Line;
use just_syntax::string_context::StringContext;
use just_value::error::Error;
use just_value::scope::Scope;
use just_value::value::Value;
use std::alloc::Global;
use std::collections::BTreeMap;
use std::process::Abort;

/// What is evaluated for a recipe.
#[derive(Clone, Copy)]
pub(crate) enum Evaluated<'run, 'src> {
    /// A line, and whether it is continued.
    Line(&'run Line<'src>, bool),
    /// A command, as a value and then as a text.
    Command(&'run Expression<'src>),
}

/// Reports what is evaluated in a scope, for a recipe that may run as a dependency. Commands are run with the variables
/// of an environment.
pub(crate) fn report_evaluated<'src>(
    context: &ExecutionContext<'src, '_>,
    rt: &impl Abort,
    alloc: Global,
    host: &mut ReportingHost,
    env: BTreeMap<String, String>,
    is_dependency: bool,
    scope: &Scope<'src, '_>,
    evaluated: Evaluated<'_, 'src>,
)
    requires may_call { 0 < context.now.recursion_limit }
{
    let evaluator = Evaluator::new(
        alloc,
        context,
        env,
        is_dependency,
        Some(name(RECIPE)),
        scope,
    );
    match &evaluator {
        Ok(evaluator) => report_by(evaluator, rt, alloc, host, evaluated),
        Err(_error) => host.report(rt, "no evaluator"),
    }
    drop(evaluator);
}

fn report_by<'src>(
    evaluator: &Evaluator<'src, '_>,
    rt: &impl Abort,
    alloc: Global,
    host: &mut ReportingHost,
    evaluated: Evaluated<'_, 'src>,
)
    requires may_call { MayCall evaluator.now }
{
    match evaluated {
        Evaluated::Line(line, continued) => evaluate_line(
            evaluator, rt, alloc, host, line, continued,
        ),
        Evaluated::Command(command) => evaluate_command(evaluator, rt, alloc, host, command),
    }
}

fn evaluate_line<'src>(
    evaluator: &Evaluator<'src, '_>,
    rt: &impl Abort,
    alloc: Global,
    host: &mut ReportingHost,
    line: &Line<'src>,
    continued: bool,
)
    requires may_call { MayCall evaluator.now }
{
    let outcome = evaluator.evaluate_line(alloc, host, line, continued);
    host.report_outcome(rt, &outcome);
    drop(outcome);
}

// Evaluates the command as a value, and then as a text.
fn evaluate_command<'src>(
    evaluator: &Evaluator<'src, '_>,
    rt: &impl Abort,
    alloc: Global,
    host: &mut ReportingHost,
    command: &Expression<'src>,
)
    requires may_call { MayCall evaluator.now }
{
    let value = evaluator.evaluate_value(alloc, host, command);
    report_value(&value, rt, &mut host.reported);
    drop(value);
    let place = StringContext::Setting(name("set"));
    let text = evaluator.evaluate_string(alloc, host, command, place);
    host.report_outcome(rt, &text);
    drop(text);
    host.report(rt, ";");
}

// Reports a value that was evaluated, or its refusal.
fn report_value(outcome: &Result<Value, Error>, rt: &impl Abort, reported: &mut String) {
    match outcome {
        Ok(value) => write!(reported, "{value};").expect(rt, "no memory"),
        Err(error) => write!(reported, "{};", refusal(error)).expect(rt, "no memory"),
    }
}
