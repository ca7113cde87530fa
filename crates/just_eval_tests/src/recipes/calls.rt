// The other calls that a runner makes, besides lines and parameters: a command, a value and a text.

ghost use Rattle.std.specs.Prelude.{◌<◌};

use crate::recipes::around::Around;
use crate::recipes::evaluated::{Evaluated, report_evaluated};
use crate::recipes::failing::{Failing, NEVER, WAYS, refusal as refused};
use crate::recipes::hosts::ReportingHost;
use crate::recipes::texts::{owned, same_failing};
use just_case_reader::token::token;
use just_eval::evaluator::Evaluator;
use just_host::execution_context::ExecutionContext;
use just_syntax::expression::Expression;
use just_value::error::CommandFault;
use std::alloc::Global;
use std::collections::BTreeMap;
use std::process::Abort;

// What is the same in all commands here, besides the frames.
const FIXED: &str = "dotenv D=d without U without V in /work/sub/dir";

// Each call asks its question and returns the answer. A question that the host fails is refused; the ones before are
// not.
#[test]
fn calls_and_their_refusals(rt: HostRuntime) {
    for how in WAYS {
        for passed in 0..=3 {
            calls_fail(&rt, rt.alloc(), "c", (passed, *how));
        }
    }
    let long = "c ".repeat(rt.alloc(), 1000).expect(&rt, "no memory");
    calls_fail(&rt, rt.alloc(), &long, NEVER);
}

// With a host that fails in some way, the report on the calls is as expected.
fn calls_fail(rt: &impl Abort, alloc: Global, command: &str, failing: Failing) {
    let mut host = ReportingHost::new(alloc, failing);
    call(rt, alloc, command, &mut host);
    let wanted = wanted(rt, alloc, command, failing);
    same_failing(rt, "the calls", failing, &host.reported, &wanted);
    drop(wanted);
    drop(host);
}

// The expected report on the calls if the host passes this many questions on: a command that is run in the module's
// scope, and in an evaluator's frame a value and a text.
fn wanted(rt: &impl Abort, alloc: Global, command: &str, (passed, how): Failing) -> String {
    let mut wanted = String::new(alloc);
    let calls = [("()", ""), ("() ()", "\""), ("() ()", "")];
    for (place, (frames, quote)) in calls.iter().enumerate() {
        let question = write!(wanted, "? {command} A=x {frames} {FIXED};");
        question.expect(rt, "no memory");
        let answer = if place >= passed {
            write!(wanted, "{};", refused(how))
        } else {
            write!(wanted, "{quote}<{command}>{quote};")
        };
        answer.expect(rt, "no memory");
    }
    wanted
}

// Makes the calls, each with this command, in an environment of one variable.
fn call<'src>(rt: &impl Abort, alloc: Global, text: &'src str, host: &mut ReportingHost) {
    let command = command(rt, alloc, text);
    let around = Around::of_submodule(rt, alloc, text);
    call_in(&around.context(), rt, alloc, host, &command);
    drop(around);
    drop(command);
}

fn command<'src>(rt: &impl Abort, alloc: Global, text: &'src str) -> Expression<'src> {
    Expression::backtick(alloc, text, token(text)).expect(rt, "no memory")
}

fn call_in<'src>(
    context: &ExecutionContext<'src, '_>,
    rt: &impl Abort,
    alloc: Global,
    host: &mut ReportingHost,
    command: &Expression<'src>,
)
    requires may_call { 0 < context.now.recursion_limit }
{
    run(context, rt, alloc, host, command);
    let env = env(rt, alloc);
    let evaluated = Evaluated::Command(command);
    report_evaluated(
        context,
        rt,
        alloc,
        host,
        env,
        false,
        context.scope,
        evaluated,
    );
}

// The environment of each call.
fn env(rt: &impl Abort, alloc: Global) -> BTreeMap<String, String> {
    let mut env = BTreeMap::new(alloc);
    let inserted: Result<_, _> = env.insert(owned(rt, alloc, "A"), owned(rt, alloc, "x"));
    inserted.expect(rt, "no memory");
    env
}

// Runs the command of this expression. A dry run runs no command.
fn run<'src>(
    context: &ExecutionContext<'src, '_>,
    rt: &impl Abort,
    alloc: Global,
    host: &mut ReportingHost,
    command: &Expression<'src>,
) {
    assert!(rt; !context.config.dry_run, "a dry run");
    let env = env(rt, alloc);
    let text = match command {
        Expression::Backtick { contents, token: _ } => contents,
        _ => panic!(rt; "no command"),
    };
    let outcome = Evaluator::run_command(alloc, host, context, &env, context.scope, text, None);
    drop(env);
    report_run(rt, host, outcome);
}

// Reports the output of a command that was run, or its fault.
fn report_run(rt: &impl Abort, host: &mut ReportingHost, outcome: Result<String, CommandFault>) {
    match outcome {
        Ok(text) => host.report(rt, &text),
        Err(CommandFault::OutOfMemory) => host.report(rt, "no memory"),
        Err(_fault) => host.report(rt, "refused"),
    }
    host.report(rt, ";");
}
