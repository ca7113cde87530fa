// What two runs under `blocks` ask, compared with each run alone, and with outer bindings.

use crate::evaluations::answers_outside_nothing;
use crate::texts::{is_so, same};
use just_bench::program::run;
use std::alloc::{AllocError, Global};
use std::process::Abort;
use std::str;

// What a case with these last lines asks, one question per line.
fn asked(rt: &impl Abort, alloc: Global, case: &str, end: &str) -> String {
    let case = format!(in alloc; "{case}\n{end}\n").expect(rt, "no memory");
    let mut out = Vec::new(alloc);
    run(alloc, &mut case.as_bytes(), &mut out);
    let answer = str::from_utf8(&out).expect(rt, "no text");
    questions_in(alloc, answer).expect(rt, "no memory")
}

fn questions_in(alloc: Global, answer: &str) -> Result<String, AllocError> {
    let mut questions = String::new(alloc);
    for line in answer.lines() {
        if line.starts_with("? ") {
            writeln!(questions, "{line}")?;
        }
    }
    Ok(questions)
}

// What it asks in a run in this order.
fn asked_in_run(rt: &impl Abort, alloc: Global, case: &str, order: &str) -> String {
    let end = format!(in alloc; "order {order}\nrun").expect(rt, "no memory");
    asked(rt, alloc, case, &end)
}

// What it asks in a run in each of these orders.
fn asked_in_runs(rt: &impl Abort, alloc: Global, case: &str, first: &str, second: &str) -> String {
    let one = asked_in_run(rt, alloc, case, first);
    let other = asked_in_run(rt, alloc, case, second);
    format!(in alloc; "{one}{other}").expect(rt, "no memory")
}

// What it asks under `blocks`.
fn asked_in_blocks(
    rt: &impl Abort,
    alloc: Global,
    case: &str,
    first: &str,
    second: &str,
) -> String {
    let end = format!(in alloc; "order {first}\nblocks {second}").expect(rt, "no memory");
    asked(rt, alloc, case, &end)
}

// Under `blocks` a case asks what it asks in a run in each order.
fn asks_what_runs_ask(rt: &impl Abort, alloc: Global, case: &str, first: &str, second: &str) {
    let expected = asked_in_runs(rt, alloc, case, first, second);
    let both = asked_in_blocks(rt, alloc, case, first, second);
    same(rt, case, &both, &expected);
    is_so(rt, case, !both.is_empty());
}

// A case without its last lines, and two orders.
const CASES: &[(&str, &str, &str)] = &[
    (
        "cmd p\nassign a\ncmd q\nassign b\nvar a\nvar b\nadd\nassign d\nreply 1\nreply 2",
        "a b d",
        "b a d",
    ),
    // The body reads its caller's parameter, and so does what it calls.
    (
        "cmd c\nvar p\nadd\nfun g\ncall g 0\nfun f p\nstr x\ncall f 1\nassign a\nstr y\ncall f 1\nassign b\nalways z",
        "a b",
        "b a",
    ),
    // The body reads what is not yet bound in one of the orders.
    (
        "cmd q\nvar a\nadd\nfun g\ncmd p\nassign a\ncall g 0\nassign b\nreply 1\nreply 2",
        "a b",
        "b a",
    ),
    (
        "cmd p\nexport a\nstr c\nstr d\ncall shell 2\nassign b\nreply 1\nreply 2",
        "b a",
        "a b",
    ),
];

#[test]
fn blocks_ask_what_runs_ask(rt: HostRuntime) {
    for (case, first, second) in CASES {
        asks_what_runs_ask(&rt, rt.alloc(), case, first, second);
    }
}

// A variable that is bound outside is taken, but asks nothing, and neither run binds it.
#[test]
fn blocks_of_what_is_bound_outside(rt: HostRuntime) {
    answers_outside_nothing(
        &rt,
        rt.alloc(),
        "cmd c\nassign o\ncmd d\nassign a\nreply 1\nblocks a o",
        "order o a\nblock o\nblock a\n? command \"d\"\norder a o\nblock a\n? command \"d\"\nblock o\nsame\n",
        0,
    );
}
