// Runs of one module in two orders.

use crate::case_run::reported_by_run;
use crate::frame_host::frame_host;
use crate::texts::{owned, questions_of, same};
use bumpalo::Bump;
use just_case_reader::case::build;
use just_case_reader::line::parse_lines;
use just_host::host::Host;
use just_host::recorder::Recorder;
use just_script::scripted_host::ScriptedHost;
use just_value::scope::Scope;
use std::alloc::Global;
use std::process::Abort;

// With `c` always answered by `y`, the case asks this and binds this.
fn asks_and_binds(rt: &impl Abort, alloc: Global, case: &str, asked: &str, bound: &str) {
    let mut host = Recorder::new(alloc, always_y(rt, alloc));
    binds(rt, alloc, &mut host, case, bound);
    same(rt, case, &questions_of(rt, alloc, &host), asked);
    drop(host);
}

// A host that answers `c` with `y`.
fn always_y(rt: &impl Abort, alloc: Global) -> ScriptedHost {
    let mut always = Vec::new(alloc);
    let pushed = always.push((owned(rt, alloc, "c"), owned(rt, alloc, "y")));
    pushed.expect(rt, "no memory");
    ScriptedHost::new(
        always,
        Vec::new(alloc),
        Vec::new(alloc),
        Vec::new(alloc),
        Vec::new(alloc),
    )
}

// With this host, the case binds this.
fn binds<H: Host>(rt: &impl Abort, alloc: Global, host: &mut H, case: &str, bound: &str) {
    let arena = Bump::new(alloc);
    let lines = parse_lines(alloc, &arena, case.as_bytes()).expect(rt, "no memory");
    let described = build(alloc, &lines).expect(rt, "no case");
    let parent = Scope::root(alloc, &[]).expect(rt, "no memory");
    let reported = reported_by_run(rt, alloc, host, described, &parent);
    drop(parent);
    same(rt, case, &reported, bound);
}

// The line before the last of a case, what it asks, and what it binds.
const ORDERS: &[(&str, &str, &str)] = &[
    (
        "order a b d",
        "? command \"c\"\n",
        "a = \"x\"\nb = \"y\"\nd = \"xy\"\n",
    ),
    (
        "order b a d",
        "? command \"c\"\n",
        "a = \"x\"\nb = \"y\"\nd = \"xy\"\n",
    ),
    ("only a", "", "a = \"x\"\n"),
];

#[test]
fn two_orders(rt: HostRuntime) {
    for (order, asked, bound) in ORDERS {
        sum_asks_and_binds(&rt, rt.alloc(), order, asked, bound);
    }
}

// With this line before the last, a text, a command and their sum ask this and bind this.
fn sum_asks_and_binds(rt: &impl Abort, alloc: Global, order: &str, asked: &str, bound: &str) {
    let case = format!(in alloc;
        "str x\nassign a\ncmd c\nassign b\nvar a\nvar b\nadd\nassign d\n{order}\nrun"
    ).expect(rt, "no memory");
    asks_and_binds(rt, alloc, &case, asked, bound);
}

// The line before the last of a case, and what it binds if commands are answered from the frames.
const FRAMES: &[(&str, &str)] = &[
    ("order a b", "a = \"x\"\nb = \"1\"\n"),
    ("order b a", "a = \"x\"\nb = \"0\"\n"),
];

// A host that inspects the frames may answer otherwise in another order.
#[test]
fn frames_that_matter(rt: HostRuntime) {
    for (order, bound) in FRAMES {
        binds_by_frames(&rt, rt.alloc(), order, bound);
    }
}

// With this line before the last, a text and a command bind this, if each command is answered by the number of bindings
// that it is shown.
fn binds_by_frames(rt: &impl Abort, alloc: Global, order: &str, bound: &str) {
    let case = format!(in alloc; "str x\nassign a\ncmd c\nassign b\n{order}\nrun").expect(
        rt,
        "no memory",
    );
    binds(rt, alloc, &mut frame_host(alloc), &case, bound);
}
