// Functions that a case defines, with outer bindings, and the frames that their commands are shown.

use crate::case_run::reported_by_run;
use crate::evaluations::{answers_outside_nothing, outer};
use crate::frame_host::frame_host;
use crate::texts::same;
use bumpalo::Bump;
use just_case_reader::case::build;
use just_case_reader::line::parse_lines;
use just_value::value::Value;
use std::alloc::Global;
use std::process::Abort;

// A module with a parameter that is bound outside is not resolved.
#[test]
fn parameter_bound_outside(rt: HostRuntime) {
    answers_outside_nothing(
        &rt,
        rt.alloc(),
        "var o\nfun f o\nstr x\ncall f 1\nassign a\nrun",
        "unresolved\na = \"x\"\n",
        0,
    );
}

// With `o` bound outside to no element, a case's commands are shown frames with these bindings.
fn shows_frames(rt: &impl Abort, alloc: Global, case: &str, shown: &str) {
    let arena = Bump::new(alloc);
    let lines = parse_lines(alloc, &arena, case.as_bytes()).expect(rt, "no memory");
    let described = build(alloc, &lines).expect(rt, "no case");
    let parent = outer(rt, alloc, "o", Value::new(alloc));
    let mut host = frame_host(alloc);
    reported_by_run(rt, alloc, &mut host, described, &parent);
    drop(parent);
    same(rt, case, &host.commands.shown, shown);
}

// A case whose command is asked while a call is pending, and the frames that it is shown.
const PENDING: &[(&str, &str)] = &[
    // The frames of the called body, of its caller and of the module, and the one outside.
    (
        "var o\nassign p\ncmd who\nfun g\ncall g 0\nfun f n\nstr z\ncall f 1\nassign a\nonly a\nrun",
        "()(n = \"z\")()(o = [])",
    ),
    // An argument is evaluated in the frames of the caller.
    (
        "var o\nassign p\nvar n\nfun f n\ncmd who\ncall f 1\nassign a\nrun",
        "(p = [])(o = [])",
    ),
];

#[test]
fn frames_of_pending_calls(rt: HostRuntime) {
    for (case, shown) in PENDING {
        shows_frames(&rt, rt.alloc(), case, shown);
    }
}
