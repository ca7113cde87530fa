// Assignments of a module in a run: the environment of their commands, and the flags of their bindings.

use crate::bindings::report_frame;
use crate::compared::same;
use crate::recipes::around::Around;
use crate::recipes::failing::NEVER;
use crate::recipes::hosts::ReportingHost;
use bumpalo::Bump;
use just_case_reader::line::{Line as CaseLine, parse_lines};
use just_value::scope::Scope;
use std::alloc::Global;
use std::process::Abort;

// A case, whether the module's setting exports all its variables, and what its assignments ask and bind.
const ASSIGNMENTS: &[(&str, bool, &str)] = &[
    ("run", false, " ()"),
    // Assignments have no environment, and neither do the bodies that they call.
    (
        "cmd who\nfun g\ncall g 0\nassign a\nrun",
        false,
        "? who () () (); (a = \"<who>\")",
    ),
    // An assignment's flags are those of its binding, and commands are shown them. The setting exports each variable.
    (
        "str x\nassign a\nstr y\nexport b\nstr z\nassign eager-c\nstr z\nexport private-d\ncmd e\nassign e\nrun",
        false,
        "? e (a = \"x\"export b = \"y\"eager eager-c = \"z\"export private private-d = \"z\") (); \
        (a = \"x\"export b = \"y\"eager eager-c = \"z\"export private private-d = \"z\"e = \"<e>\")",
    ),
    (
        "str x\nassign a\nstr y\nexport b\nstr z\nassign eager-c\nstr z\nassign private-d\nrun",
        true,
        " (export a = \"x\"export b = \"y\"export eager eager-c = \"z\"export private private-d = \"z\")",
    ),
    // A parameter of a function has no flags, even if the setting exports all variables of the module.
    (
        "cmd who\nfun f n\nstr x\ncall f 1\nexport eager-a\nrun",
        true,
        "? who (n = \"x\") () (); (export eager eager-a = \"<who>\")",
    ),
];

#[test]
fn assignments_in_a_run(rt: HostRuntime) {
    for (case, exports_all, wanted) in ASSIGNMENTS {
        let mut host = ReportingHost::new(rt.alloc(), NEVER);
        report_assignments(&rt, rt.alloc(), &mut host, case, *exports_all);
        same(&rt, case, &host.reported, wanted);
        drop(host);
    }
}

// Reports what the assignments of a case ask and bind.
fn report_assignments(
    rt: &impl Abort,
    alloc: Global,
    host: &mut ReportingHost,
    case: &str,
    exports_all: bool,
) {
    let arena = Bump::new(alloc);
    let lines = parse_lines(alloc, &arena, case.as_bytes()).expect(rt, "no memory");
    evaluate(rt, alloc, &lines, host, exports_all);
    drop(lines);
}

fn evaluate<'src>(
    rt: &impl Abort,
    alloc: Global,
    lines: &'src [CaseLine<'src>],
    host: &mut ReportingHost,
    exports_all: bool,
) {
    let mut around = Around::of_lines(rt, alloc, lines);
    if exports_all {
        around.export_all();
    }
    let outcome = Around::evaluate(alloc, host, &around);
    match &outcome {
        Ok(scope) => report_own(scope, rt, host),
        Err(_error) => host.report(rt, "refused"),
    }
    drop(outcome);
    drop(around);
}

// Reports the own bindings of a scope.
fn report_own(scope: &Scope, rt: &impl Abort, host: &mut ReportingHost) {
    report_frame(scope.frame(), &mut host.reported).expect(rt, "no memory");
}
