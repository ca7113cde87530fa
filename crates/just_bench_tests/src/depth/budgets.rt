// The stack budget of a host, alone and inside other hosts.

use super::is_stopped;
use super::silent::Silent;
use super::towers::tower;
use just_host::recorder::Recorder;
use just_script::fail_at::{FailAt, How};
use just_syntax::out_of_memory::OutOfMemory;
use std::alloc::Global;
use std::process::Abort;

// A stack budget in bytes, and whether it is too small for a hundred levels.
const BUDGETS: &[(usize, bool)] = &[(0, true), (1_000, true), (1_048_576, false)];

#[test]
fn budget_of_the_host(rt: HostRuntime) {
    let case = hundred_levels(rt.alloc()).expect(&rt, "no memory");
    for (budget, is_small) in BUDGETS {
        stops(&rt, rt.alloc(), &case, *budget, *is_small);
    }
}

// A case is stopped, or not, by a host of this budget, alone and inside others.
fn stops(rt: &impl Abort, alloc: Global, case: &str, budget: usize, is_small: bool) {
    let mut alone = Silent { budget };
    assert_eq!(rt;
        is_stopped(rt, alloc, &mut alone, case, 100),
        is_small,
        "alone: {budget}"
    );
    let mut recorder = Recorder::new(alloc, Silent { budget });
    assert_eq!(rt;
        is_stopped(rt, alloc, &mut recorder, case, 100),
        is_small,
        "recorded: {budget}"
    );
    let mut failing = FailAt::new(Silent { budget }, 0, How::Fault);
    assert_eq!(rt;
        is_stopped(rt, alloc, &mut failing, case, 100),
        is_small,
        "failing: {budget}"
    );
}

fn hundred_levels(alloc: Global) -> Result<String, OutOfMemory> {
    let mut case = tower(alloc, ("", "group\n"), 100, "str x\n")?;
    case.push_str("assign a\nrun\n")?;
    Ok(case)
}
