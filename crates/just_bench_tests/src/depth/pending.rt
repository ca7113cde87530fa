// Calls that are pending, a form around each: the stack budget is that of all bodies together, whatever the limit.

use super::is_stopped;
use super::silent::Silent;
use super::towers::{FORMS, tower};
use just_host::host::STACK_BUDGET;
use just_syntax::out_of_memory::OutOfMemory;
use std::alloc::Global;

// A form around the call of a function that calls itself, in its body. A million calls may be pending.
#[test]
fn a_million_may_be_pending(rt: HostRuntime) {
    let alloc = rt.alloc();
    for form in FORMS {
        for levels in LEVELS {
            let case = calls_itself(alloc, *form, *levels).expect(&rt, "no memory");
            let mut host = Silent {
                budget: STACK_BUDGET,
            };
            let is_stopped = is_stopped(&rt, alloc, &mut host, &case, 1_000_000);
            assert!(rt; is_stopped, "{levels} of {}", form.1);
        }
    }
}

const LEVELS: &[usize] = &[0, 1, 100, 3_000];

fn calls_itself(alloc: Global, form: (&str, &str), levels: usize) -> Result<String, OutOfMemory> {
    let mut case = tower(alloc, form, levels, "call f 0\n")?;
    case.push_str("fun f\ncall f 0\nassign a\nrun\n")?;
    Ok(case)
}
