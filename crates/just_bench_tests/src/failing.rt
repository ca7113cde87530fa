// Cases whose questions fail from some question on.

use crate::stored_case::STORED_CASE;
use crate::texts::{ends, same_bytes};
use just_bench::program::run_failing;
use just_script::fail_at::How;
use std::alloc::Global;
use std::process::Abort;

// Commands and an existence check, which has no fault.
const MIXED: &str = "str p\ncall path_exists 1\nassign a\ncmd c\nassign b\nreply x\nrun\n";

// Two runs, each with a host of its own that fails.
const TWO_RUNS: &str = "cmd p\nassign a\nstr x\nassign b\nreply 1\nblocks b a\n";

// A case, how many questions are passed on, how the others fail, the answer, and the status.
const ROWS: &[(&str, usize, How, &str, u8)] = &[
    (
        STORED_CASE,
        0,
        How::Fault,
        "? command \"one\"\nrefused 2 Backtick \"broken\"\n",
        2,
    ),
    (
        STORED_CASE,
        1,
        How::Fault,
        "? command \"one\"\n? command \"two\"\nrefused 2 Backtick \"broken\"\n",
        2,
    ),
    (
        STORED_CASE,
        1,
        How::Memory,
        "? command \"one\"\n? command \"two\"\nrefused 12 OutOfMemory\n",
        2,
    ),
    (
        STORED_CASE,
        2,
        How::Memory,
        "? command \"one\"\n? command \"two\"\na = \"x\"\n",
        0,
    ),
    (
        MIXED,
        0,
        How::Fault,
        "? exists \"/work/p\"\n? command \"c\"\nrefused 2 Backtick \"broken\"\n",
        2,
    ),
    (
        MIXED,
        0,
        How::Memory,
        "? exists \"/work/p\"\nrefused 12 OutOfMemory\n",
        2,
    ),
    (
        TWO_RUNS,
        0,
        How::Memory,
        "order a b\nblock a\n? command \"p\"\nrefused 12 OutOfMemory\n",
        2,
    ),
    (
        TWO_RUNS,
        1,
        How::Memory,
        "order a b\nblock a\n? command \"p\"\nblock b\norder b a\nblock b\nblock a\n? command \"p\"\nsame\n",
        0,
    ),
    ("cmd c\nassign a\nconst\n", 0, How::Memory, "a open\n", 0),
    ("add\n", 0, How::Memory, "bad line 1\n", 1),
];

#[test]
fn questions_that_fail(rt: HostRuntime) {
    for (case, passed, how, answer, status) in ROWS {
        answers_failing(&rt, rt.alloc(), case, (*passed, *how), answer, *status);
    }
}

// A case whose questions fail in this way after this many has this answer and this status.
fn answers_failing(
    rt: &impl Abort,
    alloc: Global,
    case: &str,
    (passed, how): (usize, How),
    answer: &str,
    status: u8,
) {
    let mut out = Vec::new(alloc);
    let mut reader = case.as_bytes();
    let answered = run_failing(alloc, &mut reader, &mut out, passed, how);
    ends(rt, answer, answered, status);
    same_bytes(rt, answer, &out, answer.as_bytes());
}
