// The stored case, and its prefixes.

use crate::texts::{answers, is_so};
use just_bench::program::run;
use std::alloc::Global;
use std::process::Abort;

// The case stored with the program, and its answer.
pub(crate) const STORED_CASE: &str = "cmd one\ncmd two\nand\nassign a\nreply\nreply x\nrun\n";

pub(crate) const STORED_ANSWER: &str = "? command \"one\"\n? command \"two\"\na = \"x\"\n";

// The same without its last line.
const ENDLESS: &[u8] = b"cmd one\ncmd two\nand\nassign a\nreply\nreply x\n";

// A case is bad at one of its lines.
fn is_bad(rt: &impl Abort, alloc: Global, case: &[u8]) {
    let mut reader = case;
    let mut out = Vec::new(alloc);
    let answered = run(alloc, &mut reader, &mut out);
    assert_eq!(rt; answered, 1, "{}", case.len());
    is_so(rt, "a bad line", out.starts_with(b"bad line "));
}

// Cut after any byte, the stored case runs as a whole or is bad at the line that was cut.
#[test]
fn stored_case_cut(rt: HostRuntime) {
    let alloc = rt.alloc();
    let case = STORED_CASE.as_bytes();
    let whole = case.len().saturating_sub(1);
    for length in 0..whole {
        is_bad(&rt, alloc, &case[..length]);
    }
    answers(&rt, alloc, "whole", &case[..whole], STORED_ANSWER, 0);
    answers(&rt, alloc, "endless", ENDLESS, "bad line 7\n", 1);
}
