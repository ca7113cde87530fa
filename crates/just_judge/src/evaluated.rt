// The program's answers.

use just_bench::program::run;
use just_syntax::out_of_memory::OutOfMemory;
use std::alloc::Global;

/// Returns the status and the answer of the program for a case.
pub(crate) fn answered(alloc: Global, case: &[u8]) -> (u8, Vec<u8>) {
    let mut reader = case;
    let mut answer = Vec::new(alloc);
    let status = run(alloc, &mut reader, &mut answer);
    (status, answer)
}

/// Returns the program's answer to a case that ends with these lines. An answer that is not UTF-8 counts as empty.
pub(crate) fn evaluated(alloc: Global, described: &str, end: &str) -> Result<String, OutOfMemory> {
    let case = format!(in alloc; "{described}\n{end}")?;
    let (_, answer) = answered(alloc, case.as_bytes());
    Ok(String::from_utf8(answer).unwrap_or(String::new(alloc)))
}

/// Whether a text contains this line.
pub(crate) fn contains_line(text: &str, sought: &str) -> bool {
    for line in text.lines() {
        if line == sought {
            return true;
        }
    }
    false
}

/// The one of these names that equals the given one.
pub(crate) fn named<'text>(names: &[&'text str], sought: &str) -> Option<&'text str> {
    for name in names {
        if *name == sought {
            return Some(*name);
        }
    }
    None
}

/// The first of two runs in an answer to `blocks`.
pub(crate) fn first_run(blocks: &str) -> &str {
    let runs = blocks.strip_prefix("unresolved\n").unwrap_or(blocks);
    runs.split("\norder").next().unwrap_or(runs)
}
