// A module of many assignments, each of which reads the one before it.

use crate::edits::changed_numbers;
use just_value::scope::Scope;
use std::alloc::Global;
use std::test::Fail;

const COUNT: usize = 1000;

// Assignments in a row, with these texts as the first and the last.
fn row(alloc: Global, first: &str, last: &str) -> Result<String, Fail> {
    let mut text = format!(in alloc; "str {first}\nassign v0\n")?;
    for place in 1..COUNT {
        let before = place - 1;
        let lines = format!(in alloc; "var v{before}\nassign v{place}\n")?;
        text.push_str(&lines)?;
    }
    let end = format!(in alloc; "str {last}\nassign w\nrun")?;
    text.push_str(&end)?;
    Ok(text)
}

// How many variables an edit of such a row changes.
fn count(alloc: Global, before: &str, after: &str) -> Result<usize, Fail> {
    let outer = Scope::root(alloc, &[])?;
    let numbers = changed_numbers(alloc, before, after, &outer);
    drop(outer);
    Ok(numbers?.len())
}

#[test]
fn long_row(rt: HostRuntime) -> Result<(), Fail> {
    let alloc = rt.alloc();
    let before = row(alloc, "x", "y")?;
    assert_eq!(rt; count(alloc, &before, &before)?, 0);
    let first = row(alloc, "z", "y")?;
    assert_eq!(rt; count(alloc, &before, &first)?, COUNT);
    let last = row(alloc, "x", "z")?;
    assert_eq!(rt; count(alloc, &before, &last)?, 1);
    Ok(())
}
