// Cases that are cut after a byte.

use crate::difference::Difference;
use crate::evaluated::answered;
use crate::stored_case::StoredCase;
use crate::tally::Tally;
use just_syntax::out_of_memory::OutOfMemory;
use std::alloc::Global;

/// Cuts a case after each byte. Returns the first cut whose answer is neither a bad line at the cut nor that of a whole
/// case.
///
/// # Errors
///
/// `OutOfMemory` if an allocation fails.
pub fn check_cuts(
    alloc: Global,
    tally: &mut Tally,
    stored: &StoredCase,
) -> Result<Option<Difference>, OutOfMemory> {
    let case = stored.case;
    for length in 0..case.len() {
        if tally.count(!is_cut_expected(alloc, stored, &case[..length])?) {
            return Ok(Some(Difference::Cut { length }));
        }
    }
    Ok(None)
}

// Whether the rest of a cut case has an answer that the stored answer allows.
fn is_cut_expected(alloc: Global, stored: &StoredCase, left: &[u8]) -> Result<bool, OutOfMemory> {
    let (status, answer) = answered(alloc, left);
    if status != 1 {
        return is_whole(alloc, stored, left, status, &answer);
    }
    if stored.status == 1 && answer.as_slice() == stored.answer {
        return Ok(true);
    }
    is_bad_at_end(alloc, left, &answer)
}

// Whether an answer reports as bad the line in which a text ends, or the line after it.
fn is_bad_at_end(alloc: Global, left: &[u8], answer: &[u8]) -> Result<bool, OutOfMemory> {
    let mut last = 1usize;
    for byte in left {
        if *byte == b'\n' {
            last = last.saturating_add(1);
        }
    }
    let expected = format!(in alloc; "bad line {last}\n")?;
    if answer == expected.as_bytes() {
        return Ok(true);
    }
    let next = last.saturating_add(1);
    let expected = format!(in alloc; "bad line {next}\n")?;
    Ok(!left.is_empty() && !left.ends_with(b"\n") && answer == expected.as_bytes())
}

// Whether an answer is that of a whole case. The case must have the same answer with a newline after it, since its last
// line may lack one. If the uncut case is not bad and evaluates in one order, the answer must also be that case's.
fn is_whole(
    alloc: Global,
    stored: &StoredCase,
    left: &[u8],
    status: u8,
    answer: &[u8],
) -> Result<bool, OutOfMemory> {
    let mut whole = Vec::new(alloc);
    whole.extend_from_slice(left)?;
    whole.push(b'\n')?;
    let (status_again, again) = answered(alloc, &whole);
    if status_again != status || again.as_slice() != answer {
        return Ok(false);
    }
    if stored.status == 1 || is_in_two_orders(left) {
        return Ok(true);
    }
    Ok(status == stored.status && answer == stored.answer)
}

// Whether a line of a text begins with `blocks `. A cut of that line may drop names.
fn is_in_two_orders(text: &[u8]) -> bool {
    for line in text.split(|byte| *byte == b'\n') {
        if line.starts_with(b"blocks ") {
            return true;
        }
    }
    false
}
