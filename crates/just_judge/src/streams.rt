// Cases whose reader or writer fails.

use crate::difference::Difference;
use crate::stored_case::StoredCase;
use crate::tally::Tally;
use just_bench::program::run;
use just_script::pieces::{PieceReader, PieceWriter};
use just_syntax::out_of_memory::OutOfMemory;
use std::alloc::Global;

// The largest number of pieces in which a case is read or an answer is written.
const PIECES: usize = 8;

/// Reads a case and writes its answer in pieces. Each read fails in turn, then each write, then the flush. Returns the
/// first failure after which the status is not 1, or something else is written than what precedes the failure.
///
/// # Errors
///
/// `OutOfMemory` if an allocation fails.
pub fn check_streams(
    alloc: Global,
    tally: &mut Tally,
    stored: &StoredCase,
) -> Result<Option<Difference>, OutOfMemory> {
    // One more read finds the end of the case.
    let piece = piece_of(stored.case);
    for reads in 0..pieces(stored.case, piece).saturating_add(1) {
        if tally.count(!ends_at_read(alloc, stored, piece, reads)) {
            return Ok(Some(Difference::Read { reads }));
        }
    }
    // After the last write the flush fails.
    let piece = piece_of(stored.answer);
    for writes in 0..pieces(stored.answer, piece).saturating_add(1) {
        if tally.count(!ends_at_write(alloc, stored, piece, writes)) {
            return Ok(Some(Difference::Write { writes }));
        }
    }
    Ok(None)
}

// The number of bytes in a piece of a text.
fn piece_of(text: &[u8]) -> usize {
    (text.len() / PIECES).saturating_add(1)
}

// The number of pieces of this length in a text.
fn pieces(text: &[u8], piece: usize) -> usize {
    text.chunks(piece.max(1)).count()
}

// Whether a case whose reads fail after this many ends with status 1 and without an answer.
fn ends_at_read(alloc: Global, stored: &StoredCase, piece: usize, reads: usize) -> bool {
    let mut answer = Vec::new(alloc);
    let mut reader = PieceReader::whole(stored.case);
    reader.piece = piece;
    reader.good_reads = reads;
    let status = run(alloc, &mut reader, &mut answer);
    status == 1 && answer.is_empty()
}

// Whether a case whose writes fail after this many ends with status 1 and with that part of its answer.
fn ends_at_write(alloc: Global, stored: &StoredCase, piece: usize, writes: usize) -> bool {
    let mut case = stored.case;
    let mut writer = PieceWriter::whole(alloc);
    writer.piece = piece;
    writer.good_writes = writes;
    writer.can_flush = false;
    let status = run(alloc, &mut case, &mut writer);
    let length = piece.saturating_mul(writes).min(stored.answer.len());
    status == 1 && writer.written.len() == length && stored.answer.starts_with(&writer.written)
}
