// Readers and writers that fail, how often they are called, and what is read and written for long and endless cases.

use crate::stored_case::{STORED_ANSWER, STORED_CASE};
use crate::texts::{ends, is_so, same_bytes};
use just_bench::program::run;
use just_bench::stream::{StreamError, read_case, write_text};
use just_script::pieces::{PieceReader, PieceWriter};
use std::alloc::Global;
use std::io::{self, Read};
use std::process::Abort;

// The largest size of a case, in bytes.
const LONGEST: usize = 1_000_000;

// The stored case; each read gives this many bytes.
fn stored_in_pieces<'t>(piece: usize) -> PieceReader<'t> {
    let mut case = PieceReader::whole(STORED_CASE.as_bytes());
    case.piece = piece;
    case
}

// A writer; each write takes this many bytes.
fn writer_of_pieces(alloc: Global, piece: usize) -> PieceWriter {
    let mut out = PieceWriter::whole(alloc);
    out.piece = piece;
    out
}

// A case is answered with this status. It is not read again after a read that fails or gives nothing. Nothing is
// written after a flush or after a write that fails or takes nothing. The writer is flushed this many times.
fn answers(
    rt: &impl Abort,
    alloc: Global,
    of: &str,
    (case, out): (&mut PieceReader, &mut PieceWriter),
    status: u8,
    flushes: usize,
) {
    let answered = run(alloc, case, out);
    ends(rt, of, answered, status);
    assert_eq!(rt;
        [case.reads_after, out.writes_after, out.flushes],
        [0, 0, flushes],
        "{of}"
    );
}

// The stored case is answered if each read and each write transfers this many bytes.
fn runs_in_pieces(rt: &impl Abort, alloc: Global, piece: usize) {
    let mut case = stored_in_pieces(piece);
    let mut out = writer_of_pieces(alloc, piece);
    answers(rt, alloc, "in pieces", (&mut case, &mut out), 0, 1);
    same_bytes(rt, "in pieces", &out.written, STORED_ANSWER.as_bytes());
}

#[test]
fn streams_in_pieces(rt: HostRuntime) {
    for piece in [1, 3, 10_000] {
        runs_in_pieces(&rt, rt.alloc(), piece);
    }
}

#[test]
fn stops_reading_after_a_failed_read(rt: HostRuntime) {
    let reads = STORED_CASE.len() + 1;
    for good_reads in 0..reads + 3 {
        ends_at_a_failed_read(&rt, rt.alloc(), good_reads, reads);
    }
}

// After this many good reads, fewer than the stored case takes, nothing is written, and nothing is read after the first
// read that failed.
fn ends_at_a_failed_read(rt: &impl Abort, alloc: Global, good_reads: usize, reads: usize) {
    let mut case = stored_in_pieces(1);
    case.good_reads = good_reads;
    let mut out = PieceWriter::whole(alloc);
    let fails = good_reads < reads;
    let (status, flushes) = if fails { (1, 0) } else { (0, 1) };
    answers(
        rt,
        alloc,
        "a failed read",
        (&mut case, &mut out),
        status,
        flushes,
    );
    assert_eq!(rt; out.written.is_empty(), fails);
}

#[test]
fn ends_at_a_failed_write(rt: HostRuntime) {
    let writes = STORED_ANSWER.len();
    for good_writes in 0..writes + 3 {
        writes_no_further(&rt, rt.alloc(), good_writes, writes);
    }
}

// After this many good writes, fewer than the stored answer takes, nothing more is written.
fn writes_no_further(rt: &impl Abort, alloc: Global, good_writes: usize, writes: usize) {
    let mut case = stored_in_pieces(usize::MAX);
    let mut out = writer_of_pieces(alloc, 1);
    out.good_writes = good_writes;
    let (status, flushes) = if good_writes < writes { (1, 0) } else { (0, 1) };
    answers(
        rt,
        alloc,
        "a failed write",
        (&mut case, &mut out),
        status,
        flushes,
    );
    assert_eq!(rt; out.written.len(), good_writes.min(writes));
    let is_front = STORED_ANSWER.as_bytes().starts_with(&out.written);
    is_so(rt, "the front of the answer", is_front);
}

#[test]
fn ends_at_a_write_that_takes_nothing(rt: HostRuntime) {
    let mut case = stored_in_pieces(usize::MAX);
    let mut out = writer_of_pieces(rt.alloc(), 0);
    let of = "a write that takes nothing";
    answers(&rt, rt.alloc(), of, (&mut case, &mut out), 1, 0);
    is_so(&rt, "nothing is written", out.written.is_empty());
}

// Cases, their answers, and their statuses: one that is answered, one that assigns nothing, one that is refused, and a
// bad one.
const FLUSHED: &[(&str, &str, u8)] = &[
    (STORED_CASE, STORED_ANSWER, 0),
    ("run", "", 0),
    (
        "list 0\nassert\nassign a\nrun",
        "refused 1 Assert \"`[]`\"\n",
        2,
    ),
    ("add", "bad line 1\n", 1),
];

// An answer is flushed once, after all of it is written. If the flush fails, the status is 1, and everything else is
// written as usual.
#[test]
fn flushes_once(rt: HostRuntime) {
    for (case, answer, status) in FLUSHED {
        is_flushed(&rt, rt.alloc(), case, answer, true, *status);
        is_flushed(&rt, rt.alloc(), case, answer, false, 1);
    }
}

fn is_flushed(
    rt: &impl Abort,
    alloc: Global,
    text: &str,
    answer: &str,
    can_flush: bool,
    status: u8,
) {
    let mut case = PieceReader::whole(text.as_bytes());
    let mut out = writer_of_pieces(alloc, 3);
    out.can_flush = can_flush;
    answers(rt, alloc, text, (&mut case, &mut out), status, 1);
    same_bytes(rt, text, &out.written, answer.as_bytes());
}

// Gives `#` without end, and counts the bytes.
#[derive(Drop)]
struct EndlessReader {
    given: usize,
}

impl Read for EndlessReader {
    fn read(&mut self, buf: &mut [u8]) -> io::Result<usize> {
        buf.fill(b'#');
        self.given = self.given.saturating_add(buf.len());
        Ok(buf.len())
    }
}

#[test]
fn reads_an_endless_case_to_its_limit(rt: HostRuntime) {
    let mut out = PieceWriter::whole(rt.alloc());
    let mut case = EndlessReader { given: 0 };
    let answered = run(rt.alloc(), &mut case, &mut out);
    ends(&rt, "an endless case", answered, 1);
    is_so(
        &rt,
        "nothing is written",
        out.written.is_empty() && out.flushes == 0,
    );
    let is_limited = case.given > LONGEST && case.given < LONGEST + 10_000;
    is_so(&rt, "the limit", is_limited);
}

// Blank lines and `run`, this many bytes in all.
fn long_case(rt: &impl Abort, alloc: Global, length: usize) -> Vec<u8> {
    let blank = vec![in alloc; b'\n'; length.saturating_sub(3)];
    let mut case = blank.expect(rt, "no memory");
    let added = case.extend_from_slice(b"run");
    added.expect(rt, "no memory");
    case
}

// The longest case is read and answered; one that is a byte longer is not.
#[test]
fn longest_case(rt: HostRuntime) {
    for (length, status, flushes) in [(1_000_000, 0, 1), (1_000_001, 1, 0)] {
        long_case_ends(&rt, rt.alloc(), length, status, flushes);
    }
}

// A case of this many bytes is answered with this status, and nothing is written.
fn long_case_ends(rt: &impl Abort, alloc: Global, length: usize, status: u8, flushes: usize) {
    let case = long_case(rt, alloc, length);
    let mut reader = PieceReader::whole(&case);
    let mut out = PieceWriter::whole(alloc);
    answers(
        rt,
        alloc,
        "a long case",
        (&mut reader, &mut out),
        status,
        flushes,
    );
    is_so(rt, "nothing is written", out.written.is_empty());
    let is_read = read_case(alloc, &mut PieceReader::whole(&case)).is_ok();
    is_so(rt, "a long case", is_read == (status == 0));
}

#[test]
fn reads_and_writes(rt: HostRuntime) {
    reads(&rt, rt.alloc());
    writes(&rt, rt.alloc());
}

fn reads(rt: &impl Abort, alloc: Global) {
    let bytes = read_case(alloc, &mut PieceReader::whole(b"a case")).expect(rt, "no case");
    same_bytes(rt, "a case", &bytes, b"a case");
    let mut endless = EndlessReader { given: 0 };
    let too_long = read_case(alloc, &mut endless);
    is_so(
        rt,
        "too long",
        matches!(too_long, Err(StreamError::TooLong)),
    );
    let mut failing = PieceReader::whole(b"a case");
    failing.good_reads = 1;
    let failed = read_case(alloc, &mut failing);
    is_so(rt, "failed", matches!(failed, Err(StreamError::Failed)));
}

fn writes(rt: &impl Abort, alloc: Global) {
    let mut out = PieceWriter::whole(alloc);
    write_text(&mut out, "an ").expect(rt, "no answer");
    write_text(&mut out, "answer").expect(rt, "no answer");
    same_bytes(rt, "an answer", &out.written, b"an answer");
    assert_eq!(rt; out.flushes, 2);
}
