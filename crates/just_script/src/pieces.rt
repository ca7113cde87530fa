// A reader and a writer that transfer pieces, and fail.

use std::alloc::Global;
use std::io::{self, Read, Write};

/// Gives a text in pieces, and fails after some reads. Counts the reads after one that failed or gave nothing.
#[derive(Debug, Drop)]
pub struct PieceReader<'text> {
    text: &'text [u8],
    pub piece: usize,
    pub good_reads: usize,
    has_ended: bool,
    pub reads_after: usize,
}

impl<'text> PieceReader<'text> {
    /// A reader that gives the whole text in one piece, and does not fail.
    pub fn whole(text: &'text [u8]) -> PieceReader<'text> {
        PieceReader {
            text,
            piece: usize::MAX,
            good_reads: usize::MAX,
            has_ended: false,
            reads_after: 0,
        }
    }
}

impl Read for PieceReader<'_> {
    fn read(&mut self, buf: &mut [u8]) -> io::Result<usize> {
        if self.has_ended {
            self.reads_after = self.reads_after.saturating_add(1);
        }
        if self.good_reads == 0 {
            self.has_ended = true;
            return Err(io::Error::from(io::ErrorKind::Interrupted));
        }
        self.good_reads -= 1;
        let count = self.piece.min(self.text.len()).min(buf.len());
        let (piece, rest) = self.text.split_at(count);
        buf[..count].copy_from_slice(piece);
        self.text = rest;
        self.has_ended = count == 0;
        Ok(count)
    }
}

/// Takes some bytes per write, and fails after some writes or when it is flushed. Counts the flushes, and the writes
/// after a flush or after a write that failed or took nothing.
#[derive(Debug, Drop)]
pub struct PieceWriter {
    pub written: Vec<u8>,
    pub piece: usize,
    pub good_writes: usize,
    pub can_flush: bool,
    has_ended: bool,
    pub writes_after: usize,
    pub flushes: usize,
}

impl PieceWriter {
    /// A writer that takes everything.
    pub fn whole(alloc: Global) -> PieceWriter {
        PieceWriter {
            written: Vec::new(alloc),
            piece: usize::MAX,
            good_writes: usize::MAX,
            can_flush: true,
            has_ended: false,
            writes_after: 0,
            flushes: 0,
        }
    }
}

impl Write for PieceWriter {
    fn write(&mut self, buf: &[u8]) -> io::Result<usize> {
        if self.has_ended {
            self.writes_after = self.writes_after.saturating_add(1);
        }
        if self.good_writes == 0 {
            self.has_ended = true;
            return Err(io::Error::from(io::ErrorKind::Interrupted));
        }
        self.good_writes -= 1;
        let count = self.piece.min(buf.len());
        self.written.extend_from_slice(&buf[..count])?;
        self.has_ended = count == 0;
        Ok(count)
    }

    fn flush(&mut self) -> io::Result<()> {
        self.has_ended = true;
        self.flushes = self.flushes.saturating_add(1);
        if self.can_flush {
            return Ok(());
        }
        Err(io::Error::from(io::ErrorKind::Interrupted))
    }
}
