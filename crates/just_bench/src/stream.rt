// Reads cases, and writes their output.

ghost use Rattle.std.specs.Prelude.{IfOk, IfSome, OnErr, OnOk, length, vec_len, ◌<◌, ◌≡◌, ◌≤◌};
ghost use Rattle.std.specs.Io.KnownBytes.{Appends};
ghost use Rattle.just_bench.specs.Prelude.{AppendsFront, Failed, Wanted};

use just_syntax::out_of_memory::OutOfMemory;
use just_syntax::unstyled::write_unstyled;
use std::alloc::{AllocError, Global};
use std::error::Error;
use std::fmt;
use std::io::{self, Read, Write};

/// The maximum number of bytes of a case.
pub const LIMIT: usize = 1_000_000;

/// Why a case was not read, or an answer not written.
#[derive(Debug, Drop)]
pub enum StreamError {
    /// A read or a write failed, or a write took no byte.
    Failed,
    /// An allocation failed.
    OutOfMemory,
    /// The case has more than `LIMIT` bytes.
    TooLong,
}

/// Writes `read or write failed`, `out of memory`, or `case has more than 1000000 bytes`.
impl fmt::Display for StreamError {
    ghost use Rattle.std.specs.Prelude.{Some};
    ghost use Rattle.just_bench.specs.Said.{stream_error_text};

    ghost output = { λ error. Some (stream_error_text error) };

    ghost styled_output = { λ error _. Some (stream_error_text error) };

    fn fmt<W: fmt::Write>(&self, f: &mut fmt::Formatter<W>) -> fmt::Result {
        match self {
            StreamError::Failed => f.write_str("read or write failed"),
            StreamError::OutOfMemory => write_unstyled(f, OutOfMemory),
            StreamError::TooLong => {
                write_unstyled(f, format_args!("case has more than {LIMIT} bytes"))
            }
        }
    }
}

impl Error for StreamError {}

impl From<AllocError> for StreamError {
    ghost from_gives = { λ _ e. e ≡ Wanted };

    fn from(_error: AllocError) -> Self {
        StreamError::OutOfMemory
    }
}

impl From<OutOfMemory> for StreamError {
    ghost from_gives = { λ _ e. e ≡ Wanted };

    fn from(_error: OutOfMemory) -> Self {
        StreamError::OutOfMemory
    }
}

impl From<io::Error> for StreamError {
    ghost from_gives = { λ _ e. e ≡ Failed };

    fn from(_error: io::Error) -> Self {
        StreamError::Failed
    }
}

/// All bytes of a reader. It stops reading after a read that fails or returns no byte, or once there are more than
/// `LIMIT`.
///
/// # Errors
///
/// `Failed`, if a read fails; `TooLong`, if there are more than `LIMIT` bytes; `OutOfMemory`, if an allocation fails.
/// The bytes read so far are dropped.
pub fn read_case<R: Read>(alloc: Global, reader: &mut R) -> Result<Vec<u8>, StreamError>
    ensures within { IfOk result (λ bytes. vec_len bytes ≤ LIMIT) }
    ensures whole { IfOk result (λ bytes. IfSome (R.remaining reader.old) (λ rest. bytes.items ≡ rest)) }
    ensures too_long { result ≡ Err StreamError.TooLong
        → IfSome (R.remaining reader.old) (λ rest. LIMIT < length rest) }
{
    let mut bytes = Vec::new(alloc);
    // Most cases are shorter.
    let mut buffer = [0u8; 2048];
    while bytes.len() <= LIMIT {
        let count = reader.read(&mut buffer)?;
        if count == 0 {
            return Ok(bytes);
        }
        bytes.extend_from_slice(&buffer[..count])?;
    }
    Err(StreamError::TooLong)
}

/// Writes a whole text, and flushes. It allocates nothing.
///
/// # Errors
///
/// `Failed`, if a write fails or takes no byte, or if the flush fails. The part written by then remains: a prefix of
/// the text.
pub fn write_text<W: Write>(writer: &mut W, text: &str) -> Result<(), StreamError>
    ensures whole { OnOk result (Appends (W.contents writer.old) (W.contents writer.new) text.now) }
    ensures part { OnErr result (AppendsFront (W.contents writer.old) (W.contents writer.new) text.now) }
{
    let mut rest = text.as_bytes();
    while !rest.is_empty() {
        let count = writer.write(rest)?;
        if count == 0 {
            return Err(StreamError::Failed);
        }
        rest = &rest[count..];
    }
    writer.flush()?;
    Ok(())
}
