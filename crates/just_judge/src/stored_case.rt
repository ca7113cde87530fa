// A case with its answer, as a file stores them.

ghost use Rattle.std.specs.Prelude.{◌≡◌, ◌≢◌, ◌<◌, ◌+◌, ◌∷◌, ℕ, List, length, None, IfSome};
ghost use Rattle.just_judge.specs.Stored.{UnseparatedTo, stored_file};

// The line break at the end of a case's last line, and the beginning of the status line.
const SEPARATOR: &[u8] = b"\n=> ";

/// A case with the status and the answer that it must give.
#[derive(Debug, Clone, Copy, PartialEq, Eq)]
pub struct StoredCase<'file> {
    /// The bytes of the case.
    pub case: &'file [u8],
    /// The exit status, 0 to 9.
    pub status: u8,
    /// What the program must print.
    pub answer: &'file [u8],
}

/// Cuts a file at the first line break that `=> ` follows. A digit and a line break must come next.
pub fn cut(file: &[u8]) -> Option<StoredCase<'_>>
    ensures together { IfSome result (λ stored. file.now ≡ stored_file stored.case.now stored.status
        stored.answer.now) }
    ensures digit { IfSome result (λ stored. stored.status < 10) }
    ensures first { IfSome result (λ stored. UnseparatedTo file.now (length stored.case.now)) }
    ensures none { result ≡ None → (case : List ℕ) (status : ℕ) (answer : List ℕ) → status < 10
        → UnseparatedTo file.now (length case) → file.now ≢ stored_file case status answer }
{
    for at in 0..file.len() {
        if let Some(after) = file[at..].strip_prefix(SEPARATOR) {
            let (status, answer) = status_line(after)?;
            let case = &file[..at];
            return Some(StoredCase {
                case,
                status,
                answer,
            });
        }
    }
    None
}

// The digit of the first line, and the bytes after that line.
fn status_line(bytes: &[u8]) -> Option<(u8, &[u8])>
    ensures cut { IfSome result (λ cut. bytes.now ≡ (48 + cut.0) ∷ 10 ∷ cut.1.now) }
    ensures digit { IfSome result (λ cut. cut.0 < 10) }
    ensures none { result ≡ None → (status : ℕ) (answer : List ℕ) → status < 10
        → bytes.now ≢ (48 + status) ∷ 10 ∷ answer }
{
    let (digit, rest) = bytes.split_first()?;
    let (line_break, answer) = rest.split_first()?;
    if digit.is_ascii_digit() && *line_break == b'\n' {
        Some((*digit - b'0', answer))
    } else {
        None
    }
}
