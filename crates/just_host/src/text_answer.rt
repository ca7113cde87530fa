// Answers to questions for a text.

/// A host's answer to a question for a text.
#[derive(Debug, Drop)]
pub enum TextAnswer {
    Text(String),
    /// There is none.
    Absent,
    /// There is something, but it is not text. This is a readable form of it.
    NotText(String),
    /// It could not be determined, for this reason.
    Fault(String),
    /// There was no memory for it.
    OutOfMemory,
}
