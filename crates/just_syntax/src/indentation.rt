// The indentation of recipe lines.

/// One level of indentation.
#[derive(Clone, Copy, Debug, PartialEq, Eq)]
pub enum Indentation {
    /// This many spaces.
    Spaces(u64),
    Tabs,
}
