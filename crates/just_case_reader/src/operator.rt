// The operators that single words apply to expressions.

/// Operators on one expression.
#[derive(Clone, Copy, Debug, PartialEq, Eq)]
pub enum UnaryOperator {
    /// `root`: a join without a left side.
    Root,
    /// `not`
    Not,
    /// `group`: parentheses.
    Group,
    /// `assert`: an assertion without a message.
    Assert,
}

/// Operators on two expressions.
#[derive(Clone, Copy, Debug, PartialEq, Eq)]
pub enum BinaryOperator {
    /// `add`: a concatenation.
    Add,
    /// `join`
    Join,
    /// `cat`: a concatenation of lists.
    Cat,
    /// `and`
    And,
    /// `or`
    Or,
    /// `eq`
    Equal,
    /// `ne`
    NotEqual,
    /// `match`
    Match,
    /// `mismatch`
    Mismatch,
    /// `assertm`: an assertion, of a condition and a message.
    AssertMessage,
    /// `when`: a conditional without its last part, of a condition and a consequence.
    When,
}
