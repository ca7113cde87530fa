// What may occur in an expression.

use crate::name::Name;
use crate::number::Number;
use crate::token::Token;

/// A command, a call or a variable that occurs in an expression. It borrows the text of a command from the expression.
#[derive(Clone, Copy, Debug, PartialEq)]
pub enum Occurrence<'src, 'a> {
    /// A command in backticks, with its text.
    Command {
        contents: &'a str,
        token: Token<'src>,
    },
    /// A call of a name with this many arguments.
    Call {
        name: Name<'src>,
        arguments: usize,
    },
    /// A variable with its number, if it has one.
    Variable {
        name: Name<'src>,
        number: Option<Number>,
    },
}
