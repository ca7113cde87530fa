// From the text of a justfile to its tokens. It depends on `just_syntax`, whose tokens have a place, a text and a path.
#![tactic(auto)]

mod changes;
mod expression;
pub mod fault;
mod front;
pub mod inside;
pub mod kind;
pub mod laws;
pub mod lex_error;
pub mod lexeme;
mod lexer;
mod lexing;
mod line;
mod quote;
mod span;
mod step;

pub use lexing::lex;
