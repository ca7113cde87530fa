// From the tokens of a justfile to its syntax. It depends on `just_lexer`, whose tokens it reads.
#![tactic(auto)]

mod assertion;
mod braces;
mod conditional;
pub mod cursor;
mod elements;
mod escapes;
mod format_string;
mod frame;
mod interpolation;
pub mod laws;
mod literal;
mod machine;
mod marks;
mod operator;
mod outcome;
mod parse;
pub mod parse_error;
mod style;

pub use parse::{parse_expression, parse_value, significant};
