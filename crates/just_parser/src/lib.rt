// From the text of a justfile to its items. It depends on `just_lexer` and `just_expression_parser`.
#![tactic(auto)]

mod arg;
pub mod arg_attribute;
mod assignment;
mod attributes;
mod body;
mod dependencies;
pub mod dependency;
mod function;
mod ignored;
pub mod item;
mod items;
pub mod laws;
mod names;
mod outcome;
mod parameters;
pub mod parse_error;
mod parser;
mod parsing;
mod recipe;
pub mod recipe_definition;
mod set;
mod setting;
mod setting_form;
mod start;
mod value;
mod written_attribute;

pub use parsing::parse;
