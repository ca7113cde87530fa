// The syntax that evaluation works on: names, expressions, assignments, functions, and tables of them, each with its
// view as plain data, and `unindent`, which computes the text of an indented string. It depends on std and on
// `just_short_text`, whose `Text` it passes on. Its `proofs/` also hold general lemmas on lists, tables and texts.
#![tactic(auto)]

pub mod assignment;
pub mod attribute;
pub mod attribute_set;
mod both;
pub mod condition;
pub mod conditional_operator;
pub mod enclosure;
pub mod expression;
pub mod fragment;
pub mod function_definition;
pub mod indentation;
pub mod interpreter;
pub mod keyed;
pub mod line;
pub mod list_operator;
pub mod name;
pub mod number;
pub mod number_set;
pub mod numbers;
pub mod numerator;
pub mod occurrence;
pub mod occurrences;
pub mod out_of_memory;
pub mod parameter;
pub mod parameter_kind;
pub mod place;
mod printed;
pub mod recipe;
pub mod results;
pub mod set;
pub mod setting;
pub mod stack;
pub mod string_context;
pub mod string_literal;
pub mod table;
pub mod text;
pub mod token;
mod unindented;
pub mod unstyled;
pub mod variable_error;
pub mod variables;

pub use unindented::unindent;
