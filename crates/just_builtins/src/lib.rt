// The built-in functions: the table of their names, and the questions and the reply of each. It depends on `just_host`
// and the crates below it, but on no definition of evaluation.
#![tactic(auto)]

mod argument;
mod binary;
pub mod builtin;
pub mod call_fault;
mod directory;
mod environment;
mod file;
pub mod function;
mod lookup;
mod message;
mod name;
mod nullary;
mod parts;
pub mod path;
mod shell;
mod source;
mod system;
mod table;
mod ternary;
mod truth;
mod unary;
mod words;
