// What a justfile means, explained: its faults and constants, the values of its variables, what a recipe would start,
// and what could be run, read or asked. Nothing is run, and no file is read.
#![tactic(auto)]

mod answers;
mod body;
mod circles;
pub mod command_line;
mod constants;
mod environment;
mod evaluate;
mod explaining;
pub mod given;
mod lint;
pub mod output;
mod reach;
mod recipe;
mod recipe_lines;
mod recipe_reports;
pub mod request;
mod session;
mod settings;

pub use explaining::{explain, explain_request};
