// What evaluation could do, before any run: the commands, calls and variables that an expression reaches, or the values
// of a module's assignments, and the law that evaluation reaches no more. It builds on the definitions of
// `just_meaning`, and never on the evaluator.
#![tactic(auto)]

pub mod laws;
pub mod member;
mod occurring;
pub mod reach;
