// All reasons why a module is not resolved, for those who report more than one: it looks where `just_resolution` looks
// for the first, with the parts of that crate, and builds on nothing that evaluates.
#![tactic(auto)]

pub mod faults;
mod numbering;
mod occurring;
mod order;
mod pushing;
