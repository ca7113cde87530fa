// What an edit of a module changes. It builds on the meaning of evaluation, on the law of equal blocks and on the walk
// over expressions of the test of resolution, and never on the evaluator.
#![tactic(auto)]

pub mod changed;
mod differences;
mod readers;
mod reading;
pub mod same;
mod same_definition;
mod same_token;
mod version;
