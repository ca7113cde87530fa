// Exact tests of whether a module, its assignments before any run, or what is evaluated for a recipe is resolved: each
// name means one thing, and everything is evaluated before it is read. For a module there is also the reason why it is
// not. They build on the definitions of `just_meaning` and on what is below them, and never on the laws of evaluation
// or on the evaluator.
#![tactic(auto)]

pub mod admitted;
mod expressions;
pub mod fault;
pub mod first_fault;
mod here;
pub mod known;
pub mod numbers;
pub mod order;
pub mod readable;
pub mod references;
pub mod resolved;
pub mod resolved_const;
pub mod resolved_here;
