// What a run needs: the variables of an expression, and the variables that have to be evaluated for some names. It
// builds on the definitions of `just_meaning`, and never on the evaluator.
#![tactic(auto)]

pub mod graph;
pub mod needed;
pub mod node;
mod numbered;
pub mod reached;
pub mod references;
