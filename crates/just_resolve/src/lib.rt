// Resolution by names: it numbers the variables of a module, orders its assignments, and copies expressions with the
// numbers of their names. It builds on the test of resolution and on the graph of what variables and functions read,
// and never on the evaluator.
#![tactic(auto)]

mod cycle;
pub mod free;
pub mod free_numbers;
pub mod laws;
pub mod name_faults;
pub mod names;
pub mod numbered;
mod order;
mod renumbered;
pub mod resolve;
pub mod resolve_error;
mod walk;
