// Evaluation of a module's assignments: the calls of upstream's `Evaluator`, with their public clauses. It builds on
// the recursion over expressions and derives its clauses about lexical scope from the laws. It re-exports the laws, the
// tests of resolution and, in `prelude`, what a caller needs.
#![tactic(auto)]

mod argument;
pub mod const_survey;
pub mod evaluator;
mod joined;
pub mod laws;
mod line;
pub mod prelude;
pub mod steps;

pub use just_resolution::fault::Fault;
pub use just_resolution::first_fault::first_fault;
pub use just_resolution::resolved::resolved;
pub use just_resolution::resolved_const::resolved_const;
pub use just_resolution::resolved_here::resolved_here;
