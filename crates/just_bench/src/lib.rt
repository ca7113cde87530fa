// A program over cases. It reads one, evaluates what it describes, with the answers that it lists, and prints the
// questions and the result. It depends on the evaluator's public calls, the reader of cases and scripted hosts, and for
// its law on the law of `just_laws` on answers.
#![tactic(auto)]

mod around;
mod blocks;
mod context;
pub mod laws;
pub mod module_run;
pub mod print;
pub mod program;
mod run;
mod script;
mod settled;
pub mod stream;
mod taken;

pub use just_script::{fail_at, scripted_host};
