// From the items of a justfile to its parts. It depends on `just_parser`, whose items it takes, and on `just_host`,
// whose module it fills.
#![tactic(auto)]

mod added;
pub mod alias;
pub mod analysis;
pub mod analysis_error;
mod analyzing;
mod outcome;
mod parameters;

pub use analyzing::analyze;
