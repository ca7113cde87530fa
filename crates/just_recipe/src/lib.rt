// Recipes and settings of a justfile with the numbers of the names that they read. It depends on `just_parser`, whose
// recipes it copies, and on `just_resolve`, which gives the numbers.
#![tactic(auto)]

pub mod expressions;
pub mod faults;
pub mod numbered_recipe;
pub mod numbered_setting;
pub mod numbering;
