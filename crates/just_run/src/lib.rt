// Short calls for users of the evaluator: runs with their options, calls of recipes, and the arguments of a call from
// its words. What they do is what the long calls do.
#![tactic(auto)]

pub mod argument_error;
pub mod arguments;
pub mod recipe_call;
pub mod run;
