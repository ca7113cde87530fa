// What programs over the evaluator call beside it: `use just_prelude::*`, with `use just_eval::prelude::*`. It declares
// nothing.
#![tactic(auto)]

// Modules whose variables have names alone.
pub use just_resolve::free_numbers::free_numbers;
pub use just_resolve::name_faults::name_faults;
pub use just_resolve::names::Names;
pub use just_resolve::numbered::numbered;
pub use just_resolve::resolve::resolve;
pub use just_resolve::resolve_error::ResolveError;

// Runs with their options, and recipes with their words.
pub use just_run::argument_error::ArgumentError;
pub use just_run::arguments::group_arguments;
pub use just_run::recipe_call::RecipeCall;
pub use just_run::run::Run;

// What a choice needs, what evaluation could do, and what an edit changes.
pub use just_changes::changed::changed;
pub use just_needs::needed::needed;
pub use just_needs::references::references;
pub use just_reach::member::Member;
pub use just_reach::reach::{reach, reach_of_run};

// What is wrong, and where.
pub use just_faults::faults::faults;
pub use just_report::report::report;
