// Lines, parameters and attributes of recipes. The assignments of a case give their expressions, by name.

pub(crate) mod around;
mod assignments;
mod called;
mod calls;
mod evaluated;
mod failing;
mod hosts;
mod joined;
mod lines;
mod parameter_rows;
mod parameters;
mod resolved;
mod sizes;
mod steps;
mod texts;

/// The recipe that everything is evaluated for.
pub(crate) const RECIPE: &str = "build";
