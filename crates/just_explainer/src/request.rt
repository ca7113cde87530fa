// What a command line asks for.

use crate::given::Given;
use crate::output::Output;

/// What is explained.
#[derive(Clone, Copy, Debug, PartialEq, Eq)]
pub enum Subject {
    /// What is wrong, and what is known before a run.
    Lint,
    /// The values of variables.
    Evaluate,
    /// What a recipe would start.
    Recipe,
    /// What could be run, read or asked.
    Reach,
}

/// What a command line asks for.
#[derive(Debug, Drop)]
pub struct Request {
    pub subject: Subject,
    /// What is given in place of a run.
    pub given: Given,
    /// The values that are set for variables, by their names.
    pub overrides: Vec<(String, String)>,
    /// The names of variables; or that of a recipe, and its arguments.
    pub words: Vec<String>,
}

/// What becomes of a command line.
#[derive(Debug, Drop)]
pub enum Requested {
    /// It asks for this.
    Request(Request),
    /// It is wrong, or asks for the help or the version.
    Output(Output),
}
