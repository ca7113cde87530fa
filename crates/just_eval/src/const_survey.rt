// What a const stage that goes on after refusals finds.

use crate::evaluator::Evaluator;
use just_syntax::name::Name;
use just_value::const_eval_error::ConstEvalError;

/// The refusal of an assignment before any run.
#[derive(Debug, Drop, PartialEq)]
pub struct RefusedConstant<'src> {
    /// The name in the evaluation order.
    pub name: Name<'src>,
    pub error: ConstEvalError<'src>,
}

/// What is found before any run, refusals included.
#[derive(Debug, Drop)]
pub struct ConstSurvey<'src, 'run> {
    /// The evaluator, with what is settled and what is open. A refused variable is open.
    pub evaluator: Evaluator<'src, 'run>,
    /// The refusals, in the evaluation order.
    pub refused: Vec<RefusedConstant<'src>>,
}
