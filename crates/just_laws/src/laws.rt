//! Laws about two evaluations. Each is a function that does nothing; its contract is the law.

ghost use Rattle.just_laws.specs.Cone.{BlocksAgree};
ghost use Rattle.just_laws.specs.Decided.{AnswersDecide};
ghost use Rattle.just_laws.specs.Predicted.{ConstAgrees};
ghost use Rattle.just_laws.specs.Reordered.{OrdersAgree};
ghost use Rattle.just_laws.specs.Results.{ResultsHaveBlocks};

/// Determinacy: the answers decide. Take two evaluations of one expression, line, parameter list or module from one
/// start, neither stopped for lack of memory. Their events and their ends are equal, or the first difference is another
/// answer to the same question to the host, or to the same check of a value.
pub fn answers_decide()
    ensures { AnswersDecide }
{}

/// Results have blocks: the end of a run of a resolved module agrees with its blocks. Each binding of the scope that it
/// returns has a block with that value, and each block of such a run is bound. A run that is not stopped has no stopped
/// block. A refused block is the last, and its refusal is the run's. So what the other laws say about blocks holds for
/// `Ok(scope)` and for `Err(error)`: a run that finishes binds the value of each block, and a refused run ends at the
/// refused block.
pub fn results_have_blocks()
    ensures { ResultsHaveBlocks }
{}

/// Soundness of constant evaluation: constants agree with every run. Take a const stage and a run of the same
/// assignments, overrides and outer values, both resolved, in any orders and with any functions, and an assignment that
/// the stage finds and the run reaches. If it is settled, the run gives it that value, with no call, no command, no
/// open variable and no question. If it is open, the run reaches a call, a command or an open variable. If it ends the
/// stage, it ends the run.
pub fn const_agrees()
    ensures { ConstAgrees }
{}

/// Confluence of orders. Two resolved runs of one module, in two orders or with two sets of references, give each
/// assignment that both reach one value or refusal, by the same questions, if whatever both ask, frames aside, is
/// answered alike. If one finishes, so does the other, provided it takes nothing else and memory does not run out.
pub fn orders_agree()
    ensures { OrdersAgree }
{}

/// Locality: an edit outside of what a variable reaches changes neither its value nor its questions. Two resolved
/// modules with the same assignments, overrides and functions for the variable's cone give it one value or refusal, by
/// the same questions, if whatever both ask, frames aside, is answered alike. For one module in two orders, if one run
/// finishes, the other asks for its variables what the first did, in its own order.
pub fn blocks_agree()
    ensures { BlocksAgree }
{}
