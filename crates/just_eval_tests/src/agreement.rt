// A constant keeps its value in a run: what a caller can conclude from public clauses alone.

ghost use Rattle.std.specs.Prelude.{IfSome, Some, ◌<◌};
ghost use Rattle.just_eval_tests.specs.Prelude.{IsResolvedConst, IsResolvedModule, KeepsConstants, frames_view, run_of};
ghost use Rattle.just_eval_tests.specs.Prelude.{stage_state_of};

use just_eval::evaluator::Evaluator;
use just_eval::laws;
use just_host::config::Config;
use just_host::host::Host;
use just_host::justfile::Justfile;
use just_host::search::Search;
use just_syntax::number::Number;
use just_value::scope::Scope;
use std::alloc::Global;
use std::collections::{BTreeMap, HashMap, HashSet};

/// A const stage of a module and a run of it; `None` if either is refused. What is constant before the run keeps its
/// value in it.
pub fn stage_and_run<'src, 'run, H: Host>(
    alloc: Global,
    host: &mut H,
    config: &'run Config,
    dotenv: &'run BTreeMap<String, String>,
    module: &'run Justfile<'src>,
    overrides: &'run HashMap<Number, String>,
    parent: &'run Scope<'src, 'run>,
    search: &'run Search,
    limit: usize,
    references: &HashSet<Number>,
) -> Option<(Evaluator<'src, 'run>, Scope<'src, 'run>)>
    requires may_call { 0 < limit }
    ensures agrees { let m = run_of config.entry dotenv.entry «module».entry overrides.entry parent.entry search.entry
        limit (Some references.entry) in
        let outer = frames_view parent.entry.now in
        IsResolvedConst m.assignments outer → IsResolvedModule m outer
        → IfSome result (λ x. KeepsConstants (stage_state_of x.0).is_open (stage_state_of x.0).frames
        (frames_view x.1)) }
{
    laws::const_agrees();
    laws::results_have_blocks();
    let stage = Evaluator::evaluate_const_assignments(
        alloc,
        &module.assignments,
        &module.evaluation_order,
        overrides,
        parent,
        Some(references),
        module.settings.lists,
    );
    let run = Evaluator::evaluate_assignments(
        alloc,
        host,
        config,
        dotenv,
        module,
        overrides,
        parent,
        search,
        limit,
        Some(references),
    );
    match (stage, run) {
        (Ok(stage), Ok(scope)) => Some((stage, scope)),
        _ => None,
    }
}
