// Evaluation of a case in a run.

ghost use Rattle.std.specs.Prelude.{IfOk, OnOk, [], string_bytes, ◌++◌, ◌≡◌, ◌≤◌};
ghost use Rattle.just_bench.specs.Prelude.{Added, CaseRuns, MadeOf, RunPrints, case_view, ended, frames_view};
ghost use Rattle.just_bench.specs.Prelude.{inner_host, module_run_view, outcome_lines, records_view, status_of};
ghost use Rattle.just_bench.specs.Prelude.{unresolved_line};

use crate::around::Around;
use crate::module_run::ModuleRun;
use crate::print::{print_bindings, print_questions, print_refusal};
use crate::script::case_script;
use just_case_reader::case::Case;
use just_host::host::Host;
use just_host::recorder::Recorder;
use just_syntax::out_of_memory::OutOfMemory;
use just_value::error::Error;
use just_value::scope::Scope;
use std::alloc::Global;

/// Evaluates a case in a run, in a scope whose bindings it can read. Adds its output, and returns the exit status.
pub(crate) fn evaluate_run<'src, A: Around>(
    alloc: Global,
    text: &mut String,
    mut case: Case<'src>,
    parent: &Scope<'src, '_>,
    around: &A,
) -> Result<u8, OutOfMemory>
    ensures status { IfOk result (λ status. status ≤ 2) }
    ensures answer { IfOk result (λ status. Added (string_bytes text.old) (string_bytes text.new) (λ printed.
        CaseRuns A.Made.step (MadeOf (A.gives around.now)) (case_view case.entry)
        (frames_view parent.now) printed status)) }
{
    let mut host = Recorder::new(alloc, around.around(case_script(alloc, &mut case)));
    let run = ModuleRun::of_case(alloc, case)?;
    evaluate_module(alloc, text, &run, &mut host, parent)
}

// Runs a module with a host that has no records. Adds `unresolved` if it is unresolved, the questions that the host was
// asked, and the bindings or the refusal, and returns the exit status.
fn evaluate_module<'call, 'src, H: Host>(
    alloc: Global,
    text: &'call mut String,
    run: &'call ModuleRun<'src>,
    host: &mut Recorder<H>,
    parent: &Scope<'src, '_>,
) -> Result<u8, OutOfMemory>
    requires fresh { records_view host.old ≡ [] }
    ensures status { IfOk result (λ status. status ≤ 2) }
    ensures answer { IfOk result (λ status. Added (string_bytes text.old) (string_bytes text.new) (λ printed.
        RunPrints H.step (inner_host host.old) (module_run_view run.now) (frames_view parent.now) printed status)) }
{
    let resolved = run.is_resolved(alloc, parent)?;
    print_unless_resolved(text, resolved)?;
    let outcome = run.evaluate(alloc, host, parent);
    print_questions(text, host.questions())?;
    print_outcome(alloc, text, &outcome)
}

/// Adds `unresolved`, unless all is resolved.
pub(crate) fn print_unless_resolved(text: &mut String, resolved: bool) -> Result<(), OutOfMemory>
    ensures { OnOk result (string_bytes text.new ≡ string_bytes text.old ++ unresolved_line resolved) }
{
    if !resolved {
        text.push_str("unresolved\n")?;
    }
    Ok(())
}

// Adds the bindings or the refusal, and returns the exit status.
fn print_outcome<'call, 'src>(
    alloc: Global,
    text: &'call mut String,
    outcome: &'call Result<Scope<'src, '_>, Error<'src>>,
) -> Result<u8, OutOfMemory>
    ensures printed { OnOk result (string_bytes text.new ≡ string_bytes text.old ++ outcome_lines
        (ended frames_view outcome.now)) }
    ensures status { IfOk result (λ status. status ≤ 2) }
    ensures ends { IfOk result (λ status. status ≡ status_of (ended frames_view outcome.now)) }
{
    match outcome {
        Ok(scope) => {
            print_bindings(text, scope)?;
            Ok(0)
        }
        Err(error) => {
            print_refusal(alloc, text, error)?;
            Ok(2)
        }
    }
}
