// Two runs of a case in two orders, and the questions that each asks for each variable.

ghost use Rattle.std.specs.Prelude.{IfOk, IfSome, IsTrue, OnOk, [], drop, flat_map, length, map, option_map};
ghost use Rattle.std.specs.Prelude.{string_bytes, ◌++◌, ◌<◌, ◌↔◌, ◌∷◌, ◌≡◌, ◌≤◌};
ghost use Rattle.just_bench.specs.Prelude.{Added, BlocksPrints, BothResolvedPrint, Extends, IsResolvedModule, MadeOf};
ghost use Rattle.just_bench.specs.Prelude.{OrderPrints, Walks, agreement_line, block_lines, block_of, bound_at};
ghost use Rattle.just_bench.specs.Prelude.{bound_view, case_view, dynamically, ended, found_view, frames_view};
ghost use Rattle.just_bench.specs.Prelude.{in_order, inner_host, name_view, own_frame, recorded_view, recording};
ghost use Rattle.just_bench.specs.Prelude.{module_run_view, records_view, seen, still_coming, taken_view};
ghost use Rattle.just_bench.specs.Prelude.{text_numbered, turn_between};
ghost use Rattle.just_bench.specs.Prelude.{with_block, with_blocks};
ghost use Rattle.just_bench.specs.Printed as answer;
ghost use Rattle.just_bench.specs.Blocks as plain;

use crate::around::Around;
use crate::module_run::ModuleRun;
use crate::print::{print_order, print_questions, print_refusal};
use crate::run::print_unless_resolved;
use crate::script::{case_script, script_copy};
use crate::taken::taken_variables;
use just_case_reader::case::Case;
use just_host::host::Host;
use just_host::recorded::Recorded;
use just_host::recorder::Recorder;
use just_syntax::name::Name;
use just_syntax::number::Number;
use just_syntax::out_of_memory::OutOfMemory;
use just_value::binding::Binding;
use just_value::error::Error;
use just_value::scope::Scope;
use std::alloc::Global;
use std::collections::HashMap;

// The result of a run: the lines of the questions asked for each variable, and a scope with its bindings.
#[derive(Drop)]
struct Blocks<'src, 'run> {
    questions: HashMap<Number, String>,
    scope: Scope<'src, 'run>,
}

/// Evaluates a case in two runs, each with a host of its own: in its order, and then in that of these names. Adds the
/// questions of each run for each variable and, if neither is refused, whether they agree, and returns the exit status.
pub(crate) fn evaluate_blocks<'src, A: Around>(
    alloc: Global,
    text: &mut String,
    mut case: Case<'src>,
    second: Vec<Name<'src>>,
    parent: &Scope<'src, '_>,
    around: &A,
) -> Result<u8, OutOfMemory>
    ensures status { IfOk result (λ status. status ≤ 2) }
    ensures answer { IfOk result (λ status. Added (string_bytes text.old) (string_bytes text.new) (λ printed.
        BlocksPrints A.Made.step (MadeOf (A.gives around.now)) (case_view case.entry) (map name_view second.entry.items)
        (frames_view parent.now) printed status)) }
{
    let mut one_host = Recorder::new(alloc, around.around(script_copy(alloc, &case)?));
    let mut other_host = Recorder::new(alloc, around.around(case_script(alloc, &mut case)));
    let mut run = ModuleRun::of_case(alloc, case)?;
    print_runs(
        alloc,
        text,
        &mut run,
        &mut one_host,
        &mut other_host,
        second,
        parent,
    )
}

// Runs a module in its order and in another, with hosts that have no records. Adds `unresolved` if one of the two
// orders is unresolved, then the questions of both runs and whether they agree, and returns the exit status.
fn print_runs<'call, 'src, H: Host>(
    alloc: Global,
    text: &'call mut String,
    run: &'call mut ModuleRun<'src>,
    one_host: &mut Recorder<H>,
    other_host: &mut Recorder<H>,
    mut second: Vec<Name<'src>>,
    parent: &Scope<'src, '_>,
) -> Result<u8, OutOfMemory>
    requires one_fresh { records_view one_host.old ≡ [] }
    requires other_fresh { records_view other_host.old ≡ [] }
    ensures status { IfOk result (λ status. status ≤ 2) }
    ensures answer { IfOk result (λ status. Added (string_bytes text.old) (string_bytes text.new) (λ printed.
        BothResolvedPrint H.step (inner_host one_host.old) (inner_host other_host.old) (module_run_view run.old)
        (in_order (module_run_view run.old) (map name_view second.entry.items))
        (frames_view parent.now) printed status)) }
{
    let resolved = are_resolved(alloc, run, &mut second, parent)?;
    print_unless_resolved(text, resolved)?;
    let first = run.replace_order(Vec::new(alloc));
    print_both(
        alloc, text, run, one_host, other_host, &first, &second, parent,
    )
}

// Whether a module is resolved in its order and in another. The order and the module are unchanged, unless memory runs
// out.
fn are_resolved<'src>(
    alloc: Global,
    run: &mut ModuleRun<'src>,
    second: &mut Vec<Name<'src>>,
    parent: &Scope<'src, '_>,
) -> Result<bool, OutOfMemory>
    ensures answer { let m = module_run_view run.old in
        let other = in_order m (map name_view second.old.items) in
        let outer = frames_view parent.now in
        IfOk result (λ answer. IsTrue answer ↔ IsResolvedModule m outer × IsResolvedModule other outer) }
    ensures run { OnOk result (module_run_view run.new ≡ module_run_view run.old) }
    ensures order { OnOk result (map name_view second.new.items ≡ map name_view second.old.items) }
{
    if !run.is_resolved(alloc, parent)? {
        return Ok(false);
    }
    run.is_resolved_in(alloc, second, parent)
}

// Runs a module in two orders. Adds the questions of each run, those of the second only if the first is not refused,
// and whether they agree.
fn print_both<'call, 'src, H: Host>(
    alloc: Global,
    text: &'call mut String,
    run: &'call mut ModuleRun<'src>,
    one_host: &mut Recorder<H>,
    other_host: &mut Recorder<H>,
    first: &[Name<'src>],
    second: &[Name<'src>],
    parent: &Scope<'src, '_>,
) -> Result<u8, OutOfMemory>
    requires one_fresh { records_view one_host.old ≡ [] }
    requires other_fresh { records_view other_host.old ≡ [] }
    ensures status { IfOk result (λ status. status ≤ 2) }
    ensures answer { IfOk result (λ status. Added (string_bytes text.old) (string_bytes text.new) (λ printed.
        plain.BothPrint H.step (inner_host one_host.old) (inner_host other_host.old)
        (in_order (module_run_view run.old) (map name_view first.now))
        (in_order (module_run_view run.old) (map name_view second.now)) (frames_view parent.now) printed status)) }
{
    let Some(one) = print_run(alloc, text, run, one_host, first, parent)? else {
        return Ok(2);
    };
    match print_run(alloc, text, run, other_host, second, parent)? {
        Some(other) => {
            print_agreement(text, agree(&one, &other))?;
            Ok(0)
        }
        None => Ok(2),
    }
}

// Runs a module in an order, with a host that has no records. Adds the taken variables, and after each the questions
// asked for it. A refusal that ends the run is added too; then there is no result.
fn print_run<'call, 'src, 'run, H: Host>(
    alloc: Global,
    text: &'call mut String,
    run: &'call mut ModuleRun<'src>,
    host: &mut Recorder<H>,
    order: &[Name<'src>],
    parent: &'run Scope<'src, '_>,
) -> Result<Option<Blocks<'src, 'run>>, OutOfMemory>
    requires fresh { records_view host.old ≡ [] }
    ensures prints { IfOk result (λ found. Added (string_bytes text.old) (string_bytes text.new) (λ printed.
        OrderPrints H.step (inner_host host.old) (in_order (module_run_view run.old) (map name_view order.now))
        (frames_view parent.entry.now) printed (option_map found_view found))) }
    ensures run { OnOk result (in_order (module_run_view run.new) [] ≡ in_order (module_run_view run.old) []) }
{
    let references = run.references.as_ref();
    let taken = taken_variables(alloc, &run.module.assignments, order, references)?;
    print_order(text, &taken)?;
    let blocks = Blocks {
        questions: HashMap::new(alloc),
        scope: parent.child(alloc)?,
    };
    print_turns(alloc, text, run, host, order, &taken, blocks)
}

// Evaluates the names of an order in turn, on the results of those before. Adds the blocks of the remaining variables,
// and a refusal if there is one, which ends it.
fn print_turns<'call, 'src, 'run, H: Host>(
    alloc: Global,
    text: &'call mut String,
    run: &'call mut ModuleRun<'src>,
    host: &mut Recorder<H>,
    order: &[Name<'src>],
    taken: &[(&Name<'src>, Number)],
    mut blocks: Blocks<'src, 'run>,
) -> Result<Option<Blocks<'src, 'run>>, OutOfMemory>
    ensures walks { IfOk result (λ found. Added (string_bytes text.old) (string_bytes text.new) (λ printed.
        Walks H.step (in_order (module_run_view run.old) (map name_view order.now)) (seen host.old)
        (frames_view blocks.entry.scope) (map name_view order.now) (map taken_view taken.now)
        (text_numbered blocks.entry.questions) printed (option_map found_view found))) }
    ensures run { OnOk result (in_order (module_run_view run.new) [] ≡ in_order (module_run_view run.old) []) }
{
    let mut at: usize = 0;
    for name in order {
        match print_turn(alloc, text, run, host, *name, taken, at, &mut blocks)? {
            Ok(next) => at = next,
            Err(error) => {
                print_refusal(alloc, text, &error)?;
                return Ok(None);
            }
        }
    }
    Ok(Some(blocks))
}

// Evaluates a name, given that the variables from an index on remain. Adds its block, if the next of them has this
// name, and returns the index after it, or the refusal.
fn print_turn<'call, 'src, H: Host>(
    alloc: Global,
    text: &'call mut String,
    run: &'call mut ModuleRun<'src>,
    host: &mut Recorder<H>,
    name: Name<'src>,
    taken: &[(&Name, Number)],
    at: usize,
    blocks: &mut Blocks<'src, '_>,
) -> Result<Result<usize, Error<'src>>, OutOfMemory>
    ensures run { OnOk result
        (module_run_view run.new ≡ in_order (module_run_view run.old) (name_view name.entry ∷ [])) }
    ensures extends { IfOk result (λ next. Extends dynamically (recording H.step) (seen host.old)
        (in_order (module_run_view run.old) (name_view name.entry ∷ [])) (frames_view blocks.old.scope)
        (ended (λ _. frames_view blocks.new.scope) next) (seen host.new)) }
    ensures rest { let coming = drop at (map taken_view taken.now) in
        IfOk result
        (λ next. IfOk next (λ next. drop next (map taken_view taken.now)
        ≡ still_coming coming (plain.next_number coming (name_view name.entry)))) }
    ensures text { let coming = drop at (map taken_view taken.now) in
        OnOk result (string_bytes text.new ≡ string_bytes text.old ++ flat_map block_lines
        (block_of (turn_between (name_view name.entry) (seen host.old) (seen host.new))
        (plain.next_number coming (name_view name.entry)))) }
    ensures asked { let coming = drop at (map taken_view taken.now) in
        OnOk result (text_numbered blocks.new.questions ≡ with_blocks (text_numbered blocks.old.questions)
        (block_of (turn_between (name_view name.entry) (seen host.old) (seen host.new))
        (plain.next_number coming (name_view name.entry)))) }
{
    let before = count(host);
    let bound = run.extend(alloc, host, name, &mut blocks.scope)?;
    let asked = asked_since(host, before);
    let next = add_block(alloc, text, &name, asked, taken, at, &mut blocks.questions)?;
    match bound {
        Ok(()) => Ok(Ok(next)),
        Err(error) => Ok(Err(error)),
    }
}

// Adds the block of a name, if the next variable has this name, and returns the index after it.
fn add_block(
    alloc: Global,
    text: &mut String,
    name: &Name,
    asked: &[Recorded],
    taken: &[(&Name, Number)],
    at: usize,
    questions: &mut HashMap<Number, String>,
) -> Result<usize, OutOfMemory>
    ensures rest { let coming = drop at (map taken_view taken.now) in
        IfOk result (λ next. drop next (map taken_view taken.now)
        ≡ still_coming coming (plain.next_number coming (name_view name.now))) }
    ensures text { let coming = drop at (map taken_view taken.now) in
        OnOk result (string_bytes text.new ≡ string_bytes text.old ++ flat_map block_lines
        (block_of (record { name = name_view name.now; asked = map recorded_view asked.now })
        (plain.next_number coming (name_view name.now)))) }
    ensures asked { let coming = drop at (map taken_view taken.now) in
        OnOk result (text_numbered questions.new ≡ with_blocks (text_numbered questions.old)
        (block_of (record { name = name_view name.now; asked = map recorded_view asked.now })
        (plain.next_number coming (name_view name.now)))) }
{
    match number_at(taken, at, name) {
        Some(number) => {
            print_block(alloc, text, name, number, asked, questions)?;
            Ok(at + 1)
        }
        None => Ok(at),
    }
}

// The number of the variable at an index, if it has this name.
fn number_at(taken: &[(&Name, Number)], at: usize, name: &Name) -> Option<Number>
    ensures number { result ≡ plain.next_number (drop at (map taken_view taken.now)) (name_view name.now) }
    ensures within { IfSome result (λ _. at < length taken.now) }
{
    if at <= taken.len() {
        next_number(&taken[at..], name)
    } else {
        None
    }
}

// The number of the next variable, if it has this name.
fn next_number(coming: &[(&Name, Number)], name: &Name) -> Option<Number>
    ensures number { result ≡ plain.next_number (map taken_view coming.now) (name_view name.now) }
    ensures one { IfSome result (λ _. 0 < length coming.now) }
{
    match coming.first() {
        Some((next, number)) if next.lexeme() == name.lexeme() => Some(*number),
        _ => None,
    }
}

// Adds a variable's name and the lines of its questions, and stores these lines.
fn print_block(
    alloc: Global,
    text: &mut String,
    name: &Name,
    number: Number,
    asked: &[Recorded],
    questions: &mut HashMap<Number, String>,
) -> Result<(), OutOfMemory>
    ensures text { OnOk result (string_bytes text.new ≡ string_bytes text.old ++ block_lines
        (record { number = number; name = name_view name.now; asked = map recorded_view asked.now })) }
    ensures asked { OnOk result (text_numbered questions.new ≡ with_block (text_numbered questions.old)
        (record { number = number; name = name_view name.now; asked = map recorded_view asked.now })) }
{
    let lines = question_lines(alloc, asked)?;
    writeln!(text, "block {name}")?;
    text.push_str(&lines)?;
    questions.insert(number, lines)?;
    Ok(())
}

// The number of questions that a host was asked.
fn count<H>(host: &Recorder<H>) -> usize
    ensures { result ≡ length (records_view host.now) }
{
    host.questions().len()
}

// The questions that a host was asked after the first `before`.
fn asked_since<H>(host: &Recorder<H>, before: usize) -> &[Recorded]
    ensures { map recorded_view result.now ≡ drop before (records_view host.now) }
{
    let questions = host.questions();
    if before <= questions.len() {
        &questions[before..]
    } else {
        &[]
    }
}

// Questions, one per line.
fn question_lines(alloc: Global, questions: &[Recorded]) -> Result<String, OutOfMemory>
    ensures { IfOk result (λ lines. string_bytes lines ≡ answer.question_lines (map recorded_view questions.now)) }
{
    let mut lines = String::new(alloc);
    print_questions(&mut lines, questions)?;
    Ok(lines)
}

// Adds whether two runs agree.
fn print_agreement(text: &mut String, agree: bool) -> Result<(), OutOfMemory>
    ensures { OnOk result (string_bytes text.new ≡ string_bytes text.old ++ agreement_line agree) }
{
    text.push_str(if agree { "same\n" } else { "different\n" })?;
    Ok(())
}

// Whether each variable bound by both runs has the same questions and the same value in both.
fn agree<'src>(one: &Blocks<'src, '_>, other: &Blocks<'src, '_>) -> bool
    ensures { result ≡ plain.agree (found_view one.now) (found_view other.now) }
{
    for binding in one.scope.bindings() {
        if !is_alike(one, other, binding) {
            return false;
        }
    }
    true
}

// Whether a variable has the same questions and the same value in both runs, or is not bound in the other.
fn is_alike<'src>(one: &Blocks<'src, '_>, other: &Blocks<'src, '_>, binding: &Binding<'src>) -> bool
    ensures { let number = binding.now.number in
        result ≡ plain.is_alike (text_numbered one.now.questions number) (text_numbered other.now.questions number)
        (bound_view binding.now) (bound_at number (own_frame (frames_view other.now.scope))) }
{
    match other.scope.frame().binding(binding.number) {
        Some(bound) => {
            bound.value == binding.value
                && one.questions.get(&binding.number) == other.questions.get(&binding.number)
        }
        None => true,
    }
}
