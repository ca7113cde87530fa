// Runs the cases of a folder.

ghost use Rattle.std.specs.Prelude.{◌≤◌};

use crate::agreement::Run;
use crate::borne_out::BorneOut;
use crate::cutting::check_cuts;
use crate::difference::Difference;
use crate::evaluated::answered;
use crate::failing::check_failing;
use crate::reaching::check_reach;
use crate::reordered::Reordered;
use crate::reordering::check_order;
use crate::rerun::questions_of_run;
use crate::stored_case::{StoredCase, cut};
use crate::streams::check_streams;
use crate::tally::Tally;
use crate::within_reach::WithinReach;
use just_syntax::out_of_memory::OutOfMemory;
use std::alloc::{AllocError, Global};
use std::rt::{Env, Files};
use std::{env, fs, io};

/// Runs the cases of a folder. Prints each case that differs and how, then what was tried. Returns the exit status: 0
/// if no case differs, and 1 otherwise. The folder is the program's argument, or the working directory if there is
/// none.
pub fn check_cases<R: AllocGlobal + Env + Eprint + Files + Print>(rt: &R) -> u8
    ensures { result ≤ 1 }
{
    match check_each(rt) {
        Ok(tallies) => { if tallies.cases.has_differing() { 1 } else { 0 } }
        Err(error) => {
            let _ = eprintln!(rt; "{error}");
            1
        }
    }
}

/// What was tried on all cases.
#[derive(Clone, Copy, Debug, Default)]
pub struct Tallies {
    cases: Tally,
    constants: BorneOut,
    reaches: WithinReach,
    orders: Reordered,
    failed_questions: Tally,
    cuts: Tally,
    failed_streams: Tally,
}

// Runs the cases of a folder, prints as `check_cases` does, and returns what was tried.
fn check_each<R: AllocGlobal + Env + Files + Print>(rt: &R) -> io::Result<Tallies> {
    let folder = case_folder(rt)?;
    let index = fs::read_to_string(rt, format!(in rt.alloc(); "{folder}/index")?)?;
    let mut tallies = Tallies::default();
    for name in index.lines() {
        let difference = check_case(rt, &mut tallies, &folder, name)?;
        tallies.cases.count(difference.is_some());
        if let Some(difference) = difference {
            println!(rt; "{name}: {difference}")?;
        }
    }
    print_tallies(rt, &tallies)?;
    Ok(tallies)
}

// Prints what was tried, one line per kind.
fn print_tallies<R: Print>(rt: &R, tallies: &Tallies) -> io::Result<()> {
    tallies.cases.print(rt, "cases")?;
    tallies.constants.print(rt)?;
    tallies.reaches.print(rt)?;
    tallies.orders.print(rt)?;
    tallies
        .failed_questions
        .print(rt, "questions failed by a fault and as out of memory")?;
    tallies.cuts.print(rt, "cuts of cases")?;
    tallies
        .failed_streams
        .print(rt, "reads, writes and flushes failed")
}

// The folder of the cases.
fn case_folder<R: AllocGlobal + Env>(rt: &R) -> io::Result<String> {
    match env::args(rt)?.nth(1) {
        Some(folder) => Ok(folder),
        None => Ok(String::from_str(rt.alloc(), ".")?),
    }
}

/// Returns how the case with this name in a folder differs from its file.
///
/// # Errors
///
/// That of an allocation. A file that cannot be read is a difference, `Unreadable`.
pub fn check_case<R: AllocGlobal + Files>(
    rt: &R,
    tallies: &mut Tallies,
    folder: &str,
    name: &str,
) -> io::Result<Option<Difference>> {
    let path = format!(in rt.alloc(); "{folder}/{name}.case")?;
    match fs::read(rt, path) {
        Ok(file) => match check_file(rt.alloc(), tallies, &file) {
            Ok(difference) => Ok(difference),
            Err(OutOfMemory) => Err(io::Error::from(AllocError)),
        },
        Err(_) => Ok(Some(Difference::Unreadable)),
    }
}

/// Returns how the case in a file with these bytes differs from the file.
///
/// # Errors
///
/// `OutOfMemory` if an allocation fails.
pub fn check_file(
    alloc: Global,
    tallies: &mut Tallies,
    file: &[u8],
) -> Result<Option<Difference>, OutOfMemory> {
    let Some(stored) = cut(file) else {
        return Ok(Some(Difference::NoStatus));
    };
    let (status, answer) = answered(alloc, stored.case);
    let difference = Difference::between(&stored, status, &answer);
    if difference.is_some() {
        return Ok(difference);
    }
    let difference = check_run(alloc, tallies, &stored)?;
    if difference.is_some() {
        return Ok(difference);
    }
    check_hostile_use(alloc, tallies, &stored)
}

// Longer cases are not cut, and their reads and writes do not fail.
const LONGEST: usize = 600;

// How a case whose answer is right differs when its questions fail, it is cut, or its reads and writes fail.
fn check_hostile_use(
    alloc: Global,
    tallies: &mut Tallies,
    stored: &StoredCase,
) -> Result<Option<Difference>, OutOfMemory> {
    let difference = check_failing(alloc, &mut tallies.failed_questions, stored)?;
    if difference.is_some() || stored.case.len() > LONGEST {
        return Ok(difference);
    }
    let difference = check_cuts(alloc, &mut tallies.cuts, stored)?;
    if difference.is_some() {
        return Ok(difference);
    }
    check_streams(alloc, &mut tallies.failed_streams, stored)
}

// How a case whose answer is right, and ends with a run, differs from what the laws say of the run.
fn check_run(
    alloc: Global,
    tallies: &mut Tallies,
    stored: &StoredCase,
) -> Result<Option<Difference>, OutOfMemory> {
    let Some(run) = Run::of_case(stored) else {
        return Ok(None);
    };
    let difference = check_constants(alloc, &mut tallies.constants, &run)?;
    if difference.is_some() {
        return Ok(difference);
    }
    let questions = questions_of_run(alloc, stored.case)?;
    let difference = check_reach(alloc, &mut tallies.reaches, stored.case, &questions)?;
    if difference.is_some() {
        return Ok(difference);
    }
    check_order(alloc, &mut tallies.orders, stored, &questions)
}

// How a run differs from the evaluation before it.
fn check_constants(
    alloc: Global,
    tally: &mut BorneOut,
    run: &Run,
) -> Result<Option<Difference>, OutOfMemory> {
    let constants = run.constants(alloc)?;
    match run.contradiction(alloc, &constants)? {
        Some(contradiction) => Ok(Some(Difference::Constants(contradiction))),
        None => {
            tally.count(&constants);
            Ok(None)
        }
    }
}
