// From a text to what is explained.

use crate::command_line::requested;
use crate::constants::CONSTANTS;
use crate::evaluate::evaluate;
use crate::lint::lint;
use crate::output::Output;
use crate::reach::reach_all;
use crate::recipe::explain_recipe;
use crate::request::{Request, Requested, Subject};
use crate::session::Session;
use crate::settings::{evaluate_settings, sets_lists};
use just_analyzer::analysis::Analysis;
use just_analyzer::analyze;
use just_eval::const_survey::ConstSurvey;
use just_eval::evaluator::Evaluator;
use just_host::justfile::Justfile;
use just_parser::item::Item;
use just_parser::parse;
use just_resolve::name_faults::name_faults;
use just_resolve::resolve::resolve;
use just_resolve::resolve_error::ResolveError;
use just_syntax::number::Number;
use just_syntax::out_of_memory::OutOfMemory;
use just_syntax::variables::overrides_of;
use just_value::scope::Scope;
use std::alloc::Global;
use std::collections::HashMap;
use std::convert::AsStr;

/// Explains the text of a justfile, as a command line asks. The first word is the name of the program.
///
/// ```rust
/// let output = explain(alloc, &["just_explain", "evaluate"], "a := 'b'\n")?;
/// assert_eq!(rt; output.out.as_str(), "a = \"b\"\n");
/// ```
///
/// # Errors
///
/// `OutOfMemory`, if an allocation fails. What is wrong with the words or the text is in the output.
pub fn explain<'a, S: AsStr>(
    alloc: Global,
    words: &'a [S],
    source: &str,
) -> Result<Output, OutOfMemory> {
    match requested(alloc, words)? {
        Requested::Request(request) => explain_request(alloc, &request, source),
        Requested::Output(output) => Ok(output),
    }
}

/// Explains the text of a justfile.
///
/// # Errors
///
/// `OutOfMemory`, if an allocation fails. What is wrong with the text is in the output.
pub fn explain_request(
    alloc: Global,
    request: &Request,
    source: &str,
) -> Result<Output, OutOfMemory> {
    let mut session = Session::new(alloc, &request.given, source)?;
    let directory = request.given.directory.as_str();
    let path = format!(in alloc; "{directory}/justfile")?;
    explain_text(alloc, &mut session, source, &path, request)?;
    Ok(session.into_output())
}

// Reads the items of the text.
fn explain_text<'src>(
    alloc: Global,
    session: &mut Session,
    source: &'src str,
    path: &str,
    request: &Request,
) -> Result<(), OutOfMemory> {
    match parse(alloc, "justfile", source) {
        Ok(items) => explain_items(alloc, session, items, path, request),
        Err(error) => session.refuse(&error, error.token()),
    }
}

// Makes a module of the items.
fn explain_items<'src>(
    alloc: Global,
    session: &mut Session,
    items: Vec<Item<'src>>,
    path: &str,
    request: &Request,
) -> Result<(), OutOfMemory> {
    match analyze(alloc, items, path, &request.given.directory) {
        Ok(mut analysis) => {
            let explained = explain_analysis(alloc, &mut analysis, session, request);
            drop(analysis);
            explained
        }
        Err(error) => session.refuse(&error, error.token()),
    }
}

// Numbers and orders the variables.
fn explain_analysis<'src>(
    alloc: Global,
    analysis: &mut Analysis<'src>,
    session: &mut Session,
    request: &Request,
) -> Result<(), OutOfMemory> {
    let outer = Scope::root(alloc, CONSTANTS)?;
    match resolve(alloc, &mut analysis.justfile, &outer) {
        Ok(()) => explain_resolved(alloc, analysis, &outer, session, request),
        Err(ResolveError::Fault(_)) => report_faults(alloc, &analysis.justfile, &outer, session),
        Err(error) => session.refuse(&error, error.token()),
    }
}

// Reports all faults of names.
fn report_faults<'src>(
    alloc: Global,
    module: &Justfile<'src>,
    outer: &Scope<'src, '_>,
    session: &mut Session,
) -> Result<(), OutOfMemory> {
    for fault in &name_faults(alloc, module, outer)? {
        session.report(fault, &fault.token())?;
    }
    Ok(())
}

// Surveys what is known before a run. The setting `lists` counts for it too.
fn explain_resolved<'src, 'run>(
    alloc: Global,
    analysis: &mut Analysis<'src>,
    outer: &'run Scope<'src, 'run>,
    session: &mut Session,
    request: &Request,
) -> Result<(), OutOfMemory> {
    analysis.justfile.settings.lists = request.given.lists || sets_lists(&analysis.sets);
    match overrides_of(alloc, &analysis.justfile.assignments, &request.overrides) {
        Ok(overrides) => {
            let survey = survey(alloc, &analysis.justfile, outer, &overrides)?;
            explain_surveyed(alloc, analysis, outer, overrides, survey, session, request)
        }
        Err(error) => session.fail(&error),
    }
}

// Evaluates the settings, and then does what is asked for.
fn explain_surveyed<'src>(
    alloc: Global,
    analysis: &mut Analysis<'src>,
    outer: &Scope<'src, '_>,
    overrides: HashMap<Number, String>,
    survey: ConstSurvey<'src, '_>,
    session: &mut Session,
    request: &Request,
) -> Result<(), OutOfMemory> {
    let written = match request.subject {
        Subject::Lint => lint(alloc, analysis, outer, &survey, session),
        _ => evaluate_settings(alloc, analysis, outer, &survey.evaluator, session),
    };
    drop(survey);
    written?;
    if session.has_refused() {
        return Ok(());
    }
    match request.subject {
        Subject::Lint => Ok(()),
        Subject::Evaluate => evaluate(
            alloc,
            &analysis.justfile,
            outer,
            overrides,
            session,
            request,
        ),
        Subject::Recipe => explain_recipe(alloc, analysis, outer, overrides, session, request),
        Subject::Reach => reach_all(alloc, analysis, outer, session, request),
    }
}

// What is known before a run.
fn survey<'src, 'run>(
    alloc: Global,
    module: &Justfile<'src>,
    outer: &'run Scope<'src, 'run>,
    overrides: &HashMap<Number, String>,
) -> Result<ConstSurvey<'src, 'run>, OutOfMemory> {
    Evaluator::survey_const_assignments(
        alloc,
        &module.assignments,
        &module.evaluation_order,
        overrides,
        outer,
        None,
        module.settings.lists,
    )
}
