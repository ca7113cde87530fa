// What a const stage that goes on after refusals finds.

use crate::compared::same;
use bumpalo::Bump;
use just_case_reader::case::{Case, build};
use just_case_reader::line::parse_lines;
use just_eval::const_survey::{ConstSurvey, RefusedConstant};
use just_eval::evaluator::Evaluator;
use just_syntax::assignment::Assignment;
use just_syntax::out_of_memory::OutOfMemory;
use just_value::scope::Scope;
use std::alloc::Global;
use std::process::Abort;

// The lines of a case but the last, and what is found: each assignment, and then each refusal after its name.
const ROWS: &[(&str, &str)] = &[
    ("only", ""),
    ("str x\nassign a\ncmd c\nassign b", "a = \"x\"; b open; "),
    // A variable that reads a refused one is open, and another is settled.
    (
        "list 0\nassert\nassign a\nvar a\nassign b\nstr x\nassign c",
        "a open; b open; c = \"x\"; a: assert failed: `[]`; ",
    ),
    // A branch that is not taken reads nothing.
    (
        "list 0\nassert\nassign a\nstr x\nstr x\neq\nstr y\nvar a\nif\nassign b",
        "a open; b = \"y\"; a: assert failed: `[]`; ",
    ),
    // Two refusals, in the evaluation order.
    (
        "str x\nstr y\nmatch\nassign b\nlist 0\nassert\nassign a",
        "a open; b open; b: regular expression operators are left out; a: assert failed: `[]`; ",
    ),
    // What is not referenced is neither evaluated nor refused.
    (
        "list 0\nassert\nassign a\nstr x\nassign b\nonly b",
        "a -; b = \"x\"; ",
    ),
    ("only\nlist 0\nassert\nassign a", "a -; "),
    // An override settles what would be refused.
    ("list 0\nassert\nassign a\noverride a z", "a = \"z\"; "),
    // A name of the order that no assignment has.
    (
        "str x\nassign a\norder z a",
        "a = \"x\"; z: internal error: unknown assignment `z`; ",
    ),
    // A name that stands twice in the order is refused once.
    (
        "list 0\nassert\nassign a\norder a a",
        "a open; a: assert failed: `[]`; ",
    ),
];

#[test]
fn surveyed(rt: HostRuntime) {
    for (case, wanted) in ROWS {
        finds(&rt, rt.alloc(), case, wanted);
    }
}

fn finds(rt: &impl Abort, alloc: Global, lines: &str, wanted: &str) {
    let arena = Bump::new(alloc);
    let text = format!(in alloc; "{lines}\nconst").expect(rt, "no memory");
    let parsed = parse_lines(alloc, &arena, text.as_bytes()).expect(rt, "no memory");
    let case = build(alloc, &parsed).expect(rt, "no case");
    let scope = Scope::root(alloc, &[]).expect(rt, "no memory");
    let found = found(rt, alloc, &case, &scope);
    same(rt, lines, &found, wanted);
    drop(found);
    drop(case);
    drop(scope);
}

fn found<'src, 'run>(
    rt: &impl Abort,
    alloc: Global,
    case: &'run Case<'src>,
    scope: &'run Scope<'src, 'run>,
) -> String {
    let survey = Evaluator::survey_const_assignments(
        alloc,
        &case.assignments,
        &case.evaluation_order,
        &case.overrides,
        scope,
        case.references.as_ref(),
        case.lists,
    );
    let survey = survey.expect(rt, "no memory");
    let mut text = String::new(alloc);
    print(&mut text, case, &survey).expect(rt, "no memory");
    drop(survey);
    text
}

fn print(text: &mut String, case: &Case, survey: &ConstSurvey) -> Result<(), OutOfMemory> {
    for assignment in case.assignments.iter() {
        print_assignment(text, &survey.evaluator, assignment)?;
    }
    for refused in &survey.refused {
        print_refusal(text, refused)?;
    }
    Ok(())
}

fn print_assignment(
    text: &mut String,
    evaluator: &Evaluator,
    assignment: &Assignment,
) -> Result<(), OutOfMemory> {
    let name = assignment.name;
    let number = assignment.number;
    if let Some(value) = evaluator.scope().value(number) {
        write!(text, "{name} = {value}; ")?;
    } else if evaluator.is_open(number) {
        write!(text, "{name} open; ")?;
    } else {
        write!(text, "{name} -; ")?;
    }
    Ok(())
}

fn print_refusal(text: &mut String, refused: &RefusedConstant) -> Result<(), OutOfMemory> {
    let name = refused.name;
    let error = &refused.error;
    write!(text, "{name}: {error}; ")?;
    Ok(())
}
