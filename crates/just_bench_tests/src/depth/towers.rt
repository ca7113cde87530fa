// Forms around forms: at any depth, a case ends with an answer, a refusal or a status.

use crate::texts::answers;
use just_bench::stream::LIMIT;
use just_syntax::out_of_memory::OutOfMemory;
use std::alloc::Global;
use std::test::Fail;

// What comes before and after the expression that a form is put around.
pub(crate) const FORMS: &[(&str, &str)] = &[
    ("", "group\n"),
    ("", "not\n"),
    ("", "list 1\n"),
    ("", "str x\nand\n"),
    ("str x\n", "and\n"),
    ("", "str x\nor\n"),
    ("list 0\n", "or\n"),
    ("", "str x\nstr x\nif\n"),
    ("str x\n", "str x\nif\n"),
    ("list 0\nstr x\n", "if\n"),
    ("", "str x\nwhen\n"),
    ("", "str x\ncat\n"),
    ("str x\n", "cat\n"),
    ("", "assert\n"),
    ("", "str x\nassertm\n"),
    ("list 0\n", "assertm\n"),
    ("", "str x\nadd\n"),
    ("str x\n", "add\n"),
    ("", "str x\njoin\n"),
    ("str x\n", "join\n"),
    ("", "root\n"),
    ("", "str x\neq\n"),
    ("str x\n", "eq\n"),
    ("", "call g 1\n"),
    ("", "call trim 1\n"),
];

// More levels than the stack budget allows, whatever the form, and one fewer than an expression of a case may have: in
// some towers an empty list, which is itself a level, is next to the innermost form.
const MOST_LEVELS: usize = 18_999;

pub(crate) const OUT_OF_MEMORY: &str = "refused 12 OutOfMemory\n";

// Adds a text this many times.
fn repeat(text: &mut String, piece: &str, count: usize) -> Result<(), OutOfMemory> {
    for _ in 0..count {
        text.push_str(piece)?;
    }
    Ok(())
}

// The lines of a form around itself, this many levels deep, with this at the innermost place. `g` is a function.
pub(crate) fn tower(
    alloc: Global,
    form: (&str, &str),
    levels: usize,
    innermost: &str,
) -> Result<String, OutOfMemory> {
    let (before, after) = form;
    let mut text = String::from_str(alloc, "var p\nfun g p\n")?;
    repeat(&mut text, before, levels)?;
    text.push_str(innermost)?;
    repeat(&mut text, after, levels)?;
    Ok(text)
}

// As many levels as a case holds, up to 250,000, are more than an expression may have: there is no answer.
#[test]
fn as_deep_as_a_case_holds(rt: HostRuntime) -> Result<(), Fail> {
    let alloc = rt.alloc();
    for form in FORMS {
        let case = as_deep_as_held(alloc, *form)?;
        answers(&rt, alloc, form.1, case.as_bytes(), "", 1);
    }
    Ok(())
}

fn as_deep_as_held(alloc: Global, form: (&str, &str)) -> Result<String, OutOfMemory> {
    let (before, after) = form;
    let length = before.len().saturating_add(after.len()).max(1);
    let levels = ((LIMIT - 100) / length).min(250_000);
    let mut case = tower(alloc, form, levels, "str x\n")?;
    case.push_str("assign a\nrun\n")?;
    Ok(case)
}

// An expression with the most levels allowed is refused if it is evaluated, and dropped if it is not.
#[test]
fn as_deep_as_an_expression_may_be(rt: HostRuntime) -> Result<(), Fail> {
    let alloc = rt.alloc();
    for form in FORMS {
        for (end, answer, status) in ENDS {
            let mut case = tower(alloc, *form, MOST_LEVELS, "str x\n")?;
            case.push_str(end)?;
            answers(&rt, alloc, form.1, case.as_bytes(), answer, *status);
        }
    }
    Ok(())
}

// The last lines of a case, its answer and its status.
const ENDS: &[(&str, &str, u8)] = &[
    ("assign a\nrun\n", OUT_OF_MEMORY, 2),
    ("assign a\noverride a 5\nrun\n", "a = \"5\"\n", 0),
];

// An assertion prints a condition with a part that was not evaluated, and that nests deeper than the rest of the stack
// budget allows.
#[test]
fn printed_deeper_than_evaluated(rt: HostRuntime) -> Result<(), Fail> {
    let alloc = rt.alloc();
    for form in FORMS {
        let case = printed_deeper(alloc, *form)?;
        answers(&rt, alloc, form.1, case.as_bytes(), OUT_OF_MEMORY, 2);
    }
    Ok(())
}

// The condition is a tower after an empty list, inside 8,900 groups.
fn printed_deeper(alloc: Global, form: (&str, &str)) -> Result<String, OutOfMemory> {
    let (before, after) = form;
    let mut case = String::from_str(alloc, "var p\nfun g p\nlist 0\n")?;
    repeat(&mut case, before, 10_000)?;
    case.push_str("str x\n")?;
    repeat(&mut case, after, 10_000)?;
    case.push_str("and\nassert\n")?;
    repeat(&mut case, "group\n", 8_900)?;
    case.push_str("assign a\nrun\n")?;
    Ok(case)
}

// The same before any run.
#[test]
fn before_any_run(rt: HostRuntime) -> Result<(), Fail> {
    let alloc = rt.alloc();
    let mut case = tower(alloc, ("", "group\n"), MOST_LEVELS, "str x\n")?;
    case.push_str("assign a\nconst\n")?;
    answers(
        &rt,
        alloc,
        "group",
        case.as_bytes(),
        "refused: OutOfMemory\n",
        2,
    );
    Ok(())
}
