// Pairs of modules, and the variables that the edit from one to the other changes.

mod sizes;

use crate::evaluations::outer;
use bumpalo::Bump;
use just_case_reader::case::{Case, build};
use just_case_reader::line::{Line, parse_lines};
use just_changes::changed::changed;
use just_host::justfile::Justfile;
use just_host::settings::Settings;
use just_syntax::number::Number;
use just_syntax::out_of_memory::OutOfMemory;
use just_value::scope::Scope;
use just_value::value::Value;
use std::alloc::Global;
use std::collections::{BTreeSet, HashMap};
use std::process::Abort;
use std::test::Fail;

// Each case begins with this line, so that the variables `a` to `e` have the numbers 0 to 4.
const HEAD: &str = "only a b c d e\n";

const TAIL: &str = "run";

// Lines before the edit, lines after it, and the numbers that it changes.
const EDITS: &[(&str, &str, &str)] = &[
    // There are no lines.
    ("", "", ""),
    // Nothing is edited.
    (
        "str x\nassign a\nvar a\nassign b\n",
        "str x\nassign a\nvar a\nassign b\n",
        "",
    ),
    // What is edited is read by another variable, which is read by a third.
    (
        "str x\nassign a\nvar a\nassign b\nvar b\nassign c\nstr y\nassign d\n",
        "str z\nassign a\nvar a\nassign b\nvar b\nassign c\nstr y\nassign d\n",
        "0 1 2 ",
    ),
    // No variable reads what is edited.
    (
        "str x\nassign a\nvar a\nassign b\nvar b\nassign c\nstr y\nassign d\n",
        "str x\nassign a\nvar a\nassign b\nvar b\nassign c\nstr z\nassign d\n",
        "3 ",
    ),
    // Only the order of the lines differs.
    (
        "str x\nassign a\nvar a\nassign b\nstr y\nassign d\n",
        "str y\nassign d\nvar a\nassign b\nstr x\nassign a\n",
        "",
    ),
    // Only the flag of an assignment differs.
    (
        "str x\nassign a\nvar a\nassign b\n",
        "str x\nassign a\nvar a\nexport b\n",
        "1 ",
    ),
    // An assignment is added, removed or renamed.
    (
        "str x\nassign a\n",
        "str x\nassign a\nvar a\nassign b\n",
        "1 ",
    ),
    (
        "str x\nassign a\nvar a\nassign b\nvar b\nassign c\n",
        "str x\nassign a\nvar b\nassign c\n",
        "1 2 ",
    ),
    (
        "str x\nassign a\nvar a\nassign b\n",
        "str x\nassign a\nvar a\nassign e\n",
        "1 4 ",
    ),
    ("", "str x\nassign a\n", "0 "),
    ("str x\nassign a\n", "", "0 "),
    // An override is added, removed or replaced.
    (
        "str x\nassign a\nvar a\nassign b\nstr y\nassign c\n",
        "str x\nassign a\nvar a\nassign b\nstr y\nassign c\noverride a z\n",
        "0 1 ",
    ),
    (
        "str x\nassign a\nvar a\nassign b\noverride a z\n",
        "str x\nassign a\nvar a\nassign b\n",
        "0 1 ",
    ),
    (
        "str x\nassign a\nvar a\nassign b\noverride a z\n",
        "str x\nassign a\nvar a\nassign b\noverride a w\n",
        "0 1 ",
    ),
    // An overridden variable does not read what its expression reads.
    (
        "str x\nassign a\nvar a\nassign b\nvar b\nassign c\noverride b z\n",
        "str y\nassign a\nvar a\nassign b\nvar b\nassign c\noverride b z\n",
        "0 ",
    ),
    // A function is edited: what calls it is changed, by itself or through another function.
    (
        "str x\nfun f\nstr y\nfun g\ncall f 0\nassign a\ncall g 0\nassign b\n",
        "str z\nfun f\nstr y\nfun g\ncall f 0\nassign a\ncall g 0\nassign b\n",
        "0 ",
    ),
    (
        "str x\nfun f\ncall f 0\nfun g\ncall g 0\nassign a\nvar a\nassign b\nstr y\nassign c\n",
        "str z\nfun f\ncall f 0\nfun g\ncall g 0\nassign a\nvar a\nassign b\nstr y\nassign c\n",
        "0 1 ",
    ),
    // A variable that a body reads is edited.
    (
        "str x\nassign a\nvar a\nfun f\ncall f 0\nfun g\ncall g 0\nassign b\nstr y\nassign c\n",
        "str z\nassign a\nvar a\nfun f\ncall f 0\nfun g\ncall g 0\nassign b\nstr y\nassign c\n",
        "0 1 ",
    ),
    // A parameter is not a variable of the module: another override of its number changes only that number.
    (
        "var e\nfun f e\nstr x\ncall f 1\nassign a\n",
        "var e\nfun f e\nstr x\ncall f 1\nassign a\noverride e z\n",
        "4 ",
    ),
    // Functions that call each other without end.
    (
        "call g 0\nfun f\ncall f 0\nfun g\ncall f 0\nassign a\nstr y\nassign b\n",
        "call g 0\nfun f\ncall f 0\ngroup\nfun g\ncall f 0\nassign a\nstr y\nassign b\n",
        "0 ",
    ),
    // An added function hides a built-in one of its name.
    (
        "str x\ncall trim 1\nassign a\nstr y\ncall quote 1\nassign b\n",
        "str x\ncall trim 1\nassign a\nstr y\ncall quote 1\nassign b\nvar e\nfun trim e\n",
        "0 ",
    ),
    // Variables that read each other without end; no run takes them.
    (
        "var b\nassign a\nvar a\nassign b\nstr x\nassign c\n",
        "var b\nassign a\nvar a\ngroup\nassign b\nstr x\nassign c\n",
        "0 1 ",
    ),
    // All forms of expressions; in one of them an operand deep inside differs.
    (
        "cmd x\nvar a\nand\nstr y\nor\nstr z\nstr w\neq\nvar b\ngroup\nif\nlist 1\nstr v\nroot\njoin\nassign c\n",
        "cmd x\nvar a\nand\nstr y\nor\nstr z\nstr w\nne\nvar b\ngroup\nif\nlist 1\nstr v\nroot\njoin\nassign c\n",
        "2 ",
    ),
    (
        "cmd x\nvar a\nand\nstr y\nor\nstr z\nstr w\neq\nvar b\ngroup\nif\nlist 1\nstr v\nroot\njoin\nassign c\n",
        "cmd x\nvar a\nand\nstr y\nor\nstr z\nstr w\neq\nvar b\ngroup\nif\nlist 1\nstr v\nroot\njoin\nassign c\n",
        "",
    ),
];

// The same with `a` bound outside: its expression is not evaluated, but its assignment counts.
const BOUND_OUTSIDE: &[(&str, &str, &str)] = &[
    (
        "var c\nassign a\nvar a\nassign b\nstr x\nassign c\n",
        "var c\nassign a\nvar a\nassign b\nstr y\nassign c\n",
        "2 ",
    ),
    (
        "var c\nassign a\nvar a\nassign b\nstr x\nassign c\n",
        "str z\nassign a\nvar a\nassign b\nstr x\nassign c\n",
        "0 1 ",
    ),
    ("var a\nassign b\n", "var a\nassign b\n", ""),
];

/// The numbers that an edit of a case changes.
pub(crate) fn changed_numbers(
    alloc: Global,
    before: &str,
    after: &str,
    outer: &Scope,
) -> Result<BTreeSet<Number>, Fail> {
    let arena = Bump::new(alloc);
    let before = parse_lines(alloc, &arena, before.as_bytes());
    let (before, after) = both(before, parse_lines(alloc, &arena, after.as_bytes()))?;
    changed_in_lines(alloc, &before, &after, outer)
}

// The values of both, or the first refusal.
fn both<T: Drop, E: Drop>(one: Result<T, E>, other: Result<T, E>) -> Result<(T, T), E> {
    Ok((one?, other?))
}

fn changed_in_lines<'src>(
    alloc: Global,
    before: &'src [Line<'src>],
    after: &'src [Line<'src>],
    outer: &Scope,
) -> Result<BTreeSet<Number>, Fail> {
    let (before, after) = both(build(alloc, before), build(alloc, after))?;
    Ok(changed_between(alloc, before, after, outer)?)
}

fn changed_between<'src>(
    alloc: Global,
    before: Case<'src>,
    after: Case<'src>,
    outer: &Scope,
) -> Result<BTreeSet<Number>, OutOfMemory> {
    let before = Module::new(alloc, before);
    let after = Module::new(alloc, after);
    let numbers = changed(
        alloc,
        &before.justfile,
        &before.overrides,
        &after.justfile,
        &after.overrides,
        outer,
    );
    drop(before);
    drop(after);
    numbers
}

// The module that a case describes, and its overrides.
#[derive(Drop)]
struct Module<'src> {
    justfile: Justfile<'src>,
    overrides: HashMap<Number, String>,
}

impl<'src> Module<'src> {
    fn new(alloc: Global, case: Case<'src>) -> Module<'src> {
        let Case {
            assignments,
            evaluation_order,
            functions,
            overrides,
            ..
        } = case;
        let justfile = Justfile {
            assignments,
            evaluation_order,
            functions,
            module_path: String::new(alloc),
            settings: Settings::new(alloc),
            source: String::new(alloc),
            submodule: false,
            unexports: Vec::new(alloc),
            working_directory: String::new(alloc),
        };
        Module {
            justfile,
            overrides,
        }
    }
}

// The numbers that an edit changes, each followed by a space.
fn reported(alloc: Global, before: &str, after: &str, outer: &Scope) -> Result<String, Fail> {
    let before = case_text(alloc, before)?;
    let after = case_text(alloc, after)?;
    let numbers = changed_numbers(alloc, &before, &after, outer)?;
    Ok(reported_of(alloc, &numbers)?)
}

// The text of a case with these lines in the middle.
fn case_text(alloc: Global, lines: &str) -> Result<String, OutOfMemory> {
    Ok(format!(in alloc; "{HEAD}{lines}{TAIL}")?)
}

fn reported_of(alloc: Global, numbers: &BTreeSet<Number>) -> Result<String, OutOfMemory> {
    let mut reported = String::new(alloc);
    for place in 0..5 {
        if numbers.contains(&Number::new(place)) {
            write!(reported, "{place} ")?;
        }
    }
    Ok(reported)
}

#[test]
fn edits(rt: HostRuntime) -> Result<(), Fail> {
    let outer = Scope::root(rt.alloc(), &[])?;
    let reported = each_reports(&rt, rt.alloc(), EDITS, &outer);
    drop(outer);
    reported
}

// Each edit changes these numbers.
fn each_reports(
    rt: &impl Abort,
    alloc: Global,
    edits: &[(&str, &str, &str)],
    outer: &Scope,
) -> Result<(), Fail> {
    for (before, after, expected) in edits {
        let reported = reported(alloc, before, after, outer)?;
        assert_eq!(rt; reported.as_str(), *expected, "{before}to\n{after}");
    }
    Ok(())
}

#[test]
fn bound_outside(rt: HostRuntime) -> Result<(), Fail> {
    // `a` has no element.
    let outer = outer(&rt, rt.alloc(), "a", Value::new(rt.alloc()));
    let reported = each_reports(&rt, rt.alloc(), BOUND_OUTSIDE, &outer);
    drop(outer);
    reported
}
