// Names, shapes, and the results of built-in functions.

mod answers;
mod around;
mod names;
mod questions;
mod rows;
mod scripted;
mod sizes;

use crate::around::Around;
use crate::texts::{gives, long, same, same_of};
use answers::{ANSWERS, Answers};
use around::{Place, answer, around_at};
use just_builtins::function::{Function, functions, get, is_left_out};
use just_builtins::path;
use just_host::execution_context::ExecutionContext;
use names::{LEFT_OUT, NAMES, NO_NAMES};
use questions::{COMMANDS, DRY_COMMANDS, FILES, FILES_WITH_LISTS, NUMBERS, Question, VARIABLES};
use rows::{
    CALLS, CALLS_WITHOUT_LISTS, IN_NO_FILE, OTHER_SURROUNDINGS, Row, SHAPES, SURROUNDINGS,
    WITHOUT_A_PARENT,
};
use scripted::{Given, Scripted};
use sizes::{LONG, LONG_DRY, LONG_WITHOUT_LISTS};
use std::alloc::{AllocError, Global};
use std::process::Abort;

#[test]
fn each_name(rt: HostRuntime) {
    for row in NAMES {
        is_named(&rt, rt.alloc(), row);
    }
    all_are(&rt, rt.alloc(), LEFT_OUT, "None None true");
    all_are(&rt, rt.alloc(), NO_NAMES, "None None false");
    assert_eq!(rt; functions().len(), 77);
}

// Each name after a function denotes it, and is not left out.
fn is_named(rt: &impl Abort, alloc: Global, row: &str) {
    let (function, names) = row.split_once(' ').expect(rt, "no name");
    let wanted = format!(in alloc; "Some({function}) Some({function}) false");
    all_are(rt, alloc, names, &wanted.expect(rt, "no memory"));
}

// The report on each of these names is as expected.
fn all_are(rt: &impl Abort, alloc: Global, names: &str, wanted: &str) {
    for name in names.split(' ') {
        let reported = reported_name(alloc, name).expect(rt, "no memory");
        same_of(rt, name, &reported, wanted);
    }
}

// What a name denotes, by look-up and in the list of all, and whether it is left out.
fn reported_name(alloc: Global, name: &str) -> Result<String, AllocError> {
    format!(in alloc; "{:?} {:?} {}", get(name), listed(name), is_left_out(name))
}

// What a name denotes in the list of all.
fn listed(name: &str) -> Option<Function> {
    let mut found = None;
    for (other, function) in functions() {
        if *other == name {
            found = Some(*function);
        }
    }
    found
}

#[test]
fn shapes(rt: HostRuntime) {
    for (function, wanted) in SHAPES {
        let reported = reported_shape(rt.alloc(), *function).expect(&rt, "no memory");
        same(&rt, &reported, wanted);
    }
}

// A function, its smallest and largest number of arguments, and whether those at 0, 1 and 2 must be texts.
fn reported_shape(alloc: Global, function: Function) -> Result<String, AllocError> {
    let texts = [
        function.is_text(0),
        function.is_text(1),
        function.is_text(2),
    ];
    format!(in alloc;
        "{function:?} {:?} {texts:?}",
        function.expected_arguments()
    )
}

// With lists, outside a recipe.
const WITH_LISTS: Place = Place {
    caller: "shared/é.just",
    dry_run: false,
    jobs: None,
    justfile: "/work/justfile",
    lists: true,
    module_path: "sub",
    recipe: None,
    set: None,
    source: "/work/sub/mod.just",
};

const WITHOUT_LISTS: Place = Place {
    lists: false,
    ..WITH_LISTS
};

const WITH_DOTENV: Place = Place {
    set: Some("dot"),
    ..WITH_LISTS
};

const DRY: Place = Place {
    dry_run: true,
    ..WITH_LISTS
};

// In the recipe `build`, which runs as a dependency, with paths that have no parent.
const AT_THE_ROOT: Place = Place {
    jobs: Some(12),
    justfile: "/",
    module_path: "",
    recipe: Some("build"),
    source: "",
    ..WITH_LISTS
};

const PARENTLESS: Place = Place {
    caller: "justfile",
    justfile: "",
    source: "/",
    ..AT_THE_ROOT
};

const NO_FILE: Place = Place {
    caller: "",
    justfile: "/j",
    source: "/",
    ..AT_THE_ROOT
};

// A place, the calls there that ask questions, and those that ask none.
type Table = (Place, &'static [Question], &'static [Row]);

const TABLES: &[Table] = &[
    (WITH_LISTS, NUMBERS, CALLS),
    (WITHOUT_LISTS, FILES, CALLS_WITHOUT_LISTS),
    (WITH_LISTS, FILES_WITH_LISTS, SURROUNDINGS),
    (WITH_DOTENV, VARIABLES, &[]),
    (WITH_LISTS, COMMANDS, &[]),
    (DRY, DRY_COMMANDS, &[]),
    (AT_THE_ROOT, &[], OTHER_SURROUNDINGS),
    (PARENTLESS, &[], WITHOUT_A_PARENT),
    (NO_FILE, &[], IN_NO_FILE),
];

#[test]
fn calls(rt: HostRuntime) {
    for table in TABLES {
        compare(&rt, rt.alloc(), table);
    }
}

// Compares the questions and results of a table's calls with what is expected.
fn compare<'src>(rt: &impl Abort, alloc: Global, table: &'src Table) {
    let around = around_at(rt, alloc, &table.0);
    compare_rows(&around.context(), rt, alloc, table);
    drop(around);
}

fn compare_rows<'src>(
    context: &ExecutionContext<'src, '_>,
    rt: &impl Abort,
    alloc: Global,
    table: &'src Table,
) {
    let (place, questions, rows) = table;
    for (given, row) in *questions {
        reports_row(context, rt, alloc, place, *given, row);
    }
    for row in *rows {
        reports_row(context, rt, alloc, place, Given::OutOfMemory, row);
    }
}

// The places of calls with a thousand elements or pieces, and their questions and results.
const SIZES: &[(Place, &[Question])] = &[
    (WITH_LISTS, LONG),
    (WITHOUT_LISTS, LONG_WITHOUT_LISTS),
    (DRY, LONG_DRY),
];

#[test]
fn calls_of_a_thousand(rt: HostRuntime) {
    for (place, questions) in SIZES {
        for (given, row) in *questions {
            compare_long(&rt, rt.alloc(), place, *given, row);
        }
    }
}

// The same for a row in the notation of `long`.
fn compare_long(rt: &impl Abort, alloc: Global, place: &Place, given: Given, row: &str) {
    let row = long(rt, alloc, row);
    compare_row(rt, alloc, place, given, &row);
}

// In a place, the questions and the result of a row's call are as expected.
fn compare_row<'src>(
    rt: &impl Abort,
    alloc: Global,
    place: &'src Place,
    given: Given,
    row: &'src str,
) {
    let around = around_at(rt, alloc, place);
    reports_row(&around.context(), rt, alloc, place, given, row);
    drop(around);
}

// The questions and the result of a row's call are as expected.
fn reports_row<'src>(
    context: &ExecutionContext<'src, '_>,
    rt: &impl Abort,
    alloc: Global,
    place: &'src Place,
    given: Given,
    row: &'src str,
) {
    let (call, reported) = row.split_once(" => ").expect(rt, "no answer");
    reports(context, rt, alloc, place, given, call, "", reported);
}

// With a host that gives this answer, a call asks this and returns this.
fn reports<'src>(
    context: &ExecutionContext<'src, '_>,
    rt: &impl Abort,
    alloc: Global,
    place: &'src Place,
    given: Given,
    call: &'src str,
    asked: &str,
    wanted: &str,
) {
    let mut host = Scripted::new(alloc, given);
    let answer = answer(context, rt, alloc, &mut host, place, call);
    host.reported.push_str(&answer).expect(rt, "no memory");
    drop(answer);
    is_reported(rt, call, &host.reported, asked, wanted);
    drop(host);
}

// The report on a call is its questions, and then its result.
fn is_reported(rt: &impl Abort, call: &str, reported: &str, asked: &str, wanted: &str) {
    assert_eq!(rt; reported.strip_prefix(asked), Some(wanted), "{call}");
}

#[test]
fn each_kind_of_answer(rt: HostRuntime) {
    compare_answers(&rt, rt.alloc(), &WITH_LISTS);
}

fn compare_answers<'src>(rt: &impl Abort, alloc: Global, place: &'src Place) {
    let around = around_at(rt, alloc, place);
    compare_each(&around.context(), rt, alloc, place);
    drop(around);
}

fn compare_each<'src>(
    context: &ExecutionContext<'src, '_>,
    rt: &impl Abort,
    alloc: Global,
    place: &'src Place,
) {
    for row in ANSWERS {
        compare_kinds(context, rt, alloc, place, row);
    }
}

// Compares the result of a call for each kind of answer with what is expected.
fn compare_kinds<'src>(
    context: &ExecutionContext<'src, '_>,
    rt: &impl Abort,
    alloc: Global,
    place: &'src Place,
    row: &'src Answers,
) {
    let (call, asked, [absent, not_text, fault]) = *row;
    let kinds = [
        (Given::Text("/t"), "/t"),
        (Given::Absent, absent),
        (Given::NotText("x"), not_text),
        (Given::Fault("m"), fault),
        (Given::OutOfMemory, "OutOfMemory"),
    ];
    for (given, wanted) in kinds {
        reports(context, rt, alloc, place, given, call, asked, wanted);
    }
}

#[test]
fn paths_passed_on(rt: HostRuntime) {
    gives(&rt, path::join(rt.alloc(), "a", "b"), "a/b");
    let given = [
        path::parent("a/b"),
        path::file_name("a/b.c"),
        path::file_stem("a/b.c"),
        path::extension("a/b.c"),
    ];
    are_same(&rt, given, [Some("a"), Some("b.c"), Some("b"), Some("c")]);
}

fn are_same(rt: &impl Abort, given: [Option<&str>; 4], wanted: [Option<&str>; 4]) {
    assert_eq!(rt; given, wanted);
}
