// Calls with a thousand names, words and lines, which no case reaches. If there is memory each must succeed; no clause
// forbids a call to give up.

use crate::arguments;
use crate::texts::{analyzed, numbered_module, pairs};
use just_host::justfile::Justfile;
use just_needs::needed::needed;
use just_needs::references::references;
use just_report::report::report;
use just_resolve::name_faults::name_faults;
use just_resolve::names::Names;
use just_resolve::numbered::numbered;
use just_syntax::expression::Expression;
use just_syntax::number::Number;
use just_syntax::place::Place;
use just_syntax::token::Token;
use just_value::scope::Scope;
use std::alloc::Global;
use std::collections::HashMap;
use std::process::Abort;

// The numbers from 1000 to 1999, each between two texts.
fn thousand(rt: &impl Abort, alloc: Global, front: &str, back: &str) -> String {
    let mut text = String::new(alloc);
    for i in 1000..2000u64 {
        write!(text, "{front}{i}{back}").expect(rt, "no memory");
    }
    text
}

// The numbers from 1000 to 1999, each with one that is greater by `more`, between three texts.
fn thousand_pairs(
    rt: &impl Abort,
    alloc: Global,
    (front, between, back): (&str, &str, &str),
    more: u64,
) -> String {
    let mut text = String::new(alloc);
    for i in 1000..2000u64 {
        let other = i.saturating_add(more);
        write!(text, "{front}{i}{between}{other}{back}").expect(rt, "no memory");
    }
    text
}

// Words, apart.
fn apart<'text>(rt: &impl Abort, alloc: Global, words: &'text str) -> Vec<&'text str> {
    let words = words.split_whitespace().collect::<Vec<&str>>(alloc);
    words.expect(rt, "no memory")
}

fn is_thousand(rt: &impl Abort, of: &str, count: usize) {
    assert_eq!(rt; count, 1000, "{of}");
}

// A chain of a thousand variables, each of which reads the next one.
#[test]
fn a_thousand_needed_variables(rt: HostRuntime) {
    let alloc = rt.alloc();
    let text = thousand_pairs(&rt, alloc, ("a", " := a", "\n"), 1);
    let numbers = thousand_pairs(&rt, alloc, ("a", " ", " "), 0);
    let names = thousand(&rt, alloc, "a", " ");
    of_chain(&rt, alloc, &text, &numbers, &names);
}

// The first name of a chain needs a thousand variables, and so do all of its names.
fn of_chain<'src>(
    rt: &impl Abort,
    alloc: Global,
    text: &'src str,
    numbers: &'src str,
    names: &str,
) {
    let outer = Scope::root(alloc, &[]).expect(rt, "no memory");
    let module = numbered_module(rt, alloc, text, numbers);
    need_thousand(&module, &outer, rt, alloc, "a1000");
    need_thousand(&module, &outer, rt, alloc, names);
    drop(module);
    drop(outer);
}

fn need_thousand<'src>(
    module: &Justfile<'src>,
    outer: &Scope<'src, '_>,
    rt: &impl Abort,
    alloc: Global,
    names: &str,
) {
    let names = apart(rt, alloc, names);
    let set = needed(alloc, module, outer, &HashMap::new(alloc), &names);
    is_thousand(rt, "needed", set.expect(rt, "no memory").len());
}

// A thousand variables in an expression, and as many names with other numbers.
#[test]
fn a_thousand_numbered_variables(rt: HostRuntime) {
    let alloc = rt.alloc();
    let reads = thousand(&rt, alloc, "a", ", ");
    let text = format!(in alloc; "all := [{reads}]\n").expect(&rt, "no memory");
    let numbers = thousand_pairs(&rt, alloc, ("a", " ", " "), 0);
    let others = thousand_pairs(&rt, alloc, ("a", " ", " "), 1000);
    of_list(&rt, alloc, &text, &numbers, &others);
}

fn of_list<'src>(
    rt: &impl Abort,
    alloc: Global,
    text: &'src str,
    numbers: &'src str,
    others: &'src str,
) {
    let outer = Scope::root(alloc, &[]).expect(rt, "no memory");
    let module = numbered_module(rt, alloc, text, numbers);
    renumber_thousand(&module, &outer, rt, alloc, others);
    drop(module);
    drop(outer);
}

fn renumber_thousand<'src>(
    module: &Justfile<'src>,
    outer: &Scope<'src, '_>,
    rt: &impl Abort,
    alloc: Global,
    others: &'src str,
) {
    let all = module.assignments.get("all").expect(rt, "`all`");
    let mut names = Names::of(alloc, module, outer).expect(rt, "no memory");
    let set = names.set_parameters(&pairs(rt, alloc, others));
    set.expect(rt, "no memory");
    let copy = numbered(&all.value, &names).expect(rt, "no memory");
    is_from(&all.value, rt, alloc, 1000);
    is_from(&copy, rt, alloc, 2000);
    drop(copy);
}

// An expression reads a thousand numbers, the first of which is this.
fn is_from(expression: &Expression, rt: &impl Abort, alloc: Global, first: u64) {
    let read = references(alloc, expression).expect(rt, "no memory");
    is_thousand(rt, "references", read.len());
    let has_first = read.contains(&Number::new(first));
    assert!(rt; has_first, "{first} is read");
}

// A thousand names that nothing has.
#[test]
fn a_thousand_faults(rt: HostRuntime) {
    let alloc = rt.alloc();
    let reads = thousand(&rt, alloc, "x", ", ");
    let text = format!(in alloc; "all := [{reads}]\n").expect(&rt, "no memory");
    is_thousand(&rt, "faults", faults_of(&rt, alloc, &text));
}

// How many names of a text nothing has.
fn faults_of<'src>(rt: &impl Abort, alloc: Global, text: &'src str) -> usize {
    let outer = Scope::root(alloc, &[]).expect(rt, "no memory");
    let analysis = analyzed(rt, alloc, text);
    let count = count_of_faults(&analysis.justfile, &outer, rt, alloc);
    drop(analysis);
    drop(outer);
    count
}

fn count_of_faults<'src>(
    module: &Justfile<'src>,
    outer: &Scope<'src, '_>,
    rt: &impl Abort,
    alloc: Global,
) -> usize {
    let faults = name_faults(alloc, module, outer).expect(rt, "no memory");
    faults.len()
}

// A thousand words for one parameter, and for a thousand.
#[test]
fn a_thousand_words(rt: HostRuntime) {
    let alloc = rt.alloc();
    let words = thousand(&rt, alloc, "|x", "");
    let elements = thousand(&rt, alloc, ",x", "");
    let given = arguments::given(&rt, alloc, "r +p:\n", &words);
    let is_list = given.trim_start_matches('[').trim_end_matches(']')
        == elements.trim_start_matches(',');
    assert!(rt; is_list, "a thousand elements");
}

#[test]
fn a_thousand_arguments(rt: HostRuntime) {
    let alloc = rt.alloc();
    let words = thousand(&rt, alloc, "|x", "");
    let parameters = thousand(&rt, alloc, " p", "");
    let text = format!(in alloc; "r{parameters}:\n").expect(&rt, "no memory");
    let given = arguments::given(&rt, alloc, &text, &words);
    let is_each = given == thousand(&rt, alloc, "[x", "]");
    assert!(rt; is_each, "a thousand arguments");
}

// A long name on the last of many lines.
#[test]
fn a_thousand_lines(rt: HostRuntime) {
    let alloc = rt.alloc();
    let name = "y".repeat(alloc, 1000).expect(&rt, "no memory");
    let marks = "^".repeat(alloc, 1000).expect(&rt, "no memory");
    let lines = "\n".repeat(alloc, 1000).expect(&rt, "no memory");
    let source = format!(in alloc; "{lines}{name}\n").expect(&rt, "no memory");
    let place = Place {
        column: 0,
        line: 1000,
        offset: 1000,
        path: "justfile",
    };
    let token = Token::new(&name, Some(place));
    let reported = report(alloc, &"no such variable", &token, &source).expect(&rt, "no memory");
    let wanted = format!(in alloc;
        "error: no such variable\n    ——▶ justfile:1001:1\n     │\n\
        1001 │ {name}\n     │ {marks}\n"
    );
    assert_eq!(rt; reported, wanted.expect(&rt, "no memory"));
}
