// Tables of a thousand keys, a thousand names of variables, and texts of hundreds of lines.

use crate::compared::{equal, is_so, reports};
use crate::modules::assignments;
use crate::parts::{name, push, token};
use crate::sizes::{Long, beside_themselves, borrowed, long, thousand, twice, variables};
use crate::syntax::{Named, has_length, keeps, keys_twice, table_of};
use crate::variables::{has, pairs, text_of};
use just_syntax::attribute::Attribute;
use just_syntax::attribute_set::AttributeSet;
use just_syntax::expression::Expression;
use just_syntax::number::Number;
use just_syntax::string_literal::StringLiteral;
use just_syntax::table::Table;
use just_syntax::unindent;
use just_syntax::variables::{overrides_of, references_of, set_of};
use std::alloc::Global;
use std::collections::{HashMap, HashSet};
use std::process::Abort;

// Keys, and a table with a value for each of them, the last first.
fn backwards<'a>(rt: &impl Abort, alloc: Global, keys: &'a [String]) -> Table<Named<'a>> {
    let mut all = borrowed(rt, alloc, keys);
    all.reverse();
    table_of(rt, alloc, &all)
}

#[test]
fn table_of_a_thousand_keys(rt: HostRuntime) {
    let alloc = rt.alloc();
    let keys = thousand(&rt, alloc);
    let table = backwards(&rt, alloc, &keys);
    keeps_all(&rt, &table, &keys);
    let reported = keys_twice(&rt, alloc, table);
    reports(&rt, reported, &twice(&rt, alloc, &keys));
}

// A table has a value at each of a thousand keys, the last first.
fn keeps_all(rt: &impl Abort, table: &Table<Named>, keys: &[String]) {
    has_length(rt, table, 1000);
    for (place, key) in keys.iter().rev().enumerate() {
        keeps(rt, table, key, Some(place as u64));
    }
}

// Long texts, and the same without their indentation.
const UNINDENTED: &[(Long, Long)] = &[
    (("", "    line\n", 300, ""), ("", "line\n", 300, "")),
    (("\n", "\t a\n\n", 300, "\t b"), ("", "a\n\n", 300, "b")),
    (("  ", "long ", 1000, "\n"), ("", "long ", 1000, "\n")),
];

#[test]
fn hundreds_of_lines_unindented(rt: HostRuntime) {
    let alloc = rt.alloc();
    for (text, wanted) in UNINDENTED {
        let unindented = unindent(alloc, &long(&rt, alloc, *text)).expect(&rt, "no memory");
        reports(&rt, unindented, &long(&rt, alloc, *wanted));
    }
}

#[test]
fn a_thousand_variables(rt: HostRuntime) {
    let alloc = rt.alloc();
    let names = thousand(&rt, alloc);
    are_overridden(&rt, alloc, &names);
    are_referenced(&rt, alloc, &names);
    are_in_a_set(&rt, alloc);
}

// A set of a thousand numbers, each inserted twice, has them.
fn are_in_a_set(rt: &impl Abort, alloc: Global) {
    let mut numbers = Vec::new(alloc);
    for place in 0..2000u64 {
        push(rt, &mut numbers, Number::new(place % 1000));
    }
    let set = set_of(alloc, &numbers).expect(rt, "no memory");
    equal(rt, "numbers", set.len(), 1000);
    is_so(rt, "the last", has(&set, 999) && !has(&set, 1000));
}

// A thousand attributes keep their order, and a literal and a command keep their long text.
#[test]
fn a_thousand_attributes_and_pieces(rt: HostRuntime) {
    let alloc = rt.alloc();
    let names = thousand(&rt, alloc);
    have_attributes(&rt, alloc, &names);
    let text = names.join(alloc, "").expect(&rt, "no memory");
    let literal = StringLiteral::new(alloc, &text, "'..'").expect(&rt, "no memory");
    is_so(&rt, "literal", literal.cooked.as_str() == text.as_str());
    let command = Expression::backtick(alloc, &text, token("`..`")).expect(&rt, "no memory");
    is_so(&rt, "command", holds_text(&command, &text));
    let literal = Expression::literal(alloc, &text, "'..'").expect(&rt, "no memory");
    is_so(&rt, "literal", holds_text(&literal, &text));
}

fn have_attributes(rt: &impl Abort, alloc: Global, names: &[String]) {
    let mut attributes = AttributeSet::new(alloc);
    for lexeme in names {
        let pushed = attributes.push(Attribute::Other, name(lexeme));
        pushed.expect(rt, "no memory");
    }
    let mut kept = String::new(alloc);
    for (_, name) in attributes.iter() {
        write!(kept, "{name}").expect(rt, "no memory");
    }
    drop(attributes);
    is_so(
        rt,
        "attributes",
        kept == names.join(alloc, "").expect(rt, "no memory"),
    );
}

// Whether a literal or a command has this text.
fn holds_text(expression: &Expression, text: &str) -> bool {
    match expression {
        Expression::StringLiteral { string_literal } => string_literal.cooked.as_str() == text,
        Expression::Backtick { contents, token: _ } => contents.as_str() == text,
        _ => false,
    }
}

// Each name overrides itself, with its index as number.
fn are_overridden(rt: &impl Abort, alloc: Global, names: &[String]) {
    let pairs = pairs(rt, alloc, &beside_themselves(rt, alloc, names));
    let assignments = assignments(rt, alloc, &variables(rt, alloc, names));
    let overrides = overrides_of(alloc, &assignments, &pairs);
    drop(assignments);
    override_themselves(rt, &overrides.expect(rt, "no overrides"), names);
}

fn override_themselves(rt: &impl Abort, overrides: &HashMap<Number, String>, names: &[String]) {
    equal(rt, "overrides", overrides.len(), 1000);
    for (place, lexeme) in names.iter().enumerate() {
        let text = text_of(overrides, place as u64);
        equal(rt, lexeme, text, Some(lexeme.as_str()));
    }
}

// Each name is referenced, with its index as number.
fn are_referenced(rt: &impl Abort, alloc: Global, names: &[String]) {
    let lexemes = borrowed(rt, alloc, names);
    let assignments = assignments(rt, alloc, &variables(rt, alloc, names));
    let references = references_of(alloc, &assignments, &lexemes);
    drop(assignments);
    contain_all(rt, &references.expect(rt, "no references"), names);
}

fn contain_all(rt: &impl Abort, references: &HashSet<Number>, names: &[String]) {
    equal(rt, "references", references.len(), 1000);
    for (place, lexeme) in names.iter().enumerate() {
        is_so(rt, lexeme, has(references, place as u64));
    }
}
