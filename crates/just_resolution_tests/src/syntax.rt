// Tables, printing, and the small calls.

use crate::compared::{equal, is_so, reports, same};
use crate::parts::{name, prints};
use just_syntax::enclosure::Enclosure;
use just_syntax::keyed::Keyed;
use just_syntax::list_operator::ListOperator;
use just_syntax::name::Name;
use just_syntax::number::Number;
use just_syntax::number_set::NumberSet;
use just_syntax::numerator::Numerator;
use just_syntax::parameter_kind::ParameterKind;
use just_syntax::string_context::StringContext;
use just_syntax::table::Table;
use std::alloc::Global;
use std::process::Abort;

#[derive(Drop)]
pub(crate) struct Named<'src> {
    pub(crate) name: Name<'src>,
    pub(crate) place: u64,
}

impl Keyed for Named<'_> {
    ghost key_text = { λ n. n.name.token.lexeme.now };

    fn key(&self) -> &str {
        self.name.lexeme()
    }
}

// A table with these keys; the value of each is its index.
pub(crate) fn table_of<'a>(rt: &impl Abort, alloc: Global, keys: &[&'a str]) -> Table<Named<'a>> {
    let mut table = Table::new(alloc);
    for (place, lexeme) in keys.iter().enumerate() {
        let inserted = table.insert(Named {
            name: name(lexeme),
            place: place as u64,
        });
        inserted.expect(rt, "no memory");
    }
    table
}

const KEYS: &[&str] = &["b", "a", "", "é", "c", "a"];

const PLACES: &[(&str, Option<u64>)] = &[
    ("", Some(2)),
    ("a", Some(5)),
    ("b", Some(0)),
    ("aa", None),
    ("é", Some(3)),
];

#[test]
fn table_keeps_values_by_key(rt: HostRuntime) {
    has_length(&rt, &Table::new(rt.alloc()), 0);
    let table = table_of(&rt, rt.alloc(), KEYS);
    has_length(&rt, &table, 5);
    for (key, place) in PLACES {
        keeps(&rt, &table, key, *place);
    }
    reports(&rt, keys_twice(&rt, rt.alloc(), table), "abcéabcé");
}

pub(crate) fn has_length(rt: &impl Abort, table: &Table<Named>, len: usize) {
    equal(rt, "length", table.len(), len);
    is_so(rt, "emptiness", table.is_empty() == (len == 0));
}

// A table has this value at a key: the index of the key, or none.
pub(crate) fn keeps(rt: &impl Abort, table: &Table<Named>, key: &str, place: Option<u64>) {
    let given = match table.get(key) {
        Some(named) => Some(named.place),
        None => None,
    };
    equal(rt, key, given, place);
}

// The keys of a table, twice: by an iterator over references, and by one that takes the table.
pub(crate) fn keys_twice(rt: &impl Abort, alloc: Global, table: Table<Named>) -> String {
    let mut keys = String::new(alloc);
    for named in table.iter() {
        keys.push_str(named.key()).expect(rt, "no memory");
    }
    for named in table {
        keys.push_str(named.key()).expect(rt, "no memory");
    }
    keys
}

#[test]
fn numbers_and_names(rt: HostRuntime) {
    equal(&rt, "constant", Numerator::constant(7), Number::new(7));
    is_so(&rt, "6 < 7", Number::new(6) < Number::new(7));
    let name = name("x");
    same(&rt, name.lexeme(), "x");
    same(&rt, name.token.lexeme(), "x");
}

// Numbers that are added to a set with the bound 2, one after another, and whether each is new.
const ADDED: &[(u64, bool)] = &[
    (1, true),
    (u64::MAX, true),
    (2, true),
    (1, false),
    (u64::MAX, false),
];

#[test]
fn sets_of_numbers(rt: HostRuntime) {
    let mut set = NumberSet::new(rt.alloc(), 2).expect(&rt, "no memory");
    for (number, is_new) in ADDED {
        let number = Number::new(*number);
        is_so(&rt, "added before", set.contains(number) != *is_new);
        let added = set.insert(number).expect(&rt, "no memory");
        equal(&rt, "new", added, *is_new);
    }
    is_so(&rt, "0 is no member", !set.contains(Number::new(0)));
}

// Operators on lists, what each puts between two texts, and how it is written.
const OPERATORS: &[(ListOperator, &str, &str)] = &[
    (ListOperator::Concatenate, "", "+"),
    (ListOperator::Join, "/", "/"),
];

#[test]
fn list_operators(rt: HostRuntime) {
    for (operator, separator, text) in OPERATORS {
        same(&rt, operator.separator(), separator);
        prints(&rt, rt.alloc(), operator, text);
    }
}

#[test]
fn where_texts_are_wanted(rt: HostRuntime) {
    let name = name("n");
    for (place, text) in [
        (StringContext::EnvKey(name), "in key of `n` attribute"),
        (StringContext::Function(name), "in argument to function `n`"),
        (StringContext::Setting(name), "in setting `n`"),
    ] {
        equal(&rt, text, place.token(), name.token);
        prints(&rt, rt.alloc(), &place, text);
    }
}

#[test]
fn names_and_enclosures(rt: HostRuntime) {
    let alloc = rt.alloc();
    prints(&rt, alloc, &name("x"), "x");
    prints(&rt, alloc, &Enclosure::tick("a b"), "`a b`");
    let twice = Enclosure::tick(Enclosure::tick(7));
    prints(&rt, alloc, &twice, "``7``");
}

// Kinds of parameters, and whether one takes several arguments.
const KINDS: &[(ParameterKind, bool)] = &[
    (ParameterKind::Singular, false),
    (ParameterKind::Plus, true),
    (ParameterKind::Star, true),
];

#[test]
fn parameter_kinds(rt: HostRuntime) {
    for (kind, variadic) in KINDS {
        is_so(&rt, "several", kind.is_variadic() == *variadic);
    }
}
