// Word lists and positional words.

use crate::compared::{is_so, reports};
use crate::parts::made_prints;
use just_syntax::out_of_memory::OutOfMemory;
use just_value::list::List;
use just_value::positional::Positional;
use std::alloc::Global;
use std::process::Abort;

// Numbers, and the lists of them.
struct Lists {
    numbers: &'static [i32],
    or: &'static str,
    and: &'static str,
    or_ticked: &'static str,
    and_ticked: &'static str,
}

const LISTS: &[Lists] = &[
    Lists {
        numbers: &[],
        or: "",
        and: "",
        or_ticked: "",
        and_ticked: "",
    },
    Lists {
        numbers: &[1],
        or: "1",
        and: "1",
        or_ticked: "`1`",
        and_ticked: "`1`",
    },
    Lists {
        numbers: &[1, 2],
        or: "1 or 2",
        and: "1 and 2",
        or_ticked: "`1` or `2`",
        and_ticked: "`1` and `2`",
    },
    Lists {
        numbers: &[1, 2, 3],
        or: "1, 2, or 3",
        and: "1, 2, and 3",
        or_ticked: "`1`, `2`, or `3`",
        and_ticked: "`1`, `2`, and `3`",
    },
    Lists {
        numbers: &[1, 2, 3, 4],
        or: "1, 2, 3, or 4",
        and: "1, 2, 3, and 4",
        or_ticked: "`1`, `2`, `3`, or `4`",
        and_ticked: "`1`, `2`, `3`, and `4`",
    },
];

fn list_all(rt: &impl Abort, alloc: Global, lists: &Lists) {
    let numbers = lists.numbers;
    made_prints(rt, alloc, List::or(alloc, numbers), lists.or);
    made_prints(rt, alloc, List::and(alloc, numbers), lists.and);
    made_prints(rt, alloc, List::or_ticked(alloc, numbers), lists.or_ticked);
    made_prints(
        rt,
        alloc,
        List::and_ticked(alloc, numbers),
        lists.and_ticked,
    );
}

#[test]
fn word_lists(rt: HostRuntime) {
    for lists in LISTS {
        list_all(&rt, rt.alloc(), lists);
    }
}

// Positional words, and the report on them: the overrides in parentheses, with a `:` after each key, the directory in
// brackets, and the arguments in quotes.
const POSITIONAL: &[(&[&str], &str)] = &[
    (&[], ""),
    (&["foo", "bar"], "'foo''bar'"),
    (&["foo=bar", "bar=foo"], "(foo:bar)(bar:foo)"),
    (&["the-dir/", "baz", "bzzd"], "[the-dir/]'baz''bzzd'"),
    (
        &["foo=bar", "bar=foo", "baz", "bzzd"],
        "(foo:bar)(bar:foo)'baz''bzzd'",
    ),
    (
        &["foo=bar", "bar=foo", "the-dir/"],
        "(foo:bar)(bar:foo)[the-dir/]",
    ),
    (
        &["foo=bar", "bar=foo", ".", "garnor"],
        "(foo:bar)(bar:foo)[.]'garnor'",
    ),
    (
        &["foo=bar", "bar=foo", "..", "garnor"],
        "(foo:bar)(bar:foo)[..]'garnor'",
    ),
    (
        &["foo=bar", "bar=foo", "/", "garnor"],
        "(foo:bar)(bar:foo)[/]'garnor'",
    ),
    (
        &["foo=bar", "bar=foo", "baz", "bzzd", "bar/"],
        "(foo:bar)(bar:foo)'baz''bzzd''bar/'",
    ),
    (&["..", "a=b"], "[..]'a=b'"),
    (&["a", "a=b"], "'a''a=b'"),
    (&["=x", ".", "=y"], "(:x)[.]'=y'"),
    (&["./x=1", "a/b", "c=d"], "(./x:1)[a/]'b''c=d'"),
    (&["a/b=c"], "(a/b:c)"),
    (&["a=b=c", "x/y/z"], "(a:b=c)[x/y/]'z'"),
    (&["...", "."], "'...''.'"),
];

fn reported(rt: &impl Abort, alloc: Global, positional: &Positional) -> String {
    let mut reported = String::new(alloc);
    for (key, value) in &positional.overrides {
        write!(reported, "({key}:{value})").expect(rt, "no memory");
    }
    if let Some(directory) = &positional.search_directory {
        write!(reported, "[{directory}]").expect(rt, "no memory");
    }
    for argument in &positional.arguments {
        write!(reported, "'{argument}'").expect(rt, "no memory");
    }
    reported
}

// The report on positional words, whose construction may fail, is as expected.
pub(crate) fn are_reported(
    rt: &impl Abort,
    alloc: Global,
    made: Result<Positional, OutOfMemory>,
    wanted: &str,
) {
    let positional = made.expect(rt, "no memory");
    reports(rt, reported(rt, alloc, &positional), wanted);
}

#[test]
fn positional_words(rt: HostRuntime) {
    let alloc = rt.alloc();
    for (words, wanted) in POSITIONAL {
        let positional = Positional::from_values(alloc, words.iter().copied());
        are_reported(&rt, alloc, positional, wanted);
    }
}

#[test]
fn words_that_mean_the_same(rt: HostRuntime) {
    let alloc = rt.alloc();
    let one = Positional::from_values(alloc, ["a/b", "c"]).expect(&rt, "no memory");
    let other = Positional::from_values(alloc, ["a/", "b", "c"]).expect(&rt, "no memory");
    let third = Positional::from_values(alloc, ["a/", "c"]).expect(&rt, "no memory");
    is_so(&rt, "same words", one == other);
    is_so(&rt, "other words", one != third);
}
