// What `Debug` writes: the fields by name, as a derive of Rust does, and the scope of a context after them.

use crate::compared::{is_so, reports};
use crate::modules::{Part, assignments, module};
use crate::parts::value;
use just_host::config::Config;
use just_host::execution_context::ExecutionContext;
use just_host::justfile::Justfile;
use just_host::search::Search;
use just_syntax::number::Number;
use just_value::scope::Scope;
use std::alloc::Global;
use std::collections::{BTreeMap, HashMap};
use std::process::Abort;

// The assignment `a := [v]`, in a table.
const TABLE: &str = "{\"a\": Assignment { eager: false, export: false, \
    name: Name { token: Token { column: 2, line: 1, offset: 7, lexeme: \"a\", path: \"justfile\" } }, \
    number: Number(3), private: false, value: List { elements: [Variable { \
    name: Name { token: Token { column: 2, line: 1, offset: 0, lexeme: \"v\", path: \"justfile\" } }, \
    number: Some(Number(4)) }], \
    token: Token { column: 2, line: 1, offset: 7, lexeme: \"[\", path: \"justfile\" } } }}";

#[test]
fn tables_of_assignments(rt: HostRuntime) {
    let alloc = rt.alloc();
    let table = assignments(&rt, alloc, &[("a", 3, &[Part::Read(4)])]);
    let reported = format!(in alloc; "{table:?}").expect(&rt, "no memory");
    reports(&rt, reported, TABLE);
}

#[test]
fn values(rt: HostRuntime) {
    let value = value(&rt, rt.alloc(), &["a", "b"]);
    let reported = format!(in rt.alloc(); "{value:?}").expect(&rt, "no memory");
    reports(&rt, reported, "Value { elements: [\"a\", \"b\"] }");
}

// What a context borrows.
#[derive(Drop)]
struct Around<'src> {
    config: Config,
    dotenv: BTreeMap<String, String>,
    module: Justfile<'src>,
    overrides: HashMap<Number, String>,
    scope: Scope<'src, 'src>,
    search: Search,
}

// For an empty module, in a scope that binds one constant.
fn surroundings<'src>(rt: &impl Abort, alloc: Global) -> Around<'src> {
    Around {
        config: Config::new(alloc, "/called/here").expect(rt, "no memory"),
        dotenv: BTreeMap::new(alloc),
        module: module(rt, alloc, &(&[], &[], &[])),
        overrides: HashMap::new(alloc),
        scope: Scope::root(alloc, &[("k", "v")]).expect(rt, "no memory"),
        search: Search::new(alloc, "/work/justfile", "/work").expect(rt, "no memory"),
    }
}

// What `Debug` writes for a context.
fn reported_context(rt: &impl Abort, alloc: Global, context: &ExecutionContext) -> String {
    format!(in alloc; "{context:?}").expect(rt, "no memory")
}

// What `Debug` writes for the context of these parts.
fn reported(rt: &impl Abort, alloc: Global, around: &Around) -> String {
    let context = ExecutionContext::new(
        &around.config,
        &around.dotenv,
        &around.module,
        &around.overrides,
        &around.scope,
        &around.search,
    );
    reported_context(rt, alloc, &context)
}

const START: &str =
    "ExecutionContext { config: Config { dry_run: false, invocation_directory: \"/called/here\", ";

const END: &str =
    "working_directory: \"/work\" } } with scope [{\"k\": Value { elements: [\"v\"] }}]";

#[test]
fn contexts(rt: HostRuntime) {
    let around = surroundings(&rt, rt.alloc());
    let reported = reported(&rt, rt.alloc(), &around);
    drop(around);
    is_so(&rt, START, reported.starts_with(START));
    is_so(&rt, END, reported.ends_with(END));
    drop(reported);
}
