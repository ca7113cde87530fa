// The defaults of a context.

use crate::around::{Around, called, compares, insert, module_at};
use crate::texts::{gives, is_either, owned, same};
use just_host::execution_context::{ExecutionContext, RECURSION_LIMIT};
use just_host::justfile::Justfile;
use just_host::settings::Settings;
use just_syntax::number::Number;
use just_syntax::numerator::Numerator;
use std::alloc::{AllocError, Global};
use std::collections::{BTreeMap, HashMap};
use std::process::Abort;

// The configuration has no options, only the directory `/called/here`.
const CONFIG: &str =
    "Config { dry_run: false, invocation_directory: \"/called/here\", jobs: None, quiet: false, \
    shell: None, shell_args: None, shell_command: false }";

const SEARCH: &str = "Search { justfile: \"/work/justfile\", working_directory: \"/work\" }";

#[test]
fn context_of_its_parts(rt: HostRuntime) {
    parts_are_reported(&rt, rt.alloc(), "/work/a.just");
}

fn parts_are_reported<'src>(rt: &impl Abort, alloc: Global, source: &'src str) {
    let around = around_of(rt, alloc, source);
    are_reported(&around, rt, alloc);
    drop(around);
}

// With a variable of a dotenv file, an override, and a bound variable.
fn around_of<'src>(rt: &impl Abort, alloc: Global, source: &'src str) -> Around<'src> {
    let module = module_at(rt, alloc, source, "/module");
    let config = called(rt, alloc);
    let mut around = Around::new(rt, alloc, module, config, "/work/justfile", "/work");
    insert(rt, alloc, &mut around.dotenv, "K", "v");
    give(rt, alloc, &mut around.overrides);
    around
}

// Adds an override.
fn give(rt: &impl Abort, alloc: Global, overrides: &mut HashMap<Number, String>) {
    let inserted: Result<_, _> = overrides.insert(Number::new(7), owned(rt, alloc, "o"));
    inserted.expect(rt, "no memory");
}

fn are_reported<'src>(around: &Around<'src>, rt: &impl Abort, alloc: Global) {
    is_reported(rt, format!(in alloc; "{:?}", around.config), CONFIG);
    is_reported(rt, format!(in alloc; "{:?}", around.search), SEARCH);
    holds_nothing(&around.module, rt);
    sets_nothing(rt, alloc, &around.module.settings);
    let context = ExecutionContext::new(
        &around.config,
        &around.dotenv,
        &around.module,
        &around.overrides,
        &around.scope,
        &around.search,
    );
    is_made_of_them(&context, rt, alloc);
}

fn is_reported(rt: &impl Abort, reported: Result<String, AllocError>, wanted: &str) {
    same(rt, &reported.expect(rt, "no memory"), wanted);
}

fn sets_nothing(rt: &impl Abort, alloc: Global, settings: &Settings) {
    let unset = Settings::new(alloc);
    compares(rt, settings, &unset, true);
    drop(unset);
}

// A module is the root in the file `/work/a.just`, and is empty.
fn holds_nothing<'src>(module: &Justfile<'src>, rt: &impl Abort) {
    let has_items = !module.assignments.is_empty() || !module.functions.is_empty();
    let has_names = !module.evaluation_order.is_empty() || !module.unexports.is_empty();
    is_either(rt, "items", has_items || has_names, false);
    same(rt, &module.module_path, "");
    same(rt, &module.source, "/work/a.just");
    same(rt, &module.working_directory, "/module");
    is_either(rt, "submodule", module.is_submodule(), false);
}

// A context has the parts it was built from, and the usual limit.
fn is_made_of_them<'src>(context: &ExecutionContext<'src, '_>, rt: &impl Abort, alloc: Global) {
    gives(rt, context.working_directory(alloc), "/work");
    assert_eq!(rt; [context.recursion_limit, RECURSION_LIMIT], [100; 2]);
    same(rt, &context.config.invocation_directory, "/called/here");
    same(rt, &context.module.working_directory, "/module");
    is_reported(
        rt,
        reported_variables(alloc, context.dotenv, context.overrides),
        "Some(\"v\") Some(\"o\")",
    );
    let constant = context.scope.value(Numerator::constant(0));
    is_either(rt, "a constant", constant.is_some(), true);
}

// A variable of a dotenv file, and an override.
fn reported_variables(
    alloc: Global,
    dotenv: &BTreeMap<String, String>,
    overrides: &HashMap<Number, String>,
) -> Result<String, AllocError> {
    format!(in alloc;
        "{:?} {:?}",
        dotenv.get("K"),
        overrides.get(&Number::new(7))
    )
}
