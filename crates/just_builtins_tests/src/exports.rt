// What a scope exports.

use crate::texts::{all_owned, gives, list_of, long, same, text_of};
use just_host::exports::exports;
use just_syntax::attribute_set::AttributeSet;
use just_syntax::name::Name;
use just_syntax::number::Number;
use just_syntax::out_of_memory::OutOfMemory;
use just_syntax::place::Place;
use just_value::binding::Binding;
use just_value::scope::Scope;
use just_value::value::Value;
use std::alloc::Global;
use std::process::Abort;

// A name, its value, and whether it is exported.
type Bound = (&'static str, &'static [&'static str], bool);

// The bindings of three frames, the outermost first, and their changes if `u` and `v` are not exported.
const EXPORTS: &[([&[Bound]; 3], &str)] = &[
    ([&[], &[], &[]], "[Remove(\"u\"), Remove(\"v\")]"),
    (
        [
            &[],
            &[],
            &[
                ("b", &["x", "y"], true),
                ("a", &[], true),
                ("c", &["z"], false),
                ("v", &["é"], true),
            ],
        ],
        "[Remove(\"u\"), Remove(\"v\"), Set { name: \"b\", text: \"x y\" }, Set { name: \"a\", text: \"\" }, Set { name: \"v\", text: \"é\" }]",
    ),
    (
        [
            &[("a", &["1"], true), ("u", &["2"], true)],
            &[("b", &["3"], false), ("a", &["4"], true)],
            &[("a", &["5"], true)],
        ],
        "[Set { name: \"a\", text: \"1\" }, Set { name: \"u\", text: \"2\" }, Set { name: \"a\", text: \"4\" }, Remove(\"u\"), Remove(\"v\"), Set { name: \"a\", text: \"5\" }]",
    ),
];

#[test]
fn exported_variables(rt: HostRuntime) {
    for (frames, printed) in EXPORTS {
        export(&rt, rt.alloc(), frames, printed);
    }
}

// The changes of a thousand exported bindings of one name, with a thousand names not exported, in the notation of
// `long`.
const A_THOUSAND: &str = "[~Remove(\"u\"), ~~Set { name: \"n\", text: \"x y\" }, ~";

const BOUND: Bound = ("n", &["x", "y"], true);

#[test]
fn a_thousand_exported_variables(rt: HostRuntime) {
    let alloc = rt.alloc();
    let mut scope = Scope::root(alloc, &[]).expect(&rt, "no memory");
    bind_all(&mut scope, &rt, alloc, &[BOUND; 1000]);
    let unexports = all_owned(&rt, alloc, &["u"; 1000]);
    let given = text_of(&rt, exported(&scope, alloc, &unexports));
    drop(unexports);
    drop(scope);
    let wanted = long(&rt, alloc, A_THOUSAND);
    same(
        &rt,
        given.trim_end_matches(']'),
        wanted.trim_end_matches(", "),
    );
}

// These frames make these changes.
fn export(rt: &impl Abort, alloc: Global, frames: &[&[Bound]; 3], printed: &str) {
    let mut scope = Scope::root(alloc, &[]).expect(rt, "no memory");
    export_all(&mut scope, rt, alloc, frames, printed);
    drop(scope);
}

// The same, with the outermost in a scope that binds nothing yet.
fn export_all(
    root: &mut Scope,
    rt: &impl Abort,
    alloc: Global,
    [outermost, outer, own]: &[&[Bound]; 3],
    printed: &str,
) {
    bind_all(root, rt, alloc, outermost);
    let scope = child(&*root, rt, alloc, outer);
    export_own(&scope, rt, alloc, own, printed);
    drop(scope);
}

// The same for one frame inside a scope.
fn export_own(scope: &Scope, rt: &impl Abort, alloc: Global, own: &[Bound], printed: &str) {
    let scope = child(scope, rt, alloc, own);
    let unexports = all_owned(rt, alloc, &["u", "v"]);
    let given = exported(&scope, alloc, &unexports);
    drop(unexports);
    drop(scope);
    gives(rt, given, printed);
}

// A frame with these bindings inside a scope.
fn child<'out, 'src>(
    outer: &'out Scope<'src, '_>,
    rt: &impl Abort,
    alloc: Global,
    bindings: &[Bound],
) -> Scope<'src, 'out> {
    let mut scope = outer.child(alloc).expect(rt, "no memory");
    bind_all(&mut scope, rt, alloc, bindings);
    scope
}

// Binds these to the numbers 0, 1 and so on.
fn bind_all(scope: &mut Scope, rt: &impl Abort, alloc: Global, bindings: &[Bound]) {
    for (number, bound) in bindings.iter().enumerate() {
        let binding = binding(rt, alloc, Number::new(number as u64), bound);
        scope.bind(binding).expect(rt, "no memory");
    }
}

fn binding<'src>(rt: &impl Abort, alloc: Global, number: Number, bound: &Bound) -> Binding<'src> {
    let (lexeme, texts, export) = *bound;
    Binding {
        attributes: AttributeSet::new(alloc),
        eager: false,
        export,
        file_depth: 0,
        name: Name::new(lexeme, Some(Place::start_of("justfile"))),
        number,
        prelude: false,
        private: false,
        value: list_of(rt, alloc, texts),
    }
}

// The changes that a scope makes with these names not exported, as displayed.
fn exported(scope: &Scope, alloc: Global, unexports: &[String]) -> Result<String, OutOfMemory> {
    let changes = exports(alloc, scope, unexports)?;
    let reported = format!(in alloc; "{changes:?}");
    drop(changes);
    Ok(reported?)
}
