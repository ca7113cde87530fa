// Expressions with many levels. A copy of one that is too deep for the stack is refused.

use just_host::justfile::Justfile;
use just_resolve::resolve::resolve;
use just_syntax::assignment::Assignment;
use just_syntax::expression::Expression;
use just_syntax::name::Name;
use just_syntax::number::Number;
use just_value::scope::Scope;
use std::alloc::Global;
use std::process::Abort;

#[test]
fn levels(rt: HostRuntime) {
    for (levels, wanted) in [(1, true), (4_915, true), (4_916, false), (19_000, false)] {
        let outer = Scope::root(rt.alloc(), &[]).expect(&rt, "no memory");
        let mut module = deep_module(&rt, rt.alloc(), levels);
        let is_resolved = resolves(rt.alloc(), &mut module, &outer);
        drop(module);
        assert_eq!(rt; is_resolved, wanted, "{levels} levels");
    }
}

// Whether a module can be resolved.
fn resolves<'src>(alloc: Global, module: &mut Justfile<'src>, outer: &Scope<'src, '_>) -> bool {
    resolve(alloc, module, outer).is_ok()
}

// A module with one assignment, whose value has this many levels.
fn deep_module<'src>(rt: &impl Abort, alloc: Global, levels: usize) -> Justfile<'src> {
    let mut module = Justfile::new(alloc, "justfile", "/").expect(rt, "no memory");
    let value = tower(rt, alloc, levels);
    let assignment = Assignment::new(Name::new("a", None), Number::new(0), value);
    module
        .assignments
        .insert(assignment)
        .expect(rt, "no memory");
    module
}

// A literal in parentheses, with this many levels in all.
fn tower<'src>(rt: &impl Abort, alloc: Global, levels: usize) -> Expression<'src> {
    let mut tower = Expression::literal(alloc, "", "''").expect(rt, "no memory");
    for _ in 1..levels {
        tower = Expression::group(alloc, tower).expect(rt, "no memory");
    }
    tower
}
