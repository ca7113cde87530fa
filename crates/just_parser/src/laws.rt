//! Laws about the items that are read. Each is a function that does nothing; its contract is the law.

ghost use Rattle.just_parser.specs.Laws.{RefusesEarly};

/// Refusals are early: if tokens have no items, then no tokens have items that begin with the same ones, up to the
/// refused one. For example nothing that begins with `a := )` is a justfile. Four faults look further. Whether a list
/// is a command takes one more token (`set shell := []`), and so does the name of a setting, since `set nope:` is a
/// recipe. That an item is not supported, or takes no attributes, its first three tokens tell.
pub fn refuses_early()
    ensures { RefusesEarly }
{}
