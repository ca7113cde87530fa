// Which variables an edit changes.

ghost use Rattle.std.specs.Prelude.{IfOk, false, ℕ, ◌↔◌, ◌≡◌};
ghost use Rattle.just_changes.specs.Prelude.{AreAlikeAt, HaveSameCone, IsOver, IsTouchedBetween, IsWhole, Module};
ghost use Rattle.just_changes.specs.Prelude.{frames_view, has, is_number_in, is_reached, version_view};

use crate::differences::differences;
use crate::reading::readers_in;
use crate::version::Version;
use just_host::justfile::Justfile;
use just_laws::laws::blocks_agree;
use just_needs::reached::{Reached, reached_from};
use just_syntax::number::Number;
use just_syntax::out_of_memory::OutOfMemory;
use just_value::scope::Scope;
use std::alloc::Global;
use std::collections::{BTreeSet, HashMap, HashSet};

/// The numbers of the variables that an edit changes: exactly those whose cones differ. An editor or a build tool that
/// kept the values of the others need not evaluate them again.
///
/// The cone of a variable holds the variable itself and, for each evaluated member, what its expression reads, by
/// itself or in the bodies of the functions that it reaches. A member is evaluated if it is neither overridden nor
/// bound in `parent`. Cones differ if a member has another assignment or another override, or if an evaluated member
/// reaches another function. A number that is missing in one module, or overridden without an assignment, is reported
/// too.
///
/// Variables are identified by number, and functions by name: an edit keeps the numbers of what it keeps. Assignments
/// and functions are compared whole, including flags and tokens with their positions and paths, since a refusal names
/// its position: an edit that shifts the following lines changes the definitions there. The evaluation order, the
/// settings and the other fields do not count.
///
/// Neither module needs to be resolved. If both are, two runs in one context below `parent` give every other number the
/// same value or refusal, by the same questions, provided that whatever both ask is answered alike.
///
/// Each assignment, override and function is visited a bounded number of times.
///
/// # Errors
///
/// `OutOfMemory` if an allocation fails.
pub fn changed<'src>(
    alloc: Global,
    before: &Justfile<'src>,
    before_overrides: &HashMap<Number, String>,
    after: &Justfile<'src>,
    after_overrides: &HashMap<Number, String>,
    parent: &Scope,
) -> Result<BTreeSet<Number>, OutOfMemory>
    ensures exact { IfOk result (λ numbers. (m w : Module) → IsOver before.now before_overrides.now m
        → IsOver after.now after_overrides.now w → (n : ℕ) → (is_number_in numbers n ≡ false)
        ↔ HaveSameCone m w (frames_view parent.now) n) }
    ensures alike { IfOk result (λ numbers. (m w : Module) → IsOver before.now before_overrides.now m
        → IsOver after.now after_overrides.now w → (n : ℕ) → is_number_in numbers n ≡ false
        → AreAlikeAt m w (frames_view parent.now) n) }
{
    blocks_agree();
    let before = Version::new(alloc, before, before_overrides)?;
    let after = Version::new(alloc, after, after_overrides)?;
    let touched = touched_between(alloc, &before, &after, parent)?;
    Ok(rising(alloc, &touched.into_variables())?)
}

// Some numbers, in rising order.
fn rising(alloc: Global, numbers: &HashSet<Number>) -> Result<BTreeSet<Number>, OutOfMemory>
    ensures { IfOk result (λ all. (n : ℕ) → is_number_in all n ≡ has numbers.now n) }
{
    let mut all = BTreeSet::new(alloc);
    for number in numbers {
        all.insert(*number)?;
    }
    Ok(all)
}

// The nodes that differ between two versions, and those that read them in the first, directly or not.
fn touched_between<'src>(
    alloc: Global,
    before: &Version<'src, '_>,
    after: &Version<'src, '_>,
    parent: &Scope,
) -> Result<Reached<'src>, OutOfMemory>
    requires before { IsWhole before.now }
    requires after { IsWhole after.now }
    ensures { IfOk result (λ touched. IsTouchedBetween (version_view before.now) (version_view after.now)
        (frames_view parent.now) (is_reached touched)) }
{
    let readers = readers_in(alloc, before, parent)?;
    let nodes = differences(alloc, before, after)?;
    reached_from(alloc, &readers, nodes)
}
