// The effect of a scope's exported variables on an environment.

ghost use Rattle.std.specs.Prelude.{IfOk, OnOk, map, string_bytes, ◌++◌, ◌≡◌};
ghost use Rattle.just_host.specs.Prelude.{ComeToTheSame, change_view, exports, frame_exports, frame_view};
ghost use Rattle.just_host.specs.Prelude.{frames_exports, frames_view, framewise};

use just_syntax::out_of_memory::OutOfMemory;
use just_value::frame::Frame;
use just_value::scope::Scope;
use std::alloc::Global;

/// A change of the environment that a command runs in.
#[derive(Debug, Drop, PartialEq, Eq)]
pub enum EnvironmentChange<'name> {
    /// The variable is set to a text, whatever its value was.
    Set { name: &'name str, text: String },
    /// The variable is removed, if it is set.
    Remove(&'name str),
}

/// The changes that a scope and the unexported names make to the environment of a command, to be applied in this order:
/// later changes override earlier ones. Each exported binding sets the variable of its name to its joined value: the
/// outermost frame's first, and within a frame in ascending order of number. After those of the outer frames, the
/// unexported names are removed, whether they are set or not; so of these names only the own frame's bindings are
/// exported. There are as many changes as unexported names and exported bindings together. The names are borrowed, and
/// the texts are copies.
///
/// The effect is the same as if, for each frame from the outermost inward, the names were removed and the frame's
/// bindings exported (upstream's `Environment`; docs/guide/hosts.md says what is known of it).
///
/// # Errors
///
/// `OutOfMemory`, if an allocation fails: nothing is created.
pub fn exports<'name>(
    alloc: Global,
    scope: &'name Scope<'_, '_>,
    unexports: &'name [String],
) -> Result<Vec<EnvironmentChange<'name>>, OutOfMemory>
    ensures changes { IfOk result (λ changes. map change_view changes.items ≡ exports (map string_bytes unexports.now)
        (frames_view scope.now)) }
    ensures framewise { IfOk result (λ changes. ComeToTheSame (map change_view changes.items)
        (framewise (map string_bytes unexports.now) (frames_view scope.now))) }
{
    let mut changes = Vec::new(alloc);
    let outer = scope.outer_frames(alloc)?;
    add_frames(alloc, &outer, &mut changes)?;
    for name in unexports {
        changes.push(EnvironmentChange::Remove(name))?;
    }
    add_frame(alloc, scope.frame(), &mut changes)?;
    Ok(changes)
}

// Adds the exports of frames, given innermost first, from the outermost frame inward.
fn add_frames<'name>(
    alloc: Global,
    frames: &[&'name Frame<'_>],
    changes: &mut Vec<EnvironmentChange<'name>>,
) -> Result<(), OutOfMemory>
    ensures { OnOk result (map change_view changes.new.items ≡ map change_view changes.old.items ++ frames_exports
        (map (λ frame. frame_view frame.now) frames.now)) }
{
    for frame in frames.iter().rev() {
        add_frame(alloc, *frame, changes)?;
    }
    Ok(())
}

// Adds the exports of a frame, in ascending order of number.
fn add_frame<'name>(
    alloc: Global,
    frame: &'name Frame<'_>,
    changes: &mut Vec<EnvironmentChange<'name>>,
) -> Result<(), OutOfMemory>
    ensures { OnOk result (map change_view changes.new.items ≡ map change_view changes.old.items ++ frame_exports
        (frame_view frame.now)) }
{
    for binding in frame.bindings() {
        if binding.export {
            changes.push(EnvironmentChange::Set {
                name: binding.name.lexeme(),
                text: binding.value.join(alloc)?,
            })?;
        }
    }
    Ok(())
}
