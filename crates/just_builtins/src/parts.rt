// Parts of paths, and joined paths.

ghost use Rattle.std.specs.Prelude.{option_copied};
ghost use Rattle.just_builtins.specs.Prelude.{IsReply, not_extracted, says};
ghost use Rattle.just_builtins.specs.Meaning as spec;

use crate::argument::text_at;
use crate::call_fault::CallFault;
use crate::{message, path};
use just_syntax::out_of_memory::OutOfMemory;
use just_value::value::Value;
use std::alloc::Global;
use std::path::PathBuf;

/// A part of a path, or the message that it has no part of this kind.
pub fn part(alloc: Global, kind: &str, found: Option<&str>, path: &str) -> Result<Value, CallFault>
    ensures { IsReply (spec.or_fails (option_copied found.entry) (not_extracted kind.now path.now) says) result }
{
    match found {
        Some(text) => Ok(Value::from_text(alloc, text)?),
        None => Err(CallFault::Message(message::not_extracted(alloc, kind, path)?)),
    }
}

/// The parent of a path; `.` instead of the empty one.
pub fn parent_directory(alloc: Global, path: &str) -> Result<Value, CallFault>
    ensures { IsReply (spec.parent_directory path.now) result }
{
    let parent = match path::parent(path) {
        Some("") => Some("."),
        parent => parent,
    };
    part(alloc, "parent directory", parent, path)
}

/// A path without the extension of its file name.
pub fn without_extension(alloc: Global, path: &str) -> Result<Value, CallFault>
    ensures { IsReply (spec.without_extension path.now) result }
{
    let Some(parent) = path::parent(path) else {
        return part(alloc, "parent", None, path);
    };
    let Some(stem) = path::file_stem(path) else {
        return part(alloc, "file stem", None, path);
    };
    let text = path::join(alloc, parent, stem)?;
    Ok(Value::from_string(alloc, text)?)
}
