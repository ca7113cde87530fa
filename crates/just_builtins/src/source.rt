// The files that contain calls, and their directories.

ghost use Rattle.just_builtins.specs.Prelude.{Fails, IsReply, function_context_view, no_parent, says};
ghost use Rattle.just_builtins.specs.Meaning as spec;

use crate::call_fault::CallFault;
use crate::{message, path};
use just_host::function::Context;
use just_value::value::Value;
use std::alloc::Global;

/// The directory of the root justfile.
pub fn justfile_directory(alloc: Global, justfile: &str) -> Result<Value, CallFault>
    ensures { IsReply (spec.justfile_directory justfile.now) result }
{
    match path::parent(justfile) {
        Some(directory) => Ok(Value::from_text(alloc, directory)?),
        None => Err(CallFault::Message(message::no_justfile_directory(alloc, justfile)?)),
    }
}

/// The directory of a path.
pub fn directory_of(alloc: Global, path: &str) -> Result<Value, CallFault>
    ensures { IsReply (spec.with_parent path.now says) result }
{
    match path::parent(path) {
        Some(directory) => Ok(Value::from_text(alloc, directory)?),
        None => no_parent(alloc, path),
    }
}

/// The path of the file that contains the call.
pub fn source_file(alloc: Global, context: &Context) -> Result<Value, CallFault>
    ensures { IsReply (spec.with_source (function_context_view context.now) says) result }
{
    let justfile = &context.execution_context.search.justfile;
    match path::parent(justfile) {
        Some(directory) => {
            let file = path::join(alloc, directory, context.name.token.path)?;
            Ok(Value::from_string(alloc, file)?)
        }
        None => no_parent(alloc, justfile),
    }
}

/// The directory of the file that contains the call.
pub fn source_directory(alloc: Global, context: &Context) -> Result<Value, CallFault>
    ensures { IsReply (spec.with_source (function_context_view context.now) (λ file. spec.with_parent file says))
        result }
{
    let justfile = &context.execution_context.search.justfile;
    match path::parent(justfile) {
        Some(directory) => {
            let file = path::join(alloc, directory, context.name.token.path)?;
            directory_of(alloc, &file)
        }
        None => no_parent(alloc, justfile),
    }
}

// The message that a path has no directory.
fn no_parent(alloc: Global, path: &str) -> Result<Value, CallFault>
    ensures { IsReply (Fails (no_parent path.now)) result }
{
    Err(CallFault::Message(message::no_parent(alloc, path)?))
}
