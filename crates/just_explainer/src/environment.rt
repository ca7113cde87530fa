// The environment of a recipe's commands.

use crate::session::Session;
use just_host::execution_context::ExecutionContext;
use just_host::exports::{EnvironmentChange, exports};
use just_syntax::out_of_memory::OutOfMemory;
use just_value::scope::Scope;
use std::alloc::Global;
use std::collections::BTreeMap;

/// Prints the variables that the commands of a recipe get beside those of the process, in the order of their names.
pub(crate) fn print_environment<'src>(
    alloc: Global,
    context: &ExecutionContext<'src, '_>,
    scope: &Scope<'src, '_>,
    env: &BTreeMap<String, String>,
    session: &mut Session,
) -> Result<(), OutOfMemory> {
    let mut all = context.dotenv.clone()?;
    apply_exports(alloc, scope, &context.module.unexports, &mut all)?;
    for (key, value) in env {
        let key = String::from_str(alloc, key)?;
        all.insert(key, String::from_str(alloc, value)?)?;
    }
    for (key, value) in &all {
        session.line(format_args!("  {key}={value}"))?;
    }
    Ok(())
}

// Sets the variables that are exported, and removes those that are unexported.
fn apply_exports<'src>(
    alloc: Global,
    scope: &Scope<'src, '_>,
    unexports: &[String],
    all: &mut BTreeMap<String, String>,
) -> Result<(), OutOfMemory> {
    for change in exports(alloc, scope, unexports)? {
        match change {
            EnvironmentChange::Set { name, text } => {
                all.insert(String::from_str(alloc, name)?, text)?;
            }
            EnvironmentChange::Remove(name) => {
                all.remove(name);
            }
        }
    }
    Ok(())
}
