// The built-in functions that take nothing.

ghost use Rattle.std.specs.Prelude.{IfOk, [], ◌≡◌};
ghost use Rattle.just_builtins.specs.Prelude.{AskedBy, Frames, IsReply, Nullary, Replies, RepliesAmong, ValueNullary};
ghost use Rattle.just_builtins.specs.Prelude.{function_context_view, outside_recipe, says, unasked_nullary};
ghost use Rattle.just_builtins.specs.Meaning as spec;

use crate::builtin::Builtin;
use crate::call_fault::CallFault;
use crate::directory::directory;
use crate::message;
use crate::source::{directory_of, justfile_directory, source_directory, source_file};
use crate::system::{executable, number, system};
use crate::truth::truth;
use just_host::directory_kind::DirectoryKind;
use just_host::function::Context;
use just_host::host::Host;
use just_host::number_question::NumberQuestion;
use just_host::text_question::TextQuestion;
use just_syntax::out_of_memory::OutOfMemory;
use just_value::value::Value;
use std::alloc::Global;

/// The questions and the reply of a built-in function that takes nothing and returns a text.
pub fn nullary<'call, H: Host>(
    alloc: Global,
    host: &'call mut H,
    context: &'call Context,
    builtin: Builtin,
) -> Result<Value, CallFault>
    ensures { (shown : Frames)
        → AskedBy (Nullary builtin) H.step host.old shown (spec.reply builtin (function_context_view context.now) [])
        result host.new }
{
    match builtin {
        Builtin::Arch => system(alloc, host, "arch", TextQuestion::Arch),
        Builtin::CacheDirectory => directory(alloc, host, DirectoryKind::Cache),
        Builtin::ConfigDirectory => directory(alloc, host, DirectoryKind::Config),
        Builtin::ConfigLocalDirectory => directory(alloc, host, DirectoryKind::ConfigLocal),
        Builtin::DataDirectory => directory(alloc, host, DirectoryKind::Data),
        Builtin::DataLocalDirectory => directory(alloc, host, DirectoryKind::DataLocal),
        Builtin::ExecutableDirectory => directory(alloc, host, DirectoryKind::Executable),
        Builtin::HomeDirectory => directory(alloc, host, DirectoryKind::Home),
        Builtin::JustExecutable => executable(alloc, host),
        Builtin::JustPid => number(alloc, host, NumberQuestion::ProcessId),
        Builtin::NumCpus => number(alloc, host, NumberQuestion::Cpus),
        Builtin::Os => system(alloc, host, "os", TextQuestion::Os),
        Builtin::OsFamily => system(alloc, host, "os_family", TextQuestion::OsFamily),
        Builtin::RuntimeDirectory => directory(alloc, host, DirectoryKind::Runtime),
        _ => nullary_unasked(alloc, context, builtin),
    }
}

// The reply of such a function that asks nothing.
fn nullary_unasked(alloc: Global, context: &Context, builtin: Builtin) -> Result<Value, CallFault>
    ensures { RepliesAmong unasked_nullary builtin (spec.reply builtin (function_context_view context.now) []) result }
{
    let execution_context = context.execution_context;
    let config = execution_context.config;
    let module = execution_context.module;
    let search = execution_context.search;
    match builtin {
        Builtin::InvocationDirectory | Builtin::InvocationDirectoryNative => {
            Ok(Value::from_text(alloc, &config.invocation_directory)?)
        }
        Builtin::JustVersion => Ok(Value::from_text(alloc, "1.58.0")?),
        Builtin::Justfile => Ok(Value::from_text(alloc, &search.justfile)?),
        Builtin::JustfileDirectory => justfile_directory(alloc, &search.justfile),
        Builtin::ModuleDirectory => directory_of(alloc, &module.source),
        Builtin::ModuleFile => Ok(Value::from_text(alloc, &module.source)?),
        Builtin::ModulePath => Ok(Value::from_text(alloc, &module.module_path)?),
        Builtin::RecipeName => recipe_name(alloc, context),
        Builtin::SourceDirectory => source_directory(alloc, context),
        Builtin::SourceFile => source_file(alloc, context),
        _ => Err(CallFault::Internal),
    }
}

/// The reply of a built-in function that takes nothing and returns a value.
pub fn value_nullary(alloc: Global, context: &Context, builtin: Builtin) -> Result<Value, CallFault>
    ensures { Replies (ValueNullary builtin) (spec.reply builtin (function_context_view context.now) []) result }
{
    let execution_context = context.execution_context;
    match builtin {
        Builtin::IsDependency => {
            let lists = execution_context.module.settings.lists;
            Ok(truth(alloc, lists, context.is_dependency)?)
        }
        Builtin::NumJobs => Ok(jobs(alloc, execution_context.config.jobs)?),
        _ => Err(CallFault::Internal),
    }
}

// How many recipes may run at once, if that is limited.
fn jobs(alloc: Global, jobs: Option<u64>) -> Result<Value, OutOfMemory>
    ensures { IfOk result (λ v. v ≡ spec.jobs jobs) }
{
    match jobs {
        Some(jobs) => {
            let text = jobs.to_string(alloc)?;
            Value::from_string(alloc, text)
        }
        None => Ok(Value::new(alloc)),
    }
}

// The name of the recipe that contains the call.
fn recipe_name(alloc: Global, context: &Context) -> Result<Value, CallFault>
    ensures { IsReply (spec.or_fails (function_context_view context.now).recipe outside_recipe says) result }
{
    match context.recipe {
        Some(name) => Ok(Value::from_text(alloc, name.lexeme())?),
        None => Err(CallFault::Message(message::outside_recipe(alloc)?)),
    }
}
