// Messages of faults.

ghost use Rattle.std.specs.Prelude.{IfOk, string_bytes, ◌≡◌};
ghost use Rattle.just_host.specs.Prelude.{fault_text, fault_view};

use just_syntax::out_of_memory::OutOfMemory;
use just_value::error::CommandFault;
use std::alloc::Global;

/// The message of a command's fault: `process exited with status code n`, or its own text. For `OutOfMemory` it is
/// empty.
///
/// # Errors
///
/// `OutOfMemory`, if an allocation fails: nothing is created.
pub fn fault_text(alloc: Global, fault: &CommandFault) -> Result<String, OutOfMemory>
    ensures { IfOk result (λ text. string_bytes text ≡ fault_text (fault_view fault.now)) }
{
    match fault {
        CommandFault::Code(_) => Ok(format!(in alloc; "{fault}")?),
        CommandFault::Fault(text) => Ok(String::from_str(alloc, text)?),
        CommandFault::OutOfMemory => Ok(String::new(alloc)),
    }
}
