// Faults at the end of a list.

ghost use Rattle.std.specs.Prelude.{OnOk, Some, map, option_map, ◌≡◌};
ghost use Rattle.just_faults.specs.Prelude.{module_fault_view, with_some};

use just_resolution::fault::Fault;
use just_syntax::out_of_memory::OutOfMemory;
use just_syntax::results::push;

// Adds a fault, if there is one.
pub(crate) fn add_some<'src>(
    all: &mut Vec<Fault<'src>>,
    fault: Option<Fault<'src>>,
) -> Result<(), OutOfMemory>
    ensures { OnOk result (map module_fault_view all.new.items ≡ with_some (map module_fault_view all.old.items)
        (option_map module_fault_view fault.entry)) }
{
    match fault {
        Some(fault) => add(all, fault),
        None => Ok(()),
    }
}

// Adds a fault.
fn add<'src>(all: &mut Vec<Fault<'src>>, fault: Fault<'src>) -> Result<(), OutOfMemory>
    ensures { OnOk result (map module_fault_view all.new.items ≡ with_some (map module_fault_view all.old.items)
        (Some (module_fault_view fault.entry))) }
{
    push(all, fault)
}
