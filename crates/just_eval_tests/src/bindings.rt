// Bindings with their flags, and assignments whose names give theirs.

use just_syntax::assignment::Assignment;
use just_syntax::out_of_memory::OutOfMemory;
use just_syntax::table::Table;
use just_value::binding::Binding;
use just_value::frame::Frame;
use std::alloc::Global;
use std::process::Abort;

/// Adds the bindings of a frame, in parentheses: for each one the flags that are on, its name and its value.
pub(crate) fn report_frame(frame: &Frame, reported: &mut String) -> Result<(), OutOfMemory> {
    reported.push_str(" (")?;
    for binding in frame.bindings() {
        report_binding(binding, reported)?;
    }
    reported.push(')')?;
    Ok(())
}

fn report_binding(binding: &Binding, reported: &mut String) -> Result<(), OutOfMemory> {
    let flags = [
        (binding.export, "export "),
        (binding.eager, "eager "),
        (binding.private, "private "),
        (binding.prelude, "prelude "),
        (binding.file_depth != 0, "deep "),
        (binding.attributes.iter().next().is_some(), "attributes "),
    ];
    for (is_on, flag) in flags {
        if is_on {
            reported.push_str(flag)?;
        }
    }
    let name = binding.name;
    let value = &binding.value;
    write!(reported, "{name} = {value}")?;
    Ok(())
}

/// Assignments, each of which is eager if its name begins with `eager-`, and private if it begins with `private-`.
pub(crate) fn with_flags<'src>(
    rt: &impl Abort,
    alloc: Global,
    assignments: Table<Assignment<'src>>,
) -> Table<Assignment<'src>> {
    let mut flagged = Table::new(alloc);
    for assignment in assignments {
        insert(rt, &mut flagged, with_its_flags(assignment));
    }
    flagged
}

fn with_its_flags<'src>(assignment: Assignment<'src>) -> Assignment<'src> {
    let mut flagged = assignment;
    flagged.eager = flagged.name.lexeme().starts_with("eager-");
    flagged.private = flagged.name.lexeme().starts_with("private-");
    flagged
}

fn insert<'src>(
    rt: &impl Abort,
    table: &mut Table<Assignment<'src>>,
    assignment: Assignment<'src>,
) {
    table.insert(assignment).expect(rt, "no memory");
}
