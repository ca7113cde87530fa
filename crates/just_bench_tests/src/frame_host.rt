// A host that inspects the frames that its commands are shown.

use just_host::command_host::{CommandHost, Commands};
use just_host::command_question::CommandQuestion;
use just_host::no_host::NoHost;
use just_syntax::out_of_memory::OutOfMemory;
use just_value::error::CommandFault;
use just_value::frame::Frame;
use just_value::scope::Scope;
use std::alloc::Global;

/// Answers each command with the number of bindings of the innermost frame that it is shown, and records the bindings
/// of all of them.
#[derive(Drop)]
pub(crate) struct FrameCounter {
    /// The bindings of the frames that its commands were shown: each frame in parentheses, innermost first.
    pub(crate) shown: String,
}

/// A host whose commands were shown nothing yet.
pub(crate) fn frame_host(alloc: Global) -> CommandHost<FrameCounter, NoHost> {
    CommandHost::new(FrameCounter {
        shown: String::new(alloc),
    })
}

impl Commands for FrameCounter {
    ghost answers = { λ _ _ _ _. Unit {0} };

    fn answer(
        &mut self,
        alloc: Global,
        question: &CommandQuestion,
    ) -> Result<String, CommandFault> {
        keep_frames(alloc, &mut self.shown, question.scope)?;
        let count = question.scope.bindings().count();
        Ok(format!(in alloc; "{count}")?)
    }
}

// Adds the frames, innermost first.
fn keep_frames(alloc: Global, text: &mut String, scope: &Scope) -> Result<(), OutOfMemory> {
    keep_frame(text, scope.frame())?;
    for frame in scope.outer_frames(alloc)? {
        keep_frame(text, frame)?;
    }
    Ok(())
}

// Adds the bindings of a frame, in parentheses.
fn keep_frame<'call>(text: &'call mut String, frame: &'call Frame) -> Result<(), OutOfMemory> {
    text.push('(')?;
    for binding in frame.bindings() {
        let name = binding.name;
        let value = &binding.value;
        write!(text, "{name} = {value}")?;
    }
    text.push(')')?;
    Ok(())
}
