// A host that fails from some question on.

ghost use Rattle.std.specs.Prelude.{false, suc, true, ◌≡◌};
ghost use Rattle.just_script.specs.Prelude.{Failed, UnlessNoMemory, broken, failing_view, fault_view, text_replied};

use just_host::command_question::CommandQuestion;
use just_host::host::Host;
use just_host::number_question::NumberQuestion;
use just_host::text_answer::TextAnswer;
use just_host::text_question::TextQuestion;
use just_syntax::out_of_memory::OutOfMemory;
use just_value::error::CommandFault;
use std::alloc::Global;

// The message of the fault of a failing host.
const BROKEN: &str = "broken";

/// How a host fails.
#[derive(Clone, Copy, Debug, PartialEq, Eq)]
pub enum How {
    /// With the fault `broken`. A question that has no fault, for existence or for a number, is still passed on.
    Fault,
    /// With `OutOfMemory`.
    Memory,
}

/// A host that passes its first questions on to another, and fails at each later one.
#[derive(Debug, Drop)]
pub struct FailAt<H> {
    host: H,
    left: usize,
    how: How,
}

impl<H> FailAt<H> {
    /// A host that passes the first `n` questions on to `host`, and then fails. It allocates nothing.
    pub fn new(host: H, n: usize, how: How) -> FailAt<H>
        ensures { failing_view result ≡ record { host = host; left = n; how = how } }
    {
        FailAt { host, left: n, how }
    }

    // Whether the next question is passed on; if so, one fewer is left.
    fn passes(&mut self) -> bool
        ensures passed { result ≡ true → self.old.left ≡ suc self.new.left }
        ensures failed { result ≡ false → (self.old.left ≡ 0) × (self.new.left ≡ 0) }
        ensures same { (self.new.host ≡ self.old.host) × (self.new.how ≡ self.old.how) }
    {
        if self.left == 0 {
            return false;
        }
        self.left -= 1;
        true
    }
}

impl<H: Host> Host for FailAt<H> {
    ghost use Rattle.just_script.specs.Failing.{PassesOrFails};
    ghost use Rattle.just_script.specs.View.{failing_view};

    ghost step = { λ old question answer new. PassesOrFails H.step (failing_view old) question answer
        (failing_view new) };

    fn command(
        &mut self,
        alloc: Global,
        question: &CommandQuestion,
    ) -> Result<String, CommandFault> {
        if self.passes() {
            return self.host.command(alloc, question);
        }
        match self.how {
            How::Fault => Err(broken_command(alloc)),
            How::Memory => Err(CommandFault::OutOfMemory),
        }
    }

    fn text(&mut self, alloc: Global, question: TextQuestion) -> TextAnswer {
        if self.passes() {
            return self.host.text(alloc, question);
        }
        match self.how {
            How::Fault => broken_text(alloc),
            How::Memory => TextAnswer::OutOfMemory,
        }
    }

    fn exists(&mut self, alloc: Global, path: &str) -> Result<bool, OutOfMemory> {
        let passes = self.passes();
        if passes || self.how == How::Fault {
            return self.host.exists(alloc, path);
        }
        Err(OutOfMemory)
    }

    fn number(&mut self, alloc: Global, question: NumberQuestion) -> Result<u64, OutOfMemory> {
        let passes = self.passes();
        if passes || self.how == How::Fault {
            return self.host.number(alloc, question);
        }
        Err(OutOfMemory)
    }

    fn stack_budget(&self) -> usize {
        self.host.stack_budget()
    }
}

// The fault of a command, or `OutOfMemory` if its message cannot be allocated.
fn broken_command(alloc: Global) -> CommandFault
    ensures { UnlessNoMemory (Failed (fault_view result)) broken }
{
    match String::from_str(alloc, BROKEN) {
        Ok(text) => CommandFault::Fault(text),
        Err(_) => CommandFault::OutOfMemory,
    }
}

// The fault instead of a text, or `OutOfMemory` if its message cannot be allocated.
fn broken_text(alloc: Global) -> TextAnswer
    ensures { UnlessNoMemory (text_replied result) broken }
{
    match String::from_str(alloc, BROKEN) {
        Ok(text) => TextAnswer::Fault(text),
        Err(_) => TextAnswer::OutOfMemory,
    }
}
