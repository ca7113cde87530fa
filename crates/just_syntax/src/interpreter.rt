// Commands with their first arguments.

ghost use Rattle.std.specs.Prelude.{◌≡◌};

/// A command and its first arguments, which come before all others.
#[derive(Clone, Debug, Drop, PartialEq, Eq)]
pub struct Interpreter<T> {
    pub arguments: Vec<T>,
    pub command: T,
}

impl<T> Interpreter<T> {
    /// A command with these first arguments, in order.
    pub fn new(command: T, arguments: Vec<T>) -> Interpreter<T>
        ensures command { result.command ≡ command }
        ensures arguments { result.arguments ≡ arguments }
    {
        Interpreter { arguments, command }
    }
}
