// Questions that a text answers.

use crate::directory_kind::DirectoryKind;
use crate::printed::write_text_question;
use crate::recorded::{kind_of, text_of};
use std::fmt;

/// A question that a text answers.
#[derive(Clone, Copy, Debug, PartialEq, Eq)]
pub enum TextQuestion<'question> {
    /// The value of an environment variable.
    Variable(&'question str),
    /// The path of one of the user's directories.
    Directory(DirectoryKind),
    /// The canonical path, free of links, of the file at a path.
    Canonicalize(&'question str),
    /// The contents of the file at a path.
    Read(&'question str),
    /// The path of the executable with this name, searched for from a directory.
    Which {
        name: &'question str,
        working_directory: &'question str,
    },
    /// The path of the running program.
    Executable,
    /// The name of the processor's architecture.
    Arch,
    /// The name of the operating system.
    Os,
    /// The name of the operating system's family.
    OsFamily,
}

// Its kind, and the variable, the directory, the path or the name, as `variable "a"`. For `Which` the directory is
// omitted.
impl fmt::Display for TextQuestion<'_> {
    ghost use Rattle.std.specs.Prelude.{Some};
    ghost use Rattle.just_host.specs.Printed.{printed_question};
    ghost use Rattle.just_host.specs.Question.{TextOf};
    ghost use Rattle.just_host.specs.View.{text_question_view};

    ghost output = { λ question. Some (printed_question (TextOf (text_question_view question))) };

    ghost styled_output = { λ question _. Some (printed_question (TextOf (text_question_view question))) };

    fn fmt<W: fmt::Write>(&self, f: &mut fmt::Formatter<W>) -> fmt::Result {
        write_text_question(f, kind_of(*self), text_of(*self))
    }
}
