// What built-in functions ask for.

use just_host::directory_kind::DirectoryKind;
use just_host::number_question::NumberQuestion;
use just_host::recorded::{Recorded, TextKind};

/// A kind of question.
#[derive(Clone, Copy, PartialEq, Eq)]
pub(crate) enum Kind {
    /// A command without arguments, as one in backticks asks it.
    Command,
    /// A command with arguments, even if there are none, as `shell` asks it.
    CommandWithArguments,
    Existence,
    Number(NumberQuestion),
    Text(TextKind),
}

impl Kind {
    /// The kind of a question.
    pub(crate) fn of(question: &Recorded) -> Kind {
        match question {
            Recorded::Command {
                arguments: None,
                ..
            } => Kind::Command,
            Recorded::Command { .. } => Kind::CommandWithArguments,
            Recorded::Text { kind, .. } => Kind::Text(*kind),
            Recorded::Exists(_) => Kind::Existence,
            Recorded::Number(question) => Kind::Number(*question),
        }
    }
}

// The built-in functions that ask, and what each asks for. The table is that of the reference of built-in functions.
const ASKING: &[(&str, Kind)] = &[
    ("arch", Kind::Text(TextKind::Arch)),
    ("os", Kind::Text(TextKind::Os)),
    ("os_family", Kind::Text(TextKind::OsFamily)),
    ("just_executable", Kind::Text(TextKind::Executable)),
    (
        "cache_directory",
        Kind::Text(TextKind::Directory(DirectoryKind::Cache)),
    ),
    (
        "config_directory",
        Kind::Text(TextKind::Directory(DirectoryKind::Config)),
    ),
    (
        "config_local_directory",
        Kind::Text(TextKind::Directory(DirectoryKind::ConfigLocal)),
    ),
    (
        "data_directory",
        Kind::Text(TextKind::Directory(DirectoryKind::Data)),
    ),
    (
        "data_local_directory",
        Kind::Text(TextKind::Directory(DirectoryKind::DataLocal)),
    ),
    (
        "executable_directory",
        Kind::Text(TextKind::Directory(DirectoryKind::Executable)),
    ),
    (
        "home_directory",
        Kind::Text(TextKind::Directory(DirectoryKind::Home)),
    ),
    (
        "runtime_directory",
        Kind::Text(TextKind::Directory(DirectoryKind::Runtime)),
    ),
    ("canonicalize", Kind::Text(TextKind::Canonicalize)),
    ("read", Kind::Text(TextKind::Read)),
    ("which", Kind::Text(TextKind::Which)),
    ("require", Kind::Text(TextKind::Which)),
    ("env_var", Kind::Text(TextKind::Variable)),
    ("env_var_or_default", Kind::Text(TextKind::Variable)),
    ("env", Kind::Text(TextKind::Variable)),
    ("shell", Kind::CommandWithArguments),
    ("path_exists", Kind::Existence),
    ("just_pid", Kind::Number(NumberQuestion::ProcessId)),
    ("num_cpus", Kind::Number(NumberQuestion::Cpus)),
];

/// What the built-in function with a name asks for, if it asks anything.
pub(crate) fn kind_asked_by(name: &str) -> Option<Kind> {
    for (function, kind) in ASKING {
        if name == *function || is_short_for(name, function) {
            return Some(*kind);
        }
    }
    None
}

// Whether a name ends with `_dir` in the place of a function's `_directory`.
fn is_short_for(name: &str, function: &str) -> bool {
    name.ends_with("_dir") && function.strip_suffix("ectory") == Some(name)
}
