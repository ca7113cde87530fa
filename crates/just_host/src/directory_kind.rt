// Kinds of directories that a host is asked for.

ghost use Rattle.std.specs.Prelude.{◌≡◌};
ghost use Rattle.just_host.specs.Prelude.{directory_word};

use std::fmt;

/// A directory that the system keeps for its user.
#[derive(Clone, Copy, Debug, PartialEq, Eq)]
pub enum DirectoryKind {
    Cache,
    Config,
    /// Configuration that stays on this machine.
    ConfigLocal,
    Data,
    /// Data that stays on this machine.
    DataLocal,
    /// The user's own executables.
    Executable,
    Home,
    /// Files that last as long as the user is logged in.
    Runtime,
}

impl DirectoryKind {
    /// The word for it: `cache`, `config`, `local config`, `data`, `local data`, `executable`, `home` or `runtime`. It
    /// allocates nothing.
    pub fn word(self) -> &'static str
        ensures { result.now ≡ directory_word self }
    {
        match self {
            DirectoryKind::Cache => "cache",
            DirectoryKind::Config => "config",
            DirectoryKind::ConfigLocal => "local config",
            DirectoryKind::Data => "data",
            DirectoryKind::DataLocal => "local data",
            DirectoryKind::Executable => "executable",
            DirectoryKind::Home => "home",
            DirectoryKind::Runtime => "runtime",
        }
    }
}

// Its word.
impl fmt::Display for DirectoryKind {
    ghost use Rattle.std.specs.Prelude.{Some};
    ghost use Rattle.just_host.specs.Printed.{directory_word};

    ghost output = { λ kind. Some (directory_word kind) };

    ghost styled_output = { λ kind _. Some (directory_word kind) };

    fn fmt<W: fmt::Write>(&self, f: &mut fmt::Formatter<W>) -> fmt::Result {
        f.write_str(self.word())
    }
}
