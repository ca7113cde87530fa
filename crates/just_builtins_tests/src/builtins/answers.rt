// The results of functions that ask for a text, for each kind of answer.

/// A call, its question, and its results for `Absent`, `NotText("x")` and `Fault("m")`, written as in [`Row`]. For
/// `Text("/t")` each call returns that text, and for `OutOfMemory` it reports the same.
///
/// [`Row`]: crate::builtins::rows::Row
pub type Answers = (&'static str, &'static str, [&'static str; 3]);

/// The rows of the functions that ask for a text, in the order of docs/reference/builtins.md.
pub const ANSWERS: &[Answers] = &[
    ("arch", "Arch;", ["! `arch` has no answer"; 3]),
    ("os", "Os;", ["! `os` has no answer"; 3]),
    ("os_family", "OsFamily;", ["! `os_family` has no answer"; 3]),
    (
        "just_executable",
        "Executable;",
        [
            "! error getting current executable: not found",
            "! executable path is not valid unicode: x",
            "! error getting current executable: m",
        ],
    ),
    (
        "cache_directory",
        "Directory(Cache);",
        [
            "! cache directory not found",
            "! unable to convert cache directory path to string: x",
            "! cache directory cannot be read: m",
        ],
    ),
    (
        "config_directory",
        "Directory(Config);",
        [
            "! config directory not found",
            "! unable to convert config directory path to string: x",
            "! config directory cannot be read: m",
        ],
    ),
    (
        "config_local_directory",
        "Directory(ConfigLocal);",
        [
            "! local config directory not found",
            "! unable to convert local config directory path to string: x",
            "! local config directory cannot be read: m",
        ],
    ),
    (
        "data_directory",
        "Directory(Data);",
        [
            "! data directory not found",
            "! unable to convert data directory path to string: x",
            "! data directory cannot be read: m",
        ],
    ),
    (
        "data_local_directory",
        "Directory(DataLocal);",
        [
            "! local data directory not found",
            "! unable to convert local data directory path to string: x",
            "! local data directory cannot be read: m",
        ],
    ),
    (
        "executable_directory",
        "Directory(Executable);",
        [
            "! executable directory not found",
            "! unable to convert executable directory path to string: x",
            "! executable directory cannot be read: m",
        ],
    ),
    (
        "home_directory",
        "Directory(Home);",
        [
            "! home directory not found",
            "! unable to convert home directory path to string: x",
            "! home directory cannot be read: m",
        ],
    ),
    (
        "runtime_directory",
        "Directory(Runtime);",
        [
            "! runtime directory not found",
            "! unable to convert runtime directory path to string: x",
            "! runtime directory cannot be read: m",
        ],
    ),
    (
        "canonicalize;a",
        "Canonicalize(\"/work/sub/a\");",
        [
            "! I/O error canonicalizing `a`: not found",
            "! canonical path is not valid unicode: x",
            "! I/O error canonicalizing `a`: m",
        ],
    ),
    (
        "read;a",
        "Read(\"/work/sub/a\");",
        [
            "! I/O error reading `a`: not found",
            "! I/O error reading `a`: x",
            "! I/O error reading `a`: m",
        ],
    ),
    ("which;a", WHICH_A, ["[]", "! x", "! m"]),
    (
        "require;a",
        WHICH_A,
        ["! could not find executable `a`", "! x", "! m"],
    ),
    (
        "env_var;a",
        "Variable(\"a\");",
        [
            "! environment variable `a` not present",
            "! environment variable `a` is not unicode: `x`",
            "! environment variable `a` cannot be read: m",
        ],
    ),
    (
        "env_var_or_default;a;y|z",
        "Variable(\"a\");",
        [
            "y|z",
            "! environment variable `a` is not unicode: `x`",
            "! environment variable `a` cannot be read: m",
        ],
    ),
    (
        "env;a",
        "Variable(\"a\");",
        [
            "! environment variable `a` not present",
            "! environment variable `a` is not unicode: `x`",
            "! environment variable `a` cannot be read: m",
        ],
    ),
    (
        "env;a;y|z",
        "Variable(\"a\");",
        [
            "y|z",
            "! environment variable `a` is not unicode: `x`",
            "! environment variable `a` cannot be read: m",
        ],
    ),
];

const WHICH_A: &str = "Which { name: \"a\", working_directory: \"/work/sub\" };";
