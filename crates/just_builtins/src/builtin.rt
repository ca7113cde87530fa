// The tags of the built-in functions.

/// A built-in function. [`Function::call`] specifies its questions to the host and its reply.
///
/// [`Function::call`]: crate::function::Function::call
#[derive(Clone, Copy, Debug, PartialEq, Eq)]
pub enum Builtin {
    /// A value with a text appended to each element.
    Append,
    /// The name of the processor's architecture.
    Arch,
    /// A value as a boolean.
    Bool,
    /// The user's cache directory.
    CacheDirectory,
    /// The canonical form of a path, free of links.
    Canonicalize,
    /// A text with its first letter in upper case, and all others in lower case.
    Capitalize,
    /// The user's directory for configuration.
    ConfigDirectory,
    /// The user's directory for configuration that stays on this machine.
    ConfigLocalDirectory,
    /// The user's directory for data.
    DataDirectory,
    /// The user's directory for data that stays on this machine.
    DataLocalDirectory,
    /// A text with its reserved bytes escaped.
    EncodeUriComponent,
    /// The value of the first of some environment variables that is set, or a default.
    Env,
    /// The value of the first of some environment variables that is set.
    EnvVar,
    /// The same, or a default.
    EnvVarOrDefault,
    /// Fails with its argument as the message.
    Error,
    /// The directory of the user's own executables.
    ExecutableDirectory,
    /// The extension of a path.
    Extension,
    /// The last component of a path.
    FileName,
    /// The file name of a path without its extension.
    FileStem,
    /// The user's home directory.
    HomeDirectory,
    /// The directory that the program was called in.
    InvocationDirectory,
    /// The same, in the system's own form.
    InvocationDirectoryNative,
    /// Whether the recipe runs as a dependency.
    IsDependency,
    /// Joins paths from left to right.
    Join,
    /// The elements of a value, joined by a text.
    JoinList,
    /// The path of the running program.
    JustExecutable,
    /// The id of the running process.
    JustPid,
    /// The version.
    JustVersion,
    /// The path of the root justfile.
    Justfile,
    /// The directory of the root justfile.
    JustfileDirectory,
    /// The number of elements of a value.
    Len,
    /// A text in lower case.
    Lowercase,
    /// The directory of the module's file.
    ModuleDirectory,
    /// The path of the module's file.
    ModuleFile,
    /// The module's path within the root module.
    ModulePath,
    /// The number of processors.
    NumCpus,
    /// How many recipes may run at once, if that is limited.
    NumJobs,
    /// The name of the operating system.
    Os,
    /// The name of the operating system's family.
    OsFamily,
    /// The parent of a path.
    ParentDirectory,
    /// Whether something exists at a path.
    PathExists,
    /// A value with a text prepended to each element.
    Prepend,
    /// A value with each element quoted for a shell.
    Quote,
    /// The contents of a file.
    Read,
    /// The name of the recipe.
    RecipeName,
    /// A text with each occurrence of a text replaced by another.
    Replace,
    /// The path of an executable, which must exist.
    Require,
    /// The user's directory for files that last as long as the user is logged in.
    RuntimeDirectory,
    /// The output of a command.
    Shell,
    /// A value as it is displayed.
    Show,
    /// The directory of the file that contains the call.
    SourceDirectory,
    /// The path of the file that contains the call.
    SourceFile,
    /// The pieces of a text.
    Split,
    /// A text with white space removed at both ends.
    Trim,
    /// A text with white space removed at its end.
    TrimEnd,
    /// A text with a pattern removed at its end, at most once.
    TrimEndMatch,
    /// A text with a pattern removed at its end, as often as it occurs there.
    TrimEndMatches,
    /// A text with white space removed at its start.
    TrimStart,
    /// A text with a pattern removed at its start, at most once.
    TrimStartMatch,
    /// A text with a pattern removed at its start, as often as it occurs there.
    TrimStartMatches,
    /// A text in upper case.
    Uppercase,
    /// The path of an executable, if it exists.
    Which,
    /// A path without the extension of its file name.
    WithoutExtension,
}
