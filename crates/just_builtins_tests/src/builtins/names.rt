// What each name denotes.

/// Each function, followed by its names; a shorter name follows the whole one.
pub const NAMES: &[&str] = &[
    "BinaryStrValue(Append) append",
    "Nullary(Arch) arch",
    "ValueUnary(Bool) bool",
    "Nullary(CacheDirectory) cache_directory cache_dir",
    "Unary(Canonicalize) canonicalize",
    "Unary(Capitalize) capitalize",
    "Nullary(ConfigDirectory) config_directory config_dir",
    "Nullary(ConfigLocalDirectory) config_local_directory config_local_dir",
    "Nullary(DataDirectory) data_directory data_dir",
    "Nullary(DataLocalDirectory) data_local_directory data_local_dir",
    "Unary(EncodeUriComponent) encode_uri_component",
    "ValueBinaryOpt(Env) env",
    "ValueUnary(EnvVar) env_var",
    "ValueBinary(EnvVarOrDefault) env_var_or_default",
    "Unary(Error) error",
    "Nullary(ExecutableDirectory) executable_directory executable_dir",
    "Unary(Extension) extension",
    "Unary(FileName) file_name",
    "Unary(FileStem) file_stem",
    "Nullary(HomeDirectory) home_directory home_dir",
    "Nullary(InvocationDirectory) invocation_directory invocation_dir",
    "Nullary(InvocationDirectoryNative) invocation_directory_native invocation_dir_native",
    "ValueNullary(IsDependency) is_dependency",
    "BinaryPlus(Join) join",
    "BinaryOptValueStrToValue(JoinList) join_list",
    "Nullary(JustExecutable) just_executable",
    "Nullary(JustPid) just_pid",
    "Nullary(JustVersion) just_version",
    "Nullary(Justfile) justfile",
    "Nullary(JustfileDirectory) justfile_directory justfile_dir",
    "ValueUnary(Len) len",
    "Unary(Lowercase) lowercase",
    "Nullary(ModuleDirectory) module_directory module_dir",
    "Nullary(ModuleFile) module_file",
    "Nullary(ModulePath) module_path",
    "Nullary(NumCpus) num_cpus",
    "ValueNullary(NumJobs) num_jobs",
    "Nullary(Os) os",
    "Nullary(OsFamily) os_family",
    "Unary(ParentDirectory) parent_directory parent_dir",
    "UnaryToValue(PathExists) path_exists",
    "BinaryStrValue(Prepend) prepend",
    "UnaryMap(Quote) quote",
    "Unary(Read) read",
    "Nullary(RecipeName) recipe_name",
    "Ternary(Replace) replace",
    "Unary(Require) require",
    "Nullary(RuntimeDirectory) runtime_directory runtime_dir",
    "UnaryPlus(Shell) shell",
    "ValueUnary(Show) show",
    "Nullary(SourceDirectory) source_directory source_dir",
    "Nullary(SourceFile) source_file",
    "BinaryOptToValue(Split) split",
    "Unary(Trim) trim",
    "Unary(TrimEnd) trim_end",
    "Binary(TrimEndMatch) trim_end_match",
    "Binary(TrimEndMatches) trim_end_matches",
    "Unary(TrimStart) trim_start",
    "Binary(TrimStartMatch) trim_start_match",
    "Binary(TrimStartMatches) trim_start_matches",
    "Unary(Uppercase) uppercase",
    "UnaryToValue(Which) which",
    "Unary(WithoutExtension) without_extension",
];

/// The names that are left out.
pub const LEFT_OUT: &str =
    "absolute_path blake3 blake3_file choose clean datetime datetime_utc kebabcase lowercamelcase \
    replace_regex semver_matches sha256 sha256_file shoutykebabcase shoutysnakecase snakecase style \
    titlecase uppercamelcase uuid";

/// Some names that denote nothing.
pub const NO_NAMES: &str =
    " _dir _directory _dir_native A Append abs absolute_pat absolute_path_ append_ appendix cache_dire \
    env_va env_var_ foo_dir foo_dir_native home_dir_native home_directory_dir home_directory_native \
    invocation_dir_dir invocation_native nope sha256_dir style_ uuid_dir withou without_extension_ \
    without_extensions zzz é";
