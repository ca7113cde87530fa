// The table of built-in functions.

use crate::builtin::Builtin;
use crate::function::Function;

/// The built-in functions by their names, and by their short names, if they have one, in strict order of the names'
/// bytes.
pub const TABLE: [(&str, Function); 77] = [
    ("append", Function::BinaryStrValue(Builtin::Append)),
    ("arch", Function::Nullary(Builtin::Arch)),
    ("bool", Function::ValueUnary(Builtin::Bool)),
    ("cache_dir", Function::Nullary(Builtin::CacheDirectory)),
    (
        "cache_directory",
        Function::Nullary(Builtin::CacheDirectory),
    ),
    ("canonicalize", Function::Unary(Builtin::Canonicalize)),
    ("capitalize", Function::Unary(Builtin::Capitalize)),
    ("config_dir", Function::Nullary(Builtin::ConfigDirectory)),
    (
        "config_directory",
        Function::Nullary(Builtin::ConfigDirectory),
    ),
    (
        "config_local_dir",
        Function::Nullary(Builtin::ConfigLocalDirectory),
    ),
    (
        "config_local_directory",
        Function::Nullary(Builtin::ConfigLocalDirectory),
    ),
    ("data_dir", Function::Nullary(Builtin::DataDirectory)),
    ("data_directory", Function::Nullary(Builtin::DataDirectory)),
    (
        "data_local_dir",
        Function::Nullary(Builtin::DataLocalDirectory),
    ),
    (
        "data_local_directory",
        Function::Nullary(Builtin::DataLocalDirectory),
    ),
    (
        "encode_uri_component",
        Function::Unary(Builtin::EncodeUriComponent),
    ),
    ("env", Function::ValueBinaryOpt(Builtin::Env)),
    ("env_var", Function::ValueUnary(Builtin::EnvVar)),
    (
        "env_var_or_default",
        Function::ValueBinary(Builtin::EnvVarOrDefault),
    ),
    ("error", Function::Unary(Builtin::Error)),
    (
        "executable_dir",
        Function::Nullary(Builtin::ExecutableDirectory),
    ),
    (
        "executable_directory",
        Function::Nullary(Builtin::ExecutableDirectory),
    ),
    ("extension", Function::Unary(Builtin::Extension)),
    ("file_name", Function::Unary(Builtin::FileName)),
    ("file_stem", Function::Unary(Builtin::FileStem)),
    ("home_dir", Function::Nullary(Builtin::HomeDirectory)),
    ("home_directory", Function::Nullary(Builtin::HomeDirectory)),
    (
        "invocation_dir",
        Function::Nullary(Builtin::InvocationDirectory),
    ),
    (
        "invocation_dir_native",
        Function::Nullary(Builtin::InvocationDirectoryNative),
    ),
    (
        "invocation_directory",
        Function::Nullary(Builtin::InvocationDirectory),
    ),
    (
        "invocation_directory_native",
        Function::Nullary(Builtin::InvocationDirectoryNative),
    ),
    (
        "is_dependency",
        Function::ValueNullary(Builtin::IsDependency),
    ),
    ("join", Function::BinaryPlus(Builtin::Join)),
    (
        "join_list",
        Function::BinaryOptValueStrToValue(Builtin::JoinList),
    ),
    (
        "just_executable",
        Function::Nullary(Builtin::JustExecutable),
    ),
    ("just_pid", Function::Nullary(Builtin::JustPid)),
    ("just_version", Function::Nullary(Builtin::JustVersion)),
    ("justfile", Function::Nullary(Builtin::Justfile)),
    (
        "justfile_dir",
        Function::Nullary(Builtin::JustfileDirectory),
    ),
    (
        "justfile_directory",
        Function::Nullary(Builtin::JustfileDirectory),
    ),
    ("len", Function::ValueUnary(Builtin::Len)),
    ("lowercase", Function::Unary(Builtin::Lowercase)),
    ("module_dir", Function::Nullary(Builtin::ModuleDirectory)),
    (
        "module_directory",
        Function::Nullary(Builtin::ModuleDirectory),
    ),
    ("module_file", Function::Nullary(Builtin::ModuleFile)),
    ("module_path", Function::Nullary(Builtin::ModulePath)),
    ("num_cpus", Function::Nullary(Builtin::NumCpus)),
    ("num_jobs", Function::ValueNullary(Builtin::NumJobs)),
    ("os", Function::Nullary(Builtin::Os)),
    ("os_family", Function::Nullary(Builtin::OsFamily)),
    ("parent_dir", Function::Unary(Builtin::ParentDirectory)),
    (
        "parent_directory",
        Function::Unary(Builtin::ParentDirectory),
    ),
    ("path_exists", Function::UnaryToValue(Builtin::PathExists)),
    ("prepend", Function::BinaryStrValue(Builtin::Prepend)),
    ("quote", Function::UnaryMap(Builtin::Quote)),
    ("read", Function::Unary(Builtin::Read)),
    ("recipe_name", Function::Nullary(Builtin::RecipeName)),
    ("replace", Function::Ternary(Builtin::Replace)),
    ("require", Function::Unary(Builtin::Require)),
    ("runtime_dir", Function::Nullary(Builtin::RuntimeDirectory)),
    (
        "runtime_directory",
        Function::Nullary(Builtin::RuntimeDirectory),
    ),
    ("shell", Function::UnaryPlus(Builtin::Shell)),
    ("show", Function::ValueUnary(Builtin::Show)),
    ("source_dir", Function::Nullary(Builtin::SourceDirectory)),
    (
        "source_directory",
        Function::Nullary(Builtin::SourceDirectory),
    ),
    ("source_file", Function::Nullary(Builtin::SourceFile)),
    ("split", Function::BinaryOptToValue(Builtin::Split)),
    ("trim", Function::Unary(Builtin::Trim)),
    ("trim_end", Function::Unary(Builtin::TrimEnd)),
    ("trim_end_match", Function::Binary(Builtin::TrimEndMatch)),
    (
        "trim_end_matches",
        Function::Binary(Builtin::TrimEndMatches),
    ),
    ("trim_start", Function::Unary(Builtin::TrimStart)),
    (
        "trim_start_match",
        Function::Binary(Builtin::TrimStartMatch),
    ),
    (
        "trim_start_matches",
        Function::Binary(Builtin::TrimStartMatches),
    ),
    ("uppercase", Function::Unary(Builtin::Uppercase)),
    ("which", Function::UnaryToValue(Builtin::Which)),
    (
        "without_extension",
        Function::Unary(Builtin::WithoutExtension),
    ),
];

/// The names of the built-in functions that are left out, in strict order of bytes. None has a short form.
pub const LEFT_OUT: [&str; 20] = [
    "absolute_path",
    "blake3",
    "blake3_file",
    "choose",
    "clean",
    "datetime",
    "datetime_utc",
    "kebabcase",
    "lowercamelcase",
    "replace_regex",
    "semver_matches",
    "sha256",
    "sha256_file",
    "shoutykebabcase",
    "shoutysnakecase",
    "snakecase",
    "style",
    "titlecase",
    "uppercamelcase",
    "uuid",
];
