// Settings with expressions before any run: those of a case's assignments that are not referenced.

ghost use Rattle.just_eval_tests.specs.Prelude.{IsConst};

use crate::cases::{Subject, reported};
use crate::compared::reports;
use crate::interpreters::interpreter;
use just_eval::evaluator::Evaluator;
use just_syntax::assignment::Assignment;
use just_syntax::expression::Expression;
use just_syntax::name::Name;
use just_syntax::set::Set;
use just_syntax::setting::Setting;
use just_syntax::table::Table;
use just_value::compile_error::CompileError;
use std::alloc::Global;
use std::process::Abort;

// The settings that hold an expression or an interpreter.
#[derive(Clone, Copy)]
enum Kind {
    DotenvCommand,
    DotenvFilename,
    DotenvPath,
    ScriptInterpreter,
    Shell,
    Tempdir,
    WindowsShell,
    WorkingDirectory,
}

const KINDS: &[(&str, Kind)] = &[
    ("dotenv-command", Kind::DotenvCommand),
    ("dotenv-filename", Kind::DotenvFilename),
    ("dotenv-path", Kind::DotenvPath),
    ("script-interpreter", Kind::ScriptInterpreter),
    ("shell", Kind::Shell),
    ("tempdir", Kind::Tempdir),
    ("windows-shell", Kind::WindowsShell),
    ("working-directory", Kind::WorkingDirectory),
];

// The setting with a name, if it is one of these.
fn kind_of(name: &str) -> Option<Kind> {
    for (known, kind) in KINDS {
        if *known == name {
            return Some(*kind);
        }
    }
    None
}

// A setting of an expression. That of an interpreter is given as a list: the command and its arguments.
fn setting<'src>(rt: &impl Abort, kind: Kind, value: Expression<'src>) -> Setting<'src> {
    match kind {
        Kind::DotenvCommand => Setting::DotenvCommand(value),
        Kind::DotenvFilename => Setting::DotenvFilename(value),
        Kind::DotenvPath => Setting::DotenvPath(value),
        Kind::ScriptInterpreter => Setting::ScriptInterpreter(interpreter(rt, value)),
        Kind::Shell => Setting::Shell(interpreter(rt, value)),
        Kind::Tempdir => Setting::Tempdir(value),
        Kind::WindowsShell => Setting::WindowsShell(interpreter(rt, value)),
        Kind::WorkingDirectory => Setting::WorkingDirectory(value),
    }
}

/// The settings that a case's assignments describe, by their names; other names describe none.
pub(crate) fn sets_of<'src>(
    rt: &impl Abort,
    alloc: Global,
    assignments: Table<Assignment<'src>>,
) -> Table<Set<'src>> {
    let mut sets = Table::new(alloc);
    for assignment in assignments {
        add_named(&mut sets, rt, assignment);
    }
    sets
}

// Adds the setting that an assignment describes, if its name is that of one.
fn add_named<'src>(sets: &mut Table<Set<'src>>, rt: &impl Abort, assignment: Assignment<'src>) {
    match kind_of(assignment.name.lexeme()) {
        Some(kind) => add_set(sets, rt, kind, assignment),
        None => drop(assignment),
    }
}

// Adds the setting that an assignment describes.
fn add_set<'src>(
    sets: &mut Table<Set<'src>>,
    rt: &impl Abort,
    kind: Kind,
    assignment: Assignment<'src>,
) {
    let value = setting(rt, kind, assignment.value);
    add(sets, rt, assignment.name, value);
}

/// Adds a setting of this name.
pub(crate) fn add<'src>(
    sets: &mut Table<Set<'src>>,
    rt: &impl Abort,
    name: Name<'src>,
    value: Setting<'src>,
) {
    sets.insert(Set::new(name, value)).expect(rt, "no memory");
}

/// What settings evaluate to: the line of each one that is set; or the refusal.
pub(crate) fn reported_by<'src>(
    evaluator: &Evaluator<'src, '_>,
    rt: &impl Abort,
    alloc: Global,
    sets: Table<Set<'src>>,
) -> String
    requires before_runs { IsConst evaluator.now }
{
    match evaluator.evaluate_sets(alloc, sets) {
        Ok(settings) => {
            let reported = format!(in alloc; "{settings}").expect(rt, "no memory");
            drop(settings);
            reported
        }
        Err(error) => refusal_reported(rt, alloc, &error),
    }
}

// The message of a refusal, after its place.
fn refusal_reported(rt: &impl Abort, alloc: Global, error: &CompileError) -> String {
    match error {
        CompileError::ConstEval { token, error } => {
            let place = token.lexeme();
            format!(in alloc; "{place}: {error}").expect(rt, "no memory")
        }
        CompileError::OutOfMemory => panic!(rt; "no memory"),
    }
}

const SETTINGS: &[(&str, &str)] = &[
    // Nothing is set.
    ("only\nconst", ""),
    // Values may be lists.
    (
        "only\nstr a\nstr b\nlist 2\nassign dotenv-command\nstr c\nassign dotenv-filename\nlist 0\nassign dotenv-path\nconst",
        "dotenv-command = [\"a\", \"b\"]\ndotenv-filename = \"c\"\n",
    ),
    // Commands and their arguments: the elements of all, in order.
    (
        "only\nstr a\nlist 1\nassign script-interpreter\nstr b\nstr -c\nlist 2\nassign shell\nlist 0\nstr d\nstr e\nlist 2\nlist 0\nlist 3\nassign windows-shell\nconst",
        "script-interpreter = \"a\"\nshell = \"b\" \"-c\"\nwindows-shell = \"d\" \"e\"\n",
    ),
    // A command with a space in it, and an argument with one.
    (
        "only\nstr a b\nlist 1\nassign script-interpreter\nstr b\nstr -c d\nlist 2\nassign shell\nconst",
        "script-interpreter = \"a b\"\nshell = \"b\" \"-c d\"\n",
    ),
    // Texts.
    (
        "only\nstr a\nassign tempdir\nstr b\nstr c\nadd\nassign working-directory\nconst",
        "tempdir = \"a\"\nworking-directory = \"bc\"\n",
    ),
    ("only\nstr\nassign tempdir\nconst", "tempdir = \"\"\n"),
    // A settled variable.
    (
        "str sh\nassign s\nvar s\nstr -c\nlist 2\nassign shell\nonly s\nconst",
        "shell = \"sh\" \"-c\"\n",
    ),
    // An overridden one.
    (
        "cmd c\nassign s\noverride s sh\nvar s\nlist 1\nassign shell\nonly s\nconst",
        "shell = \"sh\"\n",
    ),
    // An open one.
    (
        "call f 0\nassign t\nvar t\nstr x\nadd\nassign s\nvar s\nlist 1\nassign shell\nonly t s\nconst",
        "s: cannot access non-const variable `s` in const context",
    ),
    // A branch that is not taken and reads it.
    (
        "cmd c\nassign t\nstr a\nstr a\neq\nstr y\nvar t\nif\nassign tempdir\nonly t\nconst",
        "tempdir = \"y\"\n",
    ),
    // A command and a call.
    (
        "only\ncmd c\nassign tempdir\nconst",
        "`c`: cannot call backticks in const context",
    ),
    (
        "only\nstr a\ncall trim 1\nassign dotenv-path\nconst",
        "trim: cannot call functions in const context",
    ),
    // No element, and more than one.
    (
        "only\nlist 0\nlist 1\nassign shell\nconst",
        "shell: `shell` setting requires at least one element but evaluated to empty list",
    ),
    (
        "only\nstr a\nstr b\nlist 2\nassign tempdir\nconst",
        "tempdir: list value [\"a\", \"b\"] in setting `tempdir`",
    ),
    (
        "only\nlist 0\nassign working-directory\nconst",
        "working-directory: list value [] in setting `working-directory`",
    ),
    // The first refusal in the byte order of the names, after a settled setting.
    (
        "only\nlist 0\nassign working-directory\nlist 0\nlist 1\nassign shell\nstr a\nassign dotenv-path\nconst",
        "shell: `shell` setting requires at least one element but evaluated to empty list",
    ),
];

#[test]
fn const_settings(rt: HostRuntime) {
    for (case, settings) in SETTINGS {
        let reported = reported(&rt, rt.alloc(), case, &[], Subject::Settings);
        reports(&rt, case, reported, settings);
    }
}
