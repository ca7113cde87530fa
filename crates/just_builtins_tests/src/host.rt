// Directories, faults and hosts.

mod echo_host;
mod replayed;
mod shells;
mod watched;
mod written;

use crate::around::{Around, MODULE, map, module_at};
use crate::texts::{gives, is_either, long, owned, same, text_of};
use echo_host::EchoHost;
use just_host::ask::ask_command;
use just_host::config::Config;
use just_host::directory_kind::DirectoryKind;
use just_host::execution_context::ExecutionContext;
use just_host::fault::fault_text;
use just_host::host::Host;
use just_host::justfile::Justfile;
use just_host::map_host::MapHost;
use just_host::no_host::NoHost;
use just_host::number_question::NumberQuestion;
use just_host::settings::Settings;
use just_host::text_question::TextQuestion;
use just_syntax::out_of_memory::OutOfMemory;
use just_value::error::CommandFault;
use std::alloc::{AllocError, Global};
use std::collections::BTreeMap;
use std::process::Abort;
use watched::Watched;
use written::written;

// Statuses, and the texts that report them.
const STATUSES: &[(i32, &str)] = &[
    (3, "process exited with status code 3"),
    (-1, "process exited with status code -1"),
];

#[test]
fn faults(rt: HostRuntime) {
    let alloc = rt.alloc();
    for (status, text) in STATUSES {
        gives(&rt, fault_text(alloc, &CommandFault::Code(*status)), text);
    }
    for text in FAULTS {
        let text = long(&rt, alloc, text);
        let fault = CommandFault::Fault(owned(&rt, alloc, &text));
        gives(&rt, fault_text(alloc, &fault), &text);
    }
    gives(&rt, fault_text(alloc, &CommandFault::OutOfMemory), "");
}

// Why commands could not be run.
const FAULTS: &[&str] = &["not found", "", "~not found~"];

// Whether a module is a submodule; the directory of the search and the module; the one that the module sets; and the
// one that its commands run in. Each text is in the notation of `long`.
type Directory = (
    bool,
    &'static str,
    &'static str,
    Option<&'static str>,
    &'static str,
);

const DIRECTORIES: &[Directory] = &[
    (false, "/work", "/module", None, "/work"),
    (true, "/work", "/module", None, "/module"),
    (false, "/work", "/module", Some("sub"), "/work/sub"),
    (true, "/work", "/module", Some("sub"), "/module/sub"),
    (false, "/work", "/module", Some("/rooted"), "/rooted"),
    (true, "/work", "/module", Some("/rooted"), "/rooted"),
    (false, "/~ab/~", "/~cd/~", None, "/~ab/~"),
    (true, "/~ab/~", "/~cd/~", None, "/~cd/~"),
    (false, "/~ab/~", "/~cd/~", Some("~e/~f"), "/~ab/~~e/~f"),
    (true, "/~ab/~", "/~cd/~", Some("~e/~f"), "/~cd/~~e/~f"),
];

// Short ones, and long ones, for which each call must succeed too.
#[test]
fn working_directories(rt: HostRuntime) {
    for row in DIRECTORIES {
        works_in(&rt, rt.alloc(), "/module/justfile", row);
    }
}

// Commands run in the expected directory, and a module says whether it is a submodule.
fn works_in<'src>(rt: &impl Abort, alloc: Global, source: &'src str, row: &Directory) {
    let (submodule, of_search, of_module, setting, wanted) = *row;
    let directory = long(rt, alloc, of_module);
    let module = module_below(rt, alloc, source, &directory, submodule, setting);
    let config = Config::new(alloc, &directory).expect(rt, "no memory");
    same(rt, &config.invocation_directory, &directory);
    drop(directory);
    let search = long(rt, alloc, of_search);
    let around = Around::new(rt, alloc, module, config, "/work/justfile", &search);
    drop(search);
    let said = around.module.is_submodule();
    let given = directory_of(&around, alloc);
    drop(around);
    is_either(rt, "submodule", said, submodule);
    gives(rt, given, &long(rt, alloc, wanted));
}

// The directory that commands run in.
fn directory_of<'src>(around: &Around<'src>, alloc: Global) -> Result<String, OutOfMemory> {
    around.context().working_directory(alloc)
}

// An empty module that sets at most a working directory.
fn module_below<'src>(
    rt: &impl Abort,
    alloc: Global,
    source: &'src str,
    directory: &str,
    submodule: bool,
    setting: Option<&str>,
) -> Justfile<'src> {
    let mut module = module_at(rt, alloc, source, directory);
    module.submodule = submodule;
    module.settings = set_below(rt, alloc, setting);
    module
}

fn set_below(rt: &impl Abort, alloc: Global, directory: Option<&str>) -> Settings {
    let mut settings = Settings::new(alloc);
    if let Some(text) = directory {
        settings.working_directory = Some(long(rt, alloc, text));
    }
    settings
}

const STOCKED_COMMANDS: &[(&str, &str)] = &[("date", "today"), ("true", "")];

const STOCKED_VARIABLES: &[(&str, &str)] = &[("HOME", "/home/me")];

const STOCKED_FILES: &[(&str, &str)] = &[("/work/notes", "buy milk")];

fn stocked(rt: &impl Abort, alloc: Global) -> MapHost {
    MapHost {
        commands: map(rt, alloc, STOCKED_COMMANDS),
        variables: map(rt, alloc, STOCKED_VARIABLES),
        files: map(rt, alloc, STOCKED_FILES),
    }
}

// Commands, and what they write, or their fault, with the stocked host.
const COMMANDS: &[(&str, &str)] = &[
    ("date", "today"),
    ("true", ""),
    ("who", "! unknown command"),
];

#[test]
fn commands_from_a_map(rt: HostRuntime) {
    all_write_around(&rt, rt.alloc(), MODULE);
}

fn all_write_around<'src>(rt: &impl Abort, alloc: Global, place: &'src str) {
    let around = Around::plain(rt, alloc, place, Settings::new(alloc));
    all_write_in(rt, alloc, &around.context());
    drop(around);
}

// Each command writes its text, or has its fault.
fn all_write_in<'call>(rt: &'call impl Abort, alloc: Global, context: &'call ExecutionContext) {
    for (command, wanted) in COMMANDS {
        writes(rt, alloc, context, command, wanted);
    }
}

fn writes<'call>(
    rt: &'call impl Abort,
    alloc: Global,
    context: &'call ExecutionContext,
    command: &str,
    wanted: &str,
) {
    assert!(rt; !context.config.dry_run);
    let mut host = stocked(rt, alloc);
    let answer = written(alloc, &mut host, context, command);
    is_reported(rt, alloc, &answer, wanted);
}

/// A question to a host, other than a command.
#[derive(Clone, Copy)]
pub(crate) enum Asked {
    Text(TextQuestion<'static>),
    Exists(&'static str),
    Number(NumberQuestion),
}

// Questions to the stocked host, and its answers.
const STOCKED_ANSWERS: &[(Asked, &str)] = &[
    (
        Asked::Text(TextQuestion::Variable("HOME")),
        "Text(\"/home/me\")",
    ),
    (Asked::Text(TextQuestion::Variable("PATH")), "Absent"),
    (
        Asked::Text(TextQuestion::Read("/work/notes")),
        "Text(\"buy milk\")",
    ),
    (
        Asked::Text(TextQuestion::Directory(DirectoryKind::Home)),
        "Absent",
    ),
    (Asked::Exists("/work/notes"), "Ok(true)"),
    (Asked::Exists("/work"), "Ok(false)"),
    (Asked::Number(NumberQuestion::Cpus), "Ok(1)"),
];

#[test]
fn other_answers_from_a_map(rt: HostRuntime) {
    let mut host = Watched {
        host: stocked(&rt, rt.alloc()),
        was_asked: false,
    };
    answers(&rt, rt.alloc(), &mut host, STOCKED_ANSWERS);
    is_either(&rt, "asked", host.was_asked, true);
}

// A host gives these answers.
fn answers<H: Host>(rt: &impl Abort, alloc: Global, host: &mut H, rows: &[(Asked, &str)]) {
    for (asked, wanted) in rows {
        let answer = answer_of(alloc, host, *asked).expect(rt, "no memory");
        same(rt, &answer, wanted);
    }
}

/// A host's answer to a question, as displayed.
pub(crate) fn answer_of<H: Host>(
    alloc: Global,
    host: &mut H,
    asked: Asked,
) -> Result<String, AllocError> {
    match asked {
        Asked::Text(question) => format!(in alloc; "{:?}", host.text(alloc, question)),
        Asked::Exists(path) => format!(in alloc; "{:?}", host.exists(alloc, path)),
        Asked::Number(question) => format!(in alloc; "{:?}", host.number(alloc, question)),
    }
}

/// A host's answer to a command and its arguments in a context.
pub(crate) fn answer_in<'call, H: Host>(
    rt: &'call impl Abort,
    alloc: Global,
    host: &'call mut H,
    context: &'call ExecutionContext,
    command: &str,
    arguments: Option<&[String]>,
) -> Result<String, CommandFault> {
    let env = BTreeMap::new(alloc);
    assert!(rt; !context.config.dry_run);
    ask_command(
        alloc,
        host,
        context,
        &env,
        context.scope,
        command,
        arguments,
    )
}

/// What a command wrote, or its fault's text after `! `, is as expected.
pub(crate) fn is_reported(
    rt: &impl Abort,
    alloc: Global,
    answer: &Result<String, CommandFault>,
    wanted: &str,
) {
    same(rt, &reported(rt, alloc, answer), wanted);
}

fn reported(rt: &impl Abort, alloc: Global, answer: &Result<String, CommandFault>) -> String {
    match answer {
        Ok(text) => owned(rt, alloc, text),
        Err(fault) => {
            let text = text_of(rt, fault_text(alloc, fault));
            format!(in alloc; "! {text}").expect(rt, "no memory")
        }
    }
}

// Questions to a host that answers nothing, or only commands, and its answers.
const NO_ANSWERS: &[(Asked, &str)] = &[
    (Asked::Text(TextQuestion::Variable("HOME")), "Absent"),
    (Asked::Text(TextQuestion::Read("/work/notes")), "Absent"),
    (Asked::Text(TextQuestion::Executable), "Absent"),
    (Asked::Exists("/"), "Ok(false)"),
    (Asked::Number(NumberQuestion::ProcessId), "Ok(0)"),
    (Asked::Number(NumberQuestion::Cpus), "Ok(0)"),
];

#[test]
fn no_answer(rt: HostRuntime) {
    let alloc = rt.alloc();
    answer_commands(&rt, alloc, MODULE);
    answers(&rt, alloc, &mut NoHost, NO_ANSWERS);
    answers(&rt, alloc, &mut EchoHost, NO_ANSWERS);
}

// The answers to a command, of a host that answers nothing and of one that answers only commands.
fn answer_commands<'src>(rt: &impl Abort, alloc: Global, place: &'src str) {
    let around = Around::plain(rt, alloc, place, Settings::new(alloc));
    answer_a_command(&around.context(), rt, alloc);
    drop(around);
}

fn answer_a_command(context: &ExecutionContext, rt: &impl Abort, alloc: Global) {
    let fault = answer_to_date(rt, alloc, &mut NoHost, &*context);
    is_reported(rt, alloc, &fault, "! commands are not run");
    let echo = answer_to_date(rt, alloc, &mut EchoHost, &*context);
    is_reported(rt, alloc, &echo, "date");
}

fn answer_to_date<'call, H: Host>(
    rt: &'call impl Abort,
    alloc: Global,
    host: &'call mut H,
    context: &'call ExecutionContext,
) -> Result<String, CommandFault> {
    answer_in(rt, alloc, host, context, "date", None)
}
