// How questions are printed, and the words that a command is run with.

use crate::around::{Around, MODULE, insert, map};
use crate::host::{Asked, answer_in, answer_of, is_reported};
use crate::texts::{long, owned, same};
use just_host::ask::ask_command;
use just_host::command_host::{CommandHost, Commands};
use just_host::command_question::CommandQuestion;
use just_host::directory_kind::DirectoryKind;
use just_host::execution_context::ExecutionContext;
use just_host::no_host::NoHost;
use just_host::number_question::NumberQuestion;
use just_host::recorded::Recorded;
use just_host::recorder::Recorder;
use just_host::settings::Settings;
use just_host::text_question::TextQuestion;
use just_syntax::interpreter::Interpreter;
use just_syntax::out_of_memory::OutOfMemory;
use just_value::error::CommandFault;
use std::alloc::{AllocError, Global};
use std::collections::BTreeMap;
use std::process::Abort;

// Questions, and how they are printed.
const QUESTIONS: &[(Asked, &str)] = &[
    (
        Asked::Text(TextQuestion::Variable("K\t")),
        "variable \"K\\t\"",
    ),
    (
        Asked::Text(TextQuestion::Directory(DirectoryKind::ConfigLocal)),
        "directory local config",
    ),
    (
        Asked::Text(TextQuestion::Directory(DirectoryKind::Home)),
        "directory home",
    ),
    (
        Asked::Text(TextQuestion::Canonicalize("é")),
        "canonicalize \"é\"",
    ),
    (Asked::Text(TextQuestion::Read("\"")), "read \"\\\"\""),
    (
        Asked::Text(TextQuestion::Which {
            name: "n",
            working_directory: "/work",
        }),
        "which \"n\"",
    ),
    (Asked::Text(TextQuestion::Executable), "executable"),
    (Asked::Text(TextQuestion::Arch), "arch"),
    (Asked::Text(TextQuestion::Os), "os"),
    (Asked::Text(TextQuestion::OsFamily), "os_family"),
    (
        Asked::Number(NumberQuestion::ProcessId),
        "number process_id",
    ),
    (Asked::Number(NumberQuestion::Cpus), "number cpus"),
    (Asked::Exists("/a b"), "exists \"/a b\""),
];

// The shell of a module; the arguments of the command `c d`, each after `;`; whether the shell takes a name for itself;
// how the command is printed; and its words, with `|` between them. The words of a shell have `;` between them. Each
// text is in the notation of `long`.
type Command = (
    Option<&'static str>,
    Option<&'static str>,
    bool,
    &'static str,
    &'static str,
);

const COMMANDS: &[Command] = &[
    (None, None, false, "command \"c d\"", "sh|-cu|c d"),
    (None, None, true, "command \"c d\"", "sh|-cu|c d"),
    (None, Some(""), false, "command \"c d\"", "sh|-cu|c d"),
    (None, Some(""), true, "command \"c d\"", "sh|-cu|c d|c d"),
    (
        None,
        Some(";a b;\n"),
        false,
        "command \"c d\" \"a b\" \"\\n\"",
        "sh|-cu|c d|a b|\n",
    ),
    (
        None,
        Some(";a b;"),
        true,
        "command \"c d\" \"a b\" \"\"",
        "sh|-cu|c d|c d|a b|",
    ),
    (
        Some("bash;-e;-c"),
        None,
        true,
        "command \"c d\"",
        "bash|-e|-c|c d",
    ),
    (
        Some("bash~;-e~"),
        Some("~;a~"),
        true,
        "command \"c d\"~ \"a\"~",
        "bash~|-e~|c d|c d~|a~",
    ),
];

#[test]
fn questions_print(rt: HostRuntime) {
    let alloc = rt.alloc();
    let mut host = Recorder::new(alloc, NoHost);
    for _ in 0..100 {
        for (asked, printed) in QUESTIONS {
            print(&rt, alloc, &mut host, *asked, printed);
        }
    }
    prints(&rt, DirectoryKind::Data.to_string(alloc), "data");
    assert_eq!(rt; host.questions().len(), 1300);
    drop(host);
}

// A question is printed like this, both itself and as recorded. No host answers it.
fn print(rt: &impl Abort, alloc: Global, host: &mut Recorder<NoHost>, asked: Asked, printed: &str) {
    match asked {
        Asked::Text(question) => prints(rt, question.to_string(alloc), printed),
        Asked::Number(question) => prints(rt, question.to_string(alloc), printed),
        Asked::Exists(_) => {}
    }
    let answer = answer_of(alloc, host, asked);
    answer.expect(rt, "no memory");
    prints_last(rt, alloc, host.questions(), printed);
}

// The printed text is as expected.
fn prints(rt: &impl Abort, printed: Result<String, AllocError>, wanted: &str) {
    same(rt, &printed.expect(rt, "no memory"), wanted);
}

// The last recorded question is printed like this.
fn prints_last(rt: &impl Abort, alloc: Global, questions: &[Recorded], wanted: &str) {
    match questions.last() {
        Some(last) => prints(rt, last.to_string(alloc), wanted),
        None => panic!(rt; "{wanted}"),
    }
}

// Answers a command with a description of its question.
#[derive(Drop)]
enum Describer {
    // The words that the command is run with, and `|` between them. The shell may take a name for itself.
    Words { takes_shell_name: bool },
    // What else the question holds.
    Context,
}

impl Commands for Describer {
    ghost answers = { λ _ _ _ _. Unit {0} };

    fn answer(
        &mut self,
        alloc: Global,
        question: &CommandQuestion,
    ) -> Result<String, CommandFault> {
        match *self {
            Describer::Words { takes_shell_name } => words_of(alloc, question, takes_shell_name),
            Describer::Context => Ok(held(alloc, question)?),
        }
    }
}

// The words that a command is run with.
fn words_of(
    alloc: Global,
    question: &CommandQuestion,
    takes_shell_name: bool,
) -> Result<String, CommandFault> {
    let words = question.command_line(alloc, takes_shell_name)?;
    Ok(words.join(alloc, "|")?)
}

#[test]
fn commands(rt: HostRuntime) {
    for command in COMMANDS {
        runs(&rt, rt.alloc(), MODULE, command);
    }
}

// The command `c d` is printed like this, and is run with these words.
fn runs<'src>(rt: &impl Abort, alloc: Global, place: &'src str, command: &Command) {
    let (shell, arguments, takes_shell_name, printed, words) = *command;
    let commands = Describer::Words { takes_shell_name };
    let mut host = Recorder::new(alloc, CommandHost::new(commands));
    let around = Around::plain(rt, alloc, place, set_to(rt, alloc, shell));
    let answer = answer_with(rt, alloc, &mut host, &around.context(), arguments);
    drop(around);
    is_reported(rt, alloc, &answer, &long(rt, alloc, words));
    prints_last(rt, alloc, host.questions(), &long(rt, alloc, printed));
    drop(host);
}

// Settings that set at most the shell.
fn set_to(rt: &impl Abort, alloc: Global, shell: Option<&str>) -> Settings {
    let mut settings = Settings::new(alloc);
    if let Some(line) = shell {
        let line = long(rt, alloc, line);
        let command = line.split(';').next().expect(rt, "no command");
        let command = owned(rt, alloc, command);
        settings.shell = Some(Interpreter::new(command, after(rt, alloc, &line)));
    }
    settings
}

// The parts of a line after each `;`.
fn after(rt: &impl Abort, alloc: Global, line: &str) -> Vec<String> {
    let mut all = Vec::new(alloc);
    let mut pieces = line.split(';');
    pieces.next();
    for piece in pieces {
        all.push(owned(rt, alloc, piece)).expect(rt, "no memory");
    }
    all
}

// A host's answer to the command `c d`, with the arguments after each `;`.
fn answer_with<'call>(
    rt: &'call impl Abort,
    alloc: Global,
    host: &'call mut Recorder<CommandHost<Describer, NoHost>>,
    context: &'call ExecutionContext,
    arguments: Option<&str>,
) -> Result<String, CommandFault> {
    match arguments {
        Some(line) => {
            let words = after(rt, alloc, &long(rt, alloc, line));
            answer_in(rt, alloc, host, context, "c d", Some(&words))
        }
        None => answer_in(rt, alloc, host, context, "c d", None),
    }
}

// The context of a command: the variables of its environment and those of dotenv files, the names that are not
// exported, and whether the module is a submodule of `/module`, with the working directory that it sets. Then what the
// question holds. The search has the directory `/work`.
type Held = (
    &'static [(&'static str, &'static str)],
    &'static [(&'static str, &'static str)],
    &'static [&'static str],
    bool,
    Option<&'static str>,
    &'static str,
);

const HELD: &[Held] = &[
    (&[], &[], &[], false, None, "c in /work"),
    (
        &[("A", "x"), ("B", "")],
        &[("D", "d e"), ("E", "é")],
        &["V", "U"],
        false,
        None,
        "c A=x B= dotenv D=d e dotenv E=é without V without U in /work",
    ),
    (
        &[],
        &[("D", "d")],
        &[],
        true,
        None,
        "c dotenv D=d in /module",
    ),
    (
        &[],
        &[],
        &["U"],
        true,
        Some("dir"),
        "c without U in /module/dir",
    ),
    (
        &[("A", "x")],
        &[],
        &[],
        false,
        Some("dir"),
        "c A=x in /work/dir",
    ),
    (&[], &[], &[], true, Some("/dir"), "c in /dir"),
];

// The command, its environment, the dotenv variables, the names that are not exported, and the directory. The
// configuration and the settings are those of the context.
fn held(alloc: Global, question: &CommandQuestion) -> Result<String, OutOfMemory> {
    let mut text = String::from_str(alloc, question.command)?;
    for (key, value) in question.env {
        write!(text, " {key}={value}")?;
    }
    for (key, value) in question.dotenv {
        write!(text, " dotenv {key}={value}")?;
    }
    for name in question.unexports {
        write!(text, " without {name}")?;
    }
    let directory = question.working_directory;
    write!(text, " in {directory}")?;
    let is_called_here = question.config.invocation_directory.as_str() == "/called/here";
    if !is_called_here || !question.settings.quiet {
        text.push_str(" of another context")?;
    }
    Ok(text)
}

#[test]
fn questions_hold_their_context(rt: HostRuntime) {
    for held in HELD {
        holds(&rt, rt.alloc(), MODULE, held);
    }
}

// A command's question holds this.
fn holds<'src>(rt: &impl Abort, alloc: Global, place: &'src str, held: &Held) {
    let (env, dotenv, unexports, submodule, directory, wanted) = *held;
    let mut settings = Settings::new(alloc);
    settings.quiet = true;
    if let Some(text) = directory {
        settings.working_directory = Some(owned(rt, alloc, text));
    }
    let mut around = Around::plain(rt, alloc, place, settings);
    for (key, text) in dotenv {
        insert(rt, alloc, &mut around.dotenv, key, text);
    }
    for name in unexports {
        let pushed = around.module.unexports.push(owned(rt, alloc, name));
        pushed.expect(rt, "no memory");
    }
    around.module.submodule = submodule;
    let answer = held_in(alloc, &around.context(), &map(rt, alloc, env));
    drop(around);
    is_reported(rt, alloc, &answer, wanted);
}

fn held_in<'call>(
    alloc: Global,
    context: &'call ExecutionContext,
    env: &'call BTreeMap<String, String>,
) -> Result<String, CommandFault> {
    if context.config.dry_run {
        return Err(CommandFault::OutOfMemory);
    }
    ask_command(
        alloc,
        &mut CommandHost::new(Describer::Context),
        context,
        env,
        context.scope,
        "c",
        None,
    )
}
