// Hosts that answer by a script, that record, and that fail.

use crate::texts::{owned, questions_of, same};
use just_host::command_question::CommandQuestion;
use just_host::config::Config;
use just_host::host::Host;
use just_host::number_question::NumberQuestion;
use just_host::recorded::Recorded;
use just_host::recorder::Recorder;
use just_host::settings::Settings;
use just_host::text_answer::TextAnswer;
use just_host::text_question::TextQuestion;
use just_script::fail_at::{FailAt, How};
use just_script::scripted_host::ScriptedHost;
use just_value::error::CommandFault;
use just_value::scope::Scope;
use std::alloc::{AllocError, Global};
use std::collections::BTreeMap;
use std::process::Abort;

// The directory that commands are run in.
const DIRECTORY: &str = "/work";

// The context of commands here.
#[derive(Drop)]
struct Asking {
    config: Config,
    env: BTreeMap<String, String>,
    scope: Scope<'static, 'static>,
    settings: Settings,
}

impl Asking {
    fn new(rt: &impl Abort, alloc: Global) -> Asking {
        let mut env = BTreeMap::new(alloc);
        for (key, value) in ENVIRONMENT {
            let inserted: Result<_, _> = env.insert(owned(rt, alloc, key), owned(rt, alloc, value));
            inserted.expect(rt, "no memory");
        }
        Asking {
            config: Config::new(alloc, DIRECTORY).expect(rt, "no memory"),
            env,
            scope: Scope::root(alloc, &[]).expect(rt, "no memory"),
            settings: Settings::new(alloc),
        }
    }

    // Asks a host to run a command.
    fn ask<H: Host>(
        &self,
        alloc: Global,
        host: &mut H,
        command: &str,
        arguments: Option<&[String]>,
    ) -> Result<String, CommandFault> {
        let question = CommandQuestion {
            command,
            arguments,
            env: &self.env,
            scope: &self.scope,
            config: &self.config,
            dotenv: &self.env,
            settings: &self.settings,
            unexports: &[],
            working_directory: DIRECTORY,
        };
        host.command(alloc, &question)
    }

    // The same, with the answer as a text.
    fn reported<H: Host>(
        &self,
        rt: &impl Abort,
        alloc: Global,
        host: &mut H,
        command: &str,
        arguments: Option<&[String]>,
    ) -> String {
        let answer = self.ask(alloc, host, command, arguments);
        format!(in alloc; "{answer:?}").expect(rt, "no memory")
    }
}

// The environment of each command.
const ENVIRONMENT: &[(&str, &str)] = &[("K", "v w"), ("L", "")];

// A script of a text and a status, two commands with fixed answers, and some other answers.
fn script(rt: &impl Abort, alloc: Global) -> ScriptedHost {
    ScriptedHost::new(
        always(rt, alloc),
        replies(rt, alloc),
        texts(rt, alloc),
        vec![in alloc; true].expect(rt, "no memory"),
        vec![in alloc; 7u64].expect(rt, "no memory"),
    )
}

// The commands with fixed answers. For a command that occurs twice, the last answer counts.
const ALWAYS: &[(&str, &str)] = &[("ls", "old"), ("pwd", "/work"), ("ls", "new")];

fn always(rt: &impl Abort, alloc: Global) -> Vec<(String, String)> {
    let mut always = Vec::new(alloc);
    for (command, answer) in ALWAYS {
        let pushed = always.push((owned(rt, alloc, command), owned(rt, alloc, answer)));
        pushed.expect(rt, "no memory");
    }
    always
}

fn replies(rt: &impl Abort, alloc: Global) -> Vec<Result<String, CommandFault>> {
    vec![in alloc; Ok(owned(rt, alloc, "x")), Err(CommandFault::Code(3))].expect(rt, "no memory")
}

fn texts(rt: &impl Abort, alloc: Global) -> Vec<TextAnswer> {
    let text = TextAnswer::Text(owned(rt, alloc, "t"));
    vec![in alloc; text, TextAnswer::OutOfMemory].expect(rt, "no memory")
}

// Commands in the order in which they are asked, and their answers.
const COMMANDS: &[(&str, &str)] = &[
    ("c", "Ok(\"x\")"),
    ("ls", "Ok(\"new\")"),
    ("c", "Err(Code(3))"),
    ("pwd", "Ok(\"/work\")"),
    ("c", "Err(Fault(\"no reply\"))"),
    ("c", "Err(Fault(\"no reply\"))"),
    ("ls", "Ok(\"new\")"),
];

#[test]
fn script_in_order(rt: HostRuntime) {
    let alloc = rt.alloc();
    let asking = Asking::new(&rt, alloc);
    let mut host = script(&rt, alloc);
    for (command, expected) in COMMANDS {
        let reported = asking.reported(&rt, alloc, &mut host, command, None);
        same(&rt, command, &reported, expected);
    }
    drop(asking);
    drop(host);
}

// The answers of the other kinds, in order.
const TEXTS: &[&str] = &["Text(\"t\")", "OutOfMemory", "Absent", "Absent"];

const EXISTS: &[bool] = &[true, false, false];

const NUMBERS: &[u64] = &[7, 0, 0];

#[test]
fn other_answers_in_order(rt: HostRuntime) {
    let alloc = rt.alloc();
    let mut host = script(&rt, alloc);
    for expected in TEXTS {
        same(&rt, "os", &text_reported(&rt, alloc, &mut host), expected);
    }
    for expected in EXISTS {
        exists(&rt, alloc, &mut host, *expected);
    }
    for expected in NUMBERS {
        numbers(&rt, alloc, &mut host, *expected);
    }
    drop(host);
}

// Whether something exists at a path, according to a host, is as expected.
fn exists(rt: &impl Abort, alloc: Global, host: &mut ScriptedHost, expected: bool) {
    let answer = host.exists(alloc, "p").expect(rt, "no memory");
    assert_eq!(rt; answer, expected);
}

// The number of processors, according to a host, is as expected.
fn numbers(rt: &impl Abort, alloc: Global, host: &mut ScriptedHost, expected: u64) {
    let answer = host.number(alloc, NumberQuestion::Cpus);
    assert_eq!(rt; answer.expect(rt, "no memory"), expected);
}

fn text_reported<H: Host>(rt: &impl Abort, alloc: Global, host: &mut H) -> String {
    let answer = host.text(alloc, TextQuestion::Os);
    format!(in alloc; "{answer:?}").expect(rt, "no memory")
}

// How many questions are passed on, how the others fail, and the answers.
const FAILING: &[(usize, How, &str)] = &[
    (
        5,
        How::Fault,
        "Ok(\"x\") Err(Code(3)) Text(\"t\") Ok(true) Ok(7)",
    ),
    (
        1,
        How::Fault,
        "Ok(\"x\") Err(Fault(\"broken\")) Fault(\"broken\") Ok(true) Ok(7)",
    ),
    (
        4,
        How::Memory,
        "Ok(\"x\") Err(Code(3)) Text(\"t\") Ok(true) Err(OutOfMemory)",
    ),
    (
        0,
        How::Memory,
        "Err(OutOfMemory) Err(OutOfMemory) OutOfMemory Err(OutOfMemory) Err(OutOfMemory)",
    ),
];

// Two commands, a text, an existence check and a number, the first of which are passed on.
#[test]
fn fails_from_a_question_on(rt: HostRuntime) {
    for (passed, how, expected) in FAILING {
        fails(&rt, rt.alloc(), *passed, *how, expected);
    }
}

// A host that fails in this way after this many questions gives these answers.
fn fails(rt: &impl Abort, alloc: Global, passed: usize, how: How, expected: &str) {
    let mut host = FailAt::new(script(rt, alloc), passed, how);
    let reported = all_kinds_reported(rt, alloc, &mut host);
    drop(host);
    assert_eq!(rt; reported.as_str(), expected, "{passed}");
}

// The answers to two commands, a text, an existence check and a number.
fn all_kinds_reported<H: Host>(rt: &impl Abort, alloc: Global, host: &mut H) -> String {
    let commands = two_commands_reported(rt, alloc, host);
    let text = text_reported(rt, alloc, host);
    let exists = host.exists(alloc, "p");
    let number = host.number(alloc, NumberQuestion::Cpus);
    format!(in alloc; "{commands} {text} {exists:?} {number:?}").expect(rt, "no memory")
}

fn two_commands_reported<H: Host>(rt: &impl Abort, alloc: Global, host: &mut H) -> String {
    let asking = Asking::new(rt, alloc);
    let one = asking.reported(rt, alloc, host, "c", None);
    let other = asking.reported(rt, alloc, host, "c", None);
    drop(asking);
    format!(in alloc; "{one} {other}").expect(rt, "no memory")
}

// The arguments that a command is asked with, what is recorded of the question, and its answer.
const RECORDED: &[(Option<&[&str]>, &str, &str)] = &[
    (
        Some(&["a b", "\""]),
        "c\t [\"a b\" \"\\\"\" ] K=\"v w\" L=\"\" ",
        "Ok(\"x\")",
    ),
    (Some(&[]), "c\t [] K=\"v w\" L=\"\" ", "Err(Code(3))"),
    (
        None,
        "c\t no arguments K=\"v w\" L=\"\" ",
        "Err(Fault(\"no reply\"))",
    ),
];

#[test]
fn records_each_question(rt: HostRuntime) {
    let alloc = rt.alloc();
    let asking = Asking::new(&rt, alloc);
    let mut host = Recorder::new(alloc, script(&rt, alloc));
    for (arguments, kept, expected) in RECORDED {
        let reported = reported_with(&rt, alloc, &asking, &mut host, *arguments);
        same(&rt, "answer", &reported, expected);
        same(&rt, "kept", &last_kept(&rt, alloc, host.questions()), kept);
    }
    same(
        &rt,
        "questions",
        &questions_of(&rt, alloc, &host),
        "? command \"c\\t\" \"a b\" \"\\\"\"\n? command \"c\\t\"\n? command \"c\\t\"\n",
    );
    let taken = host.take_questions(alloc);
    let last = last_kept(&rt, alloc, &taken);
    same(&rt, "taken", &last, "c\t no arguments K=\"v w\" L=\"\" ");
    same(&rt, "left", &questions_of(&rt, alloc, &host), "");
    drop((taken, host));
    asks_on(&rt, alloc, &asking);
    drop(asking);
}

// What a recorder asked a host is not asked again, and the host is as the recorder left it.
fn asks_on(rt: &impl Abort, alloc: Global, asking: &Asking) {
    let mut recorder = Recorder::new(alloc, script(rt, alloc));
    let first = asking.reported(rt, alloc, &mut recorder, "c", None);
    let mut host = recorder.into_inner();
    let second = asking.reported(rt, alloc, &mut host, "c", None);
    drop(host);
    same(rt, "the recorder", &first, "Ok(\"x\")");
    same(rt, "the host in it", &second, "Err(Code(3))");
}

// What is recorded of the last question, a command: its text, its arguments, and its environment.
fn last_kept(rt: &impl Abort, alloc: Global, questions: &[Recorded]) -> String {
    match questions.last() {
        Some(
            Recorded::Command {
                command,
                arguments,
                env,
            },
        ) => {
            let kept = kept(alloc, command, arguments, env);
            kept.expect(rt, "no memory")
        }
        _ => panic!(rt; "no command"),
    }
}

fn kept(
    alloc: Global,
    command: &str,
    arguments: &Option<Vec<String>>,
    env: &BTreeMap<String, String>,
) -> Result<String, AllocError> {
    let mut text = format!(in alloc; "{command} ")?;
    match arguments {
        Some(words) => {
            text.push('[')?;
            for word in words {
                write!(text, "{word:?} ")?;
            }
            text.push_str("] ")?;
        }
        None => text.push_str("no arguments ")?,
    }
    for (key, value) in env {
        write!(text, "{key}={value:?} ")?;
    }
    Ok(text)
}

// A host's answer to a command with these arguments.
fn reported_with<H: Host>(
    rt: &impl Abort,
    alloc: Global,
    asking: &Asking,
    host: &mut H,
    arguments: Option<&[&str]>,
) -> String {
    let Some(words) = arguments else {
        return asking.reported(rt, alloc, host, "c\t", None);
    };
    let words = all_owned(rt, alloc, words);
    asking.reported(rt, alloc, host, "c\t", Some(&words))
}

// Copies of texts.
fn all_owned(rt: &impl Abort, alloc: Global, texts: &[&str]) -> Vec<String> {
    let mut all = Vec::new(alloc);
    for text in texts {
        let pushed = all.push(owned(rt, alloc, text));
        pushed.expect(rt, "no memory");
    }
    all
}
