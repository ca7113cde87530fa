// A host that answers from a list.

use super::{Asked, answer_to_date, answers, is_reported};
use crate::around::{Around, MODULE};
use crate::texts::{is_either, owned};
use just_host::directory_kind::DirectoryKind;
use just_host::execution_context::ExecutionContext;
use just_host::number_question::NumberQuestion;
use just_host::replay_host::{ReplayHost, Reply};
use just_host::settings::Settings;
use just_host::text_answer::TextAnswer;
use just_host::text_question::TextQuestion;
use just_value::error::CommandFault;
use std::alloc::Global;
use std::process::Abort;

// Questions, and the answers of a host whose replies are those below.
const ANSWERED: &[(Asked, &str)] = &[
    (Asked::Exists("/work"), "Ok(true)"),
    (Asked::Number(NumberQuestion::Cpus), "Ok(4)"),
    (Asked::Text(TextQuestion::Arch), "Absent"),
    (
        Asked::Text(TextQuestion::Variable("HOME")),
        "Text(\"/home/me\")",
    ),
];

fn replies(rt: &impl Abort, alloc: Global) -> Vec<Reply> {
    let home = TextAnswer::Text(owned(rt, alloc, "/home/me"));
    let replies = vec![in alloc;
        Reply::Exists(true),
        Reply::Number(4),
        Reply::Text(TextAnswer::Absent),
        Reply::Text(home),
    ];
    replies.expect(rt, "no memory")
}

// Questions without an answer: each has the fault of its kind.
const MISSED: &[(Asked, &str)] = &[
    (Asked::Number(NumberQuestion::ProcessId), "Ok(0)"),
    (Asked::Exists("/work"), "Ok(false)"),
    (
        Asked::Text(TextQuestion::Variable("HOME")),
        "Fault(\"no answer to variable \\\"HOME\\\"\")",
    ),
    (
        Asked::Text(TextQuestion::Directory(DirectoryKind::Home)),
        "Fault(\"no answer to directory home\")",
    ),
];

#[test]
fn replies_in_order(rt: HostRuntime) {
    let mut host = ReplayHost::new(replies(&rt, rt.alloc()));
    answers(&rt, rt.alloc(), &mut host, ANSWERED);
    is_either(&rt, "complete", host.is_complete(), true);
    answers(&rt, rt.alloc(), &mut host, MISSED);
    is_either(&rt, "complete", host.is_complete(), false);
}

// The next reply is of another kind than each question.
#[test]
fn replies_of_another_kind(rt: HostRuntime) {
    let mut replies = replies(&rt, rt.alloc());
    replies.reverse();
    let mut host = ReplayHost::new(replies);
    answers(&rt, rt.alloc(), &mut host, MISSED);
    is_either(&rt, "complete", host.is_complete(), false);
}

#[test]
fn replies_to_commands(rt: HostRuntime) {
    reply_at(&rt, rt.alloc(), MODULE);
}

fn reply_at<'src>(rt: &impl Abort, alloc: Global, place: &'src str) {
    let around = Around::plain(rt, alloc, place, Settings::new(alloc));
    reply_in(&around.context(), rt, alloc);
    drop(around);
}

// The texts of commands, a status, and then nothing.
fn reply_in(context: &ExecutionContext, rt: &impl Abort, alloc: Global) {
    let today = Reply::Command(Ok(owned(rt, alloc, "today")));
    let status = Reply::Command(Err(CommandFault::Code(3)));
    let replies = vec![in alloc; today, status, Reply::Number(4)].expect(rt, "no memory");
    let mut host = ReplayHost::new(replies);
    for wanted in [
        "today",
        "! process exited with status code 3",
        "! no answer to command \"date\"",
        "! no answer to command \"date\"",
    ] {
        let answer = answer_to_date(rt, alloc, &mut host, &*context);
        is_reported(rt, alloc, &answer, wanted);
    }
    is_either(rt, "complete", host.is_complete(), false);
}
