// The directories that the system keeps for its user.

ghost use Rattle.just_builtins.specs.Prelude.{Asked, Fails, Frames, IsReply, asks_directory, directory_not_unicode};
ghost use Rattle.just_builtins.specs.Prelude.{directory_unreadable, no_directory, text_answered, text_replied};

use crate::call_fault::CallFault;
use crate::message;
use just_host::directory_kind::DirectoryKind;
use just_host::host::Host;
use just_host::text_answer::TextAnswer;
use just_host::text_question::TextQuestion;
use just_value::value::Value;
use std::alloc::Global;

/// The path of a directory of this kind.
///
/// # Errors
///
/// `Message`, if there is none, if its path is not text, or on the host's fault. `OutOfMemory`, if an allocation fails,
/// or if the host reports it.
pub(crate) fn directory<H: Host>(
    alloc: Global,
    host: &mut H,
    kind: DirectoryKind,
) -> Result<Value, CallFault>
    ensures { (shown : Frames) → Asked H.step host.old shown (asks_directory kind) result host.new }
{
    let answer = host.text(alloc, TextQuestion::Directory(kind));
    directory_answered(alloc, kind.word(), answer)
}

// The result for the host's answer.
fn directory_answered(alloc: Global, word: &str, answer: TextAnswer) -> Result<Value, CallFault>
    ensures { IsReply (text_answered (Fails (no_directory word.now)) (directory_not_unicode word.now)
        (directory_unreadable word.now) (text_replied answer)) result }
{
    match answer {
        TextAnswer::Text(text) => Ok(Value::from_string(alloc, text)?),
        TextAnswer::Absent => Err(CallFault::Message(message::no_directory(alloc, word)?)),
        TextAnswer::NotText(text) => {
            Err(CallFault::Message(message::directory_not_unicode(alloc, word, &text)?))
        }
        TextAnswer::Fault(text) => {
            Err(CallFault::Message(message::directory_unreadable(alloc, word, &text)?))
        }
        TextAnswer::OutOfMemory => Err(CallFault::OutOfMemory),
    }
}
