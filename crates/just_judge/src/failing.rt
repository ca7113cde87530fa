// Cases whose questions fail from a chosen one on.

use crate::difference::Difference;
use crate::stored_case::StoredCase;
use crate::tally::Tally;
use just_bench::fail_at::How;
use just_bench::program::run_failing;
use just_syntax::out_of_memory::OutOfMemory;
use std::alloc::Global;
use std::str;

// How many questions of a case are failed, counted from the first; the last one is failed as well.
const TRIED_IN_A_ROW: usize = 16;

/// Fails a case's questions from each one on, in both ways, and from the one after its last. Returns the first failure
/// whose answer is not the one that follows from the stored answer and the failed question.
///
/// # Errors
///
/// `OutOfMemory` if an allocation fails.
pub fn check_failing(
    alloc: Global,
    tally: &mut Tally,
    stored: &StoredCase,
) -> Result<Option<Difference>, OutOfMemory> {
    let Ok(answer) = str::from_utf8(stored.answer) else {
        return Ok(None);
    };
    let asked = most_asked(answer);
    for passed in 0..asked.saturating_add(1) {
        if passed >= TRIED_IN_A_ROW && passed.saturating_add(1) < asked {
            continue;
        }
        let failed = check_failing_from(alloc, stored, answer, passed)?;
        if passed < asked {
            tally.count(failed.is_some());
        }
        if failed.is_some() {
            return Ok(failed);
        }
    }
    Ok(None)
}

// How many questions an answer's run asks. If the answer has two runs, the larger number counts.
fn most_asked(answer: &str) -> usize {
    let mut most = 0usize;
    let mut asked = 0usize;
    for line in answer.lines() {
        if begins_run(line) {
            asked = 0;
        }
        if line.starts_with("? ") {
            asked = asked.saturating_add(1);
            most = most.max(asked);
        }
    }
    most
}

// Whether the line begins one of two runs. A binding of the name `order` may count as one: it comes after all
// questions.
fn begins_run(line: &str) -> bool {
    line == "order" || line.starts_with("order ")
}

// Passes on the given number of questions, and fails the later ones in both ways.
fn check_failing_from(
    alloc: Global,
    stored: &StoredCase,
    answer: &str,
    passed: usize,
) -> Result<Option<Difference>, OutOfMemory> {
    for how in [How::Fault, How::Memory] {
        let mut case = stored.case;
        let mut given = Vec::new(alloc);
        let status = run_failing(alloc, &mut case, &mut given, passed, how);
        let is_expected = match failed_question(alloc, answer, passed, how)? {
            None => status == stored.status && given.as_slice() == stored.answer,
            Some(failed) => status == 2 && failed.ends(alloc, &given, stored.case, how)?,
        };
        if !is_expected {
            return Ok(Some(Difference::Failing { passed, how }));
        }
    }
    Ok(None)
}

// A question that fails: the text printed up to and including its line, and the line without its mark.
#[derive(Drop)]
struct FailedQuestion<'answer> {
    printed: String,
    question: &'answer str,
}

// The question that fails if a run passes on the given number of questions. There may be none.
fn failed_question<'answer>(
    alloc: Global,
    answer: &'answer str,
    passed: usize,
    how: How,
) -> Result<Option<FailedQuestion<'answer>>, OutOfMemory> {
    let mut printed = String::new(alloc);
    let mut asked = 0usize;
    for line in answer.lines() {
        if begins_run(line) {
            asked = 0;
        }
        writeln!(printed, "{line}")?;
        if let Some(question) = line.strip_prefix("? ") {
            if asked >= passed && fails(question, how) {
                return Ok(Some(FailedQuestion { printed, question }));
            }
            asked = asked.saturating_add(1);
        }
    }
    Ok(None)
}

// Whether a question that is not passed on fails. A question for existence or for a number cannot have a fault.
fn fails(question: &str, how: How) -> bool {
    how == How::Memory || !(question.starts_with("exists ") || question.starts_with("number "))
}

impl FailedQuestion<'_> {
    // Whether a case's answer ends with this question and with the refusal that follows from its failure.
    fn ends(
        &self,
        alloc: Global,
        answer: &[u8],
        case: &[u8],
        how: How,
    ) -> Result<bool, OutOfMemory> {
        let (Ok(answer), Ok(case)) = (str::from_utf8(answer), str::from_utf8(case)) else {
            return Ok(false);
        };
        let Some(refusal) = answer
            .strip_prefix(self.printed.as_str())
            .and_then(|rest| rest.strip_prefix("refused "))
            .and_then(|rest| rest.strip_suffix('\n'))
        else {
            return Ok(false);
        };
        match how {
            How::Memory => Ok(refusal == "12 OutOfMemory"),
            How::Fault => is_refused_by_fault(alloc, refusal, self.question, case),
        }
    }
}

// Whether a refusal is the one for the fault `broken` of this question in a case. The refusal is given by its number,
// its name and its contents.
fn is_refused_by_fault(
    alloc: Global,
    refusal: &str,
    question: &str,
    case: &str,
) -> Result<bool, OutOfMemory> {
    if question.starts_with("command ") && refusal == "2 Backtick \"broken\"" {
        return Ok(has_line(case, "cmd "));
    }
    let Some((function, said)) = refusal
        .strip_prefix("5 FunctionCall ")
        .and_then(|rest| rest.split_once(' '))
    else {
        return Ok(false);
    };
    if !has_line(case, &format!(in alloc; "call {function} ")?) {
        return Ok(false);
    }
    says_fault(alloc, said, question)
}

// Whether a case has a line with this beginning.
fn has_line(case: &str, beginning: &str) -> bool {
    for line in case.lines() {
        if line.starts_with(beginning) {
            return true;
        }
    }
    false
}

// Whether this is, in quotes, the message of a built-in function for the fault `broken` of its question.
fn says_fault(alloc: Global, said: &str, question: &str) -> Result<bool, OutOfMemory> {
    let (kind, about) = match question.split_once(' ') {
        Some(parts) => parts,
        None => (question, ""),
    };
    let text = about.trim_matches('"');
    let expected = match kind {
        "command" | "which" => String::from_str(alloc, "broken")?,
        "variable" => format!(in alloc; "environment variable `{text}` cannot be read: broken")?,
        "directory" => format!(in alloc; "{about} directory cannot be read: broken")?,
        "canonicalize" => return says_of_path(alloc, said, "canonicalizing", text),
        "read" => return says_of_path(alloc, said, "reading", text),
        "executable" => String::from_str(alloc, "error getting current executable: broken")?,
        _ => format!(in alloc; "`{kind}` has no answer")?,
    };
    let quoted = format!(in alloc; "\"{expected}\"")?;
    Ok(said == quoted.as_str())
}

// Whether this is the message of a function that did this with a file and had a fault. The message has the path as
// written; the question has it in the working directory.
fn says_of_path(alloc: Global, said: &str, doing: &str, path: &str) -> Result<bool, OutOfMemory> {
    let written = path.strip_prefix("/work/").unwrap_or(path);
    for path in [path, written] {
        let expected = format!(in alloc; "\"I/O error {doing} `{path}`: broken\"")?;
        if said == expected.as_str() {
            return Ok(true);
        }
    }
    Ok(false)
}
