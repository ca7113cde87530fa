// Constants of a thousand elements, and texts of a thousand pieces. If there is memory each call must succeed; no
// clause forbids a call to give up.

use crate::cases::{Subject, reported};
use crate::compared::reports;
use crate::constants::evaluates_to;
use crate::interpreters::staged;
use std::alloc::Global;
use std::process::Abort;

// A piece, repeated a thousand times, between two texts.
fn thousand(rt: &impl Abort, alloc: Global, front: &str, piece: &str, back: &str) -> String {
    let pieces = piece.repeat(alloc, 1000).expect(rt, "no memory");
    format!(in alloc; "{front}{pieces}{back}").expect(rt, "no memory")
}

#[test]
fn constants_of_a_thousand(rt: HostRuntime) {
    is_a_list(&rt, rt.alloc());
    is_a_text(&rt, rt.alloc());
    is_an_interpreter(&rt, rt.alloc());
    are_settings(&rt, rt.alloc());
}

// A list of 1001 elements: as a value, in the refusal if a single text is required, and in a line.
fn is_a_list(rt: &impl Abort, alloc: Global) {
    let list = thousand(rt, alloc, "", "str a\n", "list 1000\nstr b\ncat");
    let value = thousand(rt, alloc, "[", "\"a\", ", "\"b\"]");
    let refusal = format!(in alloc; "list value {value} in setting `set`").expect(rt, "no memory");
    let line = thousand(rt, alloc, "<", "a ", "b>");
    evaluates_to(rt, alloc, &list, &value, &refusal, &line);
}

// A text of a thousand pieces, as a value, as a text, and in a line.
fn is_a_text(rt: &impl Abort, alloc: Global) {
    let literal = thousand(rt, alloc, "str ", "ab ", "c");
    let value = thousand(rt, alloc, "\"", "ab ", "c\"");
    let text = thousand(rt, alloc, "", "ab ", "c");
    let line = thousand(rt, alloc, "<", "ab ", "c>");
    evaluates_to(rt, alloc, &literal, &value, &text, &line);
}

// A command of a thousand elements in all.
fn is_an_interpreter(rt: &impl Abort, alloc: Global) {
    let list = thousand(rt, alloc, "", "str a\n", "list 1000");
    let wanted = thousand(rt, alloc, "", " \"a\"", "");
    let reported = staged(rt, alloc, &list);
    reports(
        rt,
        "an interpreter",
        reported,
        wanted.trim_start_matches(' '),
    );
}

// A setting of a list, one of an interpreter, and one of a text.
fn are_settings(rt: &impl Abort, alloc: Global) {
    let command = thousand(
        rt,
        alloc,
        "only\n",
        "str a\n",
        "list 1000\nassign dotenv-command\n",
    );
    let shell = thousand(
        rt,
        alloc,
        "str sh\n",
        "str a\n",
        "list 1000\nlist 2\nassign shell\n",
    );
    let tempdir = thousand(rt, alloc, "str ", "/a", "\nassign tempdir\nconst");
    let case = format!(in alloc; "{command}{shell}{tempdir}").expect(rt, "no memory");
    let command = thousand(rt, alloc, "dotenv-command = [", "\"a\", ", "");
    let command = command.trim_end_matches(", ");
    let shell = thousand(rt, alloc, "]\nshell = \"sh\"", " \"a\"", "\n");
    let tempdir = thousand(rt, alloc, "tempdir = \"", "/a", "\"\n");
    let wanted = format!(in alloc; "{command}{shell}{tempdir}").expect(rt, "no memory");
    let reported = reported(rt, alloc, &case, &[], Subject::Settings);
    reports(rt, "settings", reported, &wanted);
}
