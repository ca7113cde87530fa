// Wrong files, answers and constants, and the kind of difference that is reported for each.

mod runs;

use just_bench::fail_at::How;
use just_judge::agreement::Run;
use just_judge::check::{Tallies, check_case, check_file};
use just_judge::contradiction::Contradiction;
use just_judge::cutting::check_cuts;
use just_judge::difference::Difference;
use just_judge::failing::check_failing;
use just_judge::stored_case::{StoredCase, cut};
use just_judge::streams::check_streams;
use just_judge::tally::Tally;
use just_syntax::out_of_memory::OutOfMemory;
use std::alloc::Global;
use std::process::Abort;

// Files, and how the case of each differs from its file.
const FILES: &[(&str, Option<Difference>)] = &[
    ("str x\nassign a\nrun\n\n=> 0\na = \"x\"\n", None),
    ("add\n\n=> 1\nbad line 1\n", None),
    (
        "str x\nassign a\nrun\n\n=> 2\na = \"x\"\n",
        Some(Difference::Status {
            expected: 2,
            given: 0,
        }),
    ),
    (
        "add\n\n=> 0\nbad line 1\n",
        Some(Difference::Status {
            expected: 0,
            given: 1,
        }),
    ),
    (
        "str x\nassign a\nrun\n\n=> 0\na = \"y\"\n",
        Some(Difference::Answer),
    ),
    ("add\n\n=> 1\nbad line 2\n", Some(Difference::Answer)),
    // Files that are cut in the answer, in the status line and in the case.
    (
        "str x\nassign a\nrun\n\n=> 0\na = \"x\"",
        Some(Difference::Answer),
    ),
    ("str x\nassign a\nrun\n\n=> 0\n", Some(Difference::Answer)),
    ("str x\nassign a\nrun\n\n=> 0", Some(Difference::NoStatus)),
    ("str x\nassign a\nrun\n\n=> ", Some(Difference::NoStatus)),
    ("str x\nassign a\nru", Some(Difference::NoStatus)),
    ("", Some(Difference::NoStatus)),
];

#[test]
fn files_that_differ(rt: HostRuntime) {
    for (file, expected) in FILES {
        differs(
            &rt,
            file,
            check_file(rt.alloc(), &mut Tallies::default(), file.as_bytes()),
            *expected,
        );
    }
    let unreadable = check_case(&rt, &mut Tallies::default(), "/no/such/folder", "case");
    assert_eq!(rt; unreadable.ok(), Some(Some(Difference::Unreadable)));
}

// Asserts that the difference found in a file is the expected one.
fn differs(
    rt: &impl Abort,
    file: &str,
    found: Result<Option<Difference>, OutOfMemory>,
    expected: Option<Difference>,
) {
    assert_eq!(rt; found.expect(rt, "no memory"), expected, "{file}");
}

// Cases, and how each differs when a question fails, it is cut, and a write fails. The first has the right answer.
const HOSTILE: &[(&str, [Option<Difference>; 3])] = &[
    (
        "cmd c\nassign a\nreply x\nrun\n\n=> 0\n? command \"c\"\na = \"x\"\n",
        [None; 3],
    ),
    (
        "cmd c\nassign a\nreply x\nrun\n\n=> 0\n? command \"d\"\na = \"x\"\n",
        [
            Some(Difference::Failing {
                passed: 0,
                how: How::Fault,
            }),
            Some(Difference::Cut { length: 26 }),
            Some(Difference::Write { writes: 4 }),
        ],
    ),
    (
        "cmd c\nassign a\nreply x\nrun\n\n=> 0\n? command \"c\"\na = \"y\"\n",
        [
            Some(Difference::Failing {
                passed: 1,
                how: How::Fault,
            }),
            Some(Difference::Cut { length: 26 }),
            Some(Difference::Write { writes: 7 }),
        ],
    ),
];

#[test]
fn hostile_uses_that_differ(rt: HostRuntime) {
    for (file, expected) in HOSTILE {
        let stored = cut(file.as_bytes()).expect(&rt, "no case");
        uses_differ(&rt, rt.alloc(), file, &stored, *expected);
    }
}

fn uses_differ(
    rt: &impl Abort,
    alloc: Global,
    file: &str,
    stored: &StoredCase,
    [failing, cut, failed_write]: [Option<Difference>; 3],
) {
    let mut tally = Tally::default();
    differs(rt, file, check_failing(alloc, &mut tally, stored), failing);
    differs(rt, file, check_cuts(alloc, &mut tally, stored), cut);
    differs(
        rt,
        file,
        check_streams(alloc, &mut tally, stored),
        failed_write,
    );
}

// Stored cases. For each, constants as they might be reported before its run, and how the run contradicts them.
const CONSTANTS: &[(&str, &[(&str, Option<Contradiction>)])] = &[
    // A command is in a branch that is not taken.
    (
        "str a\nstr a\neq\nstr y\ncmd boom\nif\nassign a\nrun\n\n=> 0\na = \"y\"\n",
        &[
            ("a = \"y\"\n", None),
            ("a open\n", Some(Contradiction::Open)),
            ("a = \"z\"\n", Some(Contradiction::Value)),
            ("a = []\n", Some(Contradiction::Value)),
            ("refused: assert failed: y\n", Some(Contradiction::Refusal)),
            ("unresolved\na = \"y\"\n", Some(Contradiction::Unresolved)),
            ("", Some(Contradiction::Variables)),
            ("b = \"y\"\n", Some(Contradiction::Variables)),
            ("b open\n", Some(Contradiction::Variables)),
            ("a = \"y\"\nb open\n", Some(Contradiction::Variables)),
        ],
    ),
    // The same in a dry run, with a call in that branch, and with an open variable in it.
    (
        "str a\nstr a\neq\nstr y\ncmd boom\nif\nassign a\ndry\nrun\n\n=> 0\na = \"y\"\n",
        &[
            ("a = \"y\"\n", None),
            ("a open\n", Some(Contradiction::Open)),
        ],
    ),
    (
        "list 0\nstr x\ncall trim 1\nand\nassign a\nrun\n\n=> 0\na = []\n",
        &[("a = []\n", None), ("a open\n", Some(Contradiction::Open))],
    ),
    (
        "cmd c\nassign a\nlist 0\nvar a\nand\nassign b\nreply x\nrun\n\n=> 0\n? command \"c\"\na = \"x\"\nb = []\n",
        &[
            ("a open\nb = []\n", None),
            ("a open\nb open\n", Some(Contradiction::Open)),
            ("b = []\na open\n", Some(Contradiction::Variables)),
        ],
    ),
    // A command that is asked, and one that a dry run skips.
    (
        "cmd c\nassign a\nreply x\nrun\n\n=> 0\n? command \"c\"\na = \"x\"\n",
        &[
            ("a open\n", None),
            ("a = \"x\"\n", Some(Contradiction::Settled)),
            ("a = \"\"\n", Some(Contradiction::Settled)),
        ],
    ),
    (
        "cmd c\nassign a\ndry\nrun\n\n=> 0\na = \"`c`\"\n",
        &[
            ("a open\n", None),
            ("a = \"`c`\"\n", Some(Contradiction::Settled)),
        ],
    ),
    // Calls that ask nothing: of a function of the file, of a built-in function, and of a function of the file with a
    // built-in's name.
    (
        "str x\nfun f\ncall f 0\nassign a\nrun\n\n=> 0\na = \"x\"\n",
        &[
            ("a open\n", None),
            ("a = \"x\"\n", Some(Contradiction::Settled)),
        ],
    ),
    (
        "str x\ncall trim 1\nassign a\nrun\n\n=> 0\na = \"x\"\n",
        &[
            ("a open\n", None),
            ("a = \"x\"\n", Some(Contradiction::Settled)),
        ],
    ),
    (
        "var p\nfun trim p\nstr x\ncall trim 1\nassign a\nrun\n\n=> 0\na = \"x\"\n",
        &[
            ("a open\n", None),
            ("a = \"x\"\n", Some(Contradiction::Settled)),
        ],
    ),
    // An open variable that is read.
    (
        "cmd c\nassign a\nvar a\nassign b\nreply x\nrun\n\n=> 0\n? command \"c\"\na = \"x\"\nb = \"x\"\n",
        &[
            ("a open\nb open\n", None),
            ("a open\nb = \"x\"\n", Some(Contradiction::Settled)),
            ("a = \"x\"\nb open\n", Some(Contradiction::Settled)),
        ],
    ),
    // Refusals.
    (
        "str a\ncmd q\nmatch\nassign x\nrun\n\n=> 2\nrefused 8 LeftOutRegex\n",
        &[
            ("refused: regular expression operators are left out\n", None),
            ("refused: assert failed: a\n", Some(Contradiction::Refusal)),
            ("x open\n", Some(Contradiction::Refusal)),
        ],
    ),
    (
        "list 0\nstr d\nadd\nassign x\nrun\n\n=> 2\nrefused 10 ListOperation [] + \"d\"\n",
        &[
            (
                "refused: operator `+` cannot be applied to empty lists\n",
                None,
            ),
            (
                "refused: operator `/` cannot be applied to empty lists\n",
                Some(Contradiction::Refusal),
            ),
            (
                "refused: operator `+` cannot be applied to lists of different lengths: [] + \"d\"\n",
                Some(Contradiction::Refusal),
            ),
        ],
    ),
    (
        "list 0\nstr c\ncall quote 1\nand\nassert\nassign x\nrun\n\n=> 2\nrefused 1 Assert \"`[] && quote('c')`\"\n",
        &[
            ("refused: assert failed: `[] && quote('c')`\n", None),
            (
                "refused: assert failed: `[]`\n",
                Some(Contradiction::Refusal),
            ),
            ("x open\n", Some(Contradiction::Refusal)),
        ],
    ),
    // The run is refused before it reaches the variable whose refusal the stage reports.
    (
        "cmd c\nassign a\nlist 0\nassert\nassign b\nfail 3\nrun\n\n=> 2\n? command \"c\"\nrefused 2 Backtick \"process exited with status code 3\"\n",
        &[
            ("refused: assert failed: `[]`\n", None),
            ("refused: assert failed: x\n", Some(Contradiction::Refusal)),
            ("a open\nb open\n", Some(Contradiction::Refusal)),
        ],
    ),
    // The answers are wrong and the constants are right.
    (
        "str x\nassign a\nrun\n\n=> 0\na = \"y\"\n",
        &[("a = \"x\"\n", Some(Contradiction::Value))],
    ),
    (
        "list 0\nassert\nassign a\nrun\n\n=> 2\nrefused 1 Assert \"no\"\n",
        &[(
            "refused: assert failed: `[]`\n",
            Some(Contradiction::Refusal),
        )],
    ),
];

#[test]
fn constants_that_are_contradicted(rt: HostRuntime) {
    for (file, rows) in CONSTANTS {
        for (constants, expected) in *rows {
            contradicts(&rt, rt.alloc(), file, constants, *expected);
        }
    }
    for file in NOT_COMPARED {
        let stored = cut(file.as_bytes()).expect(&rt, "no case");
        assert!(rt; Run::of_case(&stored).is_none(), "{file}");
    }
}

fn contradicts(
    rt: &impl Abort,
    alloc: Global,
    file: &str,
    constants: &str,
    expected: Option<Contradiction>,
) {
    let stored = cut(file.as_bytes()).expect(rt, "no case");
    let run = Run::of_case(&stored).expect(rt, "no run");
    let found = run.contradiction(alloc, constants).expect(rt, "no memory");
    assert_eq!(rt; found, expected, "{file}{constants}");
}

// Cases without a run to compare: the module is not resolved, the case does not end with `run`, or it has a bad line.
const NOT_COMPARED: &[&str] = &[
    "call f 0\nassign a\nrun\n\n=> 2\nunresolved\nrefused 6 Internal \"unknown function `f`\"\n",
    "cmd c\nassign a\nconst\n\n=> 0\na open\n",
    "add\nrun\n\n=> 1\nbad line 1\n",
];
