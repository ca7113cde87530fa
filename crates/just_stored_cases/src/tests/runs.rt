// Runs that ask outside of their reach, or bind something else in the order by names.

use super::differs;
use just_judge::difference::Difference;
use just_judge::reaching::check_reach;
use just_judge::reordered::Reordered;
use just_judge::reordering::check_order;
use just_judge::rerun::questions_of_run;
use just_judge::stored_case::cut;
use just_judge::within_reach::WithinReach;
use std::alloc::Global;
use std::process::Abort;

// Cases without their last line `run`. For each, other cases, and how many questions of them come before the first that
// is outside of the reach of the case.
const REACHES: &[(&str, &[(&str, Option<usize>)])] = &[
    // Commands in backticks, by their texts, also in a branch that is not taken.
    (
        "str a\nstr a\neq\ncmd one\ncmd two\nif\nassign x\nreply",
        &[
            ("str a\nassign x", None),
            ("cmd one\nassign x\nreply", None),
            ("cmd two\nassign x\nreply", None),
            ("cmd three\nassign x\nreply", Some(0)),
            ("cmd one\nassign x\ncmd on\nassign y\nreply\nreply", Some(1)),
            ("str one\ncall shell 1\nassign x\nreply", Some(0)),
            ("str one\ncall env 1\nassign x", Some(0)),
        ],
    ),
    // A call of `shell` can ask for any command, and only with arguments.
    (
        "str one\ncall shell 1\nassign x\nreply",
        &[
            ("str two\ncall shell 1\nassign x\nreply", None),
            ("str two\nstr x\ncall shell 2\nassign x\nreply", None),
            ("cmd one\nassign x\nreply", Some(0)),
        ],
    ),
    // Without a command and a call of a function that asks, nothing is asked. A function of the file is none of these,
    // whatever its name.
    (
        "str one\nassign x",
        &[
            ("str x\nassign x", None),
            ("cmd one\nassign x\nreply", Some(0)),
            ("call arch 0\nassign x", Some(0)),
        ],
    ),
    (
        "str one\nfun arch\ncall arch 0\nassign x",
        &[("call arch 0\nassign x", Some(0))],
    ),
    // The body of a function that is called, and that of one that is not.
    (
        "cmd one\nfun f\ncmd two\nfun g\ncall f 0\nassign x\nreply",
        &[
            ("cmd one\nassign x\nreply", None),
            ("cmd two\nassign x\nreply", Some(0)),
        ],
    ),
    // What is referenced.
    (
        "cmd one\nassign x\ncmd two\nassign y\nonly y\nreply",
        &[
            ("cmd two\nassign x\nreply", None),
            ("cmd one\nassign x\nreply", Some(0)),
        ],
    ),
];

// Expressions that call the built-in functions that ask. Those on one line ask questions of one kind.
const ASKING: &[&[&str]] = &[
    &["call arch 0"],
    &["call os 0"],
    &["call os_family 0"],
    &["call just_executable 0"],
    &["call cache_directory 0", "call cache_dir 0"],
    &["call config_directory 0", "call config_dir 0"],
    &["call config_local_directory 0", "call config_local_dir 0"],
    &["call data_directory 0", "call data_dir 0"],
    &["call data_local_directory 0", "call data_local_dir 0"],
    &["call executable_directory 0", "call executable_dir 0"],
    &["call home_directory 0", "call home_dir 0"],
    &["call runtime_directory 0", "call runtime_dir 0"],
    &["str a\ncall canonicalize 1"],
    &["str a\ncall read 1"],
    &["str a\ncall which 1", "str a\ncall require 1"],
    &[
        "str a\ncall env_var 1",
        "str a\nstr b\ncall env_var_or_default 2",
        "str a\ncall env 1",
    ],
    &["str a\ncall shell 1"],
    &["str a\ncall path_exists 1"],
    &["call just_pid 0"],
    &["call num_cpus 0"],
    &["cmd a"],
];

#[test]
fn questions_outside_of_reach(rt: HostRuntime) {
    for (case, rows) in REACHES {
        for (asking, expected) in *rows {
            reaches(&rt, rt.alloc(), case, asking, *expected);
        }
    }
    for (kind, expressions) in ASKING.iter().enumerate() {
        for (other_kind, others) in ASKING.iter().enumerate() {
            kinds_reach(&rt, rt.alloc(), expressions, others, kind == other_kind);
        }
    }
}

// Asserts whether the questions of expressions are within the reach of others.
fn kinds_reach(
    rt: &impl Abort,
    alloc: Global,
    expressions: &[&str],
    others: &[&str],
    is_within: bool,
) {
    for expression in expressions {
        for other in others {
            let case = format!(in alloc; "{expression}\nassign x").expect(rt, "no memory");
            let asking = format!(in alloc; "{other}\nassign x").expect(rt, "no memory");
            reaches(
                rt,
                alloc,
                &case,
                &asking,
                if is_within { None } else { Some(0) },
            );
        }
    }
}

// Asserts which question of a case, if any, is found outside of the reach of another.
fn reaches(rt: &impl Abort, alloc: Global, case: &str, asking: &str, expected: Option<usize>) {
    let file = format!(in alloc; "{case}\nrun").expect(rt, "no memory");
    let asking = format!(in alloc; "{asking}\nrun").expect(rt, "no memory");
    let questions = questions_of_run(alloc, asking.as_bytes()).expect(rt, "no memory");
    let mut count = WithinReach::default();
    differs(
        rt,
        &asking,
        check_reach(alloc, &mut count, file.as_bytes(), &questions),
        expected.map(|passed| Difference::Reach { passed }),
    );
}

// Stored cases, and whether the run in the order that names give is found to differ from each answer.
const ORDERS: &[(&str, bool)] = &[
    // The answer is right, and it has another value, one binding less, one more, and another name.
    (
        "var b\nassign a\nstr x\nassign b\norder b a\nrun\n\n=> 0\na = \"x\"\nb = \"x\"\n",
        false,
    ),
    (
        "var b\nassign a\nstr x\nassign b\norder b a\nrun\n\n=> 0\na = \"x\"\nb = \"y\"\n",
        true,
    ),
    (
        "var b\nassign a\nstr x\nassign b\norder b a\nrun\n\n=> 0\na = \"x\"\n",
        true,
    ),
    ("str x\nassign b\nrun\n\n=> 0\na = \"x\"\nb = \"x\"\n", true),
    ("str x\nassign b\nrun\n\n=> 0\na = \"x\"\n", true),
    // Replies are taken in the order of the questions: `q` gets the first.
    (
        "cmd p\nassign a\ncmd q\nassign b\norder b a\nreply 1\nreply 2\nrun\n\n=> 0\na = \"2\"\nb = \"1\"\n",
        false,
    ),
    (
        "cmd p\nassign a\ncmd q\nassign b\norder b a\nreply 1\nreply 2\nrun\n\n=> 0\na = \"1\"\nb = \"2\"\n",
        true,
    ),
    // One command has two answers, in the order that names give.
    (
        "cmd c\nassign a\ncmd c\nassign b\nreply 1\nreply 2\nrun\n\n=> 0\na = \"1\"\nb = \"2\"\n",
        false,
    ),
    (
        "cmd c\nassign a\ncmd c\nassign b\nreply 1\nreply 2\nrun\n\n=> 0\na = \"1\"\nb = \"1\"\n",
        true,
    ),
    // Overrides and references, which are by number, in a case whose numbers are not in the order of the names.
    (
        "str x\nassign b\nstr y\nassign a\noverride b z\nrun\n\n=> 0\na = \"y\"\nb = \"z\"\n",
        false,
    ),
    (
        "str x\nassign b\nstr y\nassign a\noverride b z\nrun\n\n=> 0\na = \"z\"\nb = \"x\"\n",
        true,
    ),
    (
        "str x\nassign b\nstr y\nassign a\nonly b\nrun\n\n=> 0\nb = \"x\"\n",
        false,
    ),
    (
        "str x\nassign b\nstr y\nassign a\nonly b\nrun\n\n=> 0\na = \"y\"\n",
        true,
    ),
    (
        "str x\nassign b\nstr y\nassign a\norder a\nrun\n\n=> 0\na = \"y\"\n",
        false,
    ),
    // The run in the other order is refused.
    ("list 0\nassert\nassign a\nrun\n\n=> 0\na = []\n", true),
];

// Stored cases with a wrong answer that is not compared: the run is refused, one command has two answers in another
// order, and what is not referenced reads a name that nothing has.
const ORDERS_NOT_COMPARED: &[&str] = &[
    "list 0\nassert\nassign a\nrun\n\n=> 2\na = \"y\"\n",
    "cmd c\nassign a\ncmd c\nassign b\norder b a\nreply 1\nreply 2\nrun\n\n=> 0\na = \"y\"\n",
    "str x\nassign a\nvar z\nassign b\nonly a\nrun\n\n=> 0\na = \"y\"\n",
];

#[test]
fn orders_that_differ(rt: HostRuntime) {
    for (file, expected) in ORDERS {
        order_differs(&rt, rt.alloc(), file, expected.then_some(Difference::Order));
    }
    for file in ORDERS_NOT_COMPARED {
        order_differs(&rt, rt.alloc(), file, None);
    }
}

fn order_differs(rt: &impl Abort, alloc: Global, file: &str, expected: Option<Difference>) {
    let stored = cut(file.as_bytes()).expect(rt, "no case");
    let questions = questions_of_run(alloc, stored.case).expect(rt, "no memory");
    let mut count = Reordered::default();
    differs(
        rt,
        file,
        check_order(alloc, &mut count, &stored, &questions),
        expected,
    );
}
