// What expressions and runs reach.

use crate::texts::{numbered_module, set_of};
use just_host::justfile::Justfile;
use just_reach::member::Member;
use just_reach::reach::{reach, reach_of_run};
use std::alloc::Global;
use std::process::Abort;

// Texts, and what the value of their variable `all` reaches. Each member has the number of its line before it, and
// after it `?` if it may ask the host, and `!` if it may have the host run a command.
const ROWS: &[(&str, &str)] = &[
    ("all := []\n", ""),
    ("f() := `date`\nall := []\n", ""),
    (
        "all := [a, `date`]\n",
        "0 variable `a`, 0 command `date`?!, ",
    ),
    // what occurs twice is listed twice
    ("all := [a, a]\n", "0 variable `a`, 0 variable `a`, "),
    // names that the file does not define: a built-in function, the short form of one, one that is left out, and none
    ("all := env()\n", "0 built-in function `env`?, "),
    ("all := home_dir()\n", "0 built-in function `home_dir`?, "),
    ("all := uuid()\n", "0 unknown function `uuid`, "),
    ("all := f()\n", "0 unknown function `f`, "),
    // a body, of which what it calls comes after it
    (
        "f() := [`date`, a]\nall := f()\n",
        "1 call of `f`, 0 command `date`?!, 0 variable `a`, ",
    ),
    (
        "f() := g()\ng() := `date`\nall := [b, f(), c]\n",
        "2 variable `b`, 2 call of `f`, 2 variable `c`, 0 call of `g`, 1 command `date`?!, ",
    ),
    // each body once
    (
        "f() := `date`\nall := [f(), f()]\n",
        "1 call of `f`, 1 call of `f`, 0 command `date`?!, ",
    ),
    (
        "f() := `date`\ng() := f()\nall := [g(), f()]\n",
        "2 call of `g`, 2 call of `f`, 1 call of `f`, 0 command `date`?!, ",
    ),
    // functions that call themselves or each other
    (
        "f() := [f(), `date`]\nall := f()\n",
        "1 call of `f`, 0 call of `f`, 0 command `date`?!, ",
    ),
    (
        "f() := g()\ng() := [f(), `date`]\nall := f()\n",
        "2 call of `f`, 0 call of `g`, 1 call of `f`, 1 command `date`?!, ",
    ),
    // a function that is not called
    (
        "f() := `date`\ng() := `id`\nall := g()\n",
        "2 call of `g`, 1 command `id`?!, ",
    ),
    // a function that hides a built-in one
    (
        "env() := `date`\nall := env()\n",
        "1 call of `env`, 0 command `date`?!, ",
    ),
    (
        "uuid() := shell()\nall := uuid()\n",
        "1 call of `uuid`, 0 built-in function `shell`?!, ",
    ),
    // both branches
    (
        "all := if `test` == '' {\n`yes` } else {\n`no` }\n",
        "0 command `test`?!, 1 command `yes`?!, 2 command `no`?!, ",
    ),
    // what may ask, and what may not
    ("all := shell()\n", "0 built-in function `shell`?!, "),
    ("all := read()\n", "0 built-in function `read`?, "),
    ("all := which()\n", "0 built-in function `which`?, "),
    (
        "all := path_exists()\n",
        "0 built-in function `path_exists`?, ",
    ),
    ("all := num_cpus()\n", "0 built-in function `num_cpus`?, "),
    ("all := os()\n", "0 built-in function `os`?, "),
    ("all := uppercase()\n", "0 built-in function `uppercase`, "),
    ("all := justfile()\n", "0 built-in function `justfile`, "),
    (
        "all := invocation_directory()\n",
        "0 built-in function `invocation_directory`, ",
    ),
];

#[test]
fn reached_by_an_expression(rt: HostRuntime) {
    let alloc = rt.alloc();
    for (text, wanted) in ROWS {
        let given = given(&rt, alloc, text, Start::Value);
        assert_eq!(rt; given.as_str(), *wanted, "{text}");
    }
}

// Texts, and what a run reaches.
const RUNS: &[(&str, &str)] = &[
    ("", ""),
    ("f() := `date`\n", ""),
    (
        "a := `date`\nb := a\n",
        "0 command `date`?!, 1 variable `a`, ",
    ),
    // a body that two assignments reach, and one that none does
    (
        "a := f()\nb := f()\nf() := `date`\ng() := `id`\n",
        "0 call of `f`, 1 call of `f`, 2 command `date`?!, ",
    ),
];

// Texts, of which `a` has the number 1 and `b` 2; the numbers that are referenced; and what a run reaches with these.
const REFERENCED: &[(&str, &str, &str)] = &[
    ("a := `date`\nb := `id`\n", "2", "1 command `id`?!, "),
    ("a := `date`\nb := `id`\n", "", ""),
    ("a := `date`\nb := `id`\n", "3", ""),
    // a body that one assignment reaches, and one that another does
    (
        "a := f()\nb := g()\nf() := `date`\ng() := `id`\n",
        "1",
        "0 call of `f`, 2 command `date`?!, ",
    ),
    // a value that is read counts only if its number is referenced
    ("a := `date`\nb := a\n", "2", "1 variable `a`, "),
];

#[test]
fn reached_by_a_run(rt: HostRuntime) {
    let alloc = rt.alloc();
    for (text, wanted) in RUNS {
        let given = given(&rt, alloc, text, Start::Run);
        assert_eq!(rt; given.as_str(), *wanted, "{text}");
    }
    for (text, references, wanted) in REFERENCED {
        let given = given(&rt, alloc, text, Start::References(references));
        assert_eq!(rt; given.as_str(), *wanted, "{text} with {references}");
    }
}

// What reaches: the value of the variable `all`, a run, or one with these references.
#[derive(Clone, Copy)]
enum Start<'numbers> {
    Value,
    Run,
    References(&'numbers str),
}

// What a text reaches.
fn given<'src>(rt: &impl Abort, alloc: Global, text: &'src str, start: Start) -> String {
    let module = numbered_module(rt, alloc, text, "a 1 b 2");
    let given = reached(&module, rt, alloc, start);
    drop(module);
    given
}

fn reached<'src>(module: &Justfile<'src>, rt: &impl Abort, alloc: Global, start: Start) -> String {
    let members = match start {
        Start::Value => {
            let all = module.assignments.get("all").expect(rt, "`all`");
            reach(alloc, &module.functions, &all.value)
        }
        Start::Run => reach_of_run(alloc, module, None),
        Start::References(numbers) => {
            reach_of_run(alloc, module, Some(&set_of(rt, alloc, numbers)))
        }
    };
    shown(rt, alloc, &members.expect(rt, "no memory"))
}

// The members, one after another.
fn shown(rt: &impl Abort, alloc: Global, members: &[Member]) -> String {
    let mut all = String::new(alloc);
    for member in members {
        let line = member.token().line;
        let asks = if member.may_ask() { "?" } else { "" };
        let runs = if member.may_run_command() { "!" } else { "" };
        write!(all, "{line} {member}{asks}{runs}, ").expect(rt, "no memory");
    }
    all
}
