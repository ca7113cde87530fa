// Settings without expressions: the flags, the indentation and the minimum version.

use crate::cases::{Subject, reported};
use crate::compared::reports;
use crate::settings::add;
use just_case_reader::token::{name, token};
use just_syntax::indentation::Indentation;
use just_syntax::set::Set;
use just_syntax::setting::Setting;
use just_syntax::string_literal::StringLiteral;
use just_syntax::table::Table;
use std::alloc::Global;
use std::process::Abort;

/// The flags, each by the name of its setting.
pub(crate) const FLAGS: &[&str] = &[
    "allow-duplicate-recipes",
    "allow-duplicate-variables",
    "default-list",
    "default-script",
    "dotenv-load",
    "dotenv-override",
    "dotenv-required",
    "export",
    "fallback",
    "guards",
    "ignore-comments",
    "lazy",
    "lists",
    "no-cd",
    "no-exit-message",
    "positional-arguments",
    "quiet",
    "unstable",
    "windows-powershell",
];

// The setting of a flag that is on, by its name.
fn flag<'src>(rt: &impl Abort, name: &'src str) -> Setting<'src> {
    match name {
        "allow-duplicate-recipes" => Setting::AllowDuplicateRecipes(true),
        "allow-duplicate-variables" => Setting::AllowDuplicateVariables(true),
        "default-list" => Setting::DefaultList(true),
        "default-script" => Setting::DefaultScript(true),
        "dotenv-load" => Setting::DotenvLoad(true),
        "dotenv-override" => Setting::DotenvOverride(true),
        "dotenv-required" => Setting::DotenvRequired(true),
        "export" => Setting::Export(true),
        "fallback" => Setting::Fallback(true),
        "guards" => Setting::Guards(true),
        "ignore-comments" => Setting::IgnoreComments(true),
        "lazy" => Setting::Lazy(true),
        "lists" => Setting::Lists(true),
        "no-cd" => Setting::NoCd(true),
        "no-exit-message" => Setting::NoExitMessage(true),
        "positional-arguments" => Setting::PositionalArguments(true),
        "quiet" => Setting::Quiet(true),
        "unstable" => Setting::Unstable(true),
        "windows-powershell" => Setting::WindowsPowerShell(true),
        _ => panic!(rt; "no flag"),
    }
}

// With no assignments.
const NOTHING: &str = "only\nconst";

// Each flag turns on its own field and no other: if all but one are on, that one is off.
#[test]
fn all_flags_but_one(rt: HostRuntime) {
    for left_out in FLAGS {
        is_off_alone(&rt, rt.alloc(), left_out);
    }
}

fn is_off_alone(rt: &impl Abort, alloc: Global, left_out: &'static str) {
    let mut wanted = String::new(alloc);
    for flag in FLAGS {
        if *flag != left_out {
            write!(wanted, "{flag} = true\n").expect(rt, "no memory");
        }
    }
    let reported = reported(rt, alloc, NOTHING, &[], Subject::FlagsBut(left_out));
    reports(rt, left_out, reported, &wanted);
}

/// The settings that turn on all but one of these flags.
pub(crate) fn flags_but<'src>(
    rt: &impl Abort,
    alloc: Global,
    all: &'src [&'src str],
    left_out: &str,
) -> Table<Set<'src>> {
    let mut sets = Table::new(alloc);
    for lexeme in all {
        if *lexeme != left_out {
            add(&mut sets, rt, name(lexeme), flag(rt, lexeme));
        }
    }
    sets
}

// A setting that is set twice has its last value. The minimum version changes nothing.
#[test]
fn kept_settings(rt: HostRuntime) {
    let reported = reported(&rt, rt.alloc(), NOTHING, &[], Subject::SetTwice);
    reports(&rt, "kept settings", reported, "indentation = 2 spaces\n");
}

/// The minimum version, and indentation and quiet, each set twice.
pub(crate) fn set_twice<'src>(rt: &impl Abort, alloc: Global) -> Table<Set<'src>> {
    let mut sets = Table::new(alloc);
    add_twice(&mut sets, rt, alloc);
    sets_left(rt, sets.len());
    sets
}

fn add_twice<'src>(sets: &mut Table<Set<'src>>, rt: &impl Abort, alloc: Global) {
    add_version(sets, rt, alloc);
    add_indentation(sets, rt, "tabs", Indentation::Tabs);
    add_indentation(sets, rt, "2", Indentation::Spaces(2));
    add(sets, rt, name("quiet"), Setting::Quiet(true));
    add(sets, rt, name("quiet"), Setting::Quiet(false));
}

// Adds the minimum version.
fn add_version<'src>(sets: &mut Table<Set<'src>>, rt: &impl Abort, alloc: Global) {
    let version = StringLiteral::new(alloc, "1.58.0", "'1.58.0'").expect(rt, "no memory");
    let version = Setting::MinimumVersion(version);
    add(sets, rt, name("minimum-version"), version);
}

// Adds the indentation, as written.
fn add_indentation<'src>(
    sets: &mut Table<Set<'src>>,
    rt: &impl Abort,
    written: &'src str,
    indentation: Indentation,
) {
    let value = Setting::Indentation(token(written), indentation);
    add(sets, rt, name("indentation"), value);
}

// One set is left for each setting that is set twice.
fn sets_left(rt: &impl Abort, count: usize) {
    assert!(rt; count == 3, "{count} sets are left");
}
