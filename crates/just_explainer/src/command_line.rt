// The words of a command line.

use crate::given::Given;
use crate::output::Output;
use crate::request::{Request, Requested, Subject};
use clap::error::ErrorKind;
use clap::{Arg, ArgAction, ArgMatches, Command, Error, value_parser};
use just_syntax::out_of_memory::OutOfMemory;
use just_value::positional::Positional;
use std::alloc::{AllocError, Global};
use std::collections::BTreeMap;
use std::convert::AsStr;

const ABOUT: &str =
    "Explains a justfile, which is read from standard input. Nothing is run, and no file is read.";

const ANSWER: &str =
    "What a command in backticks, or of `shell`, outputs. An answer belongs to the \
command that it begins with, so both may contain `=`. The last answer to a command counts";

const CPUS: &str = "The number of processors, which `num_cpus()` gives";

const ENV: &str = "An environment variable. One that is not given is absent";

const EXISTS: &str = "A path that exists, as a question for one is printed. No other does";

const PROCESS_ID: &str = "The id of the process, which `just_pid()` gives";

const TEXT: &str =
    "What a question for another text gets, by the question as it is printed: `os=linux`, or \
`read \"a.txt\"=b`";

const WORDS: &str = "NAME=VALUE sets a variable, before any other word";

const UNANSWERED: &str =
    "A command without an answer is refused, and so is what asks for another text, as `arch()` does, \
without one.";

/// What a command line asks for. The first word is the name of the program.
///
/// # Errors
///
/// `OutOfMemory`, if an allocation fails.
pub fn requested<'a, S: AsStr>(alloc: Global, words: &'a [S]) -> Result<Requested, OutOfMemory> {
    let command = command(alloc)?;
    match command.try_get_matches_from(words) {
        Ok(matches) => request(alloc, &matches),
        Err(error) => refused(alloc, &error),
    }
}

// What clap says of wrong words; or the help, or the version.
fn refused(alloc: Global, error: &Error) -> Result<Requested, OutOfMemory> {
    if error.kind() == ErrorKind::OutOfMemory {
        return Err(OutOfMemory);
    }
    let text = format!(in alloc; "{error}")?;
    let mut output = Output::new(alloc);
    if error.use_stderr() {
        output.err = text;
        output.status = 2;
    } else {
        output.out = text;
    }
    Ok(Requested::Output(output))
}

// The program's commands.
fn command<'a>(alloc: Global) -> Result<Command<'a>, AllocError> {
    let lint = Command::new(alloc, "lint")
        .about("Reports what is wrong, and what is known before a run: constants and settings")
        .arg(lists(alloc))?;
    let reach = Command::new(alloc, "reach")
        .about("Lists what could be run, read or asked, each with its place")
        .arg(words(
            alloc,
            "NAME",
            "Variables or recipes; without any, all variables",
        ))?;
    Command::new(alloc, "just_explain")
        .about(ABOUT)
        .bin_name("just_explain")?
        .version("0.1.0")
        .subcommand_required(true)
        .arg_required_else_help(true)
        .subcommand(lint)?
        .subcommand(evaluate(alloc)?)?
        .subcommand(recipe(alloc)?)?
        .subcommand(reach)
}

// The command that evaluates variables.
fn evaluate<'a>(alloc: Global) -> Result<Command<'a>, AllocError> {
    let command = Command::new(alloc, "evaluate")
        .about("Prints the values of variables, each with the questions that it asks")
        .arg(words(alloc, "NAME=VALUE|VARIABLE", WORDS))?;
    with_given(alloc, command)
}

// The command that evaluates a recipe.
fn recipe<'a>(alloc: Global) -> Result<Command<'a>, AllocError> {
    let command = Command::new(alloc, "recipe")
        .about("Prints what a recipe would start, with its environment and its dependencies")
        .arg(words(alloc, "NAME=VALUE|NAME|ARGUMENT", WORDS).required(true))?;
    with_given(alloc, command)
}

// Words that are no options.
fn words<'a>(alloc: Global, name: &'a str, help: &'a str) -> Arg<'a> {
    Arg::new(alloc, "words")
        .value_name(name)
        .help(help)
        .action(ArgAction::Append)
        .num_args(0..)
}

// Adds the options that say what is given in place of a run.
fn with_given<'a>(alloc: Global, command: Command<'a>) -> Result<Command<'a>, AllocError> {
    let dry_run = Arg::new(alloc, "dry-run")
        .long("dry-run")
        .action(ArgAction::SetTrue)
        .help("Each command is its own value, as it is written");
    let directory = Arg::new(alloc, "directory")
        .long("directory")
        .value_name("DIRECTORY")
        .default_value(".")
        .help("The directory of the justfile");
    command
        .after_help(UNANSWERED)
        .arg(repeated(alloc, "answer", "COMMAND=TEXT", ANSWER))?
        .arg(repeated(alloc, "env", "NAME=VALUE", ENV))?
        .arg(repeated(
            alloc,
            "dotenv",
            "NAME=VALUE",
            "A variable of the dotenv files",
        ))?
        .arg(repeated(alloc, "text", "QUESTION=TEXT", TEXT))?
        .arg(repeated(alloc, "exists", "PATH", EXISTS))?
        .arg(number(alloc, "cpus", CPUS))?
        .arg(number(alloc, "process-id", PROCESS_ID))?
        .arg(directory)?
        .arg(dry_run)?
        .arg(lists(alloc))
}

// An option that may be given more than once.
fn repeated<'a>(alloc: Global, name: &'a str, value: &'a str, help: &'a str) -> Arg<'a> {
    Arg::new(alloc, name)
        .long(name)
        .value_name(value)
        .action(ArgAction::Append)
        .help(help)
}

// An option whose value is a number, which is 1 without it.
fn number<'a>(alloc: Global, name: &'a str, help: &'a str) -> Arg<'a> {
    Arg::new(alloc, name)
        .long(name)
        .value_name("NUMBER")
        .value_parser(value_parser!(u64))
        .default_value("1")
        .help(help)
}

// The option that turns lists on.
fn lists<'a>(alloc: Global) -> Arg<'a> {
    Arg::new(alloc, "lists")
        .long("lists")
        .action(ArgAction::SetTrue)
        .help("Turns the setting `lists` on")
}

// What the words ask for.
fn request(alloc: Global, matches: &ArgMatches) -> Result<Requested, OutOfMemory> {
    let (subject, matches) = match matches.subcommand() {
        Some(("evaluate", matches)) => (Subject::Evaluate, matches),
        Some(("recipe", matches)) => (Subject::Recipe, matches),
        Some(("reach", matches)) => (Subject::Reach, matches),
        Some((_, matches)) => (Subject::Lint, matches),
        None => (Subject::Lint, matches),
    };
    let words = matches.get_strs("words").unwrap_or(&[]);
    let mut given = Given::new(alloc);
    if let Some(word) = fill(alloc, &mut given, matches)? {
        return mistaken(alloc, word, "has no `=`");
    }
    let words = Positional::from_values(alloc, words.iter().copied())?;
    if let Some(path) = &words.search_directory {
        return mistaken(
            alloc,
            path,
            "is not searched: give the directory by --directory",
        );
    }
    if subject == Subject::Recipe && words.arguments.is_empty() {
        return mistaken(alloc, "recipe", "needs the name of a recipe");
    }
    Ok(Requested::Request(Request {
        subject,
        given,
        overrides: words.overrides,
        words: words.arguments,
    }))
}

// That a word is wrong.
fn mistaken(alloc: Global, word: &str, problem: &str) -> Result<Requested, OutOfMemory> {
    let mut output = Output::new(alloc);
    output.err = format!(in alloc; "error: `{word}` {problem}\n")?;
    output.status = 2;
    Ok(Requested::Output(output))
}

// Reads the options. It returns the first value that should have `=` and has none.
fn fill<'a>(
    alloc: Global,
    given: &mut Given,
    matches: &ArgMatches<'a>,
) -> Result<Option<&'a str>, OutOfMemory> {
    given.dry_run = matches.get_flag("dry-run");
    given.lists = matches.get_flag("lists");
    given.cpus = matches.get_one::<u64>("cpus").unwrap_or(1);
    given.process_id = matches.get_one::<u64>("process-id").unwrap_or(1);
    given.directory = String::from_str(alloc, matches.get_str("directory").unwrap_or("."))?;
    add_paths(alloc, &mut given.existing, matches.get_strs("exists"))?;
    if let Some(word) = add_pairs(alloc, &mut given.variables, matches.get_strs("env"))? {
        return Ok(Some(word));
    }
    if let Some(word) = add_pairs(alloc, &mut given.dotenv, matches.get_strs("dotenv"))? {
        return Ok(Some(word));
    }
    if let Some(word) = add_answers(alloc, &mut given.texts, matches.get_strs("text"))? {
        return Ok(Some(word));
    }
    add_answers(alloc, &mut given.answers, matches.get_strs("answer"))
}

// Adds paths.
fn add_paths(
    alloc: Global,
    paths: &mut Vec<String>,
    words: Option<&[&str]>,
) -> Result<(), OutOfMemory> {
    for word in words.unwrap_or(&[]) {
        paths.push(String::from_str(alloc, word)?)?;
    }
    Ok(())
}

// Adds names with their values. It returns the first word without `=`.
fn add_pairs<'a>(
    alloc: Global,
    pairs: &mut BTreeMap<String, String>,
    words: Option<&[&'a str]>,
) -> Result<Option<&'a str>, OutOfMemory> {
    for word in words.unwrap_or(&[]) {
        let Some((name, value)) = word.split_once('=') else {
            return Ok(Some(word));
        };
        let name = String::from_str(alloc, name)?;
        pairs.insert(name, String::from_str(alloc, value)?)?;
    }
    Ok(None)
}

// Adds answers. It returns the first word without `=`.
fn add_answers<'a>(
    alloc: Global,
    answers: &mut Vec<String>,
    words: Option<&[&'a str]>,
) -> Result<Option<&'a str>, OutOfMemory> {
    for word in words.unwrap_or(&[]) {
        if !word.contains('=') {
            return Ok(Some(word));
        }
        answers.push(String::from_str(alloc, word)?)?;
    }
    Ok(None)
}
