// The commands and the script that the lines of a recipe make.

ghost use Rattle.just_eval.specs.Prelude.{MayCall};

use crate::session::Session;
use just_eval::evaluator::Evaluator;
use just_syntax::fragment::Fragment;
use just_syntax::line::Line;
use just_value::error::Error;
use std::alloc::Global;

/// Prints the lines of a script, or the commands that lines make.
pub(crate) fn print_lines<'src>(
    alloc: Global,
    evaluator: &Evaluator<'src, '_>,
    lines: &[Line<'src>],
    ignores_comments: bool,
    session: &mut Session,
) -> Result<(), Error<'src>>
    requires may_call { MayCall evaluator.now }
{
    if lines.first().is_some_and(|line| begins(line, "#!")) {
        print_script(alloc, evaluator, lines, session)
    } else if ignores_comments {
        print_uncommented(alloc, evaluator, lines, session)
    } else {
        print_commands(alloc, evaluator, lines, session)
    }
}

// Prints the lines of a script.
fn print_script<'src>(
    alloc: Global,
    evaluator: &Evaluator<'src, '_>,
    lines: &[Line<'src>],
    session: &mut Session,
) -> Result<(), Error<'src>>
    requires may_call { MayCall evaluator.now }
{
    for line in lines {
        let text = evaluator.evaluate_line(alloc, &mut session.host, line, false)?;
        session.print_questions()?;
        session.line(format_args!("  | {text}"))?;
    }
    Ok(())
}

// Prints the commands that lines make, but those that are comments.
fn print_uncommented<'src>(
    alloc: Global,
    evaluator: &Evaluator<'src, '_>,
    lines: &[Line<'src>],
    session: &mut Session,
) -> Result<(), Error<'src>>
    requires may_call { MayCall evaluator.now }
{
    let mut start = 0;
    for (i, line) in lines.iter().enumerate() {
        let is_comment = i == start && begins(line, "#");
        if !is_comment && is_continued(line) {
            continue;
        }
        let end = i.saturating_add(1);
        if !is_comment {
            let command = lines.get(start..end).unwrap_or(&[]);
            print_commands(alloc, evaluator, command, session)?;
        }
        start = end;
    }
    let rest = lines.get(start..).unwrap_or(&[]);
    print_commands(alloc, evaluator, rest, session)
}

// Prints the commands that lines make. An empty one starts nothing.
fn print_commands<'src>(
    alloc: Global,
    evaluator: &Evaluator<'src, '_>,
    lines: &[Line<'src>],
    session: &mut Session,
) -> Result<(), Error<'src>>
    requires may_call { MayCall evaluator.now }
{
    let commands = evaluator.evaluate_lines(alloc, &mut session.host, lines)?;
    session.print_questions()?;
    for command in &commands {
        if !command.is_empty() {
            session.line(format_args!("  > {command}"))?;
        }
    }
    Ok(())
}

// Whether a line begins with a text.
fn begins(line: &Line, text: &str) -> bool {
    match line.fragments.first() {
        Some(Fragment::Text { token }) => token.lexeme.starts_with(text),
        _ => false,
    }
}

// Whether the command of a line goes on in the next one.
fn is_continued(line: &Line) -> bool {
    match line.fragments.last() {
        Some(Fragment::Text { token }) => token.lexeme.ends_with('\\'),
        _ => false,
    }
}
