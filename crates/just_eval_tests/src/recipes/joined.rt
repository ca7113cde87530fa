// The commands that lines of recipes make.

ghost use Rattle.std.specs.Prelude.{◌<◌};

use crate::recipes::around::Around;
use crate::recipes::texts::push;
use just_eval::evaluator::Evaluator;
use just_host::execution_context::ExecutionContext;
use just_host::no_host::NoHost;
use just_syntax::expression::Expression;
use just_syntax::fragment::Fragment;
use just_syntax::line::Line;
use just_syntax::token::Token;
use just_value::error::Error;
use std::alloc::Global;
use std::collections::BTreeMap;
use std::process::Abort;

// The fragment of each line, and the commands in brackets. A fragment after `@` is the text of an interpolation.
const ROWS: &[(&[&str], &str)] = &[
    (&[], ""),
    (&[""], "[]"),
    (&["a"], "[a]"),
    (&["a", "", " b"], "[a][][ b]"),
    // cc {{flags}} \
    //    -o app
    (&["cc -g \\", "   -o app"], "[cc -g -o app]"),
    (&["a\\", "\t b\\", "c", " d"], "[abc][ d]"),
    (&["\\", "\\", "x"], "[x]"),
    // The backslash of the last line has nothing to continue.
    (&["a", "b\\"], "[a][b]"),
    (&["\\"], "[]"),
    // One backslash is cut, and only at the end of a text.
    (&["a\\\\", "b"], "[a\\b]"),
    (&["\\a", "b"], "[\\a][b]"),
    (&["a\\ ", "b"], "[a\\ ][b]"),
    (&["@a\\", "b"], "[a\\][b]"),
    (&["{{{{\\", " {{{{"], "[{{{{]"),
    // White space of an interpolation stays.
    (&["a\\", "@ b"], "[a b]"),
];

#[test]
fn joined(rt: HostRuntime) {
    let alloc = rt.alloc();
    let around = Around::of_nothing(&rt, alloc, "/work/justfile");
    for (texts, wanted) in ROWS {
        joins(&around.context(), &rt, alloc, texts, wanted);
    }
    drop(around);
}

// The lines of these fragments make these commands.
fn joins<'src>(
    context: &ExecutionContext<'src, '_>,
    rt: &impl Abort,
    alloc: Global,
    texts: &[&'src str],
    wanted: &str,
)
    requires may_call { 0 < context.now.recursion_limit }
{
    let mut lines = Vec::new(alloc);
    for text in texts {
        push(rt, &mut lines, line(rt, alloc, text));
    }
    match commands(context, alloc, &lines) {
        Ok(commands) => is_shown(rt, alloc, &commands, wanted),
        Err(error) => assert!(rt; false, "{error}"),
    }
    drop(lines);
}

fn commands<'src>(
    context: &ExecutionContext<'src, '_>,
    alloc: Global,
    lines: &[Line<'src>],
) -> Result<Vec<String>, Error<'src>>
    requires may_call { 0 < context.now.recursion_limit }
{
    let env = BTreeMap::new(alloc);
    let evaluator = Evaluator::new(alloc, context, env, false, None, context.scope)?;
    evaluator.evaluate_lines(alloc, &mut NoHost, lines)
}

// The line of one fragment.
fn line<'src>(rt: &impl Abort, alloc: Global, text: &'src str) -> Line<'src> {
    let fragment = match text.strip_prefix('@') {
        Some(text) => Fragment::Interpolation {
            expression: Expression::literal(alloc, text, text).expect(rt, "no memory"),
        },
        None => Fragment::Text {
            token: Token::new(text, None),
        },
    };
    let mut fragments = Vec::new(alloc);
    push(rt, &mut fragments, fragment);
    Line::new(fragments)
}

// The commands in brackets are this text.
fn is_shown(rt: &impl Abort, alloc: Global, commands: &[String], wanted: &str) {
    let mut shown = String::new(alloc);
    for command in commands {
        for part in ["[", command.as_str(), "]"] {
            shown.push_str(part).expect(rt, "no memory");
        }
    }
    assert_eq!(rt; shown.as_str(), wanted);
    drop(shown);
}
