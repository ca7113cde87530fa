// Words as the arguments of recipes.

use crate::texts::{analyzed, push};
use just_parser::recipe_definition::RecipeDefinition;
use just_run::arguments::group_arguments;
use just_value::value::Value;
use std::alloc::Global;
use std::process::Abort;

// The text of a recipe; words, each after a bar; and the arguments in brackets, or the message.
const ROWS: &[(&str, &str, &str)] = &[
    ("r:\n", "", ""),
    ("r:\n", "|x", "recipe `r` got 1 argument but only takes 0"),
    ("r target:\n", "|x", "[x]"),
    ("r target:\n", "|", "[]"),
    ("r target:\n", "", "recipe `r` got 0 arguments but takes 1"),
    (
        "r target:\n",
        "|x|y",
        "recipe `r` got 2 arguments but only takes 1",
    ),
    (
        "r from to:\n",
        "|x",
        "recipe `r` got 1 argument but takes 2",
    ),
    ("r target tests='all':\n", "|server|unit", "[server][unit]"),
    ("r target tests='all':\n", "|server", "[server]()"),
    (
        "r target tests='all':\n",
        "",
        "recipe `r` got 0 arguments but takes at least 1",
    ),
    (
        "r target tests='all':\n",
        "|a|b|c",
        "recipe `r` got 3 arguments but takes at most 2",
    ),
    ("r +files:\n", "|a|b|c", "[a,b,c]"),
    (
        "r +files:\n",
        "",
        "recipe `r` got 0 arguments but takes at least 1",
    ),
    ("r +files='all':\n", "", "()"),
    ("r message *flags:\n", "|m", "[m]()"),
    ("r message *flags:\n", "|m|-a|-b", "[m][-a,-b]"),
    (
        "r message *flags:\n",
        "",
        "recipe `r` got 0 arguments but takes at least 1",
    ),
];

#[test]
fn grouped(rt: HostRuntime) {
    let alloc = rt.alloc();
    for (text, words, wanted) in ROWS {
        let given = given(&rt, alloc, text, words);
        assert_eq!(rt; given.as_str(), *wanted, "{text} with {words}");
    }
}

/// The arguments of the recipe `r` of a text for words, each after a bar, or the message.
pub(crate) fn given<'src>(rt: &impl Abort, alloc: Global, text: &'src str, words: &str) -> String {
    let mut all = Vec::new(alloc);
    for word in words.split('|').skip(1) {
        push(rt, &mut all, word);
    }
    let analysis = analyzed(rt, alloc, text);
    let recipe = analysis.recipes.get("r").expect(rt, "a recipe");
    let given = grouped_by(recipe, rt, alloc, &all);
    drop(analysis);
    given
}

// The arguments of a recipe, or the message.
fn grouped_by<'src>(
    recipe: &RecipeDefinition<'src>,
    rt: &impl Abort,
    alloc: Global,
    words: &[&str],
) -> String {
    match group_arguments(alloc, &recipe.recipe, &recipe.parameters, words) {
        Ok(arguments) => shown(rt, alloc, &arguments),
        Err(error) => error.to_string(alloc).expect(rt, "no memory"),
    }
}

// Each argument in brackets, its elements after commas; an empty one is `()`.
fn shown(rt: &impl Abort, alloc: Global, arguments: &[Value]) -> String {
    let mut text = String::new(alloc);
    for argument in arguments {
        if argument.is_empty() {
            text.push_str("()").expect(rt, "no memory");
        } else {
            let elements = argument.elements().join(alloc, ",").expect(rt, "no memory");
            write!(text, "[{elements}]").expect(rt, "no memory");
        }
    }
    text
}
