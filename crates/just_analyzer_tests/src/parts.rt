// Texts and the parts that they make up.

use just_analyzer::analysis::Analysis;
use just_analyzer::analyze;
use just_parser::item::Item;
use just_parser::parse;
use just_syntax::keyed::Keyed;
use just_syntax::out_of_memory::OutOfMemory;
use just_syntax::parameter::Parameter;
use just_syntax::table::Table;
use std::alloc::Global;
use std::process::Abort;

// What is asked for of a text: the names of its parts, or the parameters of its recipes.
#[derive(Clone, Copy)]
enum Asked {
    Parameters,
    Parts,
}

// Texts and their parts: the order of the variables, the functions, the settings, the recipes, the aliases, and the
// variables that are not passed on.
const PARTS: &[(&str, &str)] = &[
    ("", "| | | | | |"),
    ("b := 'c'\na := b\n", "b a | | | | | |"),
    ("f() := 'a'\ne(b) := b\n", "| e f | | | | |"),
    (
        "set shell := ['sh']\nset export\n",
        "| | export shell | | | |",
    ),
    (
        "b:\na: b\nalias c := a\nunexport D\n",
        "| | | a b | c | D |",
    ),
    (
        "a := 'b'\nset allow-duplicate-variables\na := 'c'\n",
        "a | | allow-duplicate-variables | | | |",
    ),
    (
        "set allow-duplicate-recipes := true\na:\na:\n  b\n",
        "| | allow-duplicate-recipes | a | | |",
    ),
];

// Texts and what is wrong with them.
const FAULTS: &[(&str, &str)] = &[
    (
        "a := 'b'\na := 'c'\n",
        "variable `a` has multiple definitions",
    ),
    (
        "set allow-duplicate-variables := false\na := 'b'\na := 'c'\n",
        "variable `a` has multiple definitions",
    ),
    (
        "f() := 'a'\nf(b) := b\n",
        "function `f` has multiple definitions",
    ),
    (
        "set export\nset export := false\n",
        "setting `export` is set more than once",
    ),
    ("a:\na:\n", "recipe `a` has multiple definitions"),
    ("a b b:\n", "parameter `b` has multiple definitions"),
    (
        "a b c='d' $b='e' +b:\n",
        "parameter `b` has multiple definitions",
    ),
    (
        "[arg('b')]\n[arg('c')]\na b:\n",
        "attribute `arg` names no parameter",
    ),
    ("[arg('')]\na:\n", "attribute `arg` names no parameter"),
    ("a:\nalias a := b\n", "recipe `a` has multiple definitions"),
    ("alias a := b\na:\n", "recipe `a` has multiple definitions"),
    (
        "alias a := b\nalias a := c\n",
        "recipe `a` has multiple definitions",
    ),
];

// Texts and the parameters of their recipes, after what attributes say of them.
const PARAMETERS: &[(&str, &str)] = &[
    ("a b c='d':\n", "b c "),
    ("[arg('b', flag, long)]\na b c:\n", "b flag c "),
    (
        "[arg('c', multiple, value='d' + e)]\n[arg('b', help='f'), arg(\"b\", flag)]\na b c:\n",
        "b flag c multiple value='d' + e ",
    ),
    ("[arg('b', value='c', value='d')]\na b:\n", "b value='d' "),
    (
        "[arg('b', flag)]\na b:\nc b:\n[arg('\u{e4}')]\n[private]\nd:\n",
        "attribute `arg` names no parameter",
    ),
];

// Adds the names of the parts.
fn add_parts(analysis: &Analysis, all: &mut String) -> Result<(), OutOfMemory> {
    for name in &analysis.justfile.evaluation_order {
        add(all, name.lexeme())?;
    }
    add_names(&analysis.justfile.functions, all)?;
    add_names(&analysis.sets, all)?;
    add_names(&analysis.recipes, all)?;
    add_names(&analysis.aliases, all)?;
    add(all, "|")?;
    for name in &analysis.justfile.unexports {
        add(all, name)?;
    }
    all.push('|')?;
    Ok(())
}

// Adds the keys of a table.
fn add_names<V: Keyed>(table: &Table<V>, all: &mut String) -> Result<(), OutOfMemory> {
    add(all, "|")?;
    for value in table {
        add(all, value.key())?;
    }
    Ok(())
}

// Adds the parameters of all recipes.
fn add_all_parameters(analysis: &Analysis, all: &mut String) -> Result<(), OutOfMemory> {
    for recipe in &analysis.recipes {
        for parameter in &recipe.parameters {
            add_parameter(parameter, all)?;
        }
    }
    Ok(())
}

// Adds a parameter.
fn add_parameter(parameter: &Parameter, all: &mut String) -> Result<(), OutOfMemory> {
    add(all, parameter.name.lexeme())?;
    if parameter.flag {
        add(all, "flag")?;
    }
    if parameter.multiple {
        add(all, "multiple")?;
    }
    if let Some(value) = &parameter.value {
        write!(all, "value={value} ")?;
    }
    Ok(())
}

// Adds what is asked for of the parts that items make up, or what is wrong with them.
fn add_analyzed<'src>(
    alloc: Global,
    all: &mut String,
    items: Vec<Item<'src>>,
    asked: Asked,
) -> Result<(), OutOfMemory> {
    match analyze(alloc, items, "/work/justfile", "/work") {
        Ok(analysis) => {
            let added = match asked {
                Asked::Parameters => add_all_parameters(&analysis, all),
                Asked::Parts => add_parts(&analysis, all),
            };
            drop(analysis);
            added
        }
        Err(error) => Ok(write!(all, "{error}")?),
    }
}

// Adds a word.
fn add(all: &mut String, word: &str) -> Result<(), OutOfMemory> {
    all.push_str(word)?;
    all.push(' ')?;
    Ok(())
}

// Adds what is asked for of a text.
fn add_text(alloc: Global, all: &mut String, text: &str, asked: Asked) -> Result<(), OutOfMemory> {
    match parse(alloc, "justfile", text) {
        Ok(items) => add_analyzed(alloc, all, items, asked),
        Err(_) => add(all, "no items"),
    }
}

// This is what is asked for of a text, or what is wrong with it.
fn is_analyzed(rt: &impl Abort, alloc: Global, text: &str, asked: Asked, wanted: &str) {
    let mut said = String::new(alloc);
    let added = add_text(alloc, &mut said, text, asked);
    added.expect(rt, "no memory");
    assert_eq!(rt; said.as_str(), wanted);
}

#[test]
fn parts_of_texts(rt: HostRuntime) {
    for (text, wanted) in PARTS {
        is_analyzed(&rt, rt.alloc(), text, Asked::Parts, wanted);
    }
}

#[test]
fn faults_of_texts(rt: HostRuntime) {
    for (text, wanted) in FAULTS {
        is_analyzed(&rt, rt.alloc(), text, Asked::Parts, wanted);
    }
}

#[test]
fn parameters_of_texts(rt: HostRuntime) {
    for (text, wanted) in PARAMETERS {
        is_analyzed(&rt, rt.alloc(), text, Asked::Parameters, wanted);
    }
}
