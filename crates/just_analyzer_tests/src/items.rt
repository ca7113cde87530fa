// Texts and their items.

use just_parser::arg_attribute::{ArgAttribute, ArgOption};
use just_parser::dependency::Dependency;
use just_parser::item::Item;
use just_parser::parse;
use just_parser::recipe_definition::RecipeDefinition;
use just_syntax::assignment::Assignment;
use just_syntax::attribute::Attribute;
use just_syntax::fragment::Fragment;
use just_syntax::function_definition::FunctionDefinition;
use just_syntax::line::Line;
use just_syntax::out_of_memory::OutOfMemory;
use just_syntax::parameter::Parameter;
use just_syntax::parameter_kind::ParameterKind;
use std::alloc::Global;
use std::process::Abort;

// Texts and their items, one after another.
const ITEMS: &[(&str, &str)] = &[
    ("", ""),
    ("\n\n# nothing\n", ""),
    ("a := 'b'\n", "a := 'b'; "),
    ("\u{feff}a := 'b'\r\n", "a := 'b'; "),
    ("a := b + c", "a := b + c; "),
    ("a := 'b'\n\nc := a # d\n", "a := 'b'; c := a; "),
    ("export a := 'b'\n", "export a := 'b'; "),
    ("eager a := 'b'\n", "eager a := 'b'; "),
    ("export := 'b'\n", "export := 'b'; "),
    ("a := (\n  b\n)\n", "a := (b); "),
    ("alias a := b\n", "alias a := b; "),
    ("unexport A\n", "unexport A; "),
    ("f() := 'a'\n", "f() := 'a'; "),
    ("f(a) := a + 'b'\n", "f(a, ) := a + 'b'; "),
    ("f(a, b,) := a\n", "f(a, b, ) := a; "),
    ("set export\n", "set export; "),
    ("set export := false\n", "set export; "),
    ("set shell := ['sh', '-c']\n", "set shell; "),
    ("set tempdir := 'a' / 'b'\n", "set tempdir; "),
    ("set minimum-version := '1.2'\n", "set minimum-version; "),
    ("set indentation := '  '\n", "set indentation; "),
    ("set := 'a'\n", "set := 'a'; "),
    ("a:\n", "a:; "),
    ("a b:", "a b:; "),
    ("@a:\n  b\n", "@a: / b; "),
    ("export a:\n", "export a:; "),
    ("a b='c' $d=(e + f) *g:\n", "a b='c' $d=(e + f) *g:; "),
    ("a +b=c:\n", "a +b=c:; "),
    (
        "a: b (c 'd' e + f) && g\n",
        "a: b() c('d', e + f, ) && g(); ",
    ),
    (
        "a:\n\n  b {{c}} d\n\n  {{e}}\n\nf := 'g'\n",
        "a: / b {c} d / / {e}; f := 'g'; ",
    ),
    ("a:\n  # b\n  c {{{{d\ne:\n", "a: / # b / c {{{{d; e:; "),
    ("a:\n  b\n    c", "a: / b /   c; "),
    ("_a := 'b'\n", "private _a := 'b'; "),
    ("[private]\na := 'b'\n", "private a := 'b'; "),
    (
        "[private, group: 'c']\nexport a := 'b'\n",
        "private export a := 'b'; ",
    ),
    ("[private]\nalias a := b\n", "alias a := b; "),
    ("[private]\na:\n  b\n", "[private] a: / b; "),
    (
        "[linux]\n[confirm(\"a?\"), no-cd,]\n@a:\n",
        "[linux] [confirm] [no-cd] @a:; ",
    ),
    (
        "[script('sh', '-e',), metadata()]\na:\n",
        "[script] [metadata] a:; ",
    ),
    (
        "[env('A', b + `c`)]\n[env(\n  a,\n  'b',\n)]\na:\n",
        "[env('A', b + `c`)] [env(a, 'b')] a:; ",
    ),
    (
        "[arg('a', long, help='b', pattern = c / d)]\na b:\n",
        "[arg] <'a'> a b:; ",
    ),
    (
        "[arg(\"a\", flag, value='b' + c, multiple)]\n[arg('d')]\na b:\n",
        "[arg] <\"a\" flag value='b' + c multiple> [arg] <'d'> a b:; ",
    ),
];

// Texts and what is wrong with them.
const REFUSED: &[(&str, &str)] = &[
    ("a", "expected ':', found the end"),
    (
        "[a]",
        "expected an item that takes attributes, found the end",
    ),
    (
        "[a]\nset export\n",
        "expected an item that takes attributes, found `set`",
    ),
    (
        "[a]\n\nb:\n",
        "expected an item that takes attributes, found `\n`",
    ),
    ("[]\na:\n", "expected identifier, found `]`"),
    ("[a b]\na:\n", "expected ']', found `b`"),
    ("[a] b:\n", "expected end of line, found `b`"),
    ("[a: ]\nb:\n", "expected an expression, found `]`"),
    ("[env('a')]\nb:\n", "expected ',', found `)`"),
    ("[env('a', 'b', 'c')]\nb:\n", "expected ')', found `'c'`"),
    ("[env]\nb:\n", "expected '(', found `]`"),
    ("[arg(a)]\nb:\n", "expected string, found `a`"),
    ("[arg('a', 'b')]\nb:\n", "expected identifier, found `'b'`"),
    ("[arg('a', flag='b')]\nb:\n", "expected ')', found `=`"),
    ("[arg('a', value)]\nb:\n", "expected '=', found `)`"),
    ("a +b c:\n", "expected ':', found `c`"),
    ("a: (b\n", "unclosed delimiter `(`"),
    ("a: b &&\n", "expected identifier, found `\n`"),
    ("a: b + c\n", "expected end of line, found `+`"),
    ("a:\n  {{b c}}\n", "expected '}}', found `c`"),
    ("a b=+c:\n", "expected an expression, found `+`"),
    ("a := ", "expected an expression, found the end"),
    ("a := b c", "expected end of line, found `c`"),
    ("a = b", "expected ':', found `=`"),
    ("export a", "expected ':', found the end"),
    ("alias a := b + c\n", "expected end of line, found `+`"),
    ("f(a b) := a\n", "expected ')', found `b`"),
    ("f(,) := a\n", "expected identifier, found `,`"),
    ("f(a) = a\n", "expected ':=', found `=`"),
    ("set exports\n", "unknown setting, found `exports`"),
    (
        "set export := 'true'\n",
        "expected `true` or `false`, found `'true'`",
    ),
    (
        "set shell := 'sh'\n",
        "expected a list of a command and its arguments, found `'sh'`",
    ),
    (
        "set shell := []\n",
        "expected a list of a command and its arguments, found `[`",
    ),
    ("set shell\n", "expected ':=', found `\n`"),
    (
        "set minimum-version := f'1'\n",
        "expected string, found `f'1'`",
    ),
    (
        "set indentation := 'a'\n",
        "expected a string of a tab or of spaces, found `'a'`",
    ),
    (
        "import 'a'\n",
        "imports and modules are not read, found `import`",
    ),
    ("mod a\n", "imports and modules are not read, found `mod`"),
    ("a := 'b", "unterminated string"),
];

// Adds an item, as it is written.
fn add_item(text: &mut String, item: &Item) -> Result<(), OutOfMemory> {
    match item {
        Item::Alias { name, target } => write!(text, "alias {name} := {target}; ")?,
        Item::Assignment(assignment) => add_assignment(text, assignment)?,
        Item::Function(function) => add_function(text, function)?,
        Item::Recipe(recipe) => add_recipe(text, recipe)?,
        Item::Set(set) => write!(text, "set {}; ", set.name)?,
        Item::Unexport { name } => write!(text, "unexport {name}; ")?,
    }
    Ok(())
}

fn add_assignment(text: &mut String, assignment: &Assignment) -> Result<(), OutOfMemory> {
    if assignment.private {
        text.push_str("private ")?;
    }
    if assignment.eager {
        text.push_str("eager ")?;
    }
    if assignment.export {
        text.push_str("export ")?;
    }
    write!(text, "{} := {}; ", assignment.name, assignment.value)?;
    Ok(())
}

fn add_function(text: &mut String, function: &FunctionDefinition) -> Result<(), OutOfMemory> {
    write!(text, "{}(", function.name)?;
    for (parameter, _) in &function.parameters {
        write!(text, "{parameter}, ")?;
    }
    write!(text, ") := {}; ", function.body)?;
    Ok(())
}

fn add_recipe(text: &mut String, recipe: &RecipeDefinition) -> Result<(), OutOfMemory> {
    add_attributes(text, recipe)?;
    if recipe.quiet {
        text.push('@')?;
    }
    text.push_str(recipe.recipe.name())?;
    for parameter in &recipe.parameters {
        add_parameter(text, parameter)?;
    }
    text.push(':')?;
    add_dependencies(text, &recipe.dependencies)?;
    if !recipe.subsequents.is_empty() {
        text.push_str(" &&")?;
        add_dependencies(text, &recipe.subsequents)?;
    }
    for line in &recipe.body {
        add_line(text, line)?;
    }
    text.push_str("; ")?;
    Ok(())
}

// Adds the attributes of a recipe, each with what it says of a parameter.
fn add_attributes(text: &mut String, recipe: &RecipeDefinition) -> Result<(), OutOfMemory> {
    let mut args = recipe.args.iter();
    for (attribute, name) in recipe.recipe.attributes.iter() {
        match attribute {
            Attribute::Env(key, value) => write!(text, "[{name}({key}, {value})] ")?,
            Attribute::Other => write!(text, "[{name}] ")?,
        }
        if name.lexeme() == "arg" {
            if let Some(arg) = args.next() {
                add_arg(text, arg)?;
            }
        }
    }
    Ok(())
}

// Adds what an attribute says of a parameter.
fn add_arg(text: &mut String, arg: &ArgAttribute) -> Result<(), OutOfMemory> {
    write!(text, "<{}", arg.parameter)?;
    for option in &arg.options {
        match option {
            ArgOption::Flag => text.push_str(" flag")?,
            ArgOption::Multiple => text.push_str(" multiple")?,
            ArgOption::Value(value) => write!(text, " value={value}")?,
        }
    }
    text.push_str("> ")?;
    Ok(())
}

fn add_parameter(text: &mut String, parameter: &Parameter) -> Result<(), OutOfMemory> {
    text.push_str(match parameter.kind {
        ParameterKind::Singular => " ",
        ParameterKind::Plus => " +",
        ParameterKind::Star => " *",
    })?;
    if parameter.export {
        text.push('$')?;
    }
    text.push_str(parameter.name.lexeme())?;
    if let Some(default) = &parameter.default {
        write!(text, "={default}")?;
    }
    Ok(())
}

// Adds dependencies with their arguments.
fn add_dependencies(text: &mut String, all: &[Dependency]) -> Result<(), OutOfMemory> {
    for dependency in all {
        write!(text, " {}(", dependency.recipe)?;
        for argument in &dependency.arguments {
            write!(text, "{argument}, ")?;
        }
        text.push(')')?;
    }
    Ok(())
}

// Adds a line, with a slash before it and a space before its first fragment.
fn add_line(text: &mut String, line: &Line) -> Result<(), OutOfMemory> {
    text.push_str(if line.fragments.is_empty() {
        " /"
    } else {
        " / "
    })?;
    for fragment in &line.fragments {
        match fragment {
            Fragment::Text { token } => text.push_str(token.lexeme)?,
            Fragment::Interpolation { expression } => write!(text, "{{{expression}}}")?,
        }
    }
    Ok(())
}

fn add_items(text: &mut String, items: &[Item]) -> Result<(), OutOfMemory> {
    for item in items {
        add_item(text, item)?;
    }
    Ok(())
}

// Adds what comes of a text: its items, or what is wrong with it.
fn add_read(alloc: Global, said: &mut String, text: &str) -> Result<(), OutOfMemory> {
    match parse(alloc, "justfile", text) {
        Ok(items) => {
            let added = add_items(said, &items);
            drop(items);
            added
        }
        Err(error) => Ok(write!(said, "{error}")?),
    }
}

// This comes of a text.
fn is_read(rt: &impl Abort, alloc: Global, text: &str, wanted: &str) {
    let mut said = String::new(alloc);
    let added = add_read(alloc, &mut said, text);
    added.expect(rt, "no memory");
    assert_eq!(rt; said.as_str(), wanted);
}

#[test]
fn items_of_texts(rt: HostRuntime) {
    for (text, wanted) in ITEMS {
        is_read(&rt, rt.alloc(), text, wanted);
    }
}

#[test]
fn refused_at_a_token(rt: HostRuntime) {
    for (text, why) in REFUSED {
        is_read(&rt, rt.alloc(), text, why);
    }
}
