// What recipes are evaluated in, and the parts of it that a case describes.

ghost use Rattle.std.specs.Prelude.{◌≡◌};

use crate::bindings::with_flags;
use crate::recipes::texts::{owned, push};
use just_case_reader::case::{Case, build};
use just_case_reader::line::Line;
use just_eval::evaluator::Evaluator;
use just_host::config::Config;
use just_host::execution_context::ExecutionContext;
use just_host::host::Host;
use just_host::justfile::Justfile;
use just_host::search::Search;
use just_host::settings::Settings;
use just_syntax::assignment::Assignment;
use just_syntax::expression::Expression;
use just_syntax::number::Number;
use just_syntax::table::Table;
use just_value::error::Error;
use just_value::scope::Scope;
use std::alloc::Global;
use std::collections::{BTreeMap, HashMap};
use std::process::Abort;

// The file that each module is read from, and its directory.
const JUSTFILE: &str = "/work/justfile";

pub(crate) const DIRECTORY: &str = "/work";

/// What a context borrows.
#[derive(Drop)]
pub(crate) struct Around<'src> {
    config: Config,
    dotenv: BTreeMap<String, String>,
    module: Justfile<'src>,
    overrides: HashMap<Number, String>,
    /// A scope with no bindings.
    pub(crate) scope: Scope<'src, 'src>,
    search: Search,
}

impl<'src> Around<'src> {
    /// The module that the lines of a case describe, with no override, no dotenv file and no option.
    pub(crate) fn of_lines(
        rt: &impl Abort,
        alloc: Global,
        lines: &'src [Line<'src>],
    ) -> Around<'src> {
        Around::new(rt, alloc, module_of(rt, alloc, case_of(rt, alloc, lines)))
    }

    /// The same with a module of this source, without functions and assignments.
    pub(crate) fn of_nothing(rt: &impl Abort, alloc: Global, source: &'src str) -> Around<'src> {
        let module = Justfile::new(alloc, source, DIRECTORY).expect(rt, "no memory");
        Around::new(rt, alloc, module)
    }

    /// The same with a submodule of this source in `/work/sub`, and with a variable `D` of a dotenv file. The submodule
    /// sets the working directory `dir` and does not export `U` and `V`.
    pub(crate) fn of_submodule(rt: &impl Abort, alloc: Global, source: &'src str) -> Around<'src> {
        let mut module = Justfile::new(alloc, source, "/work/sub").expect(rt, "no memory");
        module.submodule = true;
        module.settings = set_below(rt, alloc, "dir");
        push(rt, &mut module.unexports, owned(rt, alloc, "U"));
        push(rt, &mut module.unexports, owned(rt, alloc, "V"));
        let mut around = Around::new(rt, alloc, module);
        let inserted: Result<_, _> = around
            .dotenv
            .insert(owned(rt, alloc, "D"), owned(rt, alloc, "d"));
        inserted.expect(rt, "no memory");
        around
    }

    /// Overrides the variable with this number.
    pub(crate) fn override_with(
        &mut self,
        rt: &impl Abort,
        alloc: Global,
        number: Number,
        text: &str,
    ) {
        let inserted: Result<_, _> = self.overrides.insert(number, owned(rt, alloc, text));
        inserted.expect(rt, "no memory");
    }

    /// Exports each variable of the module.
    pub(crate) fn export_all(&mut self) {
        self.module.settings.export = true;
    }

    fn new(rt: &impl Abort, alloc: Global, module: Justfile<'src>) -> Around<'src> {
        Around {
            config: Config::new(alloc, "").expect(rt, "no memory"),
            dotenv: BTreeMap::new(alloc),
            module,
            overrides: HashMap::new(alloc),
            scope: Scope::root(alloc, &[]).expect(rt, "no memory"),
            search: Search::new(alloc, JUSTFILE, DIRECTORY).expect(rt, "no memory"),
        }
    }

    /// The context that borrows these parts.
    pub(crate) fn context(&self) -> ExecutionContext<'src, '_>
        ensures { result.recursion_limit ≡ 100 }
    {
        ExecutionContext::new(
            &self.config,
            &self.dotenv,
            &self.module,
            &self.overrides,
            &self.scope,
            &self.search,
        )
    }

    /// Evaluates the module's assignments.
    pub(crate) fn evaluate<'run, H: Host>(
        alloc: Global,
        host: &mut H,
        around: &'run Around<'src>,
    ) -> Result<Scope<'src, 'run>, Error<'src>> {
        Evaluator::evaluate_assignments(
            alloc,
            host,
            &around.config,
            &around.dotenv,
            &around.module,
            &around.overrides,
            &around.scope,
            &around.search,
            100,
            None,
        )
    }
}

// Settings with only a working directory.
fn set_below(rt: &impl Abort, alloc: Global, directory: &str) -> Settings {
    let mut settings = Settings::new(alloc);
    settings.working_directory = Some(owned(rt, alloc, directory));
    settings
}

// The case that lines describe.
fn case_of<'src>(rt: &impl Abort, alloc: Global, lines: &'src [Line<'src>]) -> Case<'src> {
    build(alloc, lines).expect(rt, "no case")
}

// The module that a case describes. Each assignment has the flags that its name gives.
fn module_of<'src>(rt: &impl Abort, alloc: Global, case: Case<'src>) -> Justfile<'src> {
    let mut settings = Settings::new(alloc);
    settings.lists = case.lists;
    Justfile {
        assignments: with_flags(rt, alloc, case.assignments),
        evaluation_order: case.evaluation_order,
        functions: case.functions,
        module_path: String::new(alloc),
        settings,
        source: owned(rt, alloc, JUSTFILE),
        submodule: false,
        unexports: Vec::new(alloc),
        working_directory: owned(rt, alloc, DIRECTORY),
    }
}

// The assignments of the case that lines describe.
fn assignments_of<'src>(
    rt: &impl Abort,
    alloc: Global,
    lines: &'src [Line<'src>],
) -> Table<Assignment<'src>> {
    case_of(rt, alloc, lines).assignments
}

// The expressions of assignments, in the byte order of their names.
fn values_of<'src>(
    rt: &impl Abort,
    alloc: Global,
    assignments: Table<Assignment<'src>>,
) -> Vec<Expression<'src>> {
    let mut expressions = Vec::new(alloc);
    for assignment in assignments {
        push(rt, &mut expressions, assignment.value);
    }
    expressions
}

/// The expressions of the assignments that lines describe, in the byte order of their names.
pub(crate) fn expressions_of<'src>(
    rt: &impl Abort,
    alloc: Global,
    lines: &'src [Line<'src>],
) -> Vec<Expression<'src>> {
    values_of(rt, alloc, assignments_of(rt, alloc, lines))
}

/// The expression of the assignment whose name is `front` followed by `back`.
pub(crate) fn expression_of<'src>(
    rt: &impl Abort,
    alloc: Global,
    lines: &'src [Line<'src>],
    front: &str,
    back: &str,
) -> Option<Expression<'src>> {
    let assignments = assignments_of(rt, alloc, lines);
    let place = place_of(&assignments, front, back);
    item_at(values_of(rt, alloc, assignments), place)
}

// The index of that assignment.
fn place_of(assignments: &Table<Assignment>, front: &str, back: &str) -> Option<usize> {
    for (place, assignment) in assignments.iter().enumerate() {
        if assignment.name.lexeme().strip_prefix(front) == Some(back) {
            return Some(place);
        }
    }
    None
}

// The item at an index, if there is one.
fn item_at<T: Drop>(items: Vec<T>, place: Option<usize>) -> Option<T> {
    let mut left = items.into_iter();
    match place {
        Some(place) => left.nth(place),
        None => None,
    }
}
