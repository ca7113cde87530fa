// Modules.

ghost use Rattle.std.specs.Prelude.{IfOk, OnErr, OnOk, ◌≡◌};
ghost use Rattle.just_host.specs.Prelude.{assignment_view, empty_root, function_view, justfile_view, with_assignment};
ghost use Rattle.just_host.specs.Prelude.{with_function};

use crate::settings::Settings;
use just_syntax::assignment::Assignment;
use just_syntax::function_definition::FunctionDefinition;
use just_syntax::name::Name;
use just_syntax::out_of_memory::OutOfMemory;
use just_syntax::table::Table;
use std::alloc::Global;

/// A resolved module.
#[derive(Debug, Drop)]
pub struct Justfile<'src> {
    pub assignments: Table<Assignment<'src>>,
    /// The names of assignments, in the order in which they are evaluated.
    pub evaluation_order: Vec<Name<'src>>,
    pub functions: Table<FunctionDefinition<'src>>,
    /// The module's path within the root module: the empty text for the root.
    pub module_path: String,
    pub settings: Settings,
    /// The path of the file that the module was read from.
    pub source: String,
    pub submodule: bool,
    /// The environment variables that are not passed on to commands.
    pub unexports: Vec<String>,
    pub working_directory: String,
}

impl<'src> Justfile<'src> {
    /// An empty root module, which sets nothing: read from the file at the path `source`, and working in a directory.
    /// An assignment that is added to its table is evaluated only if its name is in the evaluation order too: `assign`
    /// adds both.
    ///
    /// # Errors
    ///
    /// `OutOfMemory`, if a path cannot be copied: nothing is created.
    pub fn new(
        alloc: Global,
        source: &str,
        working_directory: &str,
    ) -> Result<Justfile<'src>, OutOfMemory>
        ensures { IfOk result (λ «module». justfile_view «module» ≡ empty_root source.now working_directory.now) }
    {
        Ok(Justfile {
            assignments: Table::new(alloc),
            evaluation_order: Vec::new(alloc),
            functions: Table::new(alloc),
            module_path: String::new(alloc),
            settings: Settings::new(alloc),
            source: String::from_str(alloc, source)?,
            submodule: false,
            unexports: Vec::new(alloc),
            working_directory: String::from_str(alloc, working_directory)?,
        })
    }

    /// Adds an assignment, which is evaluated after all others. If the module has one with its name, the new one
    /// replaces it and takes its place in the order.
    ///
    /// ```rust
    /// module.assign(Assignment::new(name, Number::new(0), value))?;
    /// ```
    ///
    /// # Errors
    ///
    /// `OutOfMemory`, if an allocation fails: the module is unchanged, and the assignment is dropped.
    pub fn assign(&mut self, assignment: Assignment<'src>) -> Result<(), OutOfMemory>
        ensures ok { OnOk result (justfile_view self.new
            ≡ with_assignment (justfile_view self.old) (assignment_view assignment.entry)) }
        ensures err { OnErr result (justfile_view self.new ≡ justfile_view self.old) }
    {
        let name = assignment.name;
        if self.assignments.get(name.lexeme()).is_some() {
            return self.assignments.insert(assignment);
        }
        self.evaluation_order.push(name)?;
        let inserted = self.assignments.insert(assignment);
        if inserted.is_err() {
            self.evaluation_order.pop();
        }
        inserted
    }

    /// Adds a function. If the module has one with its name, the new one replaces it.
    ///
    /// # Errors
    ///
    /// `OutOfMemory`, if an allocation fails: the module is unchanged, and the function is dropped.
    pub fn define(&mut self, function: FunctionDefinition<'src>) -> Result<(), OutOfMemory>
        ensures ok { OnOk result (justfile_view self.new
            ≡ with_function (justfile_view self.old) (function_view function.entry)) }
        ensures err { OnErr result (justfile_view self.new ≡ justfile_view self.old) }
    {
        self.functions.insert(function)
    }

    /// Whether it is a module within another. Upstream's `Justfile::is_submodule`.
    pub fn is_submodule(&self) -> bool
        ensures { result ≡ self.now.submodule }
    {
        self.submodule
    }
}
