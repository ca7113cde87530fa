// The parts of a justfile.

ghost use Rattle.std.specs.Prelude.{IfOk, ◌≡◌};
ghost use Rattle.just_analyzer.specs.Analysis.{empty};
ghost use Rattle.just_analyzer.specs.View.{analysis_view};

use crate::alias::Alias;
use just_host::justfile::Justfile;
use just_parser::recipe_definition::RecipeDefinition;
use just_syntax::out_of_memory::OutOfMemory;
use just_syntax::set::Set;
use just_syntax::table::Table;
use std::alloc::Global;

/// The parts of a justfile.
#[derive(Debug, Drop)]
pub struct Analysis<'src> {
    pub aliases: Table<Alias<'src>>,
    /// Its variables and functions. They have no numbers yet, and the order is that of the text: `resolve` of
    /// `just_resolve` gives them theirs.
    pub justfile: Justfile<'src>,
    pub recipes: Table<RecipeDefinition<'src>>,
    pub sets: Table<Set<'src>>,
}

impl<'src> Analysis<'src> {
    /// No parts, of a file at the path `source`, which works in a directory.
    ///
    /// # Errors
    ///
    /// `OutOfMemory`, if a path cannot be copied: nothing is created.
    pub(crate) fn new(
        alloc: Global,
        source: &str,
        working_directory: &str,
    ) -> Result<Analysis<'src>, OutOfMemory>
        ensures { IfOk result (λ a. analysis_view a ≡ empty source.now working_directory.now) }
    {
        Ok(Analysis {
            aliases: Table::new(alloc),
            justfile: Justfile::new(alloc, source, working_directory)?,
            recipes: Table::new(alloc),
            sets: Table::new(alloc),
        })
    }
}
