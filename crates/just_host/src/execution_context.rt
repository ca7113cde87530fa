// The fixed context of a module's evaluation.

ghost use Rattle.std.specs.Prelude.{IfOk, string_bytes, ◌≡◌};
ghost use Rattle.just_host.specs.Prelude.{base_directory, fixed_view, working_directory};

use crate::config::Config;
use crate::justfile::Justfile;
use crate::search::Search;
use just_syntax::number::Number;
use just_syntax::out_of_memory::OutOfMemory;
use just_text::path;
use just_value::scope::Scope;
use std::alloc::Global;
use std::collections::{BTreeMap, HashMap};
use std::fmt;

/// The default recursion limit: one more than the number of calls that may be pending.
pub const RECURSION_LIMIT: usize = 100;

/// The fixed context of a module's evaluation.
#[derive(Clone, Copy)]
pub struct ExecutionContext<'src, 'run> {
    pub config: &'run Config,
    /// The variables of the loaded dotenv files.
    pub dotenv: &'run BTreeMap<String, String>,
    pub module: &'run Justfile<'src>,
    /// The values given to variables from outside, by their numbers.
    pub overrides: &'run HashMap<Number, String>,
    /// One more than the number of calls that may be pending.
    pub recursion_limit: usize,
    pub scope: &'run Scope<'src, 'run>,
    pub search: &'run Search,
}

impl<'src, 'run> ExecutionContext<'src, 'run> {
    /// A context of these parts, with the recursion limit [`RECURSION_LIMIT`]. It allocates nothing.
    pub fn new(
        config: &'run Config,
        dotenv: &'run BTreeMap<String, String>,
        module: &'run Justfile<'src>,
        overrides: &'run HashMap<Number, String>,
        scope: &'run Scope<'src, 'run>,
        search: &'run Search,
    ) -> ExecutionContext<'src, 'run>
        ensures { result ≡ record {
          config = config.entry;
          dotenv = dotenv.entry;
          «module» = «module».entry;
          overrides = overrides.entry;
          recursion_limit = RECURSION_LIMIT;
          scope = scope.entry;
          search = search.entry;
        } }
    {
        ExecutionContext {
            config,
            dotenv,
            module,
            overrides,
            recursion_limit: RECURSION_LIMIT,
            scope,
            search,
        }
    }

    /// The module's own directory for a submodule, otherwise that of the search.
    pub fn base_directory(&self) -> &'run str
        ensures { result.now ≡ base_directory (fixed_view self.now) }
    {
        if self.module.submodule {
            &self.module.working_directory
        } else {
            &self.search.working_directory
        }
    }

    /// The directory that commands run in: the base directory, joined with the one that is set. Upstream's
    /// `ExecutionContext::working_directory`.
    ///
    /// # Errors
    ///
    /// `OutOfMemory`, if an allocation fails: nothing is created.
    pub fn working_directory(&self, alloc: Global) -> Result<String, OutOfMemory>
        ensures { IfOk result (λ text. string_bytes text ≡ working_directory (fixed_view self.now)) }
    {
        let base = self.base_directory();
        match &self.module.settings.working_directory {
            Some(directory) => path::join(alloc, base, directory),
            None => Ok(String::from_str(alloc, base)?),
        }
    }
}

// Each field by its name, the scope last. The format is unspecified.
impl fmt::Debug for ExecutionContext<'_, '_> {
    fn fmt<W: fmt::Write>(&self, f: &mut fmt::Formatter<W>) -> fmt::Result {
        f.debug_struct("ExecutionContext")
            .field("config", self.config)
            .field("dotenv", self.dotenv)
            .field("module", self.module)
            .field("overrides", self.overrides)
            .field("recursion_limit", &self.recursion_limit)
            .field("search", self.search)
            .finish()?;
        f.write_str(" with scope ")?;
        fmt::Debug::fmt(self.scope, f)
    }
}
