// The context of a case.

ghost use Rattle.std.specs.Prelude.{IfOk, [], codes, false, map, ◌≡◌};
ghost use Rattle.just_bench.specs.Prelude.{assignment_view, config_view, function_view, justfile_view, name_view};
ghost use Rattle.just_bench.specs.Prelude.{search_view};
ghost use Rattle.just_bench.specs.Module as cases;

use just_host::config::Config;
use just_host::justfile::Justfile;
use just_host::search::Search;
use just_host::settings::Settings;
use just_syntax::assignment::Assignment;
use just_syntax::function_definition::FunctionDefinition;
use just_syntax::name::Name;
use just_syntax::out_of_memory::OutOfMemory;
use just_syntax::table::Table;
use std::alloc::Global;

// The file that a case is assumed to be, and its directory.
const JUSTFILE: &str = "/work/justfile";

const DIRECTORY: &str = "/work";

/// The module of a case, which sets nothing but lists.
pub(crate) fn case_module<'src>(
    alloc: Global,
    assignments: Table<Assignment<'src>>,
    evaluation_order: Vec<Name<'src>>,
    functions: Table<FunctionDefinition<'src>>,
    lists: bool,
) -> Result<Justfile<'src>, OutOfMemory>
    ensures { IfOk result (λ justfile. justfile_view justfile ≡ record {
      assignments = map assignment_view assignments.entry;
      evaluation_order = map name_view evaluation_order.entry.items;
      functions = map function_view functions.entry;
      module_path = codes "";
      settings = cases.case_settings lists;
      source = codes "/work/justfile";
      submodule = false;
      unexports = [];
      working_directory = codes "/work";
    }) }
{
    let mut settings = Settings::new(alloc);
    settings.lists = lists;
    Ok(Justfile {
        assignments,
        evaluation_order,
        functions,
        module_path: String::new(alloc),
        settings,
        source: String::from_str(alloc, JUSTFILE)?,
        submodule: false,
        unexports: Vec::new(alloc),
        working_directory: String::from_str(alloc, DIRECTORY)?,
    })
}

/// How the program is assumed to be called.
pub(crate) fn case_config(alloc: Global, dry_run: bool) -> Result<Config, OutOfMemory>
    ensures { IfOk result (λ config. config_view config ≡ cases.case_config dry_run) }
{
    let mut config = Config::new(alloc, DIRECTORY)?;
    config.dry_run = dry_run;
    Ok(config)
}

/// What the search is assumed to have found.
pub(crate) fn case_search(alloc: Global) -> Result<Search, OutOfMemory>
    ensures { IfOk result (λ search. search_view search ≡ record {
      justfile = codes "/work/justfile";
      working_directory = codes "/work";
    }) }
{
    Search::new(alloc, JUSTFILE, DIRECTORY)
}
