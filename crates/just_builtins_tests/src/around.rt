// The contexts of commands and calls.

use crate::texts::{is_either, owned};
use just_host::config::Config;
use just_host::execution_context::ExecutionContext;
use just_host::justfile::Justfile;
use just_host::search::Search;
use just_host::settings::Settings;
use just_syntax::number::Number;
use just_value::scope::Scope;
use std::alloc::Global;
use std::collections::{BTreeMap, HashMap};
use std::process::Abort;

/// The directory of a module, if none is given.
pub const MODULE: &str = "/module";

/// What a context borrows.
#[derive(Drop)]
pub struct Around<'src> {
    pub config: Config,
    pub dotenv: BTreeMap<String, String>,
    pub module: Justfile<'src>,
    pub overrides: HashMap<Number, String>,
    pub scope: Scope<'src, 'src>,
    pub search: Search,
}

impl<'src> Around<'src> {
    /// For this module, with this configuration, a justfile, and the directory that it works in. There is no variable
    /// of a dotenv file and no override, and one constant is bound.
    pub fn new(
        rt: &impl Abort,
        alloc: Global,
        module: Justfile<'src>,
        config: Config,
        justfile: &str,
        directory: &str,
    ) -> Around<'src> {
        Around {
            config,
            dotenv: BTreeMap::new(alloc),
            module,
            overrides: HashMap::new(alloc),
            scope: Scope::root(alloc, &[("HEX", "0123456789abcdef")]).expect(rt, "no memory"),
            search: Search::new(alloc, justfile, directory).expect(rt, "no memory"),
        }
    }

    /// For a module at a path, with these settings and nothing else. The program is called in `/called/here`, and the
    /// justfile is `/work/justfile`.
    pub fn plain(
        rt: &impl Abort,
        alloc: Global,
        place: &'src str,
        settings: Settings,
    ) -> Around<'src> {
        let mut module = module_at(rt, alloc, place, place);
        module.settings = settings;
        Around::new(
            rt,
            alloc,
            module,
            called(rt, alloc),
            "/work/justfile",
            "/work",
        )
    }

    pub fn context(&self) -> ExecutionContext<'src, '_> {
        ExecutionContext {
            config: &self.config,
            dotenv: &self.dotenv,
            module: &self.module,
            overrides: &self.overrides,
            recursion_limit: 1,
            scope: &self.scope,
            search: &self.search,
        }
    }
}

/// The configuration of a call in `/called/here`, without any options.
pub fn called(rt: &impl Abort, alloc: Global) -> Config {
    Config::new(alloc, "/called/here").expect(rt, "no memory")
}

/// An empty module with this source, in this directory.
pub fn module_at<'src>(
    rt: &impl Abort,
    alloc: Global,
    source: &'src str,
    directory: &str,
) -> Justfile<'src> {
    Justfile::new(alloc, source, directory).expect(rt, "no memory")
}

/// Settings are equal, or not, as expected.
pub fn compares(rt: &impl Abort, settings: &Settings, others: &Settings, equal: bool) {
    is_either(rt, "equal", *settings == *others, equal);
}

/// Texts by key.
pub fn map(rt: &impl Abort, alloc: Global, pairs: &[(&str, &str)]) -> BTreeMap<String, String> {
    let mut map = BTreeMap::new(alloc);
    for (key, text) in pairs {
        insert(rt, alloc, &mut map, key, text);
    }
    map
}

/// Inserts a text at a key.
pub fn insert(
    rt: &impl Abort,
    alloc: Global,
    map: &mut BTreeMap<String, String>,
    key: &str,
    text: &str,
) {
    let key = owned(rt, alloc, key);
    let text = owned(rt, alloc, text);
    let inserted: Result<_, _> = map.insert(key, text);
    inserted.expect(rt, "no memory");
}
