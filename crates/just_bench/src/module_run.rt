// Runs of a case's module, with any host and in any scope.

ghost use Rattle.std.specs.Prelude.{IfOk, IsTrue, OnOk, [], map, option_map, ◌↔◌, ◌∷◌, ◌≡◌};
ghost use Rattle.just_bench.specs.Prelude.{Behaves, Extends, IsResolved, IsResolvedModule, IsResolvedRun, Outcome};
ghost use Rattle.just_bench.specs.Prelude.{bound_view, case_module, case_view, dynamically, ended, first_bound};
ghost use Rattle.just_bench.specs.Prelude.{first_given, frames_view, freely, in_order, lexically, name_view, own_frame};
ghost use Rattle.just_bench.specs.Prelude.{module_run_view, run, unchecked, without_attributes};
ghost use Rattle.std.specs.Map.{values_of};

use crate::context::{case_config, case_module, case_search};
use just_case_reader::case::Case;
use just_eval::evaluator::Evaluator;
use just_eval::resolved;
use just_host::config::Config;
use just_host::host::Host;
use just_host::justfile::Justfile;
use just_host::search::Search;
use just_syntax::attribute_set::AttributeSet;
use just_syntax::name::Name;
use just_syntax::number::Number;
use just_syntax::out_of_memory::OutOfMemory;
use just_value::binding::Binding;
use just_value::error::Error;
use just_value::scope::Scope;
use std::alloc::Global;
use std::collections::{BTreeMap, HashMap, HashSet};
use std::mem;

/// The arguments of runs of a case's module, except the host and the scope.
#[derive(Drop)]
pub struct ModuleRun<'src> {
    config: Config,
    dotenv: BTreeMap<String, String>,
    pub(crate) module: Justfile<'src>,
    overrides: HashMap<Number, String>,
    /// One more than the number of calls that may be pending.
    recursion_limit: usize,
    /// The numbers of the referenced variables, if they are given.
    pub(crate) references: Option<HashSet<Number>>,
    search: Search,
}

impl<'src> ModuleRun<'src> {
    /// The run of a case's module, in the order of the case.
    pub fn of_case(alloc: Global, case: Case<'src>) -> Result<ModuleRun<'src>, OutOfMemory>
        ensures { IfOk result (λ run. module_run_view run ≡ case_module (case_view case.entry)) }
    {
        let order = case.evaluation_order;
        Ok(ModuleRun {
            config: case_config(alloc, case.dry_run)?,
            dotenv: case.dotenv,
            module: case_module(alloc, case.assignments, order, case.functions, case.lists)?,
            overrides: case.overrides,
            recursion_limit: case.recursion_limit,
            references: case.references,
            search: case_search(alloc)?,
        })
    }

    /// Whether the module is resolved in a scope.
    pub fn is_resolved(&self, alloc: Global, parent: &Scope<'src, '_>) -> Result<bool, OutOfMemory>
        ensures { IfOk result (λ answer. IsTrue answer ↔ IsResolved (module_run_view self.now).program.functions
            (module_run_view self.now).assignments (frames_view parent.now)) }
    {
        resolved(alloc, &self.module, parent, self.references.as_ref())
    }

    /// Whether the module would be resolved in a scope if it had this order. The order and the module are unchanged,
    /// unless memory runs out: then the two orders are swapped.
    pub(crate) fn is_resolved_in(
        &mut self,
        alloc: Global,
        order: &mut Vec<Name<'src>>,
        parent: &Scope<'src, '_>,
    ) -> Result<bool, OutOfMemory>
        ensures answer { let m = in_order (module_run_view self.old) (map name_view order.old.items) in
            IfOk result (λ answer. IsTrue answer ↔ IsResolvedModule m (frames_view parent.now)) }
        ensures run { OnOk result (module_run_view self.new ≡ module_run_view self.old) }
        ensures order { OnOk result (map name_view order.new.items ≡ map name_view order.old.items) }
    {
        mem::swap(&mut self.module.evaluation_order, order);
        let resolved = self.is_resolved(alloc, parent)?;
        mem::swap(&mut self.module.evaluation_order, order);
        Ok(resolved)
    }

    /// Replaces the module's order by another, and returns the old one. It allocates nothing.
    pub(crate) fn replace_order(&mut self, order: Vec<Name<'src>>) -> Vec<Name<'src>>
        ensures run { module_run_view self.new ≡ in_order (module_run_view self.old) (map name_view order.entry.items) }
        ensures order { map name_view result.items ≡ (module_run_view self.old).assignments.order }
    {
        mem::replace(&mut self.module.evaluation_order, order)
    }

    /// Evaluates the module in its order, in a scope whose bindings it can read.
    pub fn evaluate<'run, H: Host>(
        &'run self,
        alloc: Global,
        host: &mut H,
        parent: &'run Scope<'src, 'run>,
    ) -> Result<Scope<'src, 'run>, Error<'src>>
        ensures headline { let m = module_run_view self.entry.now in let outer = frames_view parent.entry.now in
            IsResolvedRun m outer
            → Behaves freely H.step unchecked host.old (run lexically m ([] ∷ outer) m.assignments.order)
            (ended frames_view result) host.new }
        ensures dynamic { let m = module_run_view self.entry.now in
            Behaves freely H.step unchecked host.old
            (run dynamically m ([] ∷ frames_view parent.entry.now) m.assignments.order)
            (ended frames_view result) host.new }
    {
        Evaluator::evaluate_assignments(
            alloc,
            host,
            &self.config,
            &self.dotenv,
            &self.module,
            &self.overrides,
            parent,
            &self.search,
            self.recursion_limit.max(1),
            self.references.as_ref(),
        )
    }

    /// Evaluates the assignment with this name, as the next of a run whose bindings so far are those of a scope, and
    /// binds its value there, unless it is refused.
    pub(crate) fn extend<H: Host>(
        &mut self,
        alloc: Global,
        host: &mut H,
        name: Name<'src>,
        scope: &mut Scope<'src, '_>,
    ) -> Result<Result<(), Error<'src>>, OutOfMemory>
        ensures run { OnOk result
            (module_run_view self.new ≡ in_order (module_run_view self.old) (name_view name.entry ∷ [])) }
        ensures extends { IfOk result
            (λ bound. Extends dynamically H.step host.old
            (in_order (module_run_view self.old) (name_view name.entry ∷ []))
            (frames_view scope.old) (ended (λ _. frames_view scope.new) bound) host.new) }
    {
        self.module.evaluation_order = vec![in alloc; name]?;
        match self.next_binding(alloc, host, scope)? {
            Ok(Some(binding)) => {
                scope.bind(binding)?;
                Ok(Ok(()))
            }
            Ok(None) => Ok(Ok(())),
            Err(error) => Ok(Err(error)),
        }
    }

    // The first binding of a run in the module's order, on top of the bindings of a scope.
    fn next_binding<H: Host>(
        &self,
        alloc: Global,
        host: &mut H,
        scope: &Scope<'src, '_>,
    ) -> Result<Result<Option<Binding<'src>>, Error<'src>>, OutOfMemory>
        ensures { IfOk result (λ found. (given : Outcome _) × Behaves freely H.step unchecked host.old
            (run dynamically (module_run_view self.now) ([] ∷ frames_view scope.now)
            (module_run_view self.now).assignments.order)
            given host.new
            × (ended (option_map bound_view) found ≡ first_given given)) }
    {
        match self.evaluate(alloc, host, scope) {
            Ok(bound) => Ok(Ok(first_binding(alloc, &bound)?)),
            Err(error) => Ok(Err(error)),
        }
    }
}

// A copy of a scope's first binding, without attributes.
fn first_binding<'src>(
    alloc: Global,
    scope: &Scope<'src, '_>,
) -> Result<Option<Binding<'src>>, OutOfMemory>
    ensures { IfOk result (λ found. option_map bound_view found ≡ option_map without_attributes
        (first_bound (values_of (own_frame (frames_view scope.now))))) }
{
    match scope.bindings().next() {
        Some(binding) => Ok(Some(copied(alloc, binding)?)),
        None => Ok(None),
    }
}

// A copy of a binding, without attributes. An assignment has none.
fn copied<'src>(alloc: Global, binding: &Binding<'src>) -> Result<Binding<'src>, OutOfMemory>
    ensures { IfOk result (λ copy. bound_view copy ≡ without_attributes (bound_view binding.now)) }
{
    Ok(Binding {
        attributes: AttributeSet::new(alloc),
        eager: binding.eager,
        export: binding.export,
        file_depth: binding.file_depth,
        name: binding.name,
        number: binding.number,
        prelude: binding.prelude,
        private: binding.private,
        value: binding.value.try_clone(alloc)?,
    })
}
