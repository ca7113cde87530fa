// Runs of modules, with their options.

ghost use Rattle.std.specs.Prelude.{IfOk, None, [], map, option_map, string_bytes, ℕ, ◌<◌, ◌∷◌, ◌≡◌};
ghost use Rattle.just_eval.specs.Prelude.{AreNotInternal, Behaves, GoesByAnswers, IfRefused, IsConst, IsFinal};
ghost use Rattle.just_eval.specs.Prelude.{IsNotInternal, IsResolvedConst, IsResolvedRun, Staged, Survey};
ghost use Rattle.just_eval.specs.Prelude.{assignment_view, at_start, dynamically, ended, fixed_view, frames_view};
ghost use Rattle.just_eval.specs.Prelude.{freely, lexically, pairs_view, refused_view, run, stage_outcome};
ghost use Rattle.just_eval.specs.Prelude.{stage_state_of, text_numbered, unchecked};
ghost use Rattle.just_host.specs.Prelude.{called_in, config_view, search_view};
ghost use Rattle.just_run.specs.Run.{constants_view, run_view, value_of_name};

use just_eval::const_survey::ConstSurvey;
use just_eval::evaluator::Evaluator;
use just_host::config::Config;
use just_host::execution_context::{ExecutionContext, RECURSION_LIMIT};
use just_host::host::Host;
use just_host::justfile::Justfile;
use just_host::search::Search;
use just_syntax::number::Number;
use just_syntax::out_of_memory::OutOfMemory;
use just_syntax::variables::number_of;
use just_value::error::Error;
use just_value::scope::Scope;
use just_value::value::Value;
use std::alloc::Global;
use std::collections::{BTreeMap, HashMap, HashSet};

/// A run of a module with its options. `Run::new` gives each option its usual value, and any of them can be set:
///
/// ```rust
/// let mut run = Run::new(alloc, &module)?;
/// run.config.dry_run = true;
/// run.overrides = overrides_of(alloc, &module.assignments, [("mode", "release")])?;
/// let outer = Scope::root(alloc, [])?;
/// let scope = run.evaluate(alloc, &mut host, &outer)?;
/// ```
#[derive(Debug, Drop)]
pub struct Run<'src, 'run> {
    pub module: &'run Justfile<'src>,
    pub config: Config,
    /// The variables of the loaded dotenv files.
    pub dotenv: BTreeMap<String, String>,
    /// The values given to variables from outside, by their numbers.
    pub overrides: HashMap<Number, String>,
    pub search: Search,
    /// One more than the number of calls that may be pending, so at least 1.
    pub recursion_limit: usize,
    /// The variables that are evaluated; all of them if there is no set.
    pub references: Option<HashSet<Number>>,
}

impl<'src, 'run> Run<'src, 'run> {
    /// A run of all variables of a module, with the recursion limit [`RECURSION_LIMIT`], and without options, dotenv
    /// variables or overrides. It is called in the module's working directory, in which its source was found.
    ///
    /// # Errors
    ///
    /// `OutOfMemory`, if an allocation fails: nothing is created.
    pub fn new(alloc: Global, module: &'run Justfile<'src>) -> Result<Run<'src, 'run>, OutOfMemory>
        ensures of_module { IfOk result (λ r. r.module ≡ «module».entry) }
        ensures config { IfOk result
            (λ r. config_view r.config ≡ called_in (string_bytes «module».entry.now.working_directory)) }
        ensures search { IfOk result (λ r. search_view r.search ≡ record {
          justfile = string_bytes «module».entry.now.source;
          working_directory = string_bytes «module».entry.now.working_directory;
        }) }
        ensures nothing_given { IfOk result
            (λ r. (pairs_view r.dotenv ≡ []) × ((n : ℕ) → text_numbered r.overrides n ≡ None)) }
        ensures all { IfOk result (λ r. r.references ≡ None) }
        ensures limit { IfOk result (λ r. r.recursion_limit ≡ RECURSION_LIMIT) }
    {
        Ok(Run {
            module,
            config: Config::new(alloc, &module.working_directory)?,
            dotenv: BTreeMap::new(alloc),
            overrides: HashMap::new(alloc),
            search: Search::new(alloc, &module.source, &module.working_directory)?,
            recursion_limit: RECURSION_LIMIT,
            references: None,
        })
    }

    /// Evaluates the referenced assignments in the module's evaluation order, and returns a child of `outer` with their
    /// bindings: [`Evaluator::evaluate_assignments`] with these options, whose refusals and clauses it has.
    pub fn evaluate<H: Host>(
        &'run self,
        alloc: Global,
        host: &mut H,
        outer: &'run Scope<'src, 'run>,
    ) -> Result<Scope<'src, 'run>, Error<'src>>
        requires may_call { 0 < self.now.recursion_limit }
        ensures headline { let m = run_view self.entry.now in let frames = frames_view outer.entry.now in
            IsResolvedRun m frames
            → Behaves freely H.step unchecked host.old (run lexically m ([] ∷ frames) m.assignments.order)
            (ended frames_view result) host.new }
        ensures never_internal { IsResolvedRun (run_view self.entry.now) (frames_view outer.entry.now)
            → IsNotInternal (ended frames_view result) }
        ensures dynamic { let m = run_view self.entry.now in
            Behaves freely H.step unchecked host.old
            (run dynamically m ([] ∷ frames_view outer.entry.now) m.assignments.order)
            (ended frames_view result) host.new }
        ensures never_const { IfRefused IsFinal (ended frames_view result) }
        ensures answered { GoesByAnswers H.step host.old host.new }
    {
        Evaluator::evaluate_assignments(
            alloc,
            host,
            &self.config,
            &self.dotenv,
            self.module,
            &self.overrides,
            outer,
            &self.search,
            self.recursion_limit,
            self.references.as_ref(),
        )
    }

    /// What is known before the run: [`Evaluator::survey_const_assignments`] with these options, whose clauses it has.
    /// It asks nothing. If it refuses nothing, a variable that it settles has the same value in the run, by the law
    /// [`const_agrees`].
    ///
    /// [`const_agrees`]: just_eval::laws::const_agrees
    ///
    /// # Errors
    ///
    /// `OutOfMemory`, if an allocation fails, or if forms nest too deeply: nothing is returned.
    pub fn survey(
        &'run self,
        alloc: Global,
        outer: &'run Scope<'src, 'run>,
    ) -> Result<ConstSurvey<'src, 'run>, OutOfMemory>
        ensures headline { let m = constants_view self.entry.now in IfOk result (λ survey. Survey m
            (at_start self.entry.now.module.now.settings.lists (frames_view outer.entry.now)) m.assignments.order
            (refused_view survey.refused.items) (stage_state_of survey.evaluator)) }
        ensures before_runs { IfOk result (λ survey. IsConst survey.evaluator) }
        ensures stage { let m = constants_view self.entry.now in IfOk result (λ survey. Staged m
            (at_start self.entry.now.module.now.settings.lists (frames_view outer.entry.now)) m.assignments.order
            (stage_outcome (refused_view survey.refused.items) (stage_state_of survey.evaluator))) }
        ensures never_internal { let m = constants_view self.entry.now in IfOk result (λ survey.
            IsResolvedConst m.assignments (frames_view outer.entry.now)
            → AreNotInternal (refused_view survey.refused.items)) }
    {
        let references = self.references.as_ref();
        Evaluator::survey_const_assignments(
            alloc,
            &self.module.assignments,
            &self.module.evaluation_order,
            &self.overrides,
            outer,
            references,
            self.module.settings.lists,
        )
    }

    /// The value of the variable with a name in a scope that a run returned, if it was evaluated.
    pub fn value<'scope>(&self, scope: &'scope Scope<'src, '_>, name: &str) -> Option<&'scope Value>
        ensures { option_map (λ v. v.now) result ≡ value_of_name (map assignment_view self.now.module.now.assignments)
            (frames_view scope.now) name.now }
    {
        match number_of(&self.module.assignments, name) {
            Some(number) => scope.value(number),
            None => None,
        }
    }

    /// The context of calls that come after a run, such as those of recipes: these options, and the scope.
    pub fn context(&'run self, scope: &'run Scope<'src, 'run>) -> ExecutionContext<'src, 'run>
        ensures fixed { fixed_view result ≡ (run_view self.entry.now).program.fixed }
        ensures of_module { result.module ≡ self.entry.now.module }
        ensures overrides { result.overrides.now ≡ self.entry.now.overrides }
        ensures limit { result.recursion_limit ≡ self.entry.now.recursion_limit }
        ensures scope { result.scope ≡ scope.entry }
    {
        ExecutionContext {
            config: &self.config,
            dotenv: &self.dotenv,
            module: self.module,
            overrides: &self.overrides,
            recursion_limit: self.recursion_limit,
            scope,
            search: &self.search,
        }
    }
}
