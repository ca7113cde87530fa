// Evaluation of a module's assignments, one at a time.

ghost use Rattle.std.specs.Prelude.{IfOk, List, OnErr, OnOk, [], ◌++◌, ◌∷◌, ◌≡◌};
ghost use Rattle.just_eval.specs.Prelude.{Behaves, GoesByAnswers, IfRefused, IsFinal, IsIn, IsNext, IsNotInternal};
ghost use Rattle.just_eval.specs.Prelude.{IsResolvedRun, ReachedFrames, Token, dynamically, ended, frames_of};
ghost use Rattle.just_eval.specs.Prelude.{frames_view};
ghost use Rattle.just_eval.specs.Prelude.{freely, lexically, module_of, module_view, name_view, outer_of, turn};
ghost use Rattle.just_eval.specs.Prelude.{unchecked};

use crate::evaluator::Evaluator;
use just_host::execution_context::ExecutionContext;
use just_host::host::Host;
use just_syntax::name::Name;
use just_syntax::number::Number;
use just_syntax::out_of_memory::OutOfMemory;
use just_value::error::Error;
use just_value::scope::Scope;
use std::alloc::Global;
use std::collections::HashSet;
use std::fmt;

/// Evaluates the assignments of a module one at a time, in the order that its caller chooses. So an explainer has the
/// questions of each variable from one run:
///
/// ```rust
/// let mut steps = Steps::new(alloc, run.context(&outer), run.references.as_ref())?;
/// for name in &module.evaluation_order {
///     steps.evaluate(alloc, &mut recorder, name)?;
///     let questions = recorder.take_questions(alloc);
///     println!(rt; "{name} asks {}", questions.len())?;
/// }
/// let scope = steps.into_scope();
/// ```
///
/// On a resolved module, the bindings after all names of its evaluation order are those of a run of these names, as
/// `Evaluator::evaluate_assignments` returns them.
#[derive(Drop)]
pub struct Steps<'src, 'run> {
    context: ExecutionContext<'src, 'run>,
    references: Option<&'run HashSet<Number>>,
    // A child of the context's scope.
    scope: Scope<'src, 'run>,
}

impl<'src, 'run> Steps<'src, 'run> {
    /// Steps in a context, before the first one: nothing is bound in a child of its scope. If `references` is given,
    /// only those assignments are evaluated. A recursion limit of 0 acts as 1.
    ///
    /// # Errors
    ///
    /// `OutOfMemory`, if an allocation fails: nothing is created.
    pub fn new(
        alloc: Global,
        context: ExecutionContext<'src, 'run>,
        references: Option<&'run HashSet<Number>>,
    ) -> Result<Steps<'src, 'run>, OutOfMemory>
        ensures of_context { IfOk result (λ steps. module_of steps ≡ module_view context.entry references.entry) }
        ensures outer { IfOk result (λ steps. outer_of steps ≡ frames_view context.entry.scope.now) }
        ensures unbound { IfOk result (λ steps. frames_of steps ≡ [] ∷ frames_view context.entry.scope.now) }
    {
        let scope = context.scope.child(alloc)?;
        Ok(Steps {
            context,
            references,
            scope,
        })
    }

    /// Evaluates the assignment with this name, and binds its value. An assignment that is not referenced, or whose
    /// number is already bound, is neither evaluated nor bound. Otherwise an override is one element; without one, the
    /// expression is evaluated, and the host is asked what it reaches. A step of `Evaluator::evaluate_assignments`.
    ///
    /// # Errors
    ///
    /// Those of `evaluate_assignments`; `Internal` if the module has no assignment with this name. On a resolved module
    /// that is evaluated in its order, the refusal is not `Internal`. An error leaves the bindings unchanged, so that
    /// the next step may follow. Questions already asked are not undone.
    pub fn evaluate<H: Host>(
        &mut self,
        alloc: Global,
        host: &mut H,
        name: &Name<'src>,
    ) -> Result<(), Error<'src>>
        // On a resolved module a step of its order is one of lexical scope.
        ensures headline { let m = module_of self.old in let t = name_view name.now in
            IsResolvedRun m (outer_of self.old) → IsIn m.assignments.order t
            → Behaves freely H.step unchecked host.old (turn lexically m (frames_of self.old) t)
            (ended (λ _. frames_of self.new) result) host.new }

        // If the names are those of the order so far, the bindings are those of a run of these names.
        ensures reached { let m = module_of self.old in let outer = outer_of self.old in let t = name_view name.now in
            (done : List Token) → IsResolvedRun m outer → IsNext m outer done t (frames_of self.old)
            → OnOk result (ReachedFrames lexically m outer (done ++ t ∷ []) (frames_of self.new)) }
        ensures never_internal { let m = module_of self.old in let outer = outer_of self.old in
            (done : List Token) → IsResolvedRun m outer
            → IsNext m outer done (name_view name.now) (frames_of self.old)
            → IsNotInternal (ended (λ _. frames_of self.new) result) }

        // On any module a step is one of dynamic scope.
        ensures dynamic { Behaves freely H.step unchecked host.old
            (turn dynamically (module_of self.old) (frames_of self.old) (name_view name.now))
            (ended (λ _. frames_of self.new) result) host.new }
        ensures kept { OnErr result (frames_of self.new ≡ frames_of self.old) }
        ensures of_context { module_of self.new ≡ module_of self.old }
        ensures outer { outer_of self.new ≡ outer_of self.old }

        // On any module the refusal is never `Const`, and only answered questions change the host's state.
        ensures never_const { IfRefused IsFinal (ended (λ _. frames_of self.new) result) }
        ensures answered { GoesByAnswers H.step host.old host.new }
    {
        Evaluator::evaluate_step(
            &mut self.scope,
            alloc,
            host,
            &self.context,
            self.references,
            name,
        )
    }

    /// The bindings so far, in a child of the context's scope.
    pub fn scope(&self) -> &Scope<'src, 'run>
        ensures { frames_view result.now ≡ frames_of self.now }
    {
        &self.scope
    }

    /// The bindings so far, in a child of the context's scope, which borrows nothing of the steps.
    pub fn into_scope(self) -> Scope<'src, 'run>
        ensures { frames_view result ≡ frames_of self.entry }
    {
        self.scope
    }
}

// Each field by its name, the scope and the context last. The format is unspecified.
impl fmt::Debug for Steps<'_, '_> {
    fn fmt<W: fmt::Write>(&self, f: &mut fmt::Formatter<W>) -> fmt::Result {
        f.debug_struct("Steps")
            .field("references", &self.references)
            .finish()?;
        f.write_str(" with scope ")?;
        fmt::Debug::fmt(&self.scope, f)?;
        f.write_str(" with ")?;
        fmt::Debug::fmt(&self.context, f)
    }
}
