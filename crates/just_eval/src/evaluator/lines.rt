// Evaluation of texts and lines.

ghost use Rattle.std.specs.Prelude.{[], string_bytes, ◌∷◌, ◌≡◌};
ghost use Rattle.just_eval.specs.Prelude.{AllResolvedOn, GoesByAnswers, IfRefused, IsConst, IsFinal, IsInRun};
ghost use Rattle.just_eval.specs.Prelude.{Behaves, IsNotInternal, IsResolvedOn, MayCall, Resolves, UnlessStopped};
ghost use Rattle.just_eval.specs.Prelude.{unchecked};
ghost use Rattle.just_eval.specs.Prelude.{const_meaning, constant, dynamic_meaning, ended, fragment_tree};
ghost use Rattle.just_eval.specs.Prelude.{fragment_view, freely, lexical_meaning, line_expressions, line_tree};
ghost use Rattle.just_eval.specs.Prelude.{line_view, rules_of, stage_state_of, string, string_context_view, view};

use super::Evaluator;
use crate::line::fragment_text;
use just_expression::text::one_text;
use just_host::host::Host;
use just_syntax::expression::Expression;
use just_syntax::fragment::Fragment;
use just_syntax::line::Line;
use just_syntax::string_context::StringContext;
use just_value::error::Error;
use std::alloc::Global;

impl<'src, 'run> Evaluator<'src, 'run> {
    /// The text of an expression where a single text is required. Upstream's `Evaluator::evaluate_string`.
    ///
    /// # Errors
    ///
    /// Those of `evaluate_value`, including `OutOfMemory`. `ListInStringContext` if the value does not have exactly one
    /// element. A refusal leaves the evaluator unchanged. Questions already asked are not undone.
    pub fn evaluate_string<H: Host>(
        &self,
        alloc: Global,
        host: &mut H,
        expression: &Expression<'src>,
        context: StringContext<'src>,
    ) -> Result<String, Error<'src>>
        requires may_call { MayCall self.now }

        // In a run, if everything reached is resolved, the text or the refusal, and the questions asked, are those of
        // lexical scope.
        ensures headline { Resolves self.now (view expression.now ∷ [])
            → Behaves freely H.step unchecked host.old
            (string (lexical_meaning self.now) (string_context_view context.entry)
            (view expression.now)) (ended string_bytes result) host.new }
        ensures never_internal { Resolves self.now (view expression.now ∷ [])
            → IsNotInternal (ended string_bytes result) }

        // Resolved or not, they are those of dynamic scope.
        ensures dynamic { Behaves (rules_of self.now) H.step unchecked host.old
            (string (dynamic_meaning self.now) (string_context_view context.entry) (view expression.now))
            (ended string_bytes result) host.new }

        // Resolved or not, the refusal in a run is never `Const`, and only answered questions change the host's state.
        ensures never_const { IsInRun self.now → IfRefused IsFinal (ended string_bytes result) }
        ensures answered { GoesByAnswers H.step host.old host.new }

        // Before any run the result is that of the const rules, and nothing is asked. If each variable is bound or
        // open, the refusal is not `Internal`.
        ensures constants { IsConst self.now
            → UnlessStopped (ended string_bytes result)
            (constant (stage_state_of self.now).is_open
            (string (const_meaning (stage_state_of self.now)) (string_context_view context.entry)
            (view expression.now))) }
        ensures still { IsConst self.now → host.new ≡ host.old }
        ensures resolved_constants { IsConst self.now → IsResolvedOn (stage_state_of self.now) (view expression.now)
            → IsNotInternal (ended string_bytes result) }
    {
        self.evaluate_string_by_dynamic_scoping(alloc, host, expression, context)
    }

    // The same under dynamic scope.
    pub(crate) fn evaluate_string_by_dynamic_scoping<H: Host>(
        &self,
        alloc: Global,
        host: &mut H,
        expression: &Expression<'src>,
        context: StringContext<'src>,
    ) -> Result<String, Error<'src>>
        requires may_call { MayCall self.now }
        ensures { Behaves (rules_of self.now) H.step unchecked host.old
            (string (dynamic_meaning self.now) (string_context_view context.entry) (view expression.now))
            (ended string_bytes result) host.new }
    {
        let value = self.evaluate_expression(alloc, host, expression)?;
        let text = one_text(value, context)?;
        Ok(text.into_string(alloc)?)
    }

    /// The text of a line: its fragments in order. In text `{{{{` stands for `{{`; an interpolation is its value joined
    /// by spaces. If the line is `continued`, text at its start loses its leading white space. Upstream's
    /// `Evaluator::evaluate_line`.
    ///
    /// # Errors
    ///
    /// Those of `evaluate_value`, for the interpolations in order. `OutOfMemory` also if the text cannot be allocated.
    /// A refusal leaves the evaluator unchanged. Questions already asked are not undone.
    pub fn evaluate_line<H: Host>(
        &self,
        alloc: Global,
        host: &mut H,
        line: &Line<'src>,
        continued: bool,
    ) -> Result<String, Error<'src>>
        requires may_call { MayCall self.now }

        // In a run, if everything reached is resolved, the text or the refusal, and the questions asked, are those of
        // lexical scope.
        ensures headline { Resolves self.now (line_expressions (line_view line.now))
            → Behaves freely H.step unchecked host.old
            (line_tree (lexical_meaning self.now) continued (line_view line.now))
            (ended string_bytes result) host.new }
        ensures never_internal { Resolves self.now (line_expressions (line_view line.now))
            → IsNotInternal (ended string_bytes result) }

        // Resolved or not, they are those of dynamic scope.
        ensures dynamic { Behaves (rules_of self.now) H.step unchecked host.old
            (line_tree (dynamic_meaning self.now) continued (line_view line.now)) (ended string_bytes result) host.new }

        // Resolved or not, the refusal in a run is never `Const`, and only answered questions change the host's state.
        ensures never_const { IsInRun self.now → IfRefused IsFinal (ended string_bytes result) }
        ensures answered { GoesByAnswers H.step host.old host.new }

        // Before any run the result is that of the const rules, and nothing is asked. If each variable is bound or
        // open, the refusal is not `Internal`.
        ensures constants { IsConst self.now
            → UnlessStopped (ended string_bytes result)
            (constant (stage_state_of self.now).is_open (line_tree (const_meaning (stage_state_of self.now)) continued
            (line_view line.now))) }
        ensures still { IsConst self.now → host.new ≡ host.old }
        ensures resolved_constants { IsConst self.now
            → AllResolvedOn (stage_state_of self.now) (line_expressions (line_view line.now))
            → IsNotInternal (ended string_bytes result) }
    {
        self.evaluate_line_by_dynamic_scoping(alloc, host, line, continued)
    }

    // The same under dynamic scope.
    fn evaluate_line_by_dynamic_scoping<H: Host>(
        &self,
        alloc: Global,
        host: &mut H,
        line: &Line<'src>,
        continued: bool,
    ) -> Result<String, Error<'src>>
        requires may_call { MayCall self.now }
        ensures { Behaves (rules_of self.now) H.step unchecked host.old
            (line_tree (dynamic_meaning self.now) continued (line_view line.now))
            (ended string_bytes result) host.new }
    {
        let mut text = String::new(alloc);
        let mut continues = continued;
        for fragment in &line.fragments {
            let more = self.evaluate_fragment(alloc, host, fragment, continues)?;
            text.push_str(&more)?;
            continues = false;
        }
        Ok(text)
    }

    // The text of a fragment.
    fn evaluate_fragment<H: Host>(
        &self,
        alloc: Global,
        host: &mut H,
        fragment: &Fragment<'src>,
        continues: bool,
    ) -> Result<String, Error<'src>>
        requires may_call { MayCall self.now }
        ensures { Behaves (rules_of self.now) H.step unchecked host.old
            (fragment_tree (dynamic_meaning self.now) continues (fragment_view fragment.now))
            (ended string_bytes result) host.new }
    {
        match fragment {
            Fragment::Text { token } => Ok(fragment_text(alloc, token.lexeme(), continues)?),
            Fragment::Interpolation { expression } => {
                let value = self.evaluate_expression(alloc, host, expression)?;
                Ok(value.join(alloc)?)
            }
        }
    }
}
