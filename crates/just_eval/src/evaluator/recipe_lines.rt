// Evaluation of a recipe's lines to the commands that they make.

ghost use Rattle.std.specs.Prelude.{map, ◌≡◌};
ghost use Rattle.just_eval.specs.Prelude.{AllResolvedOn, GoesByAnswers, IfRefused, IsConst, IsFinal, IsInRun};
ghost use Rattle.just_eval.specs.Prelude.{Behaves, IsNotInternal, MayCall, Resolves, UnlessStopped, commands};
ghost use Rattle.just_eval.specs.Prelude.{unchecked};
ghost use Rattle.just_eval.specs.Prelude.{const_meaning, constant, dynamic_meaning, ended, freely, lexical_meaning};
ghost use Rattle.just_eval.specs.Prelude.{line_view, lines_expressions, rules_of, stage_state_of, texts_view};

use super::Evaluator;
use crate::joined::Joined;
use just_host::host::Host;
use just_syntax::line::Line;
use just_value::error::Error;
use std::alloc::Global;

impl<'src, 'run> Evaluator<'src, 'run> {
    /// The commands that a recipe's lines make, in order: the text of each line, where a backslash at the end of a line
    /// joins it with the next. The backslash is cut, and so is the white space at the start of the line that continues
    /// it. For example the lines `cc {{flags}} \` and `   -o app` make one command. A prefix such as `@` is a part of
    /// its command, and a line with a comment is a command too. Upstream evaluates and joins them while it runs a
    /// recipe.
    ///
    /// # Errors
    ///
    /// Those of `evaluate_line`, for the lines in order. `OutOfMemory` also if a command cannot be allocated. A refusal
    /// leaves the evaluator unchanged. Questions already asked are not undone.
    pub fn evaluate_lines<H: Host>(
        &self,
        alloc: Global,
        host: &mut H,
        lines: &[Line<'src>],
    ) -> Result<Vec<String>, Error<'src>>
        requires may_call { MayCall self.now }

        // In a run, if everything reached is resolved, the commands or the refusal, and the questions asked, are those
        // of lexical scope.
        ensures headline { Resolves self.now (lines_expressions (map line_view lines.now))
            → Behaves freely H.step unchecked host.old (commands (lexical_meaning self.now) (map line_view lines.now))
            (ended texts_view result) host.new }
        ensures never_internal { Resolves self.now (lines_expressions (map line_view lines.now))
            → IsNotInternal (ended texts_view result) }

        // Resolved or not, they are those of dynamic scope.
        ensures dynamic { Behaves (rules_of self.now) H.step unchecked host.old
            (commands (dynamic_meaning self.now) (map line_view lines.now)) (ended texts_view result) host.new }

        // Resolved or not, the refusal in a run is never `Const`, and only answered questions change the host's state.
        ensures never_const { IsInRun self.now → IfRefused IsFinal (ended texts_view result) }
        ensures answered { GoesByAnswers H.step host.old host.new }

        // Before any run the result is that of the const rules, and nothing is asked. If each variable is bound or
        // open, the refusal is not `Internal`.
        ensures constants { IsConst self.now
            → UnlessStopped (ended texts_view result)
            (constant (stage_state_of self.now).is_open
            (commands (const_meaning (stage_state_of self.now)) (map line_view lines.now))) }
        ensures still { IsConst self.now → host.new ≡ host.old }
        ensures resolved_constants { IsConst self.now
            → AllResolvedOn (stage_state_of self.now) (lines_expressions (map line_view lines.now))
            → IsNotInternal (ended texts_view result) }
    {
        self.evaluate_lines_by_dynamic_scoping(alloc, host, lines)
    }

    // The same under dynamic scope.
    fn evaluate_lines_by_dynamic_scoping<H: Host>(
        &self,
        alloc: Global,
        host: &mut H,
        lines: &[Line<'src>],
    ) -> Result<Vec<String>, Error<'src>>
        requires may_call { MayCall self.now }
        ensures { Behaves (rules_of self.now) H.step unchecked host.old
            (commands (dynamic_meaning self.now) (map line_view lines.now)) (ended texts_view result) host.new }
    {
        let mut joined = Joined::new(alloc);
        for line in lines {
            let text = self.evaluate_line(alloc, host, line, joined.continues)?;
            joined.add(alloc, line, &text)?;
        }
        Ok(joined.into_commands()?)
    }
}
