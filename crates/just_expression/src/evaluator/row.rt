// Evaluates lists and format strings.

ghost use Rattle.std.specs.Prelude.{[], ◌∷◌};
ghost use Rattle.just_expression.specs.Prelude.{RunsTo, as_it_is, bind, deeper, eval_pieces, flatten, formatted, gives};
ghost use Rattle.just_expression.specs.Prelude.{literal_view, piece_views, program, row, situation};

use super::ExpressionEvaluator;
use crate::form;
use just_host::host::Host;
use just_syntax::expression::Expression;
use just_syntax::string_literal::StringLiteral;
use just_value::error::Error;
use just_value::value::Value;
use std::alloc::Global;

impl<'src, 'run, 'here> ExpressionEvaluator<'src, 'run, 'here> {
    // The value of a list: the elements of all its parts.
    #[cycle(evaluate)]
    #[inline(never)]
    pub(crate) fn evaluate_list<H: Host>(
        &self,
        alloc: Global,
        host: &mut H,
        elements: &[Expression<'src>],
        budget: usize,
    ) -> Result<Value, Error<'src>>
        ensures { RunsTo self.now H.step host.old (bind (row self.now elements.now as_it_is) (λ vs. gives (flatten vs)))
            result host.new }
    {
        let mut all = Value::new(alloc);
        for element in elements {
            let value = self.evaluate_value(alloc, host, element, budget)?;
            all = form::extended(all, value)?;
        }
        Ok(all)
    }

    // The value of a format string.
    #[cycle(evaluate)]
    #[inline(never)]
    pub(crate) fn evaluate_format_string<H: Host>(
        &self,
        alloc: Global,
        host: &mut H,
        start: &StringLiteral<'src>,
        expressions: &[(Expression<'src>, StringLiteral<'src>)],
        budget: usize,
    ) -> Result<Value, Error<'src>>
        ensures { RunsTo self.now H.step host.old
            (bind (eval_pieces (program self.now) (deeper self.now) (situation self.now)
            (piece_views expressions.now)) (λ text. gives (formatted (literal_view start.now) text ∷ []))) result
            host.new }
    {
        let mut text = String::from_str(alloc, &start.cooked)?;
        for (expression, literal) in expressions {
            let value = self.evaluate_value(alloc, host, expression, budget)?;
            text.push_str(&value.join(alloc)?)?;
            text.push_str(&literal.cooked)?;
        }
        let text = form::formatted(alloc, start.indented, text)?;
        Ok(Value::from_string(alloc, text)?)
    }
}
