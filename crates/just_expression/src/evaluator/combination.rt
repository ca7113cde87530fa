// Evaluates `lhs + rhs` and `lhs / rhs`.

ghost use Rattle.just_expression.specs.Prelude.{RunsTo, combination, meaning, token_view, view};

use super::ExpressionEvaluator;
use crate::form;
use just_host::host::Host;
use just_syntax::expression::Expression;
use just_syntax::list_operator::ListOperator;
use just_syntax::token::Token;
use just_value::error::Error;
use just_value::value::Value;
use std::alloc::Global;

impl<'src, 'run, 'here> ExpressionEvaluator<'src, 'run, 'here> {
    // The value of two operands, combined by a list operator. The right one is only read.
    #[cycle(evaluate)]
    #[inline(never)]
    pub(crate) fn evaluate_combination<H: Host>(
        &self,
        alloc: Global,
        host: &mut H,
        lhs: &Expression<'src>,
        operator: ListOperator,
        token: &Token<'src>,
        rhs: &Expression<'src>,
        budget: usize,
    ) -> Result<Value, Error<'src>>
        ensures { RunsTo self.now H.step host.old (combination operator (meaning self.now (view lhs.now))
            (token_view token.now) (meaning self.now (view rhs.now))) result host.new }
    {
        let left = self.evaluate_value(alloc, host, lhs, budget)?;
        if let Some(texts) = (&*self).texts_in_place(&*host, &*rhs) {
            return form::applied(alloc, left, operator, texts, token);
        }
        let right = self.evaluate_value(alloc, host, rhs, budget)?;
        form::applied(alloc, left, operator, right.elements(), token)
    }
}
