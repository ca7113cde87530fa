// Evaluates variables and commands, which have no parts.

ghost use Rattle.std.specs.Prelude.{IfSome, ◌≡◌};
ghost use Rattle.just_expression.specs.Prelude.{Behaves, Gave, RunsTo, command, context_of, is_non_const, unchecked};
ghost use Rattle.just_expression.specs.Prelude.{meaning, name_view, open_in, program, rules, situation, token_view};
ghost use Rattle.just_expression.specs.Prelude.{variable, view};

use super::ExpressionEvaluator;
use crate::internal::Reason;
use crate::{command, variable};
use just_host::host::Host;
use just_syntax::expression::Expression;
use just_syntax::name::Name;
use just_syntax::number::Number;
use just_syntax::text::Text;
use just_syntax::token::Token;
use just_value::const_error::ConstError;
use just_value::error::Error;
use just_value::value::Value;
use std::alloc::Global;
use std::slice;

impl<'src, 'run, 'here> ExpressionEvaluator<'src, 'run, 'here> {
    // The value of a variable. The host is not asked.
    #[inline(never)]
    pub(crate) fn evaluate_variable<H: Host>(
        &self,
        alloc: Global,
        host: &H,
        name: &Name<'src>,
        number: Option<Number>,
    ) -> Result<Value, Error<'src>>
        ensures { RunsTo self.now H.step host.now (variable (name_view name.now) number (situation self.now).names)
            result host.now }
    {
        let Some(number) = number else {
            return Err(Reason::Unresolved.error_at(alloc, name));
        };
        if self.is_open(number) {
            return Err(Error::Const(ConstError::Variable(*name)));
        }
        variable::value_of(alloc, self.scope, name, number)
    }

    // The texts of an operand that is a literal, or a variable that is bound and not open, where they are. Any other
    // operand has none in place. The host is not asked.
    #[inline(never)]
    pub(crate) fn texts_in_place<'parts, H: Host>(
        &'parts self,
        host: &H,
        operand: &'parts Expression<'src>,
    ) -> Option<&'parts [Text]>
        ensures { IfSome result (λ texts. Behaves (rules self.now) H.step unchecked host.now
            (meaning self.now (view operand.now))
            (Gave texts.now) host.now) }
    {
        match operand {
            Expression::StringLiteral { string_literal } => {
                Some(slice::from_ref(&string_literal.cooked))
            }
            Expression::Variable { name, number } => {
                let value = self.value_in_place(host, name, *number)?;
                Some(value.elements())
            }
            _ => None,
        }
    }

    // The value of a variable that is bound and not open, where it is. The host is not asked.
    fn value_in_place<H: Host>(
        &self,
        host: &H,
        name: &Name<'src>,
        number: Option<Number>,
    ) -> Option<&Value>
        ensures { IfSome result (λ value. Behaves (rules self.now) H.step unchecked host.now
            (variable (name_view name.now) number
            (situation self.now).names) (Gave value.now) host.now) }
    {
        let number = number?;
        if self.is_open(number) {
            return None;
        }
        let value = self.scope.value(number)?;
        Some(value)
    }

    // Whether a variable is open: the const rules apply, and it has no constant value.
    fn is_open(&self, number: Number) -> bool
        ensures { result ≡ open_in (context_of self.now) (is_non_const self.now) number }
    {
        match self.context {
            Some(_) => false,
            None => variable::is_open(self.non_const_assignments, number),
        }
    }

    // The value of a command expression.
    #[inline(never)]
    pub(crate) fn evaluate_backtick<H: Host>(
        &self,
        alloc: Global,
        host: &mut H,
        contents: &str,
        token: &Token<'src>,
    ) -> Result<Value, Error<'src>>
        ensures { RunsTo self.now H.step host.old (command (program self.now).fixed (situation self.now) contents.now
            (token_view token.now)) result host.new }
    {
        match self.context {
            Some(context) => {
                command::command_value(alloc, host, context, self.env, self.scope, contents, token)
            }
            None => Err(Error::Const(ConstError::Backtick(*token))),
        }
    }
}
