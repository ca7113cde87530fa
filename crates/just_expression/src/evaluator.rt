// Evaluates expressions, in the order of their parts.

ghost use Rattle.std.specs.Prelude.{[], option_map, ◌∷◌};
ghost use Rattle.just_expression.specs.Prelude.{Behaves, Join, RunsTo, assertion, assertion_text, branch, choice};
ghost use Rattle.just_expression.specs.Prelude.{unchecked};
ghost use Rattle.just_expression.specs.Prelude.{combination, comparison, conjunction, deeper, disjunction};
ghost use Rattle.just_expression.specs.Prelude.{ended, gives};
ghost use Rattle.just_expression.specs.Prelude.{meaning, name_view, negation, operand_view, program, rules, situation};
ghost use Rattle.just_expression.specs.Prelude.{succession, token_view, view};

mod call;
mod combination;
mod leaf;
mod row;

use crate::form;
use crate::operand::Operand;
use just_host::execution_context::ExecutionContext;
use just_host::host::Host;
use just_syntax::conditional_operator::ConditionalOperator;
use just_syntax::expression::Expression;
use just_syntax::list_operator::ListOperator;
use just_syntax::name::Name;
use just_syntax::number::Number;
use just_syntax::token::Token;
use just_syntax::{condition, stack};
use just_value::error::Error;
use just_value::scope::Scope;
use just_value::value::Value;
use std::alloc::Global;
use std::collections::{BTreeMap, HashSet};
use std::fmt;

/// Evaluates expressions in a situation.
#[derive(Clone, Copy)]
pub struct ExpressionEvaluator<'src, 'run, 'here> {
    /// What is fixed in a run. Without it the const rules apply: no call may be entered, and no command run.
    pub context: Option<&'here ExecutionContext<'src, 'run>>,
    /// How many further calls may be pending.
    pub calls_left: usize,
    /// The recipe's environment.
    pub env: &'here BTreeMap<String, String>,
    /// Whether the recipe runs as another one's dependency.
    pub is_dependency: bool,
    /// Whether values may be lists.
    pub lists: bool,
    /// The variables with no constant value, under the const rules.
    pub non_const_assignments: &'here HashSet<Number>,
    /// The recipe that is run, if any.
    pub recipe: Option<&'here Name<'src>>,
    /// What can be read, and what commands are shown.
    pub scope: &'here Scope<'src, 'here>,
    /// The scope below a called body's.
    pub below: &'here Scope<'src, 'here>,
}

impl<'src, 'run, 'here> ExpressionEvaluator<'src, 'run, 'here> {
    /// The value of an expression, with the questions that it asks the host, within a stack budget of `budget` bytes.
    /// Each form passes its parts the budget less its own frames, so that the recursion ends by the budget alone. Each
    /// level checks the budget once, against the largest form.
    ///
    /// Each form has a function of its own, to keep this one's frame small. Expressions may nest as deeply as the stack
    /// budget allows.
    ///
    /// # Errors
    ///
    /// The first refusal of a part, in the order of the parts. `OutOfMemory` if an allocation fails, if the host
    /// reports it, or if the expression, with the bodies that it calls, nests too deeply for `budget`. Without a
    /// context,
    /// `Const` at the first call, command or variable with no constant value.
    #[cycle(evaluate)]
    pub fn evaluate_value<H: Host>(
        &self,
        alloc: Global,
        host: &mut H,
        expression: &Expression<'src>,
        budget: usize,
    ) -> Result<Value, Error<'src>>
        ensures { RunsTo self.now H.step host.old (meaning self.now (view expression.now)) result host.new }
    {
        if budget < stack::FORM {
            return Err(Error::OutOfMemory);
        }
        match expression {
            Expression::And { lhs, rhs } => {
                self.evaluate_and(alloc, host, lhs, rhs, budget - stack::AND)
            }
            Expression::Assert {
                condition,
                message,
                name,
            } => {
                let budget = budget - stack::ASSERT;
                self.evaluate_assert(alloc, host, condition, message.as_deref(), name, budget)
            }
            Expression::Backtick { contents, token } => {
                self.evaluate_backtick(alloc, host, contents, token)
            }
            Expression::Call { arguments, name } => {
                self.evaluate_call(alloc, host, name, arguments, budget - stack::CALL)
            }
            Expression::Comparison {
                lhs,
                operator,
                rhs,
                token,
            } => {
                let budget = budget - stack::COMPARISON;
                self.evaluate_comparison(alloc, host, lhs, *operator, rhs, token, budget)
            }
            Expression::Concatenation { lhs, operator, rhs } => {
                let budget = budget - stack::CONCATENATION;
                let list_operator = ListOperator::Concatenate;
                self.evaluate_combination(alloc, host, lhs, list_operator, operator, rhs, budget)
            }
            Expression::Conditional {
                condition,
                consequence,
                otherwise,
            } => {
                let budget = budget - stack::CONDITIONAL;
                let otherwise = otherwise.as_deref();
                self.evaluate_conditional(alloc, host, condition, consequence, otherwise, budget)
            }
            Expression::FormatString { start, expressions } => {
                let budget = budget - stack::FORMAT_STRING;
                self.evaluate_format_string(alloc, host, start, expressions, budget)
            }
            Expression::Group { contents } => {
                self.evaluate_group(alloc, host, contents, budget - stack::GROUP)
            }
            Expression::Join { lhs, operator, rhs } => match lhs {
                Some(lhs) => {
                    let budget = budget - stack::JOIN;
                    let list_operator = ListOperator::Join;
                    self.evaluate_combination(
                        alloc,
                        host,
                        lhs,
                        list_operator,
                        operator,
                        rhs,
                        budget,
                    )
                }
                None => self.evaluate_root(alloc, host, operator, rhs, budget - stack::ROOT),
            },
            Expression::List { elements, token: _ } => {
                self.evaluate_list(alloc, host, elements, budget - stack::LIST)
            }
            Expression::ListConcatenation {
                lhs,
                operator: _,
                rhs,
            } => {
                let budget = budget - stack::LIST_CONCATENATION;
                self.evaluate_list_concatenation(alloc, host, lhs, rhs, budget)
            }
            Expression::Not { operand } => {
                self.evaluate_not(alloc, host, operand, budget - stack::NOT)
            }
            Expression::Or { lhs, rhs } => {
                self.evaluate_or(alloc, host, lhs, rhs, budget - stack::OR)
            }
            Expression::StringLiteral { string_literal } => {
                form::string_literal(alloc, string_literal)
            }
            Expression::Variable { name, number } => {
                self.evaluate_variable(alloc, host, name, *number)
            }
        }
    }

    // The value of an operand that is only read. It is inlined, so that it adds no frame to a form's.
    #[cycle(evaluate)]
    #[inline(always)]
    fn evaluate_operand<'parts, H: Host>(
        &'parts self,
        alloc: Global,
        host: &mut H,
        operand: &'parts Expression<'src>,
        budget: usize,
    ) -> Result<Operand<'parts>, Error<'src>>
        ensures { Behaves (rules self.now) H.step unchecked host.old (meaning self.now (view operand.now))
            (ended operand_view result) host.new }
    {
        if let Some(texts) = self.texts_in_place(&*host, operand) {
            return Ok(Operand::InPlace(texts));
        }
        let value = self.evaluate_value(alloc, host, operand, budget)?;
        Ok(Operand::Own(value))
    }

    // The value of `(contents)`.
    #[cycle(evaluate)]
    #[inline(never)]
    fn evaluate_group<H: Host>(
        &self,
        alloc: Global,
        host: &mut H,
        contents: &Expression<'src>,
        budget: usize,
    ) -> Result<Value, Error<'src>>
        ensures { RunsTo self.now H.step host.old (meaning self.now (view contents.now)) result host.new }
    {
        self.evaluate_value(alloc, host, contents, budget)
    }

    // The value of `lhs && rhs`.
    #[cycle(evaluate)]
    #[inline(never)]
    fn evaluate_and<H: Host>(
        &self,
        alloc: Global,
        host: &mut H,
        lhs: &Expression<'src>,
        rhs: &Expression<'src>,
        budget: usize,
    ) -> Result<Value, Error<'src>>
        ensures { RunsTo self.now H.step host.old
            (conjunction (meaning self.now (view lhs.now)) (meaning self.now (view rhs.now))) result host.new }
    {
        let value = self.evaluate_value(alloc, host, lhs, budget)?;
        if value.is_truthy() {
            self.evaluate_value(alloc, host, rhs, budget)
        } else {
            Ok(Value::new(alloc))
        }
    }

    // The value of `lhs || rhs`.
    #[cycle(evaluate)]
    #[inline(never)]
    fn evaluate_or<H: Host>(
        &self,
        alloc: Global,
        host: &mut H,
        lhs: &Expression<'src>,
        rhs: &Expression<'src>,
        budget: usize,
    ) -> Result<Value, Error<'src>>
        ensures { RunsTo self.now H.step host.old
            (disjunction (meaning self.now (view lhs.now)) (meaning self.now (view rhs.now))) result host.new }
    {
        let value = self.evaluate_value(alloc, host, lhs, budget)?;
        if value.is_truthy() {
            Ok(value)
        } else {
            self.evaluate_value(alloc, host, rhs, budget)
        }
    }

    // The value of `!operand`.
    #[cycle(evaluate)]
    #[inline(never)]
    fn evaluate_not<H: Host>(
        &self,
        alloc: Global,
        host: &mut H,
        operand: &Expression<'src>,
        budget: usize,
    ) -> Result<Value, Error<'src>>
        ensures { RunsTo self.now H.step host.old (negation (meaning self.now (view operand.now))) result host.new }
    {
        let value = self.evaluate_value(alloc, host, operand, budget)?;
        Ok(Value::from_bool(alloc, !value.is_truthy())?)
    }

    // The value of a comparison.
    #[cycle(evaluate)]
    #[inline(never)]
    fn evaluate_comparison<H: Host>(
        &self,
        alloc: Global,
        host: &mut H,
        lhs: &Expression<'src>,
        operator: ConditionalOperator,
        rhs: &Expression<'src>,
        token: &Token<'src>,
        budget: usize,
    ) -> Result<Value, Error<'src>>
        ensures { RunsTo self.now H.step host.old
            (comparison operator (token_view token.now) (meaning self.now (view lhs.now))
            (meaning self.now (view rhs.now))) result host.new }
    {
        if form::is_regex(operator) {
            return Err(Error::LeftOutRegex { token: *token });
        }
        let left = (&*self).evaluate_operand(alloc, host, &*lhs, budget)?;
        let right = (&*self).evaluate_operand(alloc, host, &*rhs, budget)?;
        form::compared(alloc, operator, left.elements(), right.elements())
    }

    // The value of a conditional.
    #[cycle(evaluate)]
    #[inline(never)]
    fn evaluate_conditional<H: Host>(
        &self,
        alloc: Global,
        host: &mut H,
        condition: &Expression<'src>,
        consequence: &Expression<'src>,
        otherwise: Option<&Expression<'src>>,
        budget: usize,
    ) -> Result<Value, Error<'src>>
        ensures { RunsTo self.now H.step host.old
            (choice (meaning self.now (view condition.now)) (meaning self.now (view consequence.now))
            (branch (program self.now) (deeper self.now) (situation self.now)
            (option_map (λ e. view e.now) otherwise.entry))) result host.new }
    {
        let value = self.evaluate_value(alloc, host, condition, budget)?;
        let taken = if value.is_truthy() {
            Some(consequence)
        } else {
            otherwise
        };
        match taken {
            Some(taken) => self.evaluate_value(alloc, host, taken, budget),
            None => Ok(Value::new(alloc)),
        }
    }

    // The value of `/ rhs`, whose left side is one empty text.
    #[cycle(evaluate)]
    #[inline(never)]
    fn evaluate_root<H: Host>(
        &self,
        alloc: Global,
        host: &mut H,
        operator: &Token<'src>,
        rhs: &Expression<'src>,
        budget: usize,
    ) -> Result<Value, Error<'src>>
        ensures { RunsTo self.now H.step host.old (combination Join (gives ([] ∷ [])) (token_view operator.now)
            (meaning self.now (view rhs.now))) result host.new }
    {
        let right = (&*self).evaluate_operand(alloc, host, &*rhs, budget)?;
        let left = form::empty_text(alloc)?;
        form::applied(alloc, left, ListOperator::Join, right.elements(), operator)
    }

    // The value of `lhs ++ rhs`.
    #[cycle(evaluate)]
    #[inline(never)]
    fn evaluate_list_concatenation<H: Host>(
        &self,
        alloc: Global,
        host: &mut H,
        lhs: &Expression<'src>,
        rhs: &Expression<'src>,
        budget: usize,
    ) -> Result<Value, Error<'src>>
        ensures { RunsTo self.now H.step host.old
            (succession (meaning self.now (view lhs.now)) (meaning self.now (view rhs.now))) result host.new }
    {
        let left = self.evaluate_value(alloc, host, lhs, budget)?;
        let right = self.evaluate_value(alloc, host, rhs, budget)?;
        Ok(form::extended(left, right)?)
    }

    // The value of an assertion. If it fails, the refusal carries its message, joined, or its condition in backticks.
    #[cycle(evaluate)]
    #[inline(never)]
    fn evaluate_assert<H: Host>(
        &self,
        alloc: Global,
        host: &mut H,
        condition: &Expression<'src>,
        message: Option<&Expression<'src>>,
        name: &Name<'src>,
        budget: usize,
    ) -> Result<Value, Error<'src>>
        ensures { RunsTo self.now H.step host.old (assertion (situation self.now).lists (name_view name.now)
            (meaning self.now (view condition.now)) (assertion_text (program self.now) (deeper self.now)
            (situation self.now) (view condition.now) (option_map (λ e. view e.now) message.entry))) result
            host.new }
    {
        let value = self.evaluate_value(alloc, host, condition, budget)?;
        if value.is_truthy() {
            return Ok(form::asserted(alloc, self.lists, value)?);
        }
        let message = match message {
            Some(message) => {
                let value = self.evaluate_value(alloc, host, message, budget)?;
                value.join(alloc)?
            }
            None => condition::in_backticks(alloc, condition, budget)?,
        };
        Err(Error::Assert {
            message,
            name: *name,
        })
    }
}

// Each field by its name, then the scopes and the context. The format is unspecified.
impl fmt::Debug for ExpressionEvaluator<'_, '_, '_> {
    fn fmt<W: fmt::Write>(&self, f: &mut fmt::Formatter<W>) -> fmt::Result {
        f.debug_struct("ExpressionEvaluator")
            .field("calls_left", &self.calls_left)
            .field("env", self.env)
            .field("is_dependency", &self.is_dependency)
            .field("lists", &self.lists)
            .field("non_const_assignments", self.non_const_assignments)
            .field("recipe", &self.recipe)
            .finish()?;
        f.write_str(" with scope ")?;
        fmt::Debug::fmt(self.scope, f)?;
        f.write_str(" below ")?;
        fmt::Debug::fmt(self.below, f)?;
        if let Some(context) = self.context {
            f.write_str(" with ")?;
            fmt::Debug::fmt(context, f)?;
        }
        Ok(())
    }
}
