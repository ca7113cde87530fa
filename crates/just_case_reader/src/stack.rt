// The expressions that are not yet assigned.

ghost use Rattle.std.specs.Prelude.{IfErr, IfOk, None, OnOk, Some, [], codes, length, map, option_map, ◌++◌, ◌==◌, ◌∷◌};
ghost use Rattle.std.specs.Prelude.{◌≡◌, ◌≤◌};
ghost use Rattle.just_syntax.specs.Plain as plain;
ghost use Rattle.just_case_reader.specs.Prelude.{Done, IfBad, KnownNames, assert_view, number_of, of_operand, several};
ghost use Rattle.just_case_reader.specs.Prelude.{stack_after, stack_view, together, token_of, view, views};
ghost use Rattle.just_case_reader.specs.Line as lines;

use crate::line_error::LineError;
use crate::operator::{BinaryOperator, UnaryOperator};
use crate::token::{name, token};
use just_syntax::conditional_operator::ConditionalOperator;
use just_syntax::expression::Expression;
use just_syntax::number::Number;
use just_syntax::out_of_memory::OutOfMemory;
use just_syntax::stack::MOST_LEVELS;
use std::alloc::Global;
use std::mem;

/// The expressions that are not yet assigned. A line takes its operands from the top; the uppermost is the rightmost.
/// Its contents are unspecified after an error.
#[derive(Debug, Drop)]
pub struct Stack<'src> {
    expressions: Vec<Expression<'src>>,
    // The depth of nesting of each expression.
    levels: Vec<usize>,
}

impl<'src> Stack<'src> {
    /// An empty stack with space for `count` expressions.
    ///
    /// # Errors
    ///
    /// `OutOfMemory`, if an allocation fails.
    pub fn with_capacity(alloc: Global, count: usize) -> Result<Stack<'src>, OutOfMemory>
        ensures { IfOk result (λ stack. stack_view stack ≡ []) }
    {
        Ok(Stack {
            expressions: Vec::with_capacity(alloc, count)?,
            levels: Vec::with_capacity(alloc, count)?,
        })
    }

    /// Whether each expression is assigned.
    pub fn is_empty(&self) -> bool
        ensures { result ≡ (length (stack_view self.now) == 0) }
    {
        self.expressions.is_empty()
    }

    /// Takes the expression on top.
    ///
    /// # Errors
    ///
    /// `Bad`, if there is none.
    pub fn pop(&mut self) -> Result<Expression<'src>, LineError>
        ensures ok { IfOk result (λ e. stack_view self.old ≡ view e ∷ stack_view self.new) }
        ensures bad { IfErr result (λ e. IfBad e (stack_view self.old ≡ [])) }
    {
        self.levels.pop();
        match self.expressions.pop() {
            Some(expression) => Ok(expression),
            None => Err(LineError::Bad),
        }
    }

    /// Pushes a literal.
    ///
    /// # Errors
    ///
    /// `OutOfMemory`, if an allocation fails.
    pub fn literal(&mut self, alloc: Global, text: &str, lexeme: &'src str) -> Result<(), LineError>
        ensures { (names : KnownNames)
            → Done result (stack_after (lines.Literal text.now lexeme.now) names (stack_view self.old))
            (stack_view self.new) }
    {
        self.push(Expression::literal(alloc, text, lexeme)?, 0)
    }

    /// Pushes a command.
    ///
    /// # Errors
    ///
    /// `OutOfMemory`, if an allocation fails.
    pub fn command(&mut self, alloc: Global, text: &str, lexeme: &'src str) -> Result<(), LineError>
        ensures { (names : KnownNames)
            → Done result (stack_after (lines.Command text.now lexeme.now) names (stack_view self.old))
            (stack_view self.new) }
    {
        self.push(Expression::backtick(alloc, text, token(lexeme))?, 0)
    }

    /// Pushes a variable.
    ///
    /// # Errors
    ///
    /// `OutOfMemory`, if an allocation fails.
    pub fn variable(&mut self, lexeme: &'src str, number: Number) -> Result<(), LineError>
        ensures { (names : KnownNames) → number ≡ number_of names lexeme.now
            → Done result (stack_after (lines.Variable lexeme.now) names (stack_view self.old))
            (stack_view self.new) }
    {
        self.push(Expression::variable(name(lexeme), number), 0)
    }

    /// Replaces the expression on top by the operator applied to it.
    ///
    /// # Errors
    ///
    /// `Bad`, if there is none; `OutOfMemory`, if an allocation fails or the expression would nest too deeply for the
    /// stack. In either case the expressions taken from the top may be lost.
    pub fn unary(&mut self, alloc: Global, operator: UnaryOperator) -> Result<(), LineError>
        ensures { (names : KnownNames) → Done result (stack_after (lines.Unary operator) names (stack_view self.old))
            (stack_view self.new) }
    {
        let (operand, levels) = self.pop_boxed(alloc)?;
        self.push(of_operand(operator, operand), deeper(levels))
    }

    /// Combines the two expressions on top; the uppermost is the right operand.
    ///
    /// # Errors
    ///
    /// As for `unary`, but `Bad` if there are fewer than two.
    pub fn binary(&mut self, alloc: Global, operator: BinaryOperator) -> Result<(), LineError>
        ensures { (names : KnownNames) → Done result (stack_after (lines.Binary operator) names (stack_view self.old))
            (stack_view self.new) }
    {
        let (rhs, right) = self.pop_boxed(alloc)?;
        let (lhs, left) = self.pop_boxed(alloc)?;
        self.push(together(operator, lhs, rhs), deeper(left.max(right)))
    }

    /// Combines a condition, a consequence and, on top, an `otherwise`.
    ///
    /// # Errors
    ///
    /// As for `unary`, but `Bad` if there are fewer than three.
    pub fn conditional(&mut self, alloc: Global) -> Result<(), LineError>
        ensures { (names : KnownNames) → Done result (stack_after lines.If names (stack_view self.old))
            (stack_view self.new) }
    {
        let (otherwise, third) = self.pop_boxed(alloc)?;
        let (consequence, second) = self.pop_boxed(alloc)?;
        let (condition, first) = self.pop_boxed(alloc)?;
        let conditional = Expression::Conditional {
            condition,
            consequence,
            otherwise: Some(otherwise),
        };
        self.push(conditional, deeper(first.max(second).max(third)))
    }

    /// Builds a list of `count` expressions from the top, in the order in which they were pushed.
    ///
    /// # Errors
    ///
    /// As for `unary`, but `Bad` if there are fewer than `count`.
    pub fn list(&mut self, alloc: Global, count: usize) -> Result<(), LineError>
        ensures { (names : KnownNames) → Done result (stack_after (lines.ListOf count) names (stack_view self.old))
            (stack_view self.new) }
    {
        let (elements, levels) = self.pop_several(alloc, count)?;
        self.push(Expression::list(elements, token("[")), deeper(levels))
    }

    /// Builds a call whose arguments are `count` expressions from the top, in the order in which they were pushed.
    ///
    /// # Errors
    ///
    /// As for `unary`, but `Bad` if there are fewer than `count`.
    pub fn call(&mut self, alloc: Global, lexeme: &'src str, count: usize) -> Result<(), LineError>
        ensures { (names : KnownNames)
            → Done result (stack_after (lines.Call lexeme.now count) names (stack_view self.old))
            (stack_view self.new) }
    {
        let (arguments, levels) = self.pop_several(alloc, count)?;
        self.push(Expression::call(name(lexeme), arguments), deeper(levels))
    }

    // Takes `count` expressions from the top, in the order in which they were pushed, and returns the depth of the
    // deepest too.
    fn pop_several(
        &mut self,
        alloc: Global,
        count: usize,
    ) -> Result<(Vec<Expression<'src>>, usize), LineError>
        ensures ok { IfOk result (λ taken. several count plain.Nil (stack_view self.old)
            ≡ Some (views taken.0.items, stack_view self.new)) }
        ensures bad { IfErr result (λ e. IfBad e (several count plain.Nil (stack_view self.old) ≡ None)) }
    {
        if self.expressions.len() < count {
            return Err(LineError::Bad);
        }
        let expressions = pop_parts(alloc, &mut self.expressions, count)?;
        Ok((expressions, self.pop_levels(count)))
    }

    // Takes the depths of `count` expressions from the top, and returns the greatest.
    fn pop_levels(&mut self, count: usize) -> usize
        ensures { stack_view self.new ≡ stack_view self.old }
    {
        let mut deepest = 0;
        for _ in 0..count {
            deepest = deepest.max(self.levels.pop().unwrap_or(0));
        }
        deepest
    }

    // Pushes an expression of this depth, if it is not too great.
    fn push(&mut self, expression: Expression<'src>, levels: usize) -> Result<(), LineError>
        ensures { Done result (Some (view expression.entry ∷ stack_view self.old)) (stack_view self.new) }
    {
        if levels > MOST_LEVELS {
            return Err(LineError::OutOfMemory);
        }
        self.levels.push(levels)?;
        push_part(&mut self.expressions, expression)?;
        Ok(())
    }

    // Takes the expression on top, to become a part of another, and returns its depth too.
    fn pop_boxed(&mut self, alloc: Global) -> Result<(Box<Expression<'src>>, usize), LineError>
        ensures ok { IfOk result (λ taken. stack_view self.old ≡ view taken.0.value ∷ stack_view self.new) }
        ensures bad { IfErr result (λ e. IfBad e (stack_view self.old ≡ [])) }
    {
        let levels = self.pop_levels(1);
        Ok((pop_boxed(alloc, &mut self.expressions)?, levels))
    }
}

// Pushes a part. It is generic, so that a failing push needs no code that drops an expression.
fn push_part<T: Drop>(parts: &mut Vec<T>, part: T) -> Result<(), OutOfMemory>
    ensures { OnOk result (parts.new.items ≡ parts.old.items ++ part ∷ []) }
{
    parts.push(part)?;
    Ok(())
}

// Takes `count` parts from the top, in the order in which they were pushed. If these are all, and they fill at least
// half of their vector, the vector itself is taken.
fn pop_parts<T: Drop>(
    alloc: Global,
    parts: &mut Vec<T>,
    count: usize,
) -> Result<Vec<T>, OutOfMemory>
    requires { count ≤ length parts.old.items }
    ensures taken { IfOk result (λ taken. parts.old.items ≡ parts.new.items ++ taken.items) }
    ensures count { IfOk result (λ taken. length taken.items ≡ count) }
{
    if count == parts.len() && parts.capacity() / 2 <= count {
        return Ok(mem::replace(parts, Vec::new(alloc)));
    }
    Ok(parts.split_off(parts.len() - count)?)
}

// Takes the part on top, in a box.
fn pop_boxed<T: Drop>(alloc: Global, parts: &mut Vec<T>) -> Result<Box<T>, LineError>
    ensures ok { IfOk result (λ taken. parts.old.items ≡ parts.new.items ++ taken.value ∷ []) }
    ensures bad { IfErr result (λ e. IfBad e (parts.old.items ≡ [])) }
{
    match parts.pop() {
        Some(part) => Ok(Box::new(alloc, part)?),
        None => Err(LineError::Bad),
    }
}

// The depth of a form whose deepest part has this depth.
fn deeper(levels: usize) -> usize {
    levels.saturating_add(1)
}

// An operator applied to one expression.
fn of_operand<'src>(operator: UnaryOperator, operand: Box<Expression<'src>>) -> Expression<'src>
    ensures { view result ≡ of_operand operator (view operand.entry.value) }
{
    match operator {
        UnaryOperator::Root => Expression::Join {
            lhs: None,
            operator: token("/"),
            rhs: operand,
        },
        UnaryOperator::Not => Expression::Not { operand },
        UnaryOperator::Group => Expression::Group { contents: operand },
        UnaryOperator::Assert => assertion(operand, None),
    }
}

// Two expressions combined by an operator.
fn together<'src>(
    operator: BinaryOperator,
    lhs: Box<Expression<'src>>,
    rhs: Box<Expression<'src>>,
) -> Expression<'src>
    ensures { view result ≡ together operator (view lhs.entry.value) (view rhs.entry.value) }
{
    match operator {
        BinaryOperator::Add => Expression::Concatenation {
            lhs,
            operator: token("+"),
            rhs,
        },
        BinaryOperator::Join => Expression::Join {
            lhs: Some(lhs),
            operator: token("/"),
            rhs,
        },
        BinaryOperator::Cat => Expression::ListConcatenation {
            lhs,
            operator: token("++"),
            rhs,
        },
        BinaryOperator::And => Expression::And { lhs, rhs },
        BinaryOperator::Or => Expression::Or { lhs, rhs },
        BinaryOperator::Equal => comparison(lhs, ConditionalOperator::Equality, "==", rhs),
        BinaryOperator::NotEqual => comparison(lhs, ConditionalOperator::Inequality, "!=", rhs),
        BinaryOperator::Match => comparison(lhs, ConditionalOperator::RegexMatch, "=~", rhs),
        BinaryOperator::Mismatch => {
            comparison(lhs, ConditionalOperator::RegexMismatch, "!~", rhs)
        }
        BinaryOperator::AssertMessage => assertion(lhs, Some(rhs)),
        BinaryOperator::When => Expression::Conditional {
            condition: lhs,
            consequence: rhs,
            otherwise: None,
        },
    }
}

// A comparison whose operator has this lexeme.
fn comparison<'src>(
    lhs: Box<Expression<'src>>,
    operator: ConditionalOperator,
    lexeme: &'src str,
    rhs: Box<Expression<'src>>,
) -> Expression<'src>
    ensures { view result ≡ plain.Comparison (view lhs.entry.value) operator (view rhs.entry.value)
        (token_of lexeme.now) }
{
    Expression::Comparison {
        lhs,
        operator,
        rhs,
        token: token(lexeme),
    }
}

// An assertion.
fn assertion<'src>(
    condition: Box<Expression<'src>>,
    message: Option<Box<Expression<'src>>>,
) -> Expression<'src>
    ensures { view result ≡ assert_view (view condition.entry.value) (option_map (λ b. view b.value) message.entry)
        (token_of (codes "assert")) }
{
    Expression::Assert {
        condition,
        message,
        name: name("assert"),
    }
}
