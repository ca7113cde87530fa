// Constructors of expressions.

ghost use Rattle.std.specs.Prelude.{IfOk, Some, false, option_map, ◌≡◌};
ghost use Rattle.just_syntax.specs.Plain as plain;
ghost use Rattle.just_syntax.specs.Prelude.{assert_view, conditional, join, literal_view, name_view, piece_views};
ghost use Rattle.just_syntax.specs.Prelude.{token_view, view, views};

use crate::conditional_operator::ConditionalOperator;
use crate::expression::Expression;
use crate::name::Name;
use crate::number::Number;
use crate::out_of_memory::OutOfMemory;
use crate::string_literal::StringLiteral;
use crate::token::Token;
use std::alloc::Global;

/// One constructor per form. Those that return a `Result` box the parts.
impl<'src> Expression<'src> {
    /// `lhs && rhs`
    ///
    /// # Errors
    ///
    /// `OutOfMemory`, if an allocation fails: both sides are dropped.
    pub fn and(
        alloc: Global,
        lhs: Expression<'src>,
        rhs: Expression<'src>,
    ) -> Result<Expression<'src>, OutOfMemory>
        ensures { IfOk result (λ e. view e ≡ plain.And (view lhs.entry) (view rhs.entry)) }
    {
        let (lhs, rhs) = boxed_pair(alloc, lhs, rhs)?;
        Ok(Expression::And { lhs, rhs })
    }

    /// `assert(condition)`, or `assert(condition, message)`. The name is that of the call, and it is the place that a
    /// refusal reports.
    ///
    /// # Errors
    ///
    /// `OutOfMemory`, if an allocation fails: the parts are dropped.
    pub fn assert(
        alloc: Global,
        name: Name<'src>,
        condition: Expression<'src>,
        message: Option<Expression<'src>>,
    ) -> Result<Expression<'src>, OutOfMemory>
        ensures { IfOk result (λ e. view e ≡ assert_view (view condition.entry) (option_map view message.entry)
            (name_view name.entry)) }
    {
        let (condition, message) = boxed_with(alloc, condition, message)?;
        Ok(Expression::Assert {
            condition,
            message,
            name,
        })
    }

    /// A command in backticks: its text, and the token with its backticks.
    ///
    /// # Errors
    ///
    /// `OutOfMemory`, if the text cannot be copied: nothing is created.
    pub fn backtick(
        alloc: Global,
        contents: &str,
        token: Token<'src>,
    ) -> Result<Expression<'src>, OutOfMemory>
        ensures { IfOk result (λ e. view e ≡ plain.Backtick contents.now (token_view token.entry)) }
    {
        Ok(Expression::Backtick {
            contents: String::from_str(alloc, contents)?,
            token,
        })
    }

    /// `name(arguments)`. It allocates nothing.
    pub fn call(name: Name<'src>, arguments: Vec<Expression<'src>>) -> Expression<'src>
        ensures { view result ≡ plain.Call (name_view name.entry) (views arguments.entry.items) }
    {
        Expression::Call { arguments, name }
    }

    /// `lhs == rhs`, `lhs != rhs`, `lhs =~ rhs` or `lhs !~ rhs`. The token is the operator.
    ///
    /// # Errors
    ///
    /// `OutOfMemory`, if an allocation fails: both sides are dropped.
    pub fn comparison(
        alloc: Global,
        lhs: Expression<'src>,
        operator: ConditionalOperator,
        rhs: Expression<'src>,
        token: Token<'src>,
    ) -> Result<Expression<'src>, OutOfMemory>
        ensures { IfOk result (λ e. view e ≡ plain.Comparison (view lhs.entry) operator (view rhs.entry)
            (token_view token.entry)) }
    {
        let (lhs, rhs) = boxed_pair(alloc, lhs, rhs)?;
        Ok(Expression::Comparison {
            lhs,
            operator,
            rhs,
            token,
        })
    }

    /// `lhs + rhs`
    ///
    /// # Errors
    ///
    /// `OutOfMemory`, if an allocation fails: both sides are dropped.
    pub fn concatenation(
        alloc: Global,
        lhs: Expression<'src>,
        operator: Token<'src>,
        rhs: Expression<'src>,
    ) -> Result<Expression<'src>, OutOfMemory>
        ensures { IfOk result (λ e. view e ≡ plain.Concatenation (view lhs.entry) (token_view operator.entry)
            (view rhs.entry)) }
    {
        let (lhs, rhs) = boxed_pair(alloc, lhs, rhs)?;
        Ok(Expression::Concatenation { lhs, operator, rhs })
    }

    /// `if condition { consequence } else { otherwise }`, or without the last part.
    ///
    /// # Errors
    ///
    /// `OutOfMemory`, if an allocation fails: the parts are dropped.
    pub fn conditional(
        alloc: Global,
        condition: Expression<'src>,
        consequence: Expression<'src>,
        otherwise: Option<Expression<'src>>,
    ) -> Result<Expression<'src>, OutOfMemory>
        ensures { IfOk result (λ e. view e ≡ conditional (view condition.entry) (view consequence.entry)
            (option_map view otherwise.entry)) }
    {
        let (condition, branches) = boxed_branches(alloc, condition, consequence, otherwise)?;
        let (consequence, otherwise) = branches;
        Ok(Expression::Conditional {
            condition,
            consequence,
            otherwise,
        })
    }

    /// A format string: its start, and then interpolations, each with the text after it. It allocates nothing.
    pub fn format_string(
        start: StringLiteral<'src>,
        expressions: Vec<(Expression<'src>, StringLiteral<'src>)>,
    ) -> Expression<'src>
        ensures { view result ≡ plain.FormatString (literal_view start.entry) (piece_views expressions.entry.items) }
    {
        Expression::FormatString { start, expressions }
    }

    /// `(contents)`
    ///
    /// # Errors
    ///
    /// `OutOfMemory`, if an allocation fails: the contents are dropped.
    pub fn group(alloc: Global, contents: Expression<'src>) -> Result<Expression<'src>, OutOfMemory>
        ensures { IfOk result (λ e. view e ≡ plain.Group (view contents.entry)) }
    {
        Ok(Expression::Group {
            contents: Box::new(alloc, contents)?,
        })
    }

    /// `lhs / rhs`, or `/ rhs`.
    ///
    /// # Errors
    ///
    /// `OutOfMemory`, if an allocation fails: both sides are dropped.
    pub fn join(
        alloc: Global,
        lhs: Option<Expression<'src>>,
        operator: Token<'src>,
        rhs: Expression<'src>,
    ) -> Result<Expression<'src>, OutOfMemory>
        ensures { IfOk result (λ e. view e ≡ join (option_map view lhs.entry) (token_view operator.entry)
            (view rhs.entry)) }
    {
        let (rhs, lhs) = boxed_with(alloc, rhs, lhs)?;
        Ok(Expression::Join { lhs, operator, rhs })
    }

    /// `[elements]`. The token is the bracket. It allocates nothing.
    pub fn list(elements: Vec<Expression<'src>>, token: Token<'src>) -> Expression<'src>
        ensures { view result ≡ plain.ListOf (views elements.entry.items) (token_view token.entry) }
    {
        Expression::List { elements, token }
    }

    /// `lhs ++ rhs`
    ///
    /// # Errors
    ///
    /// `OutOfMemory`, if an allocation fails: both sides are dropped.
    pub fn list_concatenation(
        alloc: Global,
        lhs: Expression<'src>,
        operator: Token<'src>,
        rhs: Expression<'src>,
    ) -> Result<Expression<'src>, OutOfMemory>
        ensures { IfOk result (λ e. view e ≡ plain.ListConcatenation (view lhs.entry) (token_view operator.entry)
            (view rhs.entry)) }
    {
        let (lhs, rhs) = boxed_pair(alloc, lhs, rhs)?;
        Ok(Expression::ListConcatenation { lhs, operator, rhs })
    }

    /// The literal that [`StringLiteral::new`] creates from a text and its written form.
    ///
    /// # Errors
    ///
    /// `OutOfMemory`, if the text cannot be copied: nothing is created.
    pub fn literal(
        alloc: Global,
        text: &str,
        lexeme: &'src str,
    ) -> Result<Expression<'src>, OutOfMemory>
        ensures { IfOk result
            (λ e. view e
            ≡ plain.StringLiteral (record { cooked = text.now; lexeme = lexeme.now; indented = false })) }
    {
        let string_literal = StringLiteral::new(alloc, text, lexeme)?;
        Ok(Expression::StringLiteral { string_literal })
    }

    /// `!operand`
    ///
    /// # Errors
    ///
    /// `OutOfMemory`, if an allocation fails: the operand is dropped.
    pub fn not(alloc: Global, operand: Expression<'src>) -> Result<Expression<'src>, OutOfMemory>
        ensures { IfOk result (λ e. view e ≡ plain.Not (view operand.entry)) }
    {
        Ok(Expression::Not {
            operand: Box::new(alloc, operand)?,
        })
    }

    /// `lhs || rhs`
    ///
    /// # Errors
    ///
    /// `OutOfMemory`, if an allocation fails: both sides are dropped.
    pub fn or(
        alloc: Global,
        lhs: Expression<'src>,
        rhs: Expression<'src>,
    ) -> Result<Expression<'src>, OutOfMemory>
        ensures { IfOk result (λ e. view e ≡ plain.Or (view lhs.entry) (view rhs.entry)) }
    {
        let (lhs, rhs) = boxed_pair(alloc, lhs, rhs)?;
        Ok(Expression::Or { lhs, rhs })
    }

    /// The variable with this number.
    pub fn variable(name: Name<'src>, number: Number) -> Expression<'src>
        ensures { view result ≡ plain.Variable (name_view name.entry) (Some number) }
    {
        Expression::Variable {
            name,
            number: Some(number),
        }
    }
}

// Boxes two parts. They are generic, so that a failing allocation needs no code that drops an expression.
fn boxed_pair<T: Drop>(alloc: Global, first: T, second: T) -> Result<(Box<T>, Box<T>), OutOfMemory>
    ensures first { IfOk result (λ boxed. boxed.0.value ≡ first) }
    ensures second { IfOk result (λ boxed. boxed.1.value ≡ second) }
{
    let first = Box::new(alloc, first)?;
    Ok((first, Box::new(alloc, second)?))
}

// Boxes a part, and one that may be left out.
fn boxed_with<T: Drop>(
    alloc: Global,
    part: T,
    option: Option<T>,
) -> Result<(Box<T>, Option<Box<T>>), OutOfMemory>
    ensures part { IfOk result (λ boxed. boxed.0.value ≡ part) }
    ensures option { IfOk result (λ boxed. option_map (λ b. b.value) boxed.1 ≡ option) }
{
    let part = Box::new(alloc, part)?;
    match option {
        Some(option) => Ok((part, Some(Box::new(alloc, option)?))),
        None => Ok((part, None)),
    }
}

// Boxes a condition and its branches.
fn boxed_branches<T: Drop>(
    alloc: Global,
    condition: T,
    consequence: T,
    otherwise: Option<T>,
) -> Result<(Box<T>, (Box<T>, Option<Box<T>>)), OutOfMemory>
    ensures condition { IfOk result (λ boxed. boxed.0.value ≡ condition) }
    ensures consequence { IfOk result (λ boxed. boxed.1.0.value ≡ consequence) }
    ensures otherwise { IfOk result (λ boxed. option_map (λ b. b.value) boxed.1.1 ≡ otherwise) }
{
    let condition = Box::new(alloc, condition)?;
    Ok((condition, boxed_with(alloc, consequence, otherwise)?))
}
