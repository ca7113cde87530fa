// How forms combine the values of their parts.

ghost use Rattle.std.specs.Prelude.{IfOk, [], string_bytes, ◌++◌, ◌∷◌, ◌≡◌};
ghost use Rattle.just_expression.specs.Prelude.{Gave, UnlessStopped, asserted, compared, ended, from_condition};
ghost use Rattle.just_expression.specs.Prelude.{is_regex, literal_view, token_view, unindented_if};
ghost use Rattle.just_value.specs.Applied.{combined};
ghost use Rattle.just_value.specs.Value.{is_same};

use just_syntax::conditional_operator::ConditionalOperator;
use just_syntax::list_operator::ListOperator;
use just_syntax::out_of_memory::OutOfMemory;
use just_syntax::string_literal::StringLiteral;
use just_syntax::text::Text;
use just_syntax::token::Token;
use just_syntax::unindent;
use just_value::error::Error;
use just_value::value::Value;
use std::alloc::Global;

/// The elements of both. Those of the second are moved to the end of the first.
pub fn extended(first: Value, second: Value) -> Result<Value, OutOfMemory>
    ensures { IfOk result (λ v. v ≡ first ++ second) }
{
    let mut elements = first.into_elements();
    let mut others = second.into_elements();
    elements.append(&mut others)?;
    Ok(Value::from_elements(elements))
}

/// Whether an operator takes a regular expression.
pub fn is_regex(operator: ConditionalOperator) -> bool
    ensures { result ≡ is_regex operator }
{
    match operator {
        ConditionalOperator::RegexMatch | ConditionalOperator::RegexMismatch => true,
        ConditionalOperator::Equality | ConditionalOperator::Inequality => false,
    }
}

/// The value of a comparison of two values. It is not inlined, so that a form's frame is small.
#[inline(never)]
pub fn compared<'src>(
    alloc: Global,
    operator: ConditionalOperator,
    left: &[Text],
    right: &[Text],
) -> Result<Value, Error<'src>>
    ensures { UnlessStopped (ended (λ v. v) result)
        (Gave (compared operator left.now right.now)) }
{
    Ok(Value::from_bool(alloc, compares(operator, left, right))?)
}

// Whether two values are equal, or differ, as the operator asks.
fn compares(operator: ConditionalOperator, left: &[Text], right: &[Text]) -> bool
    ensures { from_condition result ≡ compared operator left.now right.now }
{
    match operator {
        ConditionalOperator::Inequality => !are_same(left, right),
        _ => are_same(left, right),
    }
}

/// A value and other texts, combined by a list operator. It is not inlined, so that a form's frame is small.
#[inline(never)]
pub fn applied<'src>(
    alloc: Global,
    left: Value,
    operator: ListOperator,
    texts: &[Text],
    token: &Token<'src>,
) -> Result<Value, Error<'src>>
    ensures { UnlessStopped (ended (λ v. v) result)
        (combined left operator texts.now (token_view token.now)) }
{
    left.into_applied(alloc, texts, operator, *token)
}

// Whether two values have the same texts, in the same order.
fn are_same(left: &[Text], right: &[Text]) -> bool
    ensures { result ≡ is_same left.now right.now }
{
    *left == *right
}

/// The value of an assertion that holds: the condition's value with lists, one empty text without.
pub fn asserted(alloc: Global, lists: bool, value: Value) -> Result<Value, OutOfMemory>
    ensures { IfOk result (λ v. v ≡ asserted lists value) }
{
    if lists { Ok(value) } else { empty_text(alloc) }
}

/// One empty text. Out of line, to keep its frame out of a form's.
#[inline(never)]
pub fn empty_text(alloc: Global) -> Result<Value, OutOfMemory>
    ensures { IfOk result (λ v. v ≡ [] ∷ []) }
{
    Value::from_text(alloc, "")
}

/// A format string's text, unindented if its start is indented.
pub fn formatted(alloc: Global, indented: bool, text: String) -> Result<String, OutOfMemory>
    ensures { IfOk result (λ t. string_bytes t ≡ unindented_if indented (string_bytes text)) }
{
    if indented {
        unindent(alloc, &text)
    } else {
        Ok(text)
    }
}

/// The value of a string literal. Out of line, to keep its frame out of every form's.
#[inline(never)]
pub fn string_literal<'src>(
    alloc: Global,
    literal: &StringLiteral<'src>,
) -> Result<Value, Error<'src>>
    ensures { UnlessStopped (ended (λ v. v) result) (Gave ((literal_view literal.now).cooked ∷ [])) }
{
    Ok(Value::from_text(alloc, &literal.cooked)?)
}
