// The texts of two lists, combined one by one.

ghost use Rattle.std.specs.Prelude.{IfOk, OnOk, length, map, ◌++◌, ◌≡◌};
ghost use Rattle.just_value.specs.Prelude.{UnlessStopped, combined, ended, paired, token_view};

use crate::error::Error;
use crate::value::{Value, copied};
use just_syntax::list_operator::ListOperator;
use just_syntax::out_of_memory::OutOfMemory;
use just_syntax::text::Text;
use just_syntax::token::Token;
use std::alloc::Global;

// The texts of both lists, combined.
pub(crate) fn combine<'src>(
    alloc: Global,
    a: &[Text],
    b: &[Text],
    operator: ListOperator,
    token: Token<'src>,
) -> Result<Value, Error<'src>>
    ensures { UnlessStopped (ended (λ v. v) result)
        (combined a.now operator b.now (token_view token.entry)) }
{
    let separator = operator.separator();
    match (a.len(), b.len()) {
        (1, 1..) => {
            let texts = after(alloc, &a[0], separator, b)?;
            Ok(Value::from_elements(texts))
        }
        (1.., 1) => {
            let texts = before(alloc, a, separator, &b[0])?;
            Ok(Value::from_elements(texts))
        }
        (m, n) if m == n => {
            let texts = in_pairs(alloc, a, separator, b)?;
            Ok(Value::from_elements(texts))
        }
        _ => Err(Error::ListOperation {
            lhs: copied(alloc, a)?,
            operator,
            rhs: copied(alloc, b)?,
            token,
        }),
    }
}

// Two texts with a third between them.
fn joined(alloc: Global, x: &str, separator: &str, y: &str) -> Result<Text, OutOfMemory>
    ensures { IfOk result (λ text. text ≡ (x.now ++ separator.now) ++ y.now) }
{
    let size = x
        .len()
        .saturating_add(separator.len())
        .saturating_add(y.len());
    let mut text = Text::with_capacity(alloc, size)?;
    text.push_str(alloc, x)?;
    text.push_str(alloc, separator)?;
    text.push_str(alloc, y)?;
    Ok(text)
}

// x followed by each of the texts.
fn after(alloc: Global, x: &str, separator: &str, ys: &[Text]) -> Result<Vec<Text>, OutOfMemory>
    ensures { IfOk result (λ v. v.items ≡ map (λ y. (x.now ++ separator.now) ++ y) ys.now) }
{
    let mut all = Vec::with_capacity(alloc, ys.len())?;
    for y in ys {
        all.push(joined(alloc, x, separator, y)?)?;
    }
    Ok(all)
}

// Each of the texts followed by y.
fn before(alloc: Global, xs: &[Text], separator: &str, y: &str) -> Result<Vec<Text>, OutOfMemory>
    ensures { IfOk result (λ v. v.items ≡ map (λ x. (x ++ separator.now) ++ y.now) xs.now) }
{
    let mut all = Vec::with_capacity(alloc, xs.len())?;
    for x in xs {
        all.push(joined(alloc, x, separator, y)?)?;
    }
    Ok(all)
}

// The texts, paired.
fn in_pairs(
    alloc: Global,
    xs: &[Text],
    separator: &str,
    ys: &[Text],
) -> Result<Vec<Text>, OutOfMemory>
    requires { length xs.now ≡ length ys.now }
    ensures { IfOk result (λ v. v.items ≡ paired separator.now xs.now ys.now) }
{
    let mut all = Vec::with_capacity(alloc, xs.len())?;
    for i in 0..xs.len() {
        all.push(joined(alloc, &xs[i], separator, &ys[i])?)?;
    }
    Ok(all)
}

// Appends the separator and y to a text.
fn extend(alloc: Global, text: &mut Text, separator: &str, y: &str) -> Result<(), OutOfMemory>
    ensures { OnOk result (text.new ≡ (text.old ++ separator.now) ++ y.now) }
{
    text.push_str(alloc, separator)?;
    text.push_str(alloc, y)?;
    Ok(())
}

// Each of the texts followed by y, in place.
pub(crate) fn all_extended(
    alloc: Global,
    mut xs: Vec<Text>,
    separator: &str,
    y: &str,
) -> Result<Vec<Text>, OutOfMemory>
    ensures { IfOk result (λ v. v.items ≡ map (λ x. (x ++ separator.now) ++ y.now) xs.items) }
{
    for i in 0..xs.len() {
        extend(alloc, &mut xs[i], separator, y)?;
    }
    Ok(xs)
}

// The texts, paired, in place.
pub(crate) fn pairs_extended(
    alloc: Global,
    mut xs: Vec<Text>,
    separator: &str,
    ys: &[Text],
) -> Result<Vec<Text>, OutOfMemory>
    requires { length xs.items ≡ length ys.now }
    ensures { IfOk result (λ v. v.items ≡ paired separator.now xs.items ys.now) }
{
    for i in 0..xs.len() {
        extend(alloc, &mut xs[i], separator, &ys[i])?;
    }
    Ok(xs)
}
