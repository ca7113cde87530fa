// Copies of expressions, in which each variable has the number of its name.

ghost use Rattle.std.specs.Prelude.{IfOk, ◌≡◌};
ghost use Rattle.just_resolve.specs.Prelude.{name_number, numbered_expression, view};

use crate::names::Names;
use just_syntax::expression::Expression;
use just_syntax::number::Number;
use just_syntax::numbers::Numbers;
use just_syntax::out_of_memory::OutOfMemory;

// A variable has the number of its name.
impl Numbers for Names<'_> {
    ghost number_of = { λ names name number. name_number names name };

    fn number(&self, name: &str, _: Option<Number>) -> Option<Number> {
        self.get(name)
    }
}

/// A copy of an expression in which each variable has the number that its name has. The numbers that it had before do
/// not matter. A name that has none leaves its variable without a number.
///
/// `resolve` does this for the assignments and the functions of a module. This call is for the expressions of its
/// recipes and its settings, which are not in the module: for a recipe with its parameters' names set, as in
///
/// ```rust
/// let mut names = Names::of(alloc, &module, &outer)?;
/// names.set_parameters(&parameters)?;
/// let line = numbered(&line, &names)?;
/// ```
///
/// # Errors
///
/// `OutOfMemory`, if an allocation fails, or if the expression has more than 4,915 levels: the copy of a deeper one
/// does not fit on a stack of 8 MiB. Nothing is created.
pub fn numbered<'src>(
    expression: &Expression<'src>,
    names: &Names<'src>,
) -> Result<Expression<'src>, OutOfMemory>
    ensures { IfOk result (λ e. view e ≡ numbered_expression (name_number names.now) (view expression.now)) }
{
    Ok(expression.with_numbers(names)?)
}
