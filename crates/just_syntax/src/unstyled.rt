// Text that a formatter's options do not affect.

ghost use Rattle.std.specs.Fmt.{DisplaysOnOk, DisplaysStyledOnOk};

use std::fmt;
use std::fmt::{Display, Write};

// A formatter as a writer: it writes text regardless of the formatter's options.
#[derive(Drop)]
struct Unstyled<'f, W> {
    inner: &'f mut fmt::Formatter<W>,
}

impl<W: fmt::Write> fmt::Write for Unstyled<'_, W> {
    ghost use Rattle.std.specs.Prelude.{◌≡◌};
    ghost use Rattle.std.specs.Fmt.{HasWrittenStyled, IsFlush};

    ghost write_str_gives = { λ s bs t. (t.inner.ghost_name ≡ s.inner.ghost_name)
        × (IsFlush s.inner.now → HasWrittenStyled W.write_str_gives s.inner.now bs t.inner.now) };

    fn write_str(&mut self, s: &str) -> fmt::Result {
        self.inner.write_str(s)
    }
}

/// Writes a value as `{}` does, regardless of the formatter's options. `write!` does so too, but promises it only for a
/// formatter without options.
///
/// # Errors
///
/// `fmt::Error`, if the value or the writer fails.
pub fn write_unstyled<W: fmt::Write, D: Display + Drop>(
    f: &mut fmt::Formatter<W>,
    value: D,
) -> fmt::Result
    ensures writes { DisplaysOnOk W.write_str_gives f.old result (D.output value) f.new }
    ensures styled { DisplaysStyledOnOk W.write_str_gives f.old result (D.output value) f.new }
{
    let mut unstyled = Unstyled { inner: f };
    let result = unstyled.write(value);
    let Unstyled { inner } = unstyled;
    // No effect at run time. This use of `inner` fixes what `f` holds once the loan ends.
    let _ = &*inner;
    result
}
