// How many arguments a parameter takes.

ghost use Rattle.std.specs.Prelude.{◌≡◌};
ghost use Rattle.just_syntax.specs.Prelude.{is_variadic};

/// How many arguments a parameter takes.
#[derive(Clone, Copy, Debug, PartialEq, Eq)]
pub enum ParameterKind {
    /// `name`: one.
    Singular,
    /// `+name`: one or more.
    Plus,
    /// `*name`: any number.
    Star,
}

impl ParameterKind {
    /// Whether it takes more than one argument. Upstream's `ParameterKind::is_variadic`.
    pub fn is_variadic(self) -> bool
        ensures { result ≡ is_variadic self }
    {
        matches!(self, ParameterKind::Plus | ParameterKind::Star)
    }
}
