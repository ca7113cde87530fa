// Other names of recipes.

use just_syntax::keyed::Keyed;
use just_syntax::name::Name;

/// Another name of a recipe. Upstream's `Alias`.
#[derive(Debug, Drop)]
pub struct Alias<'src> {
    pub name: Name<'src>,
    pub target: Name<'src>,
}

impl Keyed for Alias<'_> {
    ghost key_text = { λ alias. alias.name.token.lexeme.now };

    fn key(&self) -> &str {
        self.name.lexeme()
    }
}
