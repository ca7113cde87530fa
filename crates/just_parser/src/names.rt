// Items of names alone.

ghost use Rattle.std.specs.Prelude.{IfErr, IfOk, ◌≡◌};
ghost use Rattle.just_syntax.specs.View.{name_view};
ghost use Rattle.just_lexer.specs.declared.kind.TokenKind.TheVariants.{Identifier};
ghost use Rattle.just_parser.specs.Items.{alias, unexport};
ghost use Rattle.just_parser.specs.Parsed.{IsPhraseRefused, unread};
ghost use Rattle.just_parser.specs.Phrase.{Read, in_line, one};
ghost use Rattle.just_parser.specs.View.{item_view};

use crate::item::Item;
use crate::parse_error::ParseError;
use crate::parser::Parser;
use just_lexer::kind::TokenKind;
use just_syntax::name::Name;

impl<'src> Parser<'_, 'src> {
    /// `alias NAME := TARGET`.
    #[tactic(auto, unfolding(crate::specs::Items::alias))]
    pub(crate) fn alias(&mut self) -> Result<Item<'src>, ParseError<'src>>
        ensures ok { IfOk result (λ i. alias (unread self.old) ≡ Read (item_view i) (unread self.new)) }
        ensures refused { IfErr result (IsPhraseRefused (alias (unread self.old))) }
    {
        self.name()?;
        let name = self.name()?;
        self.one(TokenKind::ColonEquals)?;
        let target = self.name_in_line()?;
        Ok(Item::Alias { name, target })
    }

    /// `unexport NAME`.
    #[tactic(auto, unfolding(crate::specs::Items::unexport))]
    pub(crate) fn unexport(&mut self) -> Result<Item<'src>, ParseError<'src>>
        ensures ok { IfOk result (λ i. unexport (unread self.old) ≡ Read (item_view i) (unread self.new)) }
        ensures refused { IfErr result (IsPhraseRefused (unexport (unread self.old))) }
    {
        self.name()?;
        let name = self.name_in_line()?;
        Ok(Item::Unexport { name })
    }

    // A name, and the end of its line.
    fn name_in_line(&mut self) -> Result<Name<'src>, ParseError<'src>>
        ensures ok { IfOk result
            (λ n. in_line (one Identifier) (unread self.old) ≡ Read (name_view n) (unread self.new)) }
        ensures refused { IfErr result (IsPhraseRefused (in_line (one Identifier) (unread self.old))) }
    {
        let name = self.name()?;
        self.line_end()?;
        Ok(name)
    }
}
