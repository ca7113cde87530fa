// Items, one after another.

ghost use Rattle.std.specs.Prelude.{IfErr, IfOk, OnOk, map, ◌≡◌};
ghost use Rattle.just_expression_parser.specs.Tokens.{is_at};
ghost use Rattle.just_lexer.specs.declared.kind.TokenKind.TheVariants as kinds;
ghost use Rattle.std.specs.List.{list_any};
ghost use Rattle.just_parser.specs.Attributes.{is_private};
ghost use Rattle.just_parser.specs.Items.{after_keyword, assignment_item, item, item_after, item_line, item_of, items};
ghost use Rattle.just_parser.specs.Parsed.{IsPhraseRefused, unread};
ghost use Rattle.just_parser.specs.Phrase.{Read, many, one, prepended};
ghost use Rattle.just_syntax.specs.Plain.{Token};
ghost use Rattle.just_parser.specs.View.{item_view, written_view};

use crate::item::Item;
use crate::outcome::pushed;
use crate::parse_error::{Fault, ParseError};
use crate::parser::Parser;
use crate::start::{Start, start_of_item};
use crate::written_attribute::WrittenAttribute;
use just_lexer::kind::TokenKind;
use just_syntax::results::followed;

impl<'src> Parser<'_, 'src> {
    /// The items of a file, up to its end. A byte order mark may come first.
    #[tactic(auto, unfolding(crate::specs::Items::items))]
    pub(crate) fn items(&mut self) -> Result<Vec<Item<'src>>, ParseError<'src>>
        ensures ok { IfOk result (λ all. items (unread self.old) ≡ Read (map item_view all.items) (unread self.new)) }
        ensures refused { IfErr result (IsPhraseRefused (items (unread self.old))) }
    {
        self.accepted(TokenKind::ByteOrderMark)?;
        let mut all = Vec::new(self.alloc);
        let filled = self.lines(&mut all);
        match followed(all, filled) {
            Ok(all) => followed(all, self.file_end()),
            Err(refusal) => Err(refusal),
        }
    }

    // The end of the file.
    fn file_end(&mut self) -> Result<(), ParseError<'src>>
        ensures ok { OnOk result ((end : Token) × (one kinds.Eof (unread self.old) ≡ Read end (unread self.new))) }
        ensures refused { IfErr result (IsPhraseRefused (one kinds.Eof (unread self.old))) }
    {
        match self.one(TokenKind::Eof) {
            Ok(_) => Ok(()),
            Err(refusal) => Err(refusal),
        }
    }

    // Items and empty lines, up to the end of the file.
    fn lines(&mut self, into: &mut Vec<Item<'src>>) -> Result<(), ParseError<'src>>
        ensures ok { OnOk result (prepended (map item_view into.old.items)
            (many (is_at 0 kinds.Eof) item_line (unread self.old))
            ≡ Read (map item_view into.new.items) (unread self.new)) }
        ensures refused { IfErr result (IsPhraseRefused (many (is_at 0 kinds.Eof) item_line (unread self.old))) }
    {
        for _ in 0..self.cursor.rest().len() {
            if self.cursor.is_at(0, TokenKind::Eof) {
                return Ok(());
            }
            self.line(into)?;
        }
        Ok(())
    }

    // An item, or an empty line.
    #[tactic(auto, unfolding(crate::specs::Items::item_line))]
    fn line(&mut self, into: &mut Vec<Item<'src>>) -> Result<(), ParseError<'src>>
        ensures ok { OnOk result (prepended (map item_view into.old.items) (item_line (unread self.old))
            ≡ Read (map item_view into.new.items) (unread self.new)) }
        ensures refused { IfErr result (IsPhraseRefused (item_line (unread self.old))) }
    {
        if self.cursor.is_at(0, TokenKind::Eol) {
            self.one(TokenKind::Eol)?;
            return Ok(());
        }
        match self.item() {
            Ok(item) => pushed(into, item),
            Err(refusal) => Err(refusal),
        }
    }

    // Attributes and an item.
    #[tactic(auto, unfolding(crate::specs::Items::item))]
    fn item(&mut self) -> Result<Item<'src>, ParseError<'src>>
        ensures ok { IfOk result (λ i. item (unread self.old) ≡ Read (item_view i) (unread self.new)) }
        ensures refused { IfErr result (IsPhraseRefused (item (unread self.old))) }
    {
        let mut attributes = Vec::new(self.alloc);
        let filled = self.attributes(&mut attributes);
        match followed(attributes, filled) {
            Ok(mut attributes) => {
                let item = self.item_after(&mut attributes);
                drop(attributes);
                item
            }
            Err(refusal) => Err(refusal),
        }
    }

    // An item after these attributes, if it takes them.
    #[tactic(auto, unfolding(crate::specs::Items::item_after))]
    fn item_after(
        &mut self,
        attributes: &mut Vec<WrittenAttribute<'src>>,
    ) -> Result<Item<'src>, ParseError<'src>>
        ensures ok { IfOk result (λ i. item_after (map written_view attributes.old.items) (unread self.old)
            ≡ Read (item_view i) (unread self.new)) }
        ensures refused { IfErr result
            (IsPhraseRefused (item_after (map written_view attributes.old.items) (unread self.old))) }
    {
        let start = start_of_item(&self.cursor);
        if !attributes.is_empty() && !start.takes_attributes() {
            return Err(self.unexpected(Fault::ExtraneousAttributes));
        }
        self.item_of(attributes, start)
    }

    // An item that begins so, after these attributes.
    #[tactic(auto, unfolding(crate::specs::Items::item_of))]
    fn item_of(
        &mut self,
        attributes: &mut Vec<WrittenAttribute<'src>>,
        start: Start,
    ) -> Result<Item<'src>, ParseError<'src>>
        ensures ok { IfOk result (λ i. item_of (map written_view attributes.old.items) start (unread self.old)
            ≡ Read (item_view i) (unread self.new)) }
        ensures refused { IfErr result
            (IsPhraseRefused (item_of (map written_view attributes.old.items) start (unread self.old))) }
    {
        let private = are_private(attributes);
        match start {
            Start::Alias => self.alias(),
            Start::Assignment => self.assigned(private, false, false),
            Start::Eager => self.assigned_after_keyword(private, true, false),
            Start::Export => self.assigned_after_keyword(private, false, true),
            Start::Function => self.function().map(Item::Function),
            Start::Other => Err(self.unexpected(Fault::ExpectedItem)),
            Start::Recipe => self.recipe(attributes).map(Item::Recipe),
            Start::Set => self.set().map(Item::Set),
            Start::Unexport => self.unexport(),
            Start::Unsupported => Err(self.unexpected(Fault::Unsupported)),
        }
    }

    // A keyword and an assignment.
    fn assigned_after_keyword(
        &mut self,
        private: bool,
        eager: bool,
        export: bool,
    ) -> Result<Item<'src>, ParseError<'src>>
        ensures ok { IfOk result (λ i. after_keyword (assignment_item private eager export) (unread self.old)
            ≡ Read (item_view i) (unread self.new)) }
        ensures refused { IfErr result
            (IsPhraseRefused (after_keyword (assignment_item private eager export) (unread self.old))) }
    {
        self.name()?;
        self.assigned(private, eager, export)
    }

    // An assignment, as an item.
    fn assigned(
        &mut self,
        private: bool,
        eager: bool,
        export: bool,
    ) -> Result<Item<'src>, ParseError<'src>>
        ensures ok { IfOk result
            (λ i. assignment_item private eager export (unread self.old) ≡ Read (item_view i) (unread self.new)) }
        ensures refused { IfErr result (IsPhraseRefused (assignment_item private eager export (unread self.old))) }
    {
        self.assignment(private, eager, export)
            .map(Item::Assignment)
    }
}

// Whether one of these attributes is `private`.
fn are_private(attributes: &[WrittenAttribute]) -> bool
    ensures { result ≡ list_any (λ a. is_private (written_view a)) attributes.now }
{
    attributes.iter().any(|attribute| is_private(attribute))
}

// Whether an attribute is `private`.
fn is_private(attribute: &WrittenAttribute) -> bool
    ensures { result ≡ is_private (written_view attribute.now) }
{
    attribute.name.lexeme() == "private"
}
