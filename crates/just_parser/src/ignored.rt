// Parts of attributes that evaluation ignores.

ghost use Rattle.std.specs.Prelude.{IfErr, OnOk, [], ◌≡◌};
ghost use Rattle.just_expression_parser.specs.Tokens.{is_at};
ghost use Rattle.just_lexer.specs.declared.kind.TokenKind.TheVariants as kinds;
ghost use Rattle.just_parser.specs.Attributes.{close, ignored, ignored_argument, ignored_arguments, ignored_element};
ghost use Rattle.just_parser.specs.Attributes.{ignored_value};
ghost use Rattle.just_parser.specs.Parsed.{IsPhraseRefused, unread};
ghost use Rattle.just_parser.specs.Phrase.{Read, many};

use crate::parse_error::ParseError;
use crate::parser::Parser;
use just_lexer::kind::TokenKind;

impl<'src> Parser<'_, 'src> {
    /// `: v`, or `(ARGUMENT, ..)`, or nothing.
    #[tactic(auto, unfolding(crate::specs::Attributes::ignored_arguments))]
    pub(crate) fn ignored_arguments(&mut self) -> Result<(), ParseError<'src>>
        ensures ok { OnOk result (ignored_arguments (unread self.old) ≡ Read tt (unread self.new)) }
        ensures refused { IfErr result (IsPhraseRefused (ignored_arguments (unread self.old))) }
    {
        if self.cursor.is_at(0, TokenKind::Colon) {
            self.one(TokenKind::Colon)?;
            return match self.value() {
                Ok(value) => {
                    drop(value);
                    Ok(())
                }
                Err(refusal) => Err(refusal),
            };
        }
        if !self.cursor.is_at(0, TokenKind::ParenL) {
            return Ok(());
        }
        self.one(TokenKind::ParenL)?;
        self.each_ignored()?;
        self.one(TokenKind::ParenR)?;
        Ok(())
    }

    // Arguments, up to the parenthesis.
    fn each_ignored(&mut self) -> Result<(), ParseError<'src>>
        ensures ok { OnOk result (many (is_at 0 kinds.ParenR) ignored_element (unread self.old)
            ≡ Read [] (unread self.new)) }
        ensures refused { IfErr result
            (IsPhraseRefused (many (is_at 0 kinds.ParenR) ignored_element (unread self.old))) }
    {
        for _ in 0..self.cursor.rest().len() {
            if self.cursor.is_at(0, TokenKind::ParenR) {
                return Ok(());
            }
            self.ignored_element()?;
        }
        Ok(())
    }

    // An argument, with the comma after it, if it is not the last one.
    #[tactic(auto, unfolding(crate::specs::Attributes::ignored_element))]
    fn ignored_element(&mut self) -> Result<(), ParseError<'src>>
        ensures ok { OnOk result (ignored_element (unread self.old) ≡ Read [] (unread self.new)) }
        ensures refused { IfErr result (IsPhraseRefused (ignored_element (unread self.old))) }
    {
        self.ignored_argument()?;
        self.comma_unless(TokenKind::ParenR)
    }

    // `e` or `NAME = e`.
    #[tactic(auto, unfolding(crate::specs::Attributes::ignored_argument))]
    fn ignored_argument(&mut self) -> Result<(), ParseError<'src>>
        ensures ok { OnOk result (ignored_argument (unread self.old) ≡ Read tt (unread self.new)) }
        ensures refused { IfErr result (IsPhraseRefused (ignored_argument (unread self.old))) }
    {
        if !(self.cursor.is_at(0, TokenKind::Identifier)
            && self.cursor.is_at(1, TokenKind::Equals))
        {
            return self.ignored();
        }
        self.one(TokenKind::Identifier)?;
        self.ignored_value()
    }

    /// `= e`, if it is there.
    #[tactic(auto, unfolding(crate::specs::Attributes::ignored_value))]
    pub(crate) fn ignored_value(&mut self) -> Result<(), ParseError<'src>>
        ensures ok { OnOk result (ignored_value (unread self.old) ≡ Read tt (unread self.new)) }
        ensures refused { IfErr result (IsPhraseRefused (ignored_value (unread self.old))) }
    {
        if !self.cursor.is_at(0, TokenKind::Equals) {
            return Ok(());
        }
        self.one(TokenKind::Equals)?;
        self.ignored()
    }

    // An expression.
    #[tactic(auto, unfolding(crate::specs::Attributes::ignored))]
    fn ignored(&mut self) -> Result<(), ParseError<'src>>
        ensures ok { OnOk result (ignored (unread self.old) ≡ Read tt (unread self.new)) }
        ensures refused { IfErr result (IsPhraseRefused (ignored (unread self.old))) }
    {
        match self.expression() {
            Ok(expression) => {
                drop(expression);
                Ok(())
            }
            Err(refusal) => Err(refusal),
        }
    }

    /// A comma, if it is there, and a parenthesis.
    #[tactic(auto, unfolding(crate::specs::Attributes::close))]
    pub(crate) fn close(&mut self) -> Result<(), ParseError<'src>>
        ensures ok { OnOk result (close (unread self.old) ≡ Read tt (unread self.new)) }
        ensures refused { IfErr result (IsPhraseRefused (close (unread self.old))) }
    {
        self.comma_unless(TokenKind::ParenR)?;
        self.one(TokenKind::ParenR)?;
        Ok(())
    }
}
