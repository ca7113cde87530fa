// Bodies of recipes.

ghost use Rattle.std.specs.Prelude.{IfErr, IfOk, OnOk, [], map, take, ◌≡◌};
ghost use Rattle.just_syntax.specs.Plain.{Token};
ghost use Rattle.just_syntax.specs.View.{fragment_view, line_view, view};
ghost use Rattle.just_expression_parser.specs.Tokens.{is_at};
ghost use Rattle.just_lexer.specs.declared.kind.TokenKind.TheVariants as kinds;
ghost use Rattle.just_parser.specs.Parsed.{IsPhraseRefused, unread};
ghost use Rattle.just_parser.specs.Phrase.{Read, many, one, prepended};
ghost use Rattle.just_parser.specs.Recipes.{blank, body, fragments, indented_lines, is_after_blanks, line_fragment};
ghost use Rattle.just_parser.specs.Recipes.{is_after_fragments, recipe_line};
ghost use Rattle.just_parser.specs.Recipes.{interpolated, trimmed};

use crate::outcome::pushed;
use crate::parse_error::ParseError;
use crate::parser::Parser;
use just_lexer::kind::TokenKind;
use just_syntax::expression::Expression;
use just_syntax::fragment::Fragment;
use just_syntax::line::Line;
use just_syntax::results::followed;

impl<'src> Parser<'_, 'src> {
    /// After empty lines, the body of a recipe, if it has one.
    #[tactic(auto, unfolding(crate::specs::Recipes::body))]
    pub(crate) fn body(&mut self, into: &mut Vec<Line<'src>>) -> Result<(), ParseError<'src>>
        requires { into.old.items ≡ [] }
        ensures ok { OnOk result (body (unread self.old) ≡ Read (map line_view into.new.items) (unread self.new)) }
        ensures refused { IfErr result (IsPhraseRefused (body (unread self.old))) }
    {
        self.blanks()?;
        if !self.cursor.is_at(0, TokenKind::Indent) {
            return Ok(());
        }
        self.indented(into)
    }

    // Empty lines.
    fn blanks(&mut self) -> Result<(), ParseError<'src>>
        ensures ok { OnOk result (many is_after_blanks blank (unread self.old) ≡ Read [] (unread self.new)) }
        ensures refused { IfErr result (IsPhraseRefused (many is_after_blanks blank (unread self.old))) }
    {
        for _ in 0..self.cursor.rest().len() {
            if self.is_after_blanks() {
                return Ok(());
            }
            self.blank()?;
        }
        Ok(())
    }

    // Whether no empty line comes.
    fn is_after_blanks(&self) -> bool
        ensures { result ≡ is_after_blanks (unread self.now) }
    {
        !self.cursor.is_at(0, TokenKind::Eol)
    }

    // The end of an empty line.
    #[tactic(auto, unfolding(crate::specs::Recipes::blank))]
    fn blank(&mut self) -> Result<(), ParseError<'src>>
        ensures ok { OnOk result (blank (unread self.old) ≡ Read [] (unread self.new)) }
        ensures refused { IfErr result (IsPhraseRefused (blank (unread self.old))) }
    {
        self.one(TokenKind::Eol)?;
        Ok(())
    }

    // The indented lines.
    #[tactic(auto, unfolding(crate::specs::Recipes::indented_lines))]
    fn indented(&mut self, into: &mut Vec<Line<'src>>) -> Result<(), ParseError<'src>>
        requires { into.old.items ≡ [] }
        ensures ok { OnOk result
            (indented_lines (unread self.old) ≡ Read (map line_view into.new.items) (unread self.new)) }
        ensures refused { IfErr result (IsPhraseRefused (indented_lines (unread self.old))) }
    {
        self.one(TokenKind::Indent)?;
        self.body_lines(into)?;
        self.one(TokenKind::Dedent)?;
        trim(into);
        Ok(())
    }

    // Lines, after others, up to the end of the body.
    fn body_lines(&mut self, into: &mut Vec<Line<'src>>) -> Result<(), ParseError<'src>>
        ensures ok { OnOk result (prepended (map line_view into.old.items)
            (many (is_at 0 kinds.Dedent) recipe_line (unread self.old))
            ≡ Read (map line_view into.new.items) (unread self.new)) }
        ensures refused { IfErr result (IsPhraseRefused (many (is_at 0 kinds.Dedent) recipe_line (unread self.old))) }
    {
        for _ in 0..self.cursor.rest().len() {
            if self.cursor.is_at(0, TokenKind::Dedent) {
                return Ok(());
            }
            self.body_line(into)?;
        }
        Ok(())
    }

    // A line, after others.
    #[tactic(auto, unfolding(crate::specs::Recipes::recipe_line))]
    fn body_line(&mut self, into: &mut Vec<Line<'src>>) -> Result<(), ParseError<'src>>
        ensures ok { OnOk result (prepended (map line_view into.old.items) (recipe_line (unread self.old))
            ≡ Read (map line_view into.new.items) (unread self.new)) }
        ensures refused { IfErr result (IsPhraseRefused (recipe_line (unread self.old))) }
    {
        let mut fragments = Vec::new(self.alloc);
        let filled = self.fragments(&mut fragments);
        match followed(fragments, filled) {
            Ok(fragments) => pushed(into, Line { fragments }),
            Err(refusal) => Err(refusal),
        }
    }

    // The fragments of a line, and its end.
    #[tactic(auto, unfolding(crate::specs::Recipes::fragments))]
    fn fragments(&mut self, into: &mut Vec<Fragment<'src>>) -> Result<(), ParseError<'src>>
        ensures ok { OnOk result (prepended (map fragment_view into.old.items) (fragments (unread self.old))
            ≡ Read (map fragment_view into.new.items) (unread self.new)) }
        ensures refused { IfErr result (IsPhraseRefused (fragments (unread self.old))) }
    {
        self.each_fragment(into)?;
        self.accepted(TokenKind::Eol)?;
        Ok(())
    }

    // Fragments, after others, up to the end of the line.
    fn each_fragment(&mut self, into: &mut Vec<Fragment<'src>>) -> Result<(), ParseError<'src>>
        ensures ok { OnOk result (prepended (map fragment_view into.old.items)
            (many is_after_fragments line_fragment (unread self.old))
            ≡ Read (map fragment_view into.new.items) (unread self.new)) }
        ensures refused { IfErr result (IsPhraseRefused (many is_after_fragments line_fragment (unread self.old))) }
    {
        for _ in 0..self.cursor.rest().len() {
            if self.is_after_fragments() {
                return Ok(());
            }
            self.fragment(into)?;
        }
        Ok(())
    }

    // Whether the line or the body ends.
    fn is_after_fragments(&self) -> bool
        ensures { result ≡ is_after_fragments (unread self.now) }
    {
        self.cursor.is_at(0, TokenKind::Eol) || self.cursor.is_at(0, TokenKind::Dedent)
    }

    // Text, or an interpolation, after other fragments.
    #[tactic(auto, unfolding(crate::specs::Recipes::line_fragment))]
    fn fragment(&mut self, into: &mut Vec<Fragment<'src>>) -> Result<(), ParseError<'src>>
        ensures ok { OnOk result (prepended (map fragment_view into.old.items) (line_fragment (unread self.old))
            ≡ Read (map fragment_view into.new.items) (unread self.new)) }
        ensures refused { IfErr result (IsPhraseRefused (line_fragment (unread self.old))) }
    {
        if self.cursor.is_at(0, TokenKind::Text) {
            let token = self.one(TokenKind::Text)?;
            return pushed(into, Fragment::Text { token });
        }
        self.one(TokenKind::InterpolationStart)?;
        match self.interpolated() {
            Ok(expression) => pushed(into, Fragment::Interpolation { expression }),
            Err(refusal) => Err(refusal),
        }
    }

    // An expression, and the end of its interpolation.
    #[tactic(auto, unfolding(crate::specs::Recipes::interpolated))]
    fn interpolated(&mut self) -> Result<Expression<'src>, ParseError<'src>>
        ensures ok { IfOk result (λ e. interpolated (unread self.old) ≡ Read (view e) (unread self.new)) }
        ensures refused { IfErr result (IsPhraseRefused (interpolated (unread self.old))) }
    {
        match self.expression() {
            Ok(expression) => followed(expression, self.interpolation_end()),
            Err(refusal) => Err(refusal),
        }
    }

    // The end of an interpolation.
    fn interpolation_end(&mut self) -> Result<(), ParseError<'src>>
        ensures ok { OnOk result
            ((t : Token) × (one kinds.InterpolationEnd (unread self.old) ≡ Read t (unread self.new))) }
        ensures refused { IfErr result (IsPhraseRefused (one kinds.InterpolationEnd (unread self.old))) }
    {
        match self.one(TokenKind::InterpolationEnd) {
            Ok(_) => Ok(()),
            Err(refusal) => Err(refusal),
        }
    }
}

// Drops the empty lines at the end.
fn trim(lines: &mut Vec<Line>)
    ensures { map line_view lines.new.items ≡ trimmed (map line_view lines.old.items) }
{
    let kept = kept(lines);
    lines.truncate(kept);
}

// The number of lines up to the last one that is not empty.
fn kept(lines: &[Line]) -> usize
    ensures { map line_view (take result lines.now) ≡ trimmed (map line_view lines.now) }
{
    let mut kept = 0;
    for index in 0..lines.len() {
        if !lines[index].fragments.is_empty() {
            kept = index + 1;
        }
    }
    kept
}
