// Elements of lists and calls, and contents of groups.

ghost use Rattle.std.specs.Prelude.{List, [], map, ◌++◌, ◌∷◌, ◌≡◌};
ghost use Rattle.just_syntax.specs.Plain.{Expr};
ghost use Rattle.just_syntax.specs.View.{view};
ghost use Rattle.just_expression_parser.specs.Machine as machine;
ghost use Rattle.just_expression_parser.specs.Parsed.{GoesOn, form_view, goes};

use crate::frame::{Elements, Frame, State};
use crate::machine::{Machine, done};
use crate::operator::OR;
use crate::outcome::{allocated, with_item};
use crate::parse_error::ParseError;
use just_lexer::kind::TokenKind;
use just_syntax::expression::Expression;
use just_syntax::results::followed;

impl<'src> Machine<'_, 'src> {
    /// An element, or the end of the elements.
    pub(crate) fn elements(
        &mut self,
        form: Elements<'src>,
        elements: Vec<Expression<'src>>,
    ) -> Result<State<'src>, ParseError<'src>>
        ensures { GoesOn (goes self.old (machine.Elements (form_view form.entry) (map view elements.entry.items)) [])
            result self.new }
    {
        match self.cursor.take(form.close()) {
            Some(_) => Ok(State::Done(form.with(elements))),
            None => self.wait(Frame::Elements { form, elements }, State::Expression(OR)),
        }
    }

    /// After an element, a comma or the end of the elements.
    pub(crate) fn after_element(
        &mut self,
        form: Elements<'src>,
        elements: Vec<Expression<'src>>,
        element: Expression<'src>,
    ) -> Result<State<'src>, ParseError<'src>>
        ensures { GoesOn (goes self.old (machine.Done (view element.entry))
            (machine.Element (form_view form.entry) (map view elements.entry.items) ∷ [])) result self.new }
    {
        match with_item(elements, element) {
            Ok(elements) => self.more_elements(form, elements),
            Err(refusal) => Err(refusal),
        }
    }

    /// After elements, a comma or their end.
    pub(crate) fn more_elements(
        &mut self,
        form: Elements<'src>,
        elements: Vec<Expression<'src>>,
    ) -> Result<State<'src>, ParseError<'src>>
        ensures { (es : List Expr) (e : Expr) → map view elements.entry.items ≡ es ++ e ∷ []
            → GoesOn (goes self.old (machine.Done e) (machine.Element (form_view form.entry) es ∷ [])) result self.new }
    {
        match self.cursor.take(form.close()) {
            Some(_) => Ok(State::Done(form.with(elements))),
            None => match followed(elements, self.cursor.expect_comma(form.close())) {
                Ok(elements) => Ok(State::Elements { form, elements }),
                Err(refusal) => Err(refusal),
            },
        }
    }

    /// After the contents, the closing parenthesis.
    pub(crate) fn after_contents(
        &mut self,
        contents: Expression<'src>,
    ) -> Result<State<'src>, ParseError<'src>>
        ensures { GoesOn (goes self.old (machine.Done (view contents.entry)) (machine.Group ∷ [])) result self.new }
    {
        match followed(contents, self.cursor.expect(TokenKind::ParenR)) {
            Ok(contents) => done(allocated(Expression::group(self.alloc, contents))),
            Err(refusal) => Err(refusal),
        }
    }
}
