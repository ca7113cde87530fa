// Builds a case line by line.

ghost use Rattle.std.specs.Prelude.{IfErr, IfOk, None, OnOk, Some, false, is_some, map, option_map, true, ◌∷◌, ◌≡◌};
ghost use Rattle.just_case_reader.specs.Prelude.{Done, IfBad, Text, case_line_view, case_view, evaluation_view};
ghost use Rattle.just_case_reader.specs.Prelude.{finished, names, names_in, nothing, read, reading_view, step};
ghost use Rattle.just_case_reader.specs.Prelude.{token_of, value_at, with_value};
ghost use Rattle.just_case_reader.specs.Case as cases;
ghost use Rattle.just_case_reader.specs.Line as lines;

use crate::case::Case;
use crate::evaluation::Evaluation;
use crate::line::Line;
use crate::line_error::LineError;
use crate::numbering::Numbering;
use crate::rest::parse_names;
use crate::stack::Stack;
use crate::token;
use just_syntax::assignment::Assignment;
use just_syntax::function_definition::FunctionDefinition;
use just_syntax::keyed::Keyed;
use just_syntax::name::Name;
use just_syntax::out_of_memory::OutOfMemory;
use just_syntax::table::Table;
use just_syntax::variables::set_of;
use just_value::error::CommandFault;
use std::alloc::Global;

/// A case so far, and the state that later lines need.
#[derive(Drop)]
pub(crate) struct Builder<'src> {
    case: Case<'src>,
    is_over: bool,
    // The command of the last line that pushed a command.
    last_command: Option<&'src str>,
    numbering: Numbering<'src>,
    // The evaluation order, if a line gave one.
    order: Option<Vec<Name<'src>>>,
    stack: Stack<'src>,
}

impl<'src> Builder<'src> {
    /// The state before the first line. It has memory for what about this number of lines need.
    ///
    /// # Errors
    ///
    /// `OutOfMemory`, if an allocation fails.
    pub(crate) fn new(alloc: Global, lines: usize) -> Result<Builder<'src>, OutOfMemory>
        ensures { IfOk result (λ builder. reading_view builder ≡ nothing) }
    {
        // An assignment has two lines or more, and few cases have more names than this number.
        let names = (lines / 2).min(512);
        let numbering = Numbering::with_capacity(alloc, names)?;
        // A line pushes one expression at most, and few cases leave more than this number on the stack.
        let stack = Stack::with_capacity(alloc, lines.min(4096))?;
        Ok(Builder {
            case: Case::with_capacity(alloc, names)?,
            is_over: false,
            last_command: None,
            numbering,
            order: None,
            stack,
        })
    }

    /// The whole case, if its end was read. An order given by a line replaces that of the assignments.
    pub(crate) fn finished(self) -> Option<Case<'src>>
        ensures { option_map case_view result ≡ finished (reading_view self.entry) }
    {
        let Builder {
            mut case,
            is_over,
            order,
            ..
        } = self;
        case.evaluation_order = order.unwrap_or(case.evaluation_order);
        is_over.then_some(case)
    }

    /// Executes a line. After the end, every line that is not skipped is bad.
    pub(crate) fn take(&mut self, alloc: Global, line: &Line<'src>) -> Result<(), LineError>
        ensures { Done result (step (case_line_view line.now) (reading_view self.old)) (reading_view self.new) }
    {
        if self.is_over && !line.is_skipped() {
            return Err(LineError::Bad);
        }
        self.read(alloc, line)
    }

    // Executes a line before the end.
    fn read(&mut self, alloc: Global, line: &Line<'src>) -> Result<(), LineError>
        ensures { Done result (read (case_line_view line.now) (reading_view self.old)) (reading_view self.new) }
    {
        match line {
            Line::Skipped => Ok(()),
            Line::Bad => Err(LineError::Bad),
            Line::Literal { text, lexeme } => self.stack.literal(alloc, *text, *lexeme),
            Line::Command { text, lexeme } => self.command(alloc, *text, *lexeme),
            Line::Variable { name } => self.variable(*name),
            Line::Unary(operator) => self.stack.unary(alloc, *operator),
            Line::Binary(operator) => self.stack.binary(alloc, *operator),
            Line::If => self.stack.conditional(alloc),
            Line::List { count } => self.stack.list(alloc, usize::from(*count)),
            Line::Call { name, count } => self.stack.call(alloc, *name, usize::from(*count)),
            Line::Assign { name, export } => self.assign(*name, *export),
            Line::Function { names } => self.function(alloc, *names),
            Line::Override { name, text } => self.override_with(alloc, *name, *text),
            Line::Dotenv { name, text } => self.dotenv(alloc, *name, *text),
            Line::Order { names } => self.order(alloc, *names),
            Line::Only { names } => self.only(alloc, *names),
            Line::Reply { text } => self.reply(alloc, *text),
            Line::Fail { code } => self.fail(*code),
            Line::Always { text } => self.always(alloc, *text),
            Line::Lists => self.lists(),
            Line::Dry => self.dry_run(),
            Line::Limit { limit } => self.limit(usize::from(*limit)),
            Line::Run => self.end(Evaluation::Run),
            Line::Const => self.end(Evaluation::Const),
            Line::Blocks { names } => self.blocks(alloc, *names),
        }
    }

    // Pushes a command, and remembers it as the last one.
    fn command(
        &mut self,
        alloc: Global,
        text: &'src str,
        lexeme: &'src str,
    ) -> Result<(), LineError>
        ensures { Done result (read (lines.Command text.now lexeme.now) (reading_view self.old))
            (reading_view self.new) }
    {
        self.last_command = Some(text);
        self.stack.command(alloc, text, lexeme)
    }

    // Pushes a variable.
    fn variable(&mut self, name: &'src str) -> Result<(), LineError>
        ensures { Done result (read (lines.Variable name.now) (reading_view self.old)) (reading_view self.new) }
    {
        let number = self.numbering.number_of(name)?;
        self.stack.variable(name, number)
    }

    // Assigns the expression on top to a name that has no assignment yet.
    fn assign(&mut self, lexeme: &'src str, export: bool) -> Result<(), LineError>
        ensures { Done result (read (lines.Assign lexeme.now export) (reading_view self.old)) (reading_view self.new) }
    {
        let number = self.numbering.number_of(lexeme)?;
        let name = token::name(lexeme);
        self.case.evaluation_order.push(name)?;
        let value = self.stack.pop()?;
        let assignment = Assignment {
            eager: false,
            export,
            name,
            number,
            private: false,
            value,
        };
        insert_new(&mut self.case.assignments, assignment)
    }

    // Defines a function: its name, and the names of its parameters.
    fn function(&mut self, alloc: Global, text: &'src str) -> Result<(), LineError>
        ensures { Done result (read (lines.Function text.now) (reading_view self.old)) (reading_view self.new) }
    {
        let names = names_of(alloc, text)?;
        match names.split_first() {
            Some((name, parameters)) => self.define(alloc, name, parameters),
            None => Err(LineError::Bad),
        }
    }

    // Defines a function whose name is new, with the expression on top as its body.
    fn define(
        &mut self,
        alloc: Global,
        lexeme: &'src str,
        parameters: &[&'src str],
    ) -> Result<(), LineError>
        ensures { (text : Text) → names text ≡ Some (lexeme.now ∷ map (λ name. name.now) parameters.now)
            → Done result (read (lines.Function text) (reading_view self.old)) (reading_view self.new) }
    {
        let parameters = self.numbering.parameters_of(alloc, parameters)?;
        let body = self.stack.pop()?;
        let function = FunctionDefinition {
            body,
            name: token::name(lexeme),
            parameters,
        };
        insert_new(&mut self.case.functions, function)
    }

    // Overrides a variable's value.
    fn override_with(&mut self, alloc: Global, name: &'src str, text: &str) -> Result<(), LineError>
        ensures { Done result (read (lines.Override name.now text.now) (reading_view self.old))
            (reading_view self.new) }
    {
        let number = self.numbering.number_of(name)?;
        let text = String::from_str(alloc, text)?;
        self.case.overrides.insert(number, text)?;
        Ok(())
    }

    // Adds a variable to the dotenv map.
    fn dotenv(&mut self, alloc: Global, name: &str, text: &str) -> Result<(), LineError>
        ensures { Done result (read (lines.Dotenv name.now text.now) (reading_view self.old)) (reading_view self.new) }
    {
        let name = String::from_str(alloc, name)?;
        let text = String::from_str(alloc, text)?;
        self.case.dotenv.insert(name, text)?;
        Ok(())
    }

    // Sets the evaluation order; this replaces an earlier one.
    fn order(&mut self, alloc: Global, text: &'src str) -> Result<(), LineError>
        ensures { Done result (read (lines.Order text.now) (reading_view self.old)) (reading_view self.new) }
    {
        let names = names_of(alloc, text)?;
        let parts = token::names(alloc, &names)?;
        self.order = Some(parts);
        Ok(())
    }

    // Sets the referenced variables; this replaces earlier ones.
    fn only(&mut self, alloc: Global, text: &'src str) -> Result<(), LineError>
        ensures { Done result (read (lines.Only text.now) (reading_view self.old)) (reading_view self.new) }
    {
        let names = names_of(alloc, text)?;
        let numbers = self.numbering.numbers_of(alloc, &names)?;
        let references = set_of(alloc, &numbers)?;
        self.case.references = Some(references);
        Ok(())
    }

    // Answers the next command with a text.
    fn reply(&mut self, alloc: Global, text: &str) -> Result<(), LineError>
        ensures { Done result (read (lines.Reply text.now) (reading_view self.old)) (reading_view self.new) }
    {
        let text = String::from_str(alloc, text)?;
        self.case.replies.push(Ok(text))?;
        Ok(())
    }

    // Ends the next command with a status.
    fn fail(&mut self, code: u16) -> Result<(), LineError>
        ensures { Done result (read (lines.Fail code) (reading_view self.old)) (reading_view self.new) }
    {
        let fault = CommandFault::Code(i32::from(code));
        self.case.replies.push(Err(fault))?;
        Ok(())
    }

    // Answers the last command with a text whenever it is run.
    fn always(&mut self, alloc: Global, text: &str) -> Result<(), LineError>
        ensures { Done result (read (lines.Always text.now) (reading_view self.old)) (reading_view self.new) }
    {
        let Some(command) = self.last_command else {
            return Err(LineError::Bad);
        };
        let command = String::from_str(alloc, command)?;
        let text = String::from_str(alloc, text)?;
        self.case.always.push((command, text))?;
        Ok(())
    }

    // Enables lists.
    fn lists(&mut self) -> Result<(), LineError>
        ensures { Done result (read lines.Lists (reading_view self.old)) (reading_view self.new) }
    {
        self.case.lists = true;
        Ok(())
    }

    // Commands are shown instead of run.
    fn dry_run(&mut self) -> Result<(), LineError>
        ensures { Done result (read lines.Dry (reading_view self.old)) (reading_view self.new) }
    {
        self.case.dry_run = true;
        Ok(())
    }

    // Sets the recursion limit, which is one more than the number of calls that may be pending.
    fn limit(&mut self, limit: usize) -> Result<(), LineError>
        ensures { Done result (read (lines.Limit limit) (reading_view self.old)) (reading_view self.new) }
    {
        self.case.recursion_limit = limit;
        Ok(())
    }

    // Ends the case with two runs, the second in the order of these names.
    fn blocks(&mut self, alloc: Global, text: &'src str) -> Result<(), LineError>
        ensures { Done result (read (lines.Blocks text.now) (reading_view self.old)) (reading_view self.new) }
    {
        let names = names_of(alloc, text)?;
        let order = token::names(alloc, &names)?;
        self.end(Evaluation::Blocks { order })
    }

    // Ends the case, if each expression is assigned.
    fn end(&mut self, evaluation: Evaluation<'src>) -> Result<(), LineError>
        ensures run { evaluation_view evaluation.entry ≡ cases.Run
            → Done result (read lines.Run (reading_view self.old)) (reading_view self.new) }
        ensures constant { evaluation_view evaluation.entry ≡ cases.Const
            → Done result (read lines.Const (reading_view self.old)) (reading_view self.new) }
        ensures blocks { (text : Text) → is_some (names text) ≡ true → evaluation_view evaluation.entry
            ≡ cases.Blocks (map token_of (names_in text))
            → Done result (read (lines.Blocks text) (reading_view self.old)) (reading_view self.new) }
    {
        self.is_over = true;
        self.case.evaluation = evaluation;
        if self.stack.is_empty() {
            Ok(())
        } else {
            Err(LineError::Bad)
        }
    }
}

// The names of a line, which is bad if it contains anything else.
fn names_of<'src>(alloc: Global, text: &'src str) -> Result<Vec<&'src str>, LineError>
    ensures ok { IfOk result (λ list. names text.now ≡ Some (map (λ name. name.now) list.items)) }
    ensures bad { IfErr result (λ e. IfBad e (names text.now ≡ None)) }
{
    parse_names(alloc, text)?.ok_or(LineError::Bad)
}

// Inserts a value with a new key into a table. It is bad if the key already has a value, that is, if the table does not
// grow.
fn insert_new<V: Keyed + Drop>(table: &mut Table<V>, value: V) -> Result<(), LineError>
    ensures inserted { OnOk result (table.new ≡ with_value V.key_text table.old value) }
    ensures new { OnOk result (is_some (value_at V.key_text (V.key_text value) table.old) ≡ false) }
    ensures bad { IfErr result (λ e. IfBad e (is_some (value_at V.key_text (V.key_text value) table.old) ≡ true)) }
{
    let earlier = table.len();
    table.insert(value)?;
    if table.len() == earlier {
        Err(LineError::Bad)
    } else {
        Ok(())
    }
}
