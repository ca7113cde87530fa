// An explanation that is being written.

use crate::answers::Answers;
use crate::given::Given;
use crate::output::Output;
use just_host::recorder::Recorder;
use just_report::report::report_in_line;
use just_syntax::out_of_memory::OutOfMemory;
use just_syntax::token::Token;
use std::alloc::Global;
use std::fmt;

/// An explanation that is being written: what was written, and the host that answers questions and records them.
#[derive(Drop)]
pub(crate) struct Session {
    alloc: Global,
    pub(crate) host: Recorder<Answers>,
    output: Output,
    // The text of the justfile, which reports quote.
    source: String,
    // Where its lines begin, in bytes from its start. It is empty before the first report.
    starts: Vec<usize>,
}

impl Session {
    /// Nothing is written yet.
    pub(crate) fn new(alloc: Global, given: &Given, source: &str) -> Result<Session, OutOfMemory> {
        let source = String::from_str(alloc, source)?;
        Ok(Session {
            alloc,
            host: Recorder::new(alloc, Answers::new(alloc, given)?),
            output: Output::new(alloc),
            source,
            starts: Vec::new(alloc),
        })
    }

    /// What was written.
    pub(crate) fn into_output(self) -> Output {
        self.output
    }

    /// Whether an error was written.
    pub(crate) fn has_refused(&self) -> bool {
        self.output.status != 0
    }

    /// Adds a line to the results.
    pub(crate) fn line<D: fmt::Display + Drop>(&mut self, line: D) -> Result<(), OutOfMemory> {
        writeln!(self.output.out, "{line}")?;
        Ok(())
    }

    /// Adds a text that ends its own lines to the results.
    pub(crate) fn text<D: fmt::Display>(&mut self, text: &D) -> Result<(), OutOfMemory> {
        write!(self.output.out, "{text}")?;
        Ok(())
    }

    /// Reports an error at a token; without one, the error alone.
    pub(crate) fn refuse<E: fmt::Display>(
        &mut self,
        error: &E,
        token: Option<Token>,
    ) -> Result<(), OutOfMemory> {
        match token {
            Some(token) => self.report(error, &token),
            None => self.fail(error),
        }
    }

    /// Writes the questions that were asked, and reports the error that they led to.
    pub(crate) fn refuse_answered<E: fmt::Display>(
        &mut self,
        error: &E,
        token: Option<Token>,
    ) -> Result<(), OutOfMemory> {
        self.print_questions()?;
        self.refuse(error, token)
    }

    /// Reports an error at a token.
    pub(crate) fn report<E: fmt::Display>(
        &mut self,
        error: &E,
        token: &Token,
    ) -> Result<(), OutOfMemory> {
        if self.starts.is_empty() {
            self.starts = line_starts(self.alloc, &self.source)?;
        }
        let line = line_at(&self.source, &self.starts, token.line);
        let text = report_in_line(self.alloc, error, token, line)?;
        self.output.status = 1;
        Ok(self.output.err.push_str(&text)?)
    }

    /// Writes an error that has no place.
    pub(crate) fn fail<E: fmt::Display>(&mut self, error: &E) -> Result<(), OutOfMemory> {
        self.output.status = 1;
        writeln!(self.output.err, "error: {error}")?;
        Ok(())
    }

    /// Adds the questions that were asked since the last call to the results, a line for each.
    pub(crate) fn print_questions(&mut self) -> Result<(), OutOfMemory> {
        let questions = self.host.take_questions(self.alloc);
        for question in &questions {
            writeln!(self.output.out, "  asks {question}")?;
        }
        Ok(())
    }
}

// Where the lines of a text begin, in bytes from its start.
fn line_starts(alloc: Global, source: &str) -> Result<Vec<usize>, OutOfMemory> {
    let mut starts = Vec::new(alloc);
    starts.push(0)?;
    for (place, byte) in source.bytes().enumerate() {
        if byte == b'\n' {
            starts.push(place.saturating_add(1))?;
        }
    }
    Ok(starts)
}

// A line of a text by its number, counted from 0; no text after the last line.
fn line_at<'a>(source: &'a str, starts: &[usize], number: usize) -> &'a str {
    let Some(start) = starts.get(number) else {
        return "";
    };
    match source.get(*start..) {
        Some(rest) => rest.lines().next().unwrap_or(""),
        None => "",
    }
}
