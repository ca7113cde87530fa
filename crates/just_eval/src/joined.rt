// Lines of a recipe that are joined to commands.

ghost use Rattle.std.specs.Prelude.{IfOk, OnOk, Some, ◌≡◌};
ghost use Rattle.just_eval.specs.Prelude.{commands_of, ends_with_backslash, fragment_view, is_continued};
ghost use Rattle.just_eval.specs.Prelude.{is_continued_by, joined_view, line_view, texts_view, unjoined};
ghost use Rattle.just_eval.specs.Prelude.{with_further_line, without_backslash};

use just_syntax::fragment::Fragment;
use just_syntax::line::Line;
use just_syntax::out_of_memory::OutOfMemory;
use std::alloc::Global;
use std::mem;

// The commands of the lines so far, and the text that the next line continues, if it does.
#[derive(Drop)]
pub(crate) struct Joined {
    commands: Vec<String>,
    text: String,
    pub(crate) continues: bool,
}

impl Joined {
    // Before the first line.
    pub(crate) fn new(alloc: Global) -> Joined
        ensures { joined_view result ≡ unjoined }
    {
        Joined {
            commands: Vec::new(alloc),
            text: String::new(alloc),
            continues: false,
        }
    }

    // Adds a line with this text.
    pub(crate) fn add(&mut self, alloc: Global, line: &Line, text: &str) -> Result<(), OutOfMemory>
        ensures { OnOk result
            (joined_view self.new ≡ with_further_line (joined_view self.old) (line_view line.now) text.now) }
    {
        self.continues = is_continued(line);
        if self.continues {
            self.text.push_str(without_backslash(text))?;
            return Ok(());
        }
        self.text.push_str(text)?;
        let command = mem::replace(&mut self.text, String::new(alloc));
        self.commands.push(command)?;
        Ok(())
    }

    // The commands after the last line.
    pub(crate) fn into_commands(self) -> Result<Vec<String>, OutOfMemory>
        ensures { IfOk result (λ all. texts_view all ≡ commands_of (joined_view self)) }
    {
        let Joined {
            mut commands,
            text,
            continues,
        } = self;
        if continues {
            commands.push(text)?;
        }
        Ok(commands)
    }
}

// Whether the next line continues this one.
fn is_continued(line: &Line) -> bool
    ensures { result ≡ is_continued (line_view line.now) }
{
    match line.fragments.last() {
        Some(fragment) => is_continued_by(fragment),
        None => false,
    }
}

// Whether a line that ends with this fragment is continued.
fn is_continued_by(fragment: &Fragment) -> bool
    ensures { result ≡ is_continued_by (Some (fragment_view fragment.now)) }
{
    match fragment {
        Fragment::Text { token } => ends_with_backslash(token.lexeme()),
        Fragment::Interpolation { expression: _ } => false,
    }
}

// Whether a text ends with a backslash.
fn ends_with_backslash(text: &str) -> bool
    ensures { result ≡ ends_with_backslash text.now }
{
    match text.strip_suffix('\\') {
        Some(_) => true,
        None => false,
    }
}

// A text without the backslash at its end, if it has one.
fn without_backslash(text: &str) -> &str
    ensures { result.now ≡ without_backslash text.now }
{
    match text.strip_suffix('\\') {
        Some(front) => front,
        None => text,
    }
}
