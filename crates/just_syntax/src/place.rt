// Places in source files.

ghost use Rattle.std.specs.Prelude.{◌≡◌};
ghost use Rattle.just_syntax.specs.Prelude.{place_view, start_of};

/// Where a piece of a source file begins: its column, line and offset, all counted from 0, column and offset in bytes;
/// and the path of the file.
#[derive(Clone, Copy, Debug, PartialEq, Eq)]
pub struct Place<'src> {
    pub column: usize,
    pub line: usize,
    pub offset: usize,
    pub path: &'src str,
}

impl<'src> Place<'src> {
    /// The start of the file with this path.
    pub fn start_of(path: &'src str) -> Place<'src>
        ensures { place_view result ≡ start_of path.now }
    {
        Place {
            column: 0,
            line: 0,
            offset: 0,
            path,
        }
    }
}
