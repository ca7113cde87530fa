// How a case's assignments are evaluated.

use just_syntax::name::Name;

/// How a case's assignments are evaluated.
#[derive(Debug, Drop)]
pub enum Evaluation<'src> {
    /// In a run.
    Run,
    /// Before any run, by the const rules.
    Const,
    /// In a run in their own order, and in another run in the order of these names.
    Blocks { order: Vec<Name<'src>> },
}
