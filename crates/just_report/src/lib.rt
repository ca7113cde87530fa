// Reports of errors that point at a place of a source file. The crate builds on `just_syntax`, for tokens, and on the
// kit's `unicode_width`; it evaluates nothing.
#![tactic(auto)]

mod columns;
mod pointer;
pub mod report;
mod shown;
