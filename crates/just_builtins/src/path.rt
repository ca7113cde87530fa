// Paths as texts.

pub use just_text::path::{extension, file_name, file_stem, join, parent};
