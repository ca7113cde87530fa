// Texts that are not allocated if they are short.

pub use just_short_text::text::Text;
