// The operations of built-in functions on texts and paths, each equal to its definition. It depends on `just_syntax`
// and on the kit's `memchr` and `percent_encoding`.
#![tactic(auto)]

pub mod affix;
pub mod case;
pub mod join_list;
pub mod laws;
pub mod path;
pub mod pattern;
pub mod quote;
pub mod replace;
pub mod split;
pub mod uri;
