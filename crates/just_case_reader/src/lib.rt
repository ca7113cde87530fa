// Cases, built from their lines: what each line says, the expressions that the lines build, and the numbers of their
// names. It depends on `just_syntax`, `just_value` and the kit's `memchr`: reading a case needs no host.
#![tactic(auto)]

mod builder;
pub mod case;
pub mod evaluation;
pub mod line;
pub mod line_error;
mod numbering;
mod operator;
mod rest;
mod stack;
pub mod token;
