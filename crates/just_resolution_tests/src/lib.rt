// Tests of what asks no host: syntax, texts, values, error messages, and whether a module is resolved. They are a
// separate crate because a crate with tests is proved twice. They build on `just_resolution`, on the reader of cases
// and on what is below these, and on no evaluation.
#![tactic(auto)]

#[cfg(test)]
mod compared;
#[cfg(test)]
mod const_errors;
#[cfg(test)]
mod constructors;
#[cfg(test)]
mod copies;
#[cfg(test)]
mod debug;
#[cfg(test)]
mod errors;
#[cfg(test)]
mod faults;
#[cfg(test)]
mod frames;
#[cfg(test)]
mod modules;
#[cfg(test)]
mod orders;
#[cfg(test)]
mod parts;
#[cfg(test)]
mod resolution;
#[cfg(test)]
mod scope;
#[cfg(test)]
mod setting_names;
#[cfg(test)]
mod sizes;
#[cfg(test)]
mod syntax;
#[cfg(test)]
mod text;
#[cfg(test)]
mod value;
#[cfg(test)]
mod variables;
#[cfg(test)]
mod words;
