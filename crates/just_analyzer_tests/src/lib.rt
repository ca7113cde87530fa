// Tests of what reads the text of a justfile: its tokens, its expressions, its items and the parts that they make up.
// They are a separate crate because a crate with tests is proved twice. They build on `just_analyzer` and on what is
// below it.
#![tactic(auto)]

#[cfg(test)]
mod expressions;
#[cfg(test)]
mod items;
#[cfg(test)]
mod parts;
#[cfg(test)]
mod stored;
#[cfg(test)]
mod tokens;
