// Tests of what asks a host: contexts, hosts, and built-in functions. They are a separate crate because a crate with
// tests is proved twice. They build on `just_builtins`, `just_script` and what is below these, and on no evaluation.
#![tactic(auto)]

#[cfg(test)]
mod around;
#[cfg(test)]
mod builtins;
#[cfg(test)]
mod contexts;
#[cfg(test)]
mod exports;
#[cfg(test)]
mod host;
#[cfg(test)]
mod questions;
#[cfg(test)]
mod texts;
