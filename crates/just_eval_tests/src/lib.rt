// Tests of the evaluator's const calls, and of evaluation for recipes. They are a separate crate because a crate with
// tests is proved twice. They build on `just_eval`, scripted hosts and, for modules to evaluate, the reader of cases.
#![tactic(auto)]

pub mod agreement;
#[cfg(test)]
mod bindings;
#[cfg(test)]
mod cases;
#[cfg(test)]
mod compared;
#[cfg(test)]
mod constants;
#[cfg(test)]
mod interpreters;
#[cfg(test)]
mod kept;
#[cfg(test)]
mod recipes;
#[cfg(test)]
mod settings;
#[cfg(test)]
mod sizes;
#[cfg(test)]
mod survey;
