// Tests of the libraries above the evaluator: what a run needs and reaches, faults, names and order, words of a recipe,
// and reports. They are a separate crate because a crate with tests is proved twice.
#![tactic(auto)]

#[cfg(test)]
mod arguments;
#[cfg(test)]
mod faults;
#[cfg(test)]
mod needs;
#[cfg(test)]
mod reach;
#[cfg(test)]
mod report;
#[cfg(test)]
mod resolve;
#[cfg(test)]
mod sizes;
#[cfg(test)]
mod texts;
