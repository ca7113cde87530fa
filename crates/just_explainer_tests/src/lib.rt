// Tests of the program over justfiles: whole calls, and what they write. They are a separate crate because a crate with
// tests is proved twice.
#![tactic(auto)]

#[cfg(test)]
mod calls;
#[cfg(test)]
mod evaluate;
#[cfg(test)]
mod faults;
#[cfg(test)]
mod lint;
#[cfg(test)]
mod reach;
#[cfg(test)]
mod recipe;
#[cfg(test)]
mod words;
