// The judge of stored cases. It compares what the program answers to a case with the answer in the case's file, also
// where a host, a reader or a writer fails. It compares each run with what is constant before it, with its reach, and
// with a run in the order by names.
#![tactic(auto)]

pub mod agreement;
mod answering;
mod asking;
mod borne_out;
mod by_names;
pub mod check;
pub mod contradiction;
pub mod cutting;
pub mod difference;
mod evaluated;
pub mod failing;
mod pairing;
mod predicted;
pub mod reaching;
pub mod reordered;
pub mod reordering;
pub mod rerun;
pub mod stored_case;
pub mod streams;
pub mod tally;
mod watched;
pub mod within_reach;
