// Hosts for programs that show evaluation and for tests: one that answers by a script, and one that fails from some
// question on. They depend on the host's questions alone, and not on evaluation. There are also a reader and a writer
// that fail.
#![tactic(auto)]

pub mod fail_at;
pub mod pieces;
pub mod scripted_host;
