// The laws of evaluation. Their statements are in `specs/`, and their proofs in `proofs/`, one file each. It builds on
// the meaning of evaluation and on what is below it, and never on the test of resolution or on the evaluator. There is
// nothing to run here.
#![tactic(auto)]

pub mod laws;
