// Laws about two evaluations. Their statements are in `specs/`, and their proofs in `proofs/`, one file each. It builds
// on the meaning of evaluation, on the lemmas of `just_soundness` and on what is below, and never on the test of
// resolution or on the evaluator. There is nothing to run here.
#![tactic(auto)]

pub mod laws;
