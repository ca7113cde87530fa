// Interaction trees: what a computation may ask, note and check, and how it ends. Their traces, and executions of the
// transition relation that answers. The definitions are in `specs/`, parametric in a signature; there is nothing to run
// here, and nothing that speaks of `just`.
#![tactic(auto)]
