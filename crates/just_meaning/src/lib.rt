// What evaluation means: of expressions, calls and whole runs, and when a module is resolved. The definitions are in
// `specs/`; there is nothing to run here. It builds on syntax, values, hosts and the built-in functions.
#![tactic(auto)]
