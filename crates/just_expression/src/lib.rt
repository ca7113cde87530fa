// Evaluation of one expression in a situation: the single recursion over expressions, with a context or, under the
// const rules, without one, and the parts of it that do not recur: how forms combine the values of their parts, what a
// call reaches, what a called function's parameters are bound to, and what a built-in function and a command return. It
// builds on the definitions of evaluation, and on no law and no test of resolution.
#![tactic(auto)]

mod builtin;
mod callee;
mod command;
pub mod evaluator;
pub mod form;
pub mod internal;
mod operand;
mod parameters;
pub mod text;
pub mod variable;
