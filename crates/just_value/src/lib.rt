// Values, bindings, frames, scopes, and the refusals of evaluation, each with its view as plain data. It depends on
// `just_syntax` alone.
#![tactic(auto)]

pub mod binding;
pub mod bindings;
pub mod check_fault;
mod combination;
pub mod compile_error;
pub mod const_error;
pub mod const_eval_error;
pub mod element;
pub mod error;
pub mod expression_context;
pub mod frame;
pub mod frames;
pub mod laws;
pub mod list;
pub mod positional;
mod said;
pub mod scope;
pub mod value;
