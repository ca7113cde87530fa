// The context of evaluation: configuration, settings, modules, contexts, questions and hosts; and interaction
// trees, with lemmas on their paths. It depends on `just_syntax`, `just_value` and `just_text`.
#![tactic(auto)]

pub mod ask;
pub mod command_host;
pub mod command_question;
pub mod config;
pub mod directory_kind;
pub mod execution_context;
pub mod exports;
pub mod fault;
pub mod function;
pub mod host;
pub mod justfile;
pub mod map_host;
pub mod no_host;
pub mod number_question;
mod printed;
pub mod recorded;
pub mod recorder;
pub mod replay_host;
pub mod search;
pub mod setting_value;
pub mod settings;
pub mod text_answer;
pub mod text_question;
