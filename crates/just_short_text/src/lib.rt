// Texts that are not allocated if they are short. It depends on std and on the kit's `arrayvec`.
#![tactic(auto)]

pub mod text;
