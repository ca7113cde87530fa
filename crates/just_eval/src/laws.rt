//! The laws of evaluation, in one place. Each is a function that does nothing; its contract is the law. A caller that
//! calls it may rely on the law from there on.

pub use just_laws::laws::{
    answers_decide, blocks_agree, const_agrees, orders_agree, results_have_blocks,
};
pub use just_soundness::laws::{
    frames_do_not_matter, pending_calls_do_not_matter, resolved_is_never_internal,
};
