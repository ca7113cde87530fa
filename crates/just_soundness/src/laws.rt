//! Laws of evaluation. Each is a function that does nothing; its contract is the law.

ghost use Rattle.just_soundness.specs.Laws.{FramesDoNotMatter, PendingCallsDoNotMatter, ResolvedIsNeverInternal};

/// Non-interference of frames: the value of an expression does not depend on the frames that its commands are shown.
/// Take two evaluations of one expression, in situations that differ only in those frames, neither stopped for lack of
/// memory. If no question that both ask, frames aside, has two answers, they give the same value or refusal, by the
/// same questions and answers, frames aside.
pub fn frames_do_not_matter()
    ensures { FramesDoNotMatter }
{}

/// Soundness of lexical scoping: on a resolved module it does not matter which calls are pending. A run under dynamic
/// scope, in which a body reads, below its own parameters, the frames that its own is put on, is a run under lexical
/// scope, in which it reads only its own parameters and the module's values.
pub fn pending_calls_do_not_matter()
    ensures { PendingCallsDoNotMatter }
{}

/// Progress: a run of a resolved module under lexical scope is never refused as `Internal`.
pub fn resolved_is_never_internal()
    ensures { ResolvedIsNeverInternal }
{}
