// How much stack is used and may be used, in bytes. Each number is measured or follows from a measured one:
// docs/internals/stack.md says how.

/// The stack budget of evaluation on a stack of 8 MiB. The remaining half MiB is for the callers of evaluation, for
/// what the innermost form calls, and for the host.
pub const STACK_BUDGET: usize = 15 * 512 * 1024;

/// The stack budget of evaluation on a stack of 8 MiB in a program run by `rt try`. Such a program is compiled with
/// checks, and its frames are up to six times as large. A host that runs so returns this from `stack_budget`.
pub const TRIED_STACK_BUDGET: usize = 1024 * 1024;

/// The stack budget of the program over cases on a stack of 8 MiB. Its host uses little stack, and so does the program
/// itself: 320 KiB are enough for both.
pub const PROGRAM_STACK_BUDGET: usize = 7_872 * 1024;

/// The greatest depth of nesting of an expression that a reader should build. Code that traverses an expression without
/// evaluating it, such as dropping it or the test of resolution, uses at most 416 bytes per level, and so fits into
/// 8 MiB. Evaluation ends at fewer levels, whatever the form.
pub const MOST_LEVELS: usize = 19_000;

/// What printing uses per level.
pub const PRINTED: usize = 416;

/// What copying uses per level.
pub const COPIED: usize = 1600;

/// The greatest depth of nesting of an expression that is copied: 4,915 levels, with half a MiB for the callers.
pub const MOST_COPIED_LEVELS: usize = STACK_BUDGET / COPIED;

/// What the largest form uses around its parts. A form without parts uses no more than parentheses do.
pub const FORM: usize = CALL;

/// What `&&` uses around its parts.
pub const AND: usize = 656;

/// What `assert` uses around its parts.
pub const ASSERT: usize = 848;

/// What a call uses around its parts.
pub const CALL: usize = 1088;

/// What a comparison uses around its parts.
pub const COMPARISON: usize = 832;

/// What `+` uses around its parts.
pub const CONCATENATION: usize = 848;

/// What `if` uses around its parts.
pub const CONDITIONAL: usize = 784;

/// What a format string uses around its parts.
pub const FORMAT_STRING: usize = 896;

/// What parentheses uses around its parts.
pub const GROUP: usize = 448;

/// What `/` of two expressions uses around its parts.
pub const JOIN: usize = 848;

/// What a list uses around its parts.
pub const LIST: usize = 800;

/// What `++` uses around its parts.
pub const LIST_CONCATENATION: usize = 752;

/// What `!` uses around its parts.
pub const NOT: usize = 720;

/// What `||` uses around its parts.
pub const OR: usize = 752;

/// What `/` of one expression uses around its parts.
pub const ROOT: usize = 752;

/// What the body of a called function uses before its expression.
pub const BODY: usize = 1168;
