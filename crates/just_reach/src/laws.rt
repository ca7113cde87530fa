//! A law of evaluation. It is a function that does nothing; its contract is the law.

ghost use Rattle.just_reach.specs.Law.{ReachesNoMore};

/// Evaluation reaches no more than what [`reach`] and [`reach_of_run`] list, whatever the host answers, whatever the
/// values of variables and arguments are, and however it ends. It holds under lexical and under dynamic scope, of
/// resolved modules and of others: for expressions, for the lines of recipes, for the attributes and parameters of
/// recipes, and for runs over the assignments of a module.
///
/// Each variable that is read, each call that is entered and each command in backticks that is reached has a member of
/// the list, with that token. Each question to the host is asked by a member: by a command in backticks, outside of a
/// dry run, or by a call of a built-in function, given some values. Such a member is one that [`may_ask`] and, if the
/// question is to run a command, one that [`may_run_command`].
///
/// For example, an expression whose list has no member that may run a command runs none.
///
/// [`may_ask`]: crate::member::Member::may_ask
/// [`may_run_command`]: crate::member::Member::may_run_command
/// [`reach`]: crate::reach::reach
/// [`reach_of_run`]: crate::reach::reach_of_run
pub fn reaches_no_more()
    ensures { ReachesNoMore }
{}
