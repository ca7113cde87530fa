// Laws of values, scopes and positional words. Each function does nothing: its contract is the law.

ghost use Rattle.just_value.specs.Prelude.{BindsOneNumber, ChildAnswersAsParent, EmptyTextIsTruthy, JoinsNoneAndOne};
ghost use Rattle.just_value.specs.Prelude.{KeepsWords, MeansTheCut, SameExactlyIfCutAlike, SameExactlyIfEqual};
ghost use Rattle.just_value.specs.Prelude.{ValueIsOfBinding};

/// Two values are equal exactly if they are the same texts.
pub fn values_equal_exactly_if_same()
    ensures { SameExactlyIfEqual }
{}

/// The join of no element is the empty text, and the join of one element is that element.
pub fn join_of_none_and_one()
    ensures { JoinsNoneAndOne }
{}

/// A value is truthy even if its one element is empty.
pub fn empty_text_is_truthy()
    ensures { EmptyTextIsTruthy }
{}

/// Binding a number gives it that binding, and each other number keeps its own.
pub fn scope_binds_one_number()
    ensures { BindsOneNumber }
{}

/// Look-ups in a new child give the same results as in its parent.
pub fn child_answers_as_parent()
    ensures { ChildAnswersAsParent }
{}

/// The value of a number is that of its innermost binding.
pub fn value_is_of_binding()
    ensures { ValueIsOfBinding }
{}

/// The overrides with `=` between their parts, then the directory, then the arguments are the original words, except
/// that the directory's word is split.
pub fn positional_keeps_words()
    ensures { KeepsWords }
{}

/// Splitting the directory's word does not change the meaning of words.
pub fn positional_means_the_cut()
    ensures { MeansTheCut }
{}

/// Two lists of words have the same meaning exactly if they are equal after the directory's word is split.
pub fn positional_same_exactly_if_cut_alike()
    ensures { SameExactlyIfCutAlike }
{}
