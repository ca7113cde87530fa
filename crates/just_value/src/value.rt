// Values: lists of texts.

ghost use Rattle.std.specs.Prelude.{IfOk, List, OnErr, OnOk, [], codes, if◌then◌else◌, length, map};
ghost use Rattle.std.specs.Prelude.{string_bytes, ℕ, ◌++◌, ◌==◌, ◌∷◌, ◌≡◌};
ghost use Rattle.std.specs.Fmt.{WritesStyledOnOk};
ghost use Rattle.std.specs.Iterator.Adapters.{IterYieldsInOrder};
ghost use Rattle.std.specs.Slice.Iter.{iter_rest};
ghost use Rattle.just_value.specs.Prelude.{Ends, GivesItems, UnlessStopped, combined, ended, from_condition, is_truthy};
ghost use Rattle.just_value.specs.Prelude.{joined, quoted, token_view};

use crate::combination::{all_extended, combine, pairs_extended};
use crate::element::{Element, write_quoted};
use crate::error::Error;
use just_syntax::list_operator::ListOperator;
use just_syntax::out_of_memory::OutOfMemory;
use just_syntax::text::Text;
use just_syntax::token::Token;
use std::alloc::Global;
use std::cmp::Ordering;
use std::fmt::Display;
use std::marker::Model;
use std::{fmt, slice, vec};

/// A list of texts. A call whose allocation fails returns `OutOfMemory`, and changes nothing.
#[derive(Debug, Drop)]
pub struct Value {
    elements: Vec<Text>,
}

impl Model for Value {
    ghost use Rattle.std.specs.Prelude.{List, ℕ};

    ghost Value = { List (List ℕ) };

    ghost view = { λ v. v.elements.items };
}

impl Value {
    /// The empty list. It allocates nothing. Upstream's `Value::new`.
    pub fn new(alloc: Global) -> Value
        ensures { result ≡ [] }
    {
        Value {
            elements: Vec::new(alloc),
        }
    }

    /// The one element `true` if the condition holds, otherwise the empty list, which allocates nothing. `OutOfMemory`,
    /// if an allocation fails: nothing is created. Upstream's `From<bool>`.
    pub fn from_bool(alloc: Global, condition: bool) -> Result<Value, OutOfMemory>
        ensures { IfOk result (λ v. v ≡ from_condition condition) }
    {
        if condition {
            Value::from_text(alloc, "true")
        } else {
            Ok(Value::new(alloc))
        }
    }

    /// These elements, moved. It allocates nothing, and keeps the allocator of `elements`. Upstream's
    /// `From<Vec<String>>`.
    pub fn from_elements(elements: Vec<Text>) -> Value
        ensures { result ≡ elements.items }
    {
        Value { elements }
    }

    /// The texts of an iterator, in order. They are moved. `OutOfMemory`, if an allocation fails: those taken so far
    /// are dropped. Upstream's `FromIterator<String>`.
    pub fn from_iterator<I: IntoIterator<Item = Text>>(
        alloc: Global,
        elements: I,
    ) -> Result<Value, OutOfMemory>
        requires { Ends I.into_iter_gives I.IntoIter.can_next I.IntoIter.remaining elements }
        ensures { IfOk result (λ v. (texts : List _) × GivesItems I.into_iter_gives I.IntoIter.next_gives elements texts
            × (v ≡ texts)) }
    {
        let elements = elements.into_iter().collect(alloc)?;
        Ok(Value::from_elements(elements))
    }

    /// The one element `text`, which is moved. `OutOfMemory`, if an allocation fails: it is dropped. Upstream's
    /// `From<String>`.
    pub fn from_string(alloc: Global, text: String) -> Result<Value, OutOfMemory>
        ensures { IfOk result (λ v. v ≡ string_bytes text ∷ []) }
    {
        Value::from_element(alloc, Text::from_string(text))
    }

    /// The one element `element`, which is moved. `OutOfMemory`, if an allocation fails: it is dropped.
    pub fn from_element(alloc: Global, element: Text) -> Result<Value, OutOfMemory>
        ensures { IfOk result (λ v. v ≡ element ∷ []) }
    {
        let mut elements = Vec::with_capacity(alloc, 1)?;
        elements.push(element)?;
        Ok(Value::from_elements(elements))
    }

    /// The one element `text`, copied. `OutOfMemory`, if an allocation fails: nothing is created. Upstream's
    /// `From<&str>`.
    pub fn from_text(alloc: Global, text: &str) -> Result<Value, OutOfMemory>
        ensures { IfOk result (λ v. v ≡ text.now ∷ []) }
    {
        Value::from_element(alloc, Text::from_str(alloc, text)?)
    }

    /// A copy of the value. `OutOfMemory`, if an allocation fails: nothing is created. Upstream's `Value::clone`.
    pub fn try_clone(&self, alloc: Global) -> Result<Value, OutOfMemory>
        ensures { IfOk result (λ v. v ≡ self.now) }
    {
        copied(alloc, &self.elements)
    }

    /// The texts, in order. Upstream's `Value::elements`.
    pub fn elements(&self) -> &[Text]
        ensures { result.now ≡ self.now }
    {
        self.elements.as_slice()
    }

    /// The texts, in order. They are moved. Upstream's `Value::into_elements`.
    pub fn into_elements(self) -> Vec<Text>
        ensures { result.items ≡ self }
    {
        let Value { elements: texts } = self;
        texts
    }

    /// Copies of the texts as strings, in order. `OutOfMemory`, if an allocation fails: nothing is created.
    pub fn to_strings(&self, alloc: Global) -> Result<Vec<String>, OutOfMemory>
        ensures { IfOk result (λ strings. map string_bytes strings.items ≡ self.now) }
    {
        let mut strings = Vec::with_capacity(alloc, self.len())?;
        for text in self.elements() {
            strings.push(String::from_str(alloc, text)?)?;
        }
        Ok(strings)
    }

    /// Iterates over the texts, in order. Upstream's `Value::iter`.
    pub fn iter(&self) -> slice::Iter<'_, Text>
        ensures rest { iter_rest result ≡ self.now }
        ensures runs { IterYieldsInOrder (List ℕ) }
    {
        self.elements.iter()
    }

    /// The number of elements. Upstream's `Value::len`.
    pub fn len(&self) -> usize
        ensures { result ≡ length self.now }
    {
        self.elements.len()
    }

    /// Whether there is no element. Upstream's `Value::is_empty`.
    pub fn is_empty(&self) -> bool
        ensures { result ≡ (length self.now == 0) }
    {
        self.elements.is_empty()
    }

    /// Whether there is an element. Upstream's `Value::is_truthy`.
    pub fn is_truthy(&self) -> bool
        ensures { result ≡ is_truthy self.now }
    {
        !self.elements.is_empty()
    }

    /// Appends a copy of a text, with the allocator that the value was created with. `OutOfMemory`, if an allocation
    /// fails: the value is unchanged. Upstream's `Value::push`.
    pub fn push(&mut self, element: &str) -> Result<(), OutOfMemory>
        ensures ok { OnOk result (self.new ≡ self.old ++ element.now ∷ []) }
        ensures err { OnErr result (self.new ≡ self.old) }
    {
        let alloc = *self.elements.allocator();
        let text = Text::from_str(alloc, element)?;
        self.elements.push(text)?;
        Ok(())
    }

    /// The elements in one text, separated by spaces. `OutOfMemory`, if an allocation fails: nothing is created.
    /// Upstream's `Value::join`.
    pub fn join(&self, alloc: Global) -> Result<String, OutOfMemory>
        ensures { IfOk result (λ text. string_bytes text ≡ joined self.now) }
    {
        let text = self.elements.join(alloc, " ")?;
        Ok(text)
    }

    /// The elements of both lists, combined one by one with the operator's separator between them. A single element, on
    /// either side, is combined with each element of the other list; lists of equal length are paired. Upstream's
    /// `Value::apply`.
    ///
    /// # Errors
    ///
    /// `ListOperation` with both lists, if the lengths differ and one of them is 0 or neither is 1. `OutOfMemory`, if
    /// an allocation fails, also one for the lists of `ListOperation`: nothing is created.
    pub fn apply<'src>(
        &self,
        alloc: Global,
        other: &Value,
        operator: ListOperator,
        token: Token<'src>,
    ) -> Result<Value, Error<'src>>
        ensures { UnlessStopped (ended (λ v. v) result)
            (combined self.now operator other.now (token_view token.entry)) }
    {
        combine(alloc, &self.elements, &other.elements, operator, token)
    }

    /// As `apply`, with this value moved, and the other given by its texts: the texts of this one are extended where
    /// they are if the result has as many elements.
    ///
    /// # Errors
    ///
    /// Those of `apply`. This value is dropped.
    pub fn into_applied<'src>(
        self,
        alloc: Global,
        others: &[Text],
        operator: ListOperator,
        token: Token<'src>,
    ) -> Result<Value, Error<'src>>
        ensures { UnlessStopped (ended (λ v. v) result)
            (combined self operator others.now (token_view token.entry)) }
    {
        match (self.len(), others.len()) {
            (1.., 1) => {
                let texts = all_extended(
                    alloc,
                    self.into_elements(),
                    operator.separator(),
                    &others[0],
                )?;
                Ok(Value::from_elements(texts))
            }
            (m, n) if m == n => {
                let texts = pairs_extended(
                    alloc,
                    self.into_elements(),
                    operator.separator(),
                    others,
                )?;
                Ok(Value::from_elements(texts))
            }
            _ => combine(alloc, &self.elements, others, operator, token),
        }
    }
}

impl fmt::Display for Value {
    ghost use Rattle.std.specs.Prelude.{Some};
    ghost use Rattle.just_value.specs.Shown.{shown};

    ghost output = { λ v. Some (shown v) };

    ghost styled_output = { λ v _. Some (shown v) };

    fn fmt<W: fmt::Write>(&self, f: &mut fmt::Formatter<W>) -> fmt::Result {
        let elements = self.elements();
        if elements.len() == 1 {
            return Element(&elements[0]).fmt(f);
        }
        f.write_str("[")?;
        for i in 0..elements.len() {
            write_element(f, i == 0, &elements[i])?;
        }
        f.write_str("]")
    }
}

// A quoted text, after a comma if it is not the first.
#[tactic(auto, using(just_syntax::proofs::Styled::styled_steps))]
fn write_element<W: fmt::Write>(f: &mut fmt::Formatter<W>, first: bool, text: &str) -> fmt::Result
    ensures { WritesStyledOnOk W.write_str_gives f.old result ((if first then [] else codes ", ") ++ quoted text.now)
        f.new }
{
    if first {
        write_quoted(f, "\"", text)
    } else {
        write_quoted(f, ", \"", text)
    }
}

impl PartialEq for Value {
    ghost use Rattle.std.specs.Cmp.{partial_equiv_from_equiv};
    ghost use Rattle.std.specs.Cmp.Lexicographic.{lists_equiv, nat_list_eq_equiv};
    ghost use Rattle.just_value.specs.Value.{is_same};

    ghost eq = { is_same };

    ghost laws = { partial_equiv_from_equiv (lists_equiv nat_list_eq_equiv) };

    fn eq(&self, other: &Value) -> bool {
        self.elements == other.elements
    }
}

impl Eq for Value {
    ghost use Rattle.std.specs.Cmp.Lexicographic.{lists_equiv, nat_list_eq_equiv};

    ghost laws = { lists_equiv nat_list_eq_equiv };
}

impl PartialOrd for Value {
    ghost use Rattle.std.specs.Prelude.{Some, refl};
    ghost use Rattle.std.specs.Cmp.{partial_order_from_agreeing_total};
    ghost use Rattle.std.specs.Cmp.Lexicographic.{lists_total, lists_ties, nat_list_cmp_total, texts_ties, slice_cmp};
    ghost use Rattle.std.specs.Ordering.{nat_cmp};
    ghost use Rattle.just_value.specs.Value.{value_cmp};

    ghost partial_cmp = { λ x y. Some (value_cmp x y) };

    ghost laws = { partial_order_from_agreeing_total value_cmp (lists_total nat_list_cmp_total) (λ x y. refl)
        (lists_ties (slice_cmp nat_cmp) texts_ties) };

    fn partial_cmp(&self, other: &Value) -> Option<Ordering> {
        Some(self.cmp(other))
    }
}

impl Ord for Value {
    ghost use Rattle.std.specs.Prelude.{refl};
    ghost use Rattle.std.specs.Cmp.Lexicographic.{lists_total, lists_ties, nat_list_cmp_total, texts_ties, slice_cmp};
    ghost use Rattle.std.specs.Ordering.{nat_cmp};
    ghost use Rattle.just_value.specs.Value.{value_cmp};

    ghost cmp = { value_cmp };

    ghost total = { lists_total nat_list_cmp_total };

    ghost matches_partial_cmp = { λ x y. refl };

    ghost matches_eq = { lists_ties (slice_cmp nat_cmp) texts_ties };

    fn cmp(&self, other: &Value) -> Ordering {
        self.elements.cmp(&other.elements)
    }
}

impl<'a> IntoIterator for &'a Value {
    ghost use Rattle.std.specs.Prelude.{List, ℕ, ◌≡◌};
    ghost use Rattle.std.specs.Iterator.Adapters.{IterYieldsInOrder};
    ghost use Rattle.std.specs.Slice.Iter.{iter_rest};

    type Item = &'a Text;

    type IntoIter = slice::Iter<'a, Text>;

    ghost into_iter_gives = { λ v r. (iter_rest r ≡ v.now) × IterYieldsInOrder (List ℕ) };

    fn into_iter(self) -> slice::Iter<'a, Text> {
        self.iter()
    }
}

impl IntoIterator for Value {
    ghost use Rattle.std.specs.Prelude.{List, ℕ, ◌≡◌};
    ghost use Rattle.std.specs.Iterator.Runs.{EveryRun, ItemsAre};
    ghost use Rattle.std.specs.Vec.Iter.{into_iter_items, into_iter_steps};
    ghost use Rattle.std.specs.declared.alloc.Global.{Global};

    type Item = Text;

    type IntoIter = vec::IntoIter<Text>;

    ghost into_iter_gives = { λ v r. (into_iter_items r ≡ v)
        × EveryRun (into_iter_steps {X = List ℕ} {Z = Global}) (λ p. ItemsAre p (into_iter_items p.from)) };

    fn into_iter(self) -> vec::IntoIter<Text> {
        self.into_elements().into_iter()
    }
}

// A value of copies of the texts.
pub(crate) fn copied(alloc: Global, texts: &[Text]) -> Result<Value, OutOfMemory>
    ensures { IfOk result (λ v. v ≡ texts.now) }
{
    let mut all = Vec::with_capacity(alloc, texts.len())?;
    for text in texts {
        all.push(Text::from_str(alloc, text)?)?;
    }
    Ok(Value::from_elements(all))
}
