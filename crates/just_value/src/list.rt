// Lists of words in a sentence.

ghost use Rattle.std.specs.Prelude.{IfOk, List, codes, map, ◌++◌, ◌<◌, ◌≡◌};
ghost use Rattle.just_value.specs.Prelude.{Ends, GivesItems, before, conjunction_of, enclosed, items_of};

use just_syntax::enclosure::Enclosure;
use just_syntax::out_of_memory::OutOfMemory;
use just_syntax::unstyled::write_unstyled;
use std::alloc::Global;
use std::fmt;
use std::fmt::Display;

/// Items in a sentence: nothing, `a`, `a or b`, `a, b, or c`.
#[derive(Debug, Drop)]
pub struct List<T> {
    conjunction: &'static str,
    items: Vec<T>,
}

impl<T> List<T> {
    // These items, with this word before the last.
    fn of(conjunction: &'static str, items: Vec<T>) -> List<T>
        ensures word { conjunction_of result ≡ conjunction.entry.now }
        ensures items { items_of result ≡ items.items }
    {
        List { conjunction, items }
    }
}

impl<T: Drop> List<T> {
    /// The items of an iterator, with `or` before the last. Upstream's `List::or`, with items of its own.
    ///
    /// # Errors
    ///
    /// `OutOfMemory`, if an allocation fails: the items taken so far are dropped.
    pub fn or<I: IntoIterator<Item = T>>(alloc: Global, items: I) -> Result<List<T>, OutOfMemory>
        requires { Ends I.into_iter_gives I.IntoIter.can_next I.IntoIter.remaining items }
        ensures conjunction { IfOk result (λ list. conjunction_of list ≡ codes "or") }
        ensures items { IfOk result (λ list. GivesItems I.into_iter_gives I.IntoIter.next_gives items (items_of list)) }
    {
        Ok(List::of("or", gathered(alloc, items)?))
    }

    /// The items of an iterator, with `and` before the last. Upstream's `List::and`, with items of its own.
    ///
    /// # Errors
    ///
    /// `OutOfMemory`, if an allocation fails: the items taken so far are dropped.
    pub fn and<I: IntoIterator<Item = T>>(alloc: Global, items: I) -> Result<List<T>, OutOfMemory>
        requires { Ends I.into_iter_gives I.IntoIter.can_next I.IntoIter.remaining items }
        ensures conjunction { IfOk result (λ list. conjunction_of list ≡ codes "and") }
        ensures items { IfOk result (λ list. GivesItems I.into_iter_gives I.IntoIter.next_gives items (items_of list)) }
    {
        Ok(List::of("and", gathered(alloc, items)?))
    }

    /// The items of an iterator, each in backticks, with `or` before the last. Upstream's `List::or_ticked`, with items
    /// of its own.
    ///
    /// # Errors
    ///
    /// `OutOfMemory`, if an allocation fails: the items taken so far are dropped.
    pub fn or_ticked<I: IntoIterator<Item = T>>(
        alloc: Global,
        items: I,
    ) -> Result<List<Enclosure<T>>, OutOfMemory>
        requires { Ends I.into_iter_gives I.IntoIter.can_next I.IntoIter.remaining items }
        ensures conjunction { IfOk result (λ list. conjunction_of list ≡ codes "or") }
        ensures items { IfOk result (λ list. GivesItems I.into_iter_gives I.IntoIter.next_gives items
            (map enclosed (items_of list))) }
    {
        Ok(List::of("or", ticked(alloc, items)?))
    }

    /// The items of an iterator, each in backticks, with `and` before the last. Upstream's `List::and_ticked`, with
    /// items of its own.
    ///
    /// # Errors
    ///
    /// `OutOfMemory`, if an allocation fails: the items taken so far are dropped.
    pub fn and_ticked<I: IntoIterator<Item = T>>(
        alloc: Global,
        items: I,
    ) -> Result<List<Enclosure<T>>, OutOfMemory>
        requires { Ends I.into_iter_gives I.IntoIter.can_next I.IntoIter.remaining items }
        ensures conjunction { IfOk result (λ list. conjunction_of list ≡ codes "and") }
        ensures items { IfOk result (λ list. GivesItems I.into_iter_gives I.IntoIter.next_gives items
            (map enclosed (items_of list))) }
    {
        Ok(List::of("and", ticked(alloc, items)?))
    }
}

// The items of an iterator.
fn gathered<T: Drop, I: IntoIterator<Item = T>>(
    alloc: Global,
    items: I,
) -> Result<Vec<T>, OutOfMemory>
    requires { Ends I.into_iter_gives I.IntoIter.can_next I.IntoIter.remaining items }
    ensures { IfOk result (λ gathered. GivesItems I.into_iter_gives I.IntoIter.next_gives items gathered.items) }
{
    let gathered = items.into_iter().collect(alloc)?;
    Ok(gathered)
}

// The items of an iterator, each in backticks.
fn ticked<T: Drop, I: IntoIterator<Item = T>>(
    alloc: Global,
    items: I,
) -> Result<Vec<Enclosure<T>>, OutOfMemory>
    requires { Ends I.into_iter_gives I.IntoIter.can_next I.IntoIter.remaining items }
    ensures { IfOk result (λ ticked. GivesItems I.into_iter_gives I.IntoIter.next_gives items
        (map enclosed ticked.items)) }
{
    let mut ticked = Vec::new(alloc);
    for item in items {
        ticked.push(Enclosure::tick(item))?;
    }
    Ok(ticked)
}

// The text before the word at an index, in three parts.
fn parts_before(
    conjunction: &'static str,
    count: usize,
    at: usize,
) -> (&'static str, &'static str, &'static str)
    requires { at < count }
    ensures { (result.0.now ++ result.1.now) ++ result.2.now ≡ before conjunction.entry.now count at }
{
    if at == 0 {
        ("", "", "")
    } else if count == 2 {
        (" ", conjunction, " ")
    } else if at + 1 == count {
        (", ", conjunction, " ")
    } else {
        (", ", "", "")
    }
}

impl<T: Display> Display for List<T> {
    ghost use Rattle.std.specs.Prelude.{option_map};
    ghost use Rattle.just_value.specs.Listed.{listed, outputs};

    ghost output = { λ list. option_map (listed list.conjunction.now) (outputs T.output list.items.items) };

    ghost styled_output = { λ list _. option_map (listed list.conjunction.now) (outputs T.output list.items.items) };

    fn fmt<W: fmt::Write>(&self, f: &mut fmt::Formatter<W>) -> fmt::Result {
        let items = self.items.as_slice();
        for i in 0..items.len() {
            let (mark, word, gap) = parts_before(self.conjunction, items.len(), i);
            let item = &items[i];
            write_unstyled(f, format_args!("{mark}{word}{gap}{item}"))?;
        }
        Ok(())
    }
}
