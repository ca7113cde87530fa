// Frames: bindings by their numbers.

ghost use Rattle.std.specs.Prelude.{IfOk, List, OnErr, OnOk, [], length, map, option_map, ℕ, ◌<◌, ◌≡◌, ◌⊎◌, ◌^◌};
ghost use Rattle.std.specs.Ordering.{nat_cmp};
ghost use Rattle.std.specs.Map.{values_of};
ghost use Rattle.just_value.specs.Prelude.{AreRising, Bound, IsPlace, IsRising, ShowsFrame, bindings_left, bound_at};
ghost use Rattle.just_value.specs.Prelude.{bound_view, frame_view, with_bound};

use crate::binding::Binding;
use crate::bindings::{Bindings, Left};
use just_syntax::number::Number;
use just_syntax::out_of_memory::OutOfMemory;
use std::alloc::Global;
use std::collections::BTreeMap;
use std::fmt;
use std::marker::Model;

// How many bindings are moved at most to insert one between them.
const MOST_MOVED: usize = 32;

/// Bindings by their numbers, in ascending order, each number once.
#[derive(Drop)]
pub struct Frame<'src> {
    // In ascending order of number, unless there are places.
    bindings: Vec<Binding<'src>>,
    // The index of each number's binding, once a number came before many others; empty until then.
    places: BTreeMap<Number, usize>,
}

impl<'src> Model for Frame<'src> {
    ghost use Rattle.std.specs.Prelude.{List};
    ghost use Rattle.std.specs.Coded.{codes};
    ghost use Rattle.just_value.specs.declared.binding.Binding.{Binding};
    ghost use Rattle.just_syntax.specs.contracts.expression.Expression as expression;
    ghost use denote.Signature.{static_lft};

    ghost Value = { List Binding };

    ghost coded = { Prim.hlevel (codes, (expression.the_row static_lft).coded) };

    ghost use Rattle.just_value.specs.Placed.{AreRisingOrPlaced, items_in_order};

    ghost view = { λ f. items_in_order f.bindings.items f.places.entries };

    ghost invariant = { λ f. AreRisingOrPlaced f.bindings.items f.places.entries };
}

impl<'src> Frame<'src> {
    // An empty frame, with room for as many bindings.
    pub(crate) fn with_capacity(alloc: Global, bindings: usize) -> Result<Frame<'src>, OutOfMemory>
        ensures { IfOk result (λ frame. frame_view frame ≡ []) }
    {
        let bindings = Vec::with_capacity(alloc, bindings)?;
        Ok(Frame {
            bindings,
            places: BTreeMap::new(alloc),
        })
    }

    /// The binding of a number, if it is bound here.
    pub fn binding(&self, number: Number) -> Option<&Binding<'src>>
        ensures { option_map (λ b. bound_view b.now) result ≡ bound_at number (frame_view self.now) }
    {
        if self.places.is_empty() {
            match self.bindings.first() {
                Some(first) if number < first.number => None,
                _ => binding_in_order(&self.bindings, number),
            }
        } else {
            binding_by_place(&self.bindings, &self.places, number)
        }
    }

    /// The bindings, in ascending order of number.
    pub fn bindings(&self) -> Bindings<'_, 'src>
        ensures once { map bound_view (bindings_left result) ≡ values_of (frame_view self.now) }
        ensures rising { IsRising (map bound_view (bindings_left result)) }
        ensures count { length (bindings_left result) < 2 ^ 64 }
    {
        let left = if self.places.is_empty() {
            Left::InOrder(self.bindings.iter())
        } else {
            Left::ByPlace(self.places.values())
        };
        Bindings {
            bindings: &self.bindings,
            left,
        }
    }

    // Binds a number, in place of what it was bound to. If memory runs out, the frame is unchanged.
    pub(crate) fn bind(&mut self, binding: Binding<'src>) -> Result<(), OutOfMemory>
        ensures ok { OnOk result (frame_view self.new ≡ with_bound (frame_view self.old) (bound_view binding.entry)) }
        ensures err { OnErr result (frame_view self.new ≡ frame_view self.old) }
    {
        if !self.places.is_empty() {
            return bind_by_place(&mut self.bindings, &mut self.places, binding);
        }
        match place(&self.bindings, binding.number) {
            Ok(at) => {
                self.bindings[at] = binding;
                Ok(())
            }
            Err(at) if self.bindings.len() - at <= MOST_MOVED => {
                Ok(self.bindings.insert(at, binding)?)
            }
            Err(_) => bind_first_by_place(&mut self.bindings, &mut self.places, binding),
        }
    }
}

// The binding of a number, among bindings in ascending order. Most searches of an outer frame do without it, since its
// numbers are greater.
#[inline(never)]
fn binding_in_order<'frame, 'src>(
    bindings: &'frame [Binding<'src>],
    number: Number,
) -> Option<&'frame Binding<'src>>
    ensures { AreRising bindings.now
        → option_map (λ b. bound_view b.now) result ≡ bound_at number (frame_view bindings.now) }
{
    match place(bindings, number) {
        Ok(at) => bindings.get(at),
        Err(_) => None,
    }
}

// The binding of a number, by its place. It is not inlined, so that most searches of an outer frame are short.
#[inline(never)]
fn binding_by_place<'frame, 'src>(
    bindings: &'frame [Binding<'src>],
    places: &BTreeMap<Number, usize>,
    number: Number,
) -> Option<&'frame Binding<'src>>
    ensures { (f : List (ℕ × Bound)) → ShowsFrame f bindings.now places.now.entries
        → option_map (λ b. bound_view b.now) result ≡ bound_at number f }
{
    match places.get(&number) {
        Some(at) => bindings.get(*at),
        None => None,
    }
}

// The index of a number's binding, or the index where it would be inserted, among bindings in ascending order. The last
// number and greater ones need no search.
fn place(bindings: &[Binding<'_>], number: Number) -> Result<usize, usize>
    ensures { AreRising bindings.now → IsPlace (λ b. nat_cmp b.number number) bindings.now result }
{
    match bindings.last() {
        Some(last) if last.number < number => Err(bindings.len()),
        Some(last) if last.number == number => Ok(bindings.len() - 1),
        _ => bindings.binary_search_by_key(&number, |binding| binding.number),
    }
}

// Adds the index of each number's binding, of bindings in ascending order. If memory runs out, some are added.
fn add_places(
    places: &mut BTreeMap<Number, usize>,
    bindings: &[Binding<'_>],
) -> Result<(), OutOfMemory>
    ensures { OnOk result (places.old.entries ≡ [] → AreRising bindings.now
        → ShowsFrame (frame_view bindings.now) bindings.now places.new.entries) }
{
    for (at, binding) in bindings.iter().enumerate() {
        places.insert(binding.number, at)?;
    }
    Ok(())
}

// Binds a number, in place of what it was bound to. If memory runs out, nothing is changed.
#[inline(never)]
fn bind_by_place<'src>(
    bindings: &mut Vec<Binding<'src>>,
    places: &mut BTreeMap<Number, usize>,
    binding: Binding<'src>,
) -> Result<(), OutOfMemory>
    ensures ok { OnOk result ((f : List (ℕ × Bound)) → ShowsFrame f bindings.old.items places.old.entries
        → ShowsFrame (with_bound f (bound_view binding.entry)) bindings.new.items places.new.entries) }
    ensures err { OnErr result ((bindings.new.items ≡ bindings.old.items) × (places.new.entries ≡ places.old.entries)) }
{
    if let Some(at) = places.get(&binding.number) {
        if let Some(bound) = bindings.get_mut(*at) {
            *bound = binding;
        }
        return Ok(());
    }
    bindings.reserve(1)?;
    places.insert(binding.number, bindings.len())?;
    bindings.push_reserved(binding);
    Ok(())
}

// Binds the first number by its place, among bindings in ascending order. If memory runs out, the bindings are
// unchanged, and there are no places, or those of all.
#[inline(never)]
fn bind_first_by_place<'src>(
    bindings: &mut Vec<Binding<'src>>,
    places: &mut BTreeMap<Number, usize>,
    binding: Binding<'src>,
) -> Result<(), OutOfMemory>
    ensures ok { OnOk result (places.old.entries ≡ [] → AreRising bindings.old.items
        → ShowsFrame (with_bound (frame_view bindings.old.items) (bound_view binding.entry)) bindings.new.items
        places.new.entries) }
    ensures err { OnErr result (places.old.entries ≡ [] → AreRising bindings.old.items
        → (bindings.new.items ≡ bindings.old.items) × ((places.new.entries ≡ [])
        ⊎ ShowsFrame (frame_view bindings.old.items) bindings.old.items places.new.entries)) }
{
    match add_places(places, bindings) {
        Ok(()) => bind_by_place(bindings, places, binding),
        Err(error) => {
            places.clear();
            Err(error)
        }
    }
}

// The names with their values. The format is unspecified.
impl fmt::Debug for Frame<'_> {
    fn fmt<W: fmt::Write>(&self, f: &mut fmt::Formatter<W>) -> fmt::Result {
        let mut map = f.debug_map();
        for binding in self.bindings() {
            map.entry(&binding.name.lexeme(), &binding.value);
        }
        map.finish()
    }
}
