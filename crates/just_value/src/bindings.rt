// Iteration over the bindings of a frame.

use crate::binding::Binding;
use just_syntax::number::Number;
use std::collections::btree_map::Values;
use std::marker::Model;
use std::slice::Iter;

/// Iterates over the bindings of a frame, in ascending order of number.
#[derive(Debug, Drop)]
pub struct Bindings<'frame, 'src> {
    pub(crate) bindings: &'frame [Binding<'src>],
    pub(crate) left: Left<'frame, 'src>,
}

// What is still to come.
#[derive(Debug, Drop)]
pub(crate) enum Left<'frame, 'src> {
    // These bindings.
    InOrder(Iter<'frame, Binding<'src>>),
    // The bindings at these indices.
    ByPlace(Values<'frame, Number, usize>),
}

impl<'frame, 'src> Model for Bindings<'frame, 'src> {
    ghost use Rattle.std.specs.Prelude.{List};
    ghost use Rattle.std.specs.Coded.{codes};
    ghost use Rattle.just_value.specs.declared.binding.Binding.{Binding};
    ghost use Rattle.just_syntax.specs.contracts.expression.Expression as expression;
    ghost use denote.Signature.{static_lft};

    ghost Value = { List Binding };

    ghost coded = { Prim.hlevel (codes, (expression.the_row static_lft).coded) };

    ghost use Rattle.just_value.specs.Left.{AreWithin, bindings_in};

    ghost view = { λ b. bindings_in b.bindings.now b.left };

    ghost invariant = { λ b. AreWithin b.bindings.now b.left };
}

impl<'frame, 'src> Iterator for Bindings<'frame, 'src> {
    ghost use Rattle.std.specs.Prelude.{length};
    ghost use Rattle.std.specs.Iterator.{at_most};
    ghost use Rattle.just_value.specs.View.{bindings_left, bindings_steps};

    type Item = &'frame Binding<'src>;

    ghost next_gives = { bindings_steps };

    ghost remaining = { λ s. at_most (length (bindings_left s)) };

    fn next(&mut self) -> Option<&'frame Binding<'src>> {
        match &mut self.left {
            Left::InOrder(left) => left.next(),
            Left::ByPlace(places) => match places.next() {
                Some(at) => Some(&self.bindings[*at]),
                None => None,
            },
        }
    }
}
