// Scopes: an own frame, and the enclosing frames.

ghost use Rattle.std.specs.Prelude.{IfOk, OnErr, OnOk, [], length, map, option_map, ◌<◌, ◌∷◌, ◌≡◌, ◌^◌};
ghost use Rattle.std.specs.Map.{values_of};
ghost use Rattle.just_value.specs.Prelude.{IsRising, bindings_left, bound_innermost, bound_view, constant_bound};
ghost use Rattle.just_value.specs.Prelude.{constant_view, enclosing_view, frame_view, frames_left};
ghost use Rattle.just_value.specs.Prelude.{frames_view, innermost, outer_frames, own_frame, value_in, with_constants};

use crate::binding::Binding;
use crate::bindings::Bindings;
use crate::frame::Frame;
use crate::frames::Frames;
use crate::value::Value;
use just_syntax::attribute_set::AttributeSet;
use just_syntax::name::Name;
use just_syntax::number::Number;
use just_syntax::numerator::Numerator;
use just_syntax::out_of_memory::OutOfMemory;
use just_syntax::token::Token;
use std::alloc::Global;
use std::fmt;

/// An own frame, and the scope around it, if there is one.
#[derive(Drop)]
pub struct Scope<'src, 'run> {
    pub(crate) frame: Frame<'src>,
    pub(crate) outer: Option<&'run Scope<'src, 'run>>,
}

impl<'src, 'run> Scope<'src, 'run> {
    /// One frame that binds these constants, given as keys and values, to their indices counted from 0. Each belongs to
    /// the prelude, and its name's path is `PRELUDE`. Upstream's `Scope::root`, which has constants of its own.
    ///
    /// # Errors
    ///
    /// `OutOfMemory`, if an allocation fails: nothing is created.
    pub fn root(
        alloc: Global,
        constants: &[(&'src str, &'src str)],
    ) -> Result<Scope<'src, 'run>, OutOfMemory>
        ensures { IfOk result (λ scope. frames_view scope ≡ with_constants [] 0 (map constant_view constants.now)
            ∷ []) }
    {
        let mut frame = Frame::with_capacity(alloc, constants.len())?;
        for (i, (key, value)) in constants.iter().enumerate() {
            let value = Value::from_text(alloc, value)?;
            frame.bind(constant(alloc, Numerator::constant(i), key, value))?;
        }
        Ok(Scope { frame, outer: None })
    }

    /// A new frame without bindings, enclosed by the frames of this scope. Upstream's `Scope::child`.
    ///
    /// # Errors
    ///
    /// `OutOfMemory`, if an allocation fails: nothing is created, and this scope is unchanged.
    pub fn child<'inner>(&'inner self, alloc: Global) -> Result<Scope<'src, 'inner>, OutOfMemory>
        ensures { IfOk result (λ scope. frames_view scope ≡ [] ∷ frames_view self.now) }
    {
        self.child_with_capacity(alloc, 0)
    }

    /// As `child`, with room for as many bindings.
    ///
    /// # Errors
    ///
    /// Those of `child`.
    pub fn child_with_capacity<'inner>(
        &'inner self,
        alloc: Global,
        bindings: usize,
    ) -> Result<Scope<'src, 'inner>, OutOfMemory>
        ensures { IfOk result (λ scope. frames_view scope ≡ [] ∷ frames_view self.now) }
    {
        let frame = Frame::with_capacity(alloc, bindings)?;
        Ok(Scope {
            frame,
            outer: Some(self),
        })
    }

    /// Binds a number in the own frame; this replaces its binding there, if it has one. It allocates only for a number
    /// that is not bound there. Upstream's `Scope::bind`.
    ///
    /// # Errors
    ///
    /// `OutOfMemory`, if an allocation fails: the scope is unchanged, and the binding is dropped.
    pub fn bind(&mut self, binding: Binding<'src>) -> Result<(), OutOfMemory>
        ensures ok { OnOk result (frames_view self.new ≡ bound_innermost (frames_view self.old)
            (bound_view binding.entry)) }
        ensures err { OnErr result (frames_view self.new ≡ frames_view self.old) }
    {
        self.frame.bind(binding)
    }

    /// The binding of a number in the innermost frame that has one, if any has. Upstream's `Scope::binding`.
    pub fn binding(&self, number: Number) -> Option<&Binding<'src>>
        ensures { option_map (λ b. bound_view b.now) result ≡ innermost number (frames_view self.now) }
    {
        if let Some(own) = self.frame.binding(number) {
            return Some(own);
        }
        binding_in(self.outer, number)
    }

    /// The value of a number in the innermost frame that binds it, if any does. Upstream's `Scope::value`.
    pub fn value(&self, number: Number) -> Option<&Value>
        ensures { option_map (λ v. v.now) result ≡ value_in (frames_view self.now) number }
    {
        match self.binding(number) {
            Some(binding) => Some(&binding.value),
            None => None,
        }
    }

    /// The bindings of the own frame, in ascending order of number. Upstream's `Scope::bindings`.
    pub fn bindings(&self) -> Bindings<'_, 'src>
        ensures once { map bound_view (bindings_left result) ≡ values_of (own_frame (frames_view self.now)) }
        ensures rising { IsRising (map bound_view (bindings_left result)) }
        ensures count { length (bindings_left result) < 2 ^ 64 }
    {
        self.frame.bindings()
    }

    /// The own frame.
    pub fn frame(&self) -> &Frame<'src>
        ensures { frame_view result.now ≡ own_frame (frames_view self.now) }
    {
        &self.frame
    }

    /// The enclosing scope, if there is one. A scope from `root` has none, and one from `child` has one. Upstream's
    /// `Scope::parent`.
    pub fn parent(&self) -> Option<&'run Scope<'src, 'run>>
        ensures { option_map (λ outer. frames_view outer.now) result ≡ outer_frames (frames_view self.now) }
    {
        self.outer
    }

    /// The frames: the own one, and then those of the enclosing scopes, innermost first. It allocates nothing.
    ///
    /// ```rust
    /// for frame in scope.frames() {
    ///     if frame.binding(number).is_some() {
    ///         return true;
    ///     }
    /// }
    /// ```
    pub fn frames(&self) -> Frames<'_, 'src, 'run>
        ensures { map frame_view (frames_left result) ≡ frames_view self.now }
    {
        Frames::new(self)
    }

    /// The frames of the enclosing scopes, innermost first. It allocates one reference for each.
    ///
    /// # Errors
    ///
    /// `OutOfMemory`, if an allocation fails: nothing is created.
    pub fn outer_frames(&self, alloc: Global) -> Result<Vec<&'run Frame<'src>>, OutOfMemory>
        ensures { IfOk result (λ frames. own_frame (frames_view self.now) ∷ map (λ f. frame_view f.now) frames.items
            ≡ frames_view self.now) }
    {
        let mut frames = Vec::new(alloc);
        let mut next = self.outer;
        while let Some(scope) = next {
            frames.push(&scope.frame)?;
            next = scope.outer;
        }
        Ok(frames)
    }
}

// The binding of a number in the innermost frame that has one, of a scope and those around it.
fn binding_in<'run, 'src>(
    scope: Option<&'run Scope<'src, 'run>>,
    number: Number,
) -> Option<&'run Binding<'src>>
    ensures { option_map (λ b. bound_view b.now) result ≡ innermost number (enclosing_view scope.entry) }
{
    let mut next = scope;
    while let Some(scope) = next {
        if let Some(found) = scope.frame.binding(number) {
            return Some(found);
        }
        next = scope.outer;
    }
    None
}

// The binding of a constant.
fn constant<'src>(alloc: Global, number: Number, key: &'src str, value: Value) -> Binding<'src>
    ensures { bound_view result ≡ constant_bound number key.now value }
{
    Binding {
        attributes: AttributeSet::new(alloc),
        eager: false,
        export: false,
        file_depth: 0,
        name: Name {
            token: Token {
                column: 0,
                line: 0,
                offset: 0,
                lexeme: key,
                path: "PRELUDE",
            },
        },
        number,
        prelude: true,
        private: false,
        value,
    }
}

// The frames, innermost first. The format is unspecified.
impl fmt::Debug for Scope<'_, '_> {
    fn fmt<W: fmt::Write>(&self, f: &mut fmt::Formatter<W>) -> fmt::Result {
        let mut list = f.debug_list();
        list.entry(&self.frame);
        let mut outer = self.outer;
        while let Some(scope) = outer {
            list.entry(&scope.frame);
            outer = scope.outer;
        }
        list.finish()
    }
}
