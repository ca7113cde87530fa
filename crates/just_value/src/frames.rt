// Iteration over the frames of a scope.

use crate::frame::Frame;
use crate::scope::Scope;
use std::fmt;

/// Iterates over the frames of a scope: its own frame, and then those of the scopes around it, innermost first. It
/// allocates nothing.
#[derive(Clone, Drop)]
pub struct Frames<'frame, 'src, 'run> {
    left: Option<&'frame Scope<'src, 'run>>,
}

impl<'frame, 'src, 'run> Frames<'frame, 'src, 'run> {
    ghost use Rattle.std.specs.Prelude.{◌≡◌};
    ghost use Rattle.just_value.specs.View.{frames_in, frames_left};

    // The frames of a scope.
    pub(crate) fn new(scope: &'frame Scope<'src, 'run>) -> Frames<'frame, 'src, 'run>
        ensures { frames_left result ≡ frames_in scope.now }
    {
        Frames { left: Some(scope) }
    }
}

impl<'frame, 'src> Iterator for Frames<'frame, 'src, '_> {
    ghost use Rattle.std.specs.Prelude.{length};
    ghost use Rattle.std.specs.Iterator.{at_most};
    ghost use Rattle.just_value.specs.View.{frames_left, frames_steps};

    type Item = &'frame Frame<'src>;

    ghost next_gives = { frames_steps };

    ghost remaining = { λ s. at_most (length (frames_left s)) };

    fn next(&mut self) -> Option<&'frame Frame<'src>> {
        let scope = self.left?;
        self.left = scope.outer;
        Some(&scope.frame)
    }
}

// The frames that are still to come. The format is unspecified.
impl fmt::Debug for Frames<'_, '_, '_> {
    fn fmt<W: fmt::Write>(&self, f: &mut fmt::Formatter<W>) -> fmt::Result {
        let mut list = f.debug_list();
        let mut left = self.left;
        while let Some(scope) = left {
            list.entry(&scope.frame);
            left = scope.outer;
        }
        list.finish()
    }
}
