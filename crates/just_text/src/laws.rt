// Laws of split and trimmed texts. Each function does nothing: its contract is the law.

ghost use Rattle.just_text.specs.Prelude.{LeavesNoneAtEnd, LeavesNoneAtStart, NoPieceHoldsSeparator};
ghost use Rattle.just_text.specs.Prelude.{PiecesGiveTextBack};

/// The pieces of a text, joined by the separator, are the original text.
pub fn pieces_give_text_back()
    ensures { PiecesGiveTextBack }
{}

/// No piece contains the separator.
pub fn no_piece_holds_separator()
    ensures { NoPieceHoldsSeparator }
{}

/// After all patterns at its start are removed, a text does not begin with the pattern.
pub fn none_left_at_start()
    ensures { LeavesNoneAtStart }
{}

/// After all patterns at its end are removed, a text does not end with the pattern.
pub fn none_left_at_end()
    ensures { LeavesNoneAtEnd }
{}
