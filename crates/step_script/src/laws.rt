//! Laws of the form of lines.

ghost use Rattle.std.specs.Prelude.{◌≡◌, ℕ, List};
ghost use Rattle.step_script.specs.Pieces.{IsCut, pieces};

/// A text is cut into its pieces, and into no others.
pub fn law_pieces()
    ensures cut { (mark : ℕ) (text : List ℕ) → IsCut mark text (pieces mark text) }
    ensures only { (mark : ℕ) (text : List ℕ) (all : List (List ℕ)) → IsCut mark text all → all ≡ pieces mark text }
{}
