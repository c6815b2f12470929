//! Laws of what batches mean.

ghost use Rattle.std.specs.Prelude.{◌≡◌, ℕ, List};
ghost use Rattle.batch_meaning.specs.declared.form.ReadText.{ReadText as Read};
ghost use Rattle.batch_meaning.specs.Statements.{ReadsAs};

/// A text is read as one thing.
pub fn law_reading()
    ensures { (text : List ℕ) (x y : Read) → ReadsAs text x → ReadsAs text y → x ≡ y }
{}
