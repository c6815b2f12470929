//! Texts cut into pieces.

ghost use Rattle.std.specs.Prelude.{◌≡◌, ◌<◌, ◌∷◌, length, map, option_map, not, ◌==◌, IfOk, IfSome};
ghost use Rattle.std.specs.List.{prefix_len};
ghost use Rattle.step_script.specs.Pieces.{pieces, pieces_behind};

use std::alloc::Global;
use value_types::Memory;

/// What stands between the words of a line.
pub(crate) const SPACE: u8 = 0x20;

/// The pieces into which a byte cuts a text.
pub(crate) fn pieces_of(alloc: Global, text: &[u8], mark: u8) -> Result<Vec<&[u8]>, Memory>
    ensures { IfOk result (λ all. map (λ piece. piece.now) all.items ≡ pieces mark text.now) }
{
    let mut all = Vec::new(alloc);
    let mut left = Some(text);
    while let Some(text) = left {
        let (piece, behind) = cut(text, mark);
        all.push(piece)?;
        left = behind;
    }
    Ok(all)
}

/// The first piece of a text, and what stands behind the byte that ends it, if one does.
pub fn cut(text: &[u8], mark: u8) -> (&[u8], Option<&[u8]>)
    ensures pieces { pieces mark text.now ≡ result.0.now ∷ pieces_behind mark (option_map (λ behind. behind.now) result.1) }
    ensures shorter { IfSome result.1 (λ behind. length behind.now < length text.now) }
{
    let (piece, behind) = text.split_at(count_others(text, mark));
    match behind {
        [] => (piece, None),
        [_, behind @ ..] => (piece, Some(behind)),
    }
}

/// How many bytes stand in front of the first of this value.
fn count_others(text: &[u8], mark: u8) -> usize
    ensures { result ≡ prefix_len (λ byte. not (byte == mark)) text.now }
{
    text.iter().take_while(|byte| **byte != mark).count()
}
