//! The numbers that words spell.

ghost use Rattle.std.specs.Prelude.{◌≡◌, ◌==◌, ◌&&◌, not, slice_index};
ghost use Rattle.program_words.specs.Numbers.{number_in};

/// The number that a text spells, in decimal digits without a sign or a leading zero, where it is at most
/// `most`.
pub(crate) fn number_in(text: &str, most: u32) -> Option<u32>
    ensures { result ≡ number_in most text.now }
{
    match text.parse::<u32>() {
        Ok(number) if is_plain(text) && number <= most => Some(number),
        _ => None,
    }
}

/// Whether a text begins with neither a sign nor 0.
fn is_plain(text: &str) -> bool
    ensures { result ≡ (not (slice_index text.now 0 == 43) && not (slice_index text.now 0 == 48)) }
{
    !text.starts_with('+') && !text.starts_with('0')
}
