//! The text of an error that names something, around the name.

ghost use Rattle.std.specs.Prelude.{◌≡◌, option_map, IfSome};
ghost use Rattle.error_table.specs.Text.{parts_of, IsAscii};

/// What stands in a text of the table before the placeholder of the name, and what behind it; `None`
/// where the text has none.
#[tactic(auto, using(crate::proofs::Placeholders::no_parts))]
pub fn parts_of(text: &str) -> Option<(&str, &str)>
    ensures parts { option_map (λ parts. (parts.0.now, parts.1.now)) result ≡ parts_of text.now }
    ensures ascii { IsAscii text.now → IfSome result (λ parts. IsAscii parts.0.now × IsAscii parts.1.now) }
{
    let (before, _) = text.split_once('{')?;
    let behind = match text.split_once('}') {
        Some((_, behind)) => behind,
        None => "",
    };
    Some((before, behind))
}
