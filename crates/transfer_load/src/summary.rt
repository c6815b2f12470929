//! What a load prints.

ghost use Rattle.std.specs.Prelude.{◌≡◌, string_bytes, IfOk};
ghost use Rattle.transfer_load.specs.Replies.{number_text, summary_text};

use crate::replies::Counts;
use std::alloc::Global;
use value_types::Memory;

/// The three lines of a summary.
#[tactic(auto, unfolding(crate::specs::Replies::summary_text))]
pub(crate) fn summary_text(
    alloc: Global,
    counts: Counts,
    total: Option<i64>,
) -> Result<String, Memory>
    ensures { IfOk result (λ text. string_bytes text ≡ summary_text counts.transfers counts.refused total) }
{
    let total = number_text(alloc, total)?;
    let Counts { transfers, refused } = counts;
    let text = format!(in alloc; "transfers {transfers}\nrefused {refused}\ntotal {total}\n")?;
    Ok(text)
}

/// A number, or that there is none.
fn number_text(alloc: Global, number: Option<i64>) -> Result<String, Memory>
    ensures { IfOk result (λ text. string_bytes text ≡ number_text number) }
{
    let text = match number {
        Some(number) => format!(in alloc; "{number}")?,
        None => String::from_str(alloc, "none")?,
    };
    Ok(text)
}
