//! Whether a key is of a range.

ghost use Rattle.std.specs.Prelude.{◌≡◌};
ghost use Rattle.step_model.specs.Database.{allows};

use step_model::Start;
use value_types::{Key, key_order, prefix_order};

/// Whether a range that starts so may begin at the key.
pub(crate) fn allows(start: &Start, key: &Key) -> bool
    ensures { result ≡ allows start.now key.now }
{
    match start {
        Start::First => true,
        Start::At(first) => !key_order(key, first).is_lt(),
        Start::Past(before) => prefix_order(key, before).is_gt(),
    }
}
