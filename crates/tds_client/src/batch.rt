//! What a batch carries ([MS-TDS] 2.2.6.7).

ghost use Rattle.std.specs.Prelude.{◌≡◌, ◌++◌, IfOk, OnOk};
ghost use Rattle.value_types.specs.Units.{le_bytes_of};
ghost use Rattle.tds_client.specs.Sending.{batch_payload};

use std::alloc::Global;
use value_types::{Memory, Units};

/// ALL_HEADERS with a transaction descriptor ([MS-TDS] 2.2.5.3): 22 bytes.
const ALL_HEADERS: [u8; 22] = [
    0x16, 0x00, 0x00, 0x00, 0x12, 0x00, 0x00, 0x00, 0x02, 0x00, 0x00, 0x00, 0x00, 0x00, 0x00, 0x00,
    0x00, 0x00, 0x01, 0x00, 0x00, 0x00,
];

/// What the batch of a text carries.
#[tactic(auto, unfolding(crate::specs::Sending::batch_payload))]
pub(crate) fn batch_payload(alloc: Global, text: &Units) -> Result<Vec<u8>, Memory>
    ensures { IfOk result (λ payload. payload.items ≡ batch_payload text.now) }
{
    let mut payload = Vec::from_slice(alloc, &ALL_HEADERS)?;
    put_units(&mut payload, text.as_slice())?;
    Ok(payload)
}

/// Appends units, each as two bytes.
pub(crate) fn put_units(out: &mut Vec<u8>, units: &[u16]) -> Result<(), Memory>
    ensures { OnOk result (out.new.items ≡ out.old.items ++ le_bytes_of units.now) }
{
    for unit in units {
        out.extend_from_slice(&unit.to_le_bytes())?;
    }
    Ok(())
}
