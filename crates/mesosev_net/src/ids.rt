//! The stream ids of a test master.

ghost use Rattle.std.specs.Prelude.{◌≡◌, IfOk};
ghost use Rattle.mesosev_net.specs.StreamIds.{ids_from};

use mes_json::NoMemory;
use std::alloc::Global;
use uuid::Uuid;

/// Returns `count` consecutive stream ids: 128-bit numbers that wrap around.
pub fn stream_ids(alloc: Global, first: Uuid, count: u16) -> Result<Vec<Uuid>, NoMemory>
    ensures { IfOk result (λ ids. ids.items ≡ ids_from first count) }
{
    let number = first.as_u128();
    let mut ids = Vec::new(alloc);
    for i in 0..count {
        ids.push(Uuid::from_u128(number.wrapping_add(u128::from(i))))?;
    }
    Ok(ids)
}
