//! The reasons for which a live test master ends.

use mes_json::NoMemory;
use mes_msg::{EncodeFaultKind, SendFault};

/// The reason for which a live test master cannot go on.
#[derive(Clone, Copy, Debug, PartialEq, Eq)]
pub enum LiveFault {
    /// An allocation failed.
    NoMemory,
    /// An event has no canonical text within the limit of a record.
    Encode(EncodeFaultKind),
}

impl From<NoMemory> for LiveFault {
    ghost use Rattle.std.specs.Prelude.{◌≡◌};
    ghost use Rattle.mes_double_live.specs.declared.fault.LiveFault.TheVariants.{NoMemory as no_memory};

    ghost from_gives = { λ _ fault. fault ≡ no_memory };

    fn from(_failed: NoMemory) -> LiveFault {
        LiveFault::NoMemory
    }
}

/// Returns the reason for which an event was not encoded.
pub(crate) fn unsent(fault: SendFault) -> LiveFault {
    match fault {
        SendFault::Encode { why, .. } => LiveFault::Encode(why),
        SendFault::NoMemory | SendFault::Write(_) => LiveFault::NoMemory,
    }
}
