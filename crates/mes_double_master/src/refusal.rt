//! The reasons for which a master does not send an event.

use mes_json::NoMemory;

/// The reason for which a master does not send an event. M1 to M5 are checked in this order.
#[derive(Clone, Copy, Debug, PartialEq, Eq)]
pub enum MasterRefusal {
    /// M1: there is no current stream.
    NoStream,
    /// M2: an offer's identifier is that of an earlier offer, or of two of the offers.
    OfferTwice,
    /// M3: no outstanding offer has the identifier.
    NoSuchOffer,
    /// M4: an update with this agent, task and UUID was made before.
    UpdateTwice,
    /// M5: there is no unacknowledged update at the index.
    NoSuchUpdate,
    /// M6: an allocation failed.
    NoMemory,
}

impl From<NoMemory> for MasterRefusal {
    ghost use Rattle.std.specs.Prelude.{◌≡◌};
    ghost use Rattle.mes_double_master.specs.declared.refusal.MasterRefusal.TheVariants.{NoMemory as no_memory};

    ghost from_gives = { λ _ why. why ≡ no_memory };

    fn from(_refused: NoMemory) -> MasterRefusal {
        MasterRefusal::NoMemory
    }
}
