//! Reservations of resources.

use mes_model_schema::back::message_reads_back;
use mes_model_schema::json::{self, Element, NoMemory, Text};
use mes_model_schema::{
    ConstructFrom, Labels, OptionalRow, Part, PartFault, PathBuilder, RowList, RowRefList, Rows4,
    made, message_text, message_tree, pairs, read_message,
};
use std::alloc::Global;

/// A reservation of a resource (`Resource.ReservationInfo` in mesos.proto).
#[derive(Debug, Drop)]
pub struct Reservation {
    /// The member `type`: whether the reservation is static or dynamic.
    pub kind: Option<Text>,
    /// The role that the resource is reserved for.
    pub role: Option<Text>,
    /// The principal that made the reservation.
    pub principal: Option<Text>,
    /// The labels of the reservation.
    pub labels: Option<Labels>,
}

const RESERVATION_NAMES: [&str; 4] = ["type", "role", "principal", "labels"];

type ReservationRows = Rows4<
    OptionalRow<Text>,
    OptionalRow<Text>,
    OptionalRow<Text>,
    OptionalRow<Labels>,
>;

impl ConstructFrom<<ReservationRows as RowList>::Values> for Reservation {
    ghost use Rattle.mes_model_resource.specs.Reservations.{reservation_layout};

    ghost to = { reservation_layout.to };

    fn made_of(values: <ReservationRows as RowList>::Values) -> Reservation {
        made!(values => Reservation { kind, role, principal, labels })
    }
}

/// Expands to the borrowed values of the members, in the order of the table.
macro_rules! reservation_rows {
    ($of:ident) => {
        pairs!(
            &$of.kind,
            &$of.role,
            &$of.principal,
            &$of.labels,
        )
    };
}

impl Part for Reservation {
    ghost use Rattle.mes_model_resource.specs.Reservations.{reservation, lawful_reservation};

    ghost kind = { reservation };

    ghost STEPS = { 4 };

    const STEPS: u32 = 4;

    ghost lawful = { lawful_reservation };

    #[tactic(auto, unfolding(crate::specs::Reservations::reservation))]
    fn read_from(
        alloc: Global,
        element: &Element<'_>,
        path: &PathBuilder<'_>,
    ) -> Result<Reservation, PartFault> {
        read_message::<ReservationRows, Reservation, 4>(alloc, element, &RESERVATION_NAMES, path)
    }

    #[tactic(auto, using(crate::specs::Reservations::reservation_back), unfolding(crate::specs::Reservations::reservation))]
    fn tree(&self, alloc: Global) -> Result<json::Json, NoMemory> {
        message_tree(alloc, &RESERVATION_NAMES, &reservation_rows!(self))
    }

    #[tactic(auto, using(crate::specs::Reservations::reservation_back), unfolding(crate::specs::Reservations::reservation))]
    fn write_json(&self, alloc: Global, out: &mut Vec<u8>) -> Result<u64, NoMemory> {
        message_text(alloc, &RESERVATION_NAMES, &reservation_rows!(self), out)
    }

    fn copy(&self, alloc: Global) -> Result<Reservation, NoMemory> {
        let values = reservation_rows!(self).copy_rows(alloc)?;
        Ok(Reservation::made_of(values))
    }

    #[tactic(auto, using(crate::specs::Reservations::reservation_back))]
    fn reads_back(&self) {
        message_reads_back(&RESERVATION_NAMES, &reservation_rows!(self));
    }
}
