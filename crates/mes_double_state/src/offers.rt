//! The offers in stock as JSON.
ghost use Rattle.std.specs.Prelude.{◌≡◌};
ghost use Rattle.mes_double_state.specs.States.{state_name, users};

use crate::json::{ToJson, number_or_null, push_member, push_text};
use mes_double_cluster::{OfferState, StockedOffer};
use mes_json::{Json, NoMemory};
use mes_model_schema::{Part, put, whole_object};
use std::alloc::Global;

impl ToJson for StockedOffer {
    ghost use Rattle.mes_double_state.specs.States.{offer_tree};

    ghost tree = { offer_tree };

    #[tactic(auto, unfolding(mes_model_schema::specs::Numbers::whole))]
    fn to_json(&self, alloc: Global) -> Result<Json, NoMemory> {
        let from = number_or_null(alloc, self.state.due_from())?;
        let offer = self.offer().tree(alloc)?;
        let mut members = Vec::new(alloc);
        push_text(&mut members, alloc, "state", state_name(self.state))?;
        push_member(&mut members, alloc, "from", from)?;
        put(&mut members, alloc, "tasks", &users(self.state))?;
        push_member(&mut members, alloc, "offer", offer)?;
        Ok(whole_object(members))
    }
}

/// Returns the name of the state of an offer.
fn state_name(state: OfferState) -> &'static str
    ensures { result.now ≡ state_name state }
{
    match state {
        OfferState::Free { .. } => "FREE",
        OfferState::Outstanding => "OUTSTANDING",
        OfferState::Used { .. } => "USED",
        OfferState::Withdrawn => "WITHDRAWN",
    }
}

/// Returns the number of tasks that use an offer in this state.
fn users(state: OfferState) -> u64
    ensures { result ≡ users state }
{
    match state {
        OfferState::Used { tasks, .. } => tasks,
        _ => 0,
    }
}
