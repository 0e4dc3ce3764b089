//! Whether an offer of the stock may be offered.
ghost use Rattle.std.specs.Prelude.{◌≡◌};
ghost use Rattle.mes_double_cluster.specs.OfferStates.{is_due, due_from, is_made, returned, revived, accepted, after_task};

/// Where an offer of the stock is. Times are in milliseconds.
#[derive(Clone, Copy, Debug, PartialEq, Eq)]
pub enum OfferState {
    /// The offer may be made from the time `from` on.
    Free {
        /// The first time at which the offer may be made.
        from: u64,
    },
    /// The offer is outstanding.
    Outstanding,
    /// Tasks use the offer.
    Used {
        /// The number of the launch of these tasks.
        launch: u64,
        /// The number of its tasks that have not ended, at least 1.
        tasks: u64,
    },
    /// The offer was rescinded, and is never made again.
    Withdrawn,
}

impl OfferState {
    /// Returns whether the offer may be made at the time `now`.
    pub fn is_due(self, now: u64) -> bool
        ensures { result ≡ is_due now self }
    {
        match self {
            OfferState::Free { from } => from <= now,
            _ => false,
        }
    }

    /// Returns the first time at which the offer may be made, if it is free.
    pub fn due_from(self) -> Option<u64>
        ensures { result ≡ due_from self }
    {
        match self {
            OfferState::Free { from } => Some(from),
            _ => None,
        }
    }

    /// Returns whether the offer is outstanding.
    pub fn is_outstanding(self) -> bool
        ensures { result ≡ is_made self }
    {
        match self {
            OfferState::Outstanding => true,
            _ => false,
        }
    }

    /// Returns the state after the stream ended: an outstanding offer is free at once.
    pub fn returned(self, now: u64) -> OfferState
        ensures { result ≡ returned now self }
    {
        match self {
            OfferState::Outstanding => OfferState::Free { from: now },
            state => state,
        }
    }

    /// Returns the state after a REVIVE: a free offer waits no longer.
    pub fn revived(self) -> OfferState
        ensures { result ≡ revived self }
    {
        match self {
            OfferState::Free { .. } => OfferState::Free { from: 0 },
            state => state,
        }
    }

    /// Returns the state of an accepted offer on which `tasks` tasks were launched. Without tasks
    /// it is free from the time `from` on.
    pub fn accepted(launch: u64, tasks: u64, from: u64) -> OfferState
        ensures { result ≡ accepted launch tasks from }
    {
        if tasks == 0 {
            OfferState::Free { from }
        } else {
            OfferState::Used { launch, tasks }
        }
    }

    /// Returns the state after a task of this launch ended: after the last one the offer is free.
    pub fn after_task(self, ended: u64, now: u64) -> OfferState
        ensures { result ≡ after_task ended now self }
    {
        match self {
            OfferState::Used { launch, tasks } if launch == ended => {
                OfferState::accepted(launch, tasks.saturating_sub(1), now)
            }
            state => state,
        }
    }
}
