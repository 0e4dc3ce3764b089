//! The reasons for which a session refuses a call.
use mes_json::NoMemory;

/// The reason for which a session refuses a call. S1 to S7 are checked in the order of their
/// numbers.
#[derive(Clone, Copy, Debug, PartialEq, Eq)]
pub enum Refusal {
    /// S1: no SUBSCRIBED was received since the stream was disconnected, or the call names another
    /// framework. A SUBSCRIBE is refused only if it names another framework than the known one.
    NotSubscribed,
    /// S2: an ACCEPT or DECLINE names an offer twice, or an ACCEPT names a task twice.
    NamedTwice,
    /// S3: a named offer is not outstanding.
    NoSuchOffer {
        /// The index of the first such offer among the named ones, from 0.
        index: usize,
    },
    /// S4: the offers of an ACCEPT are on more than one agent.
    TwoAgents,
    /// S5: a task is to run on another agent than that of the offers, or an ACCEPT with tasks names
    /// no offers.
    WrongAgent {
        /// The index of the first such task over all operations, from 0 to at most 2^64 - 1.
        task: usize,
    },
    /// S6: the tasks take more than the offers have, or two tasks take the same point or item of a
    /// key.
    Exceeds {
        /// The index of the first such task over all operations, from 0 to at most 2^64 - 1.
        task: usize,
        /// The index of the resource in the task, from 0.
        resource: usize,
    },
    /// S7: no unacknowledged update has the key.
    NotOwed,
    /// S8: an allocation failed.
    NoMemory,
}

impl From<NoMemory> for Refusal {
    ghost use Rattle.std.specs.Prelude.{◌≡◌};
    ghost use Rattle.mes_session_state.specs.declared.refusal.Refusal.TheVariants.{NoMemory as no_memory};

    ghost from_gives = { λ _ refusal. refusal ≡ no_memory };

    fn from(_refused: NoMemory) -> Refusal {
        Refusal::NoMemory
    }
}
