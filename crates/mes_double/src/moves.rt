//! The moves of a session and a master. `running.rt` makes the moves of a list.

use mes_json::Text;
use mes_model::{List, Offer, TaskStatus};
use mes_msg::Call;

/// One step of a world: an action of the session or of the test master. A move that is impossible
/// or refused changes nothing and is counted as skipped.
#[derive(Drop)]
pub enum Move {
    /// The master makes offers and queues an OFFERS. Refused without a stream (M1) or for a
    /// repeated identifier (M2).
    Offer(List<Offer>),
    /// The master withdraws the offer with this identifier and queues a RESCIND. Refused without a
    /// stream (M1) or such an offer (M3).
    Rescind(Text),
    /// The master sends a status and queues an UPDATE. Refused without a stream (M1) or for a
    /// repeated update (M4).
    Update(TaskStatus),
    /// The master resends the update at this index among the unacknowledged ones. Refused without a
    /// stream (M1) or such an update (M5).
    Resend(usize),
    /// The session receives the first queued event, if there is one.
    Hear,
    /// The session makes the call, which is sent with the id of the current stream. The session may
    /// refuse it (S1 to S7). Without a current stream the move is impossible.
    Wish(Call),
    /// The master receives the call that was sent at this index, for the first time or again. With
    /// status 200 or 202 the events of the response are queued; any other status is a refusal.
    Arrive(usize),
    /// The master receives a SUBSCRIBE. If the SUBSCRIBE is carried out, the session's stream is
    /// disconnected, the queued events are lost, and the events of the response are queued. If the
    /// SUBSCRIBE is refused, the stream and the queue stay.
    Resubscribe,
}
