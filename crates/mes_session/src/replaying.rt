//! Replaying a history of entries.
ghost use Rattle.std.specs.Prelude.{IfOk, IfErr};
ghost use Rattle.mes_session.specs.History.{Represents, IsLegal, StopsAt};

use crate::session::Session;
use mes_msg::Entry;
use mes_session_state::Refusal;
use std::alloc::Global;

/// Replays a history and returns the session after it. On error returns the index of the first
/// refused entry, from 0, and the reason. S8 (out of memory) is the reason at an event for which an
/// allocation fails.
pub fn replay(alloc: Global, entries: &[Entry]) -> Result<Session, (usize, Refusal)>
    // On success: no call is refused, and the session has the state after the history.
    ensures legal { IfOk result (λ _. IsLegal entries.now) }
    ensures represents { IfOk result (λ session. Represents entries.now session) }

    // Each error: the first refused call, or an earlier event for which an allocation failed.
    ensures err { IfErr result (λ stop. StopsAt entries.now stop.0 stop.1) }
{
    let mut session = Session::new(alloc);
    for index in 0..entries.len() {
        if let Err(refusal) = session.apply_entry(&entries[index]) {
            return Err((index, refusal));
        }
    }
    Ok(session)
}
