//! Theorems about the definitions that the contracts use, stated as contracts of empty functions.
ghost use Rattle.std.specs.Prelude.{◌≡◌, ◌↔◌, ℕ, true, List, is_some};
ghost use Rattle.mes_model.specs.OwedKey.{OwedKey};
ghost use Rattle.mes_msg.specs.Call.{Call};
ghost use Rattle.mes_msg.specs.declared.entry.Entry.{Entry};
ghost use Rattle.mes_session_state.specs.declared.refusal.Refusal.{Refusal};
ghost use Rattle.mes_session_state.specs.Held.{Held, offer_in, is_owed};
ghost use Rattle.mes_session.specs.History.{Represents, IsOfferedBy, IsOwedBy, RefusedAfter};

use crate::line::MAX_REFUSAL_LINE;
use mes_session_state::refusal_laws;

/// Proves that each history leads to exactly one state, and that a call is refused for at most one
/// reason. Also proves which offers are outstanding and which updates are unacknowledged.
pub fn session_laws()
    ensures some { (h : List Entry) → (held : Held) × Represents h held }
    // A history leads to at most one state.
    ensures one { (h : List Entry) (held other : Held) → Represents h held → Represents h other
        → held ≡ other }
    // After a history, a call has at most one reason to be refused.
    ensures refused { (h : List Entry) (call : Call) (fault other : Refusal)
        → RefusedAfter h call fault → RefusedAfter h call other → fault ≡ other }
    // An offer is outstanding if and only if an entry brings it and no later entry removes it.
    ensures hand { (h : List Entry) (held : Held) (name : List ℕ) → Represents h held
        → is_some (offer_in held.hand name) ≡ true ↔ ((i : ℕ) × IsOfferedBy h name i) }
    // An update is unacknowledged if and only if an entry requires its acknowledgement and no later
    // entry acknowledges it.
    ensures owed { (h : List Entry) (held : Held) (key : OwedKey) → Represents h held
        → is_owed key held.owed ≡ true ↔ ((i : ℕ) × IsOwedBy h key i) }
{
    refusal_laws();
}

/// Proves that `MAX_REFUSAL_LINE` is 160.
pub fn session_limits()
    ensures { MAX_REFUSAL_LINE ≡ 160 }
{}
