//! A theorem about the definitions that the contracts use, stated as the contract of an empty
//! function.
ghost use Rattle.std.specs.Prelude.{◌≡◌};
ghost use Rattle.mes_msg.specs.Call.{Call};
ghost use Rattle.mes_session_state.specs.declared.refusal.Refusal.{Refusal};
ghost use Rattle.mes_session_state.specs.Held.{Held};
ghost use Rattle.mes_session_state.specs.Refusals.{IsRefused};

/// Proves that a call is refused for at most one reason.
pub fn refusal_laws()
    // In each state, a call has at most one reason to be refused.
    ensures { (held : Held) (call : Call) (fault other : Refusal) → IsRefused held call fault
        → IsRefused held call other → fault ≡ other }
{}
