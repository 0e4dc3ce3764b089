//! Theorems about the definition of a master, stated as the contract of an empty function.
ghost use Rattle.std.specs.Prelude.{◌≡◌, ◌++◌, ℕ, false, List, Option as option};
ghost use Rattle.std.specs.List.Sorted.{IsPermutation};
ghost use Rattle.mes_model.specs.Id.{Id};
ghost use Rattle.mes_model.specs.Offer.{Offer};
ghost use Rattle.mes_msg.specs.Call.{Call};
ghost use Rattle.mes_session_fit.specs.Fits.{Fits};
ghost use Rattle.mes_session_state.specs.Calls.{tasks_of};
ghost use Rattle.mes_session_state.specs.Refusals.{ids_of};
ghost use Rattle.mes_double_master.specs.Masters.{MasterState, is_subscribe, handled, stream_broke};
ghost use Rattle.mes_double_master.specs.Runs.{Deed, past_of, LaunchedOnce, TakenOnce};

/// Proves what holds after any sequence of calls, events and broken streams of a new master:
/// - no task is launched twice, and no offer is taken twice;
/// - a call with status 202 changes nothing if it is repeated at once;
/// - if the tasks of a call fit the offers that the call takes, the launched tasks fit them too;
/// - after a broken stream each call but a SUBSCRIBE gets status 403.
pub fn master_laws()
    // No task is launched twice.
    ensures launched { (framework : Id) (ids : List (List ℕ)) (interval : option ℕ)
        (deeds : List Deed) → LaunchedOnce (past_of framework ids interval deeds) }
    // No offer is taken twice.
    ensures taken { (framework : Id) (ids : List (List ℕ)) (interval : option ℕ)
        (deeds : List Deed) → TakenOnce (past_of framework ids interval deeds) }
    // A call with status 202 changes nothing if it is repeated at once.
    ensures again { (m : MasterState) (call : Call) (given : option (List ℕ))
        → (handled m call given).status ≡ 202
        → (handled (handled m call given).master call given).master
        ≡ (handled m call given).master }
    // If the tasks of a call fit the offers that the call takes, in any order, the launched tasks
    // do too.
    ensures fits { (m : MasterState) (call : Call) (given : option (List ℕ)) (offers : List Offer)
        → IsPermutation offers (handled m call given).took
        → Fits offers (tasks_of call) → Fits (handled m call given).took
        (handled m call given).ran }
    // The tasks that a call launches are the last ones in the list of launched tasks.
    ensures last { (m : MasterState) (call : Call) (given : option (List ℕ))
        → (handled m call given).master.launched
        ≡ m.launched ++ ids_of (handled m call given).ran }
    // After a broken stream each call but a SUBSCRIBE gets status 403.
    ensures broken { (m : MasterState) (call : Call) (given : option (List ℕ))
        → is_subscribe call ≡ false → (handled (stream_broke m) call given).status ≡ 403 }
{}
