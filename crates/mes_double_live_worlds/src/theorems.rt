//! A theorem about a session and a live test master, stated as the contract of an empty function.
ghost use Rattle.std.specs.Prelude.{◌≡◌, ℕ, List, Option as option};
ghost use Rattle.mes_model.specs.Id.{Id};
ghost use Rattle.mes_double_master.specs.Runs.{new_master};
ghost use Rattle.mes_double_live.specs.Bodies.{BodyState};
ghost use Rattle.mes_double_live.specs.Lives.{new_live};
ghost use Rattle.mes_double.specs.declared.moves.Move.{Move};
ghost use Rattle.mes_double.specs.Courses.{Course, IsCourse};
ghost use Rattle.mes_double.specs.Promises.{KeepsPromises};
ghost use Rattle.mes_double_live_worlds.specs.LiveWorlds.{LiveWorld, Turn, Runs, new_live_world};
ghost use Rattle.mes_double_live_worlds.specs.Shows.{AckedWereHeard, AllAgrees, Shows};

use mes_double::world_laws;

/// Proves that a run of a session and a live test master is one of a world of `mes_double`, if no event on
/// a stream is lost and its heartbeat interval is the usual one. Calls can be lost, late and repeated, and
/// streams can end. No call has the fault `gone`, the session subscribes only when it reads no stream, and
/// it makes no call after a TEARDOWN was carried out.
///
/// The course of the moves shows the run (`Shows`): it has the same session, calls and test master, the
/// same calls were carried out, and but for events that change no session the same events were received
/// and wait. If the current stream was disconnected, or the session noted that, the world does so only
/// when the session subscribes again. The course keeps the promises of [`world_laws`].
pub fn live_world_laws()
    // Each run has a course of a world that shows it.
    ensures shown { (framework : Id) (ids : List (List ℕ)) (finish_after : option ℕ) (out : BodyState)
        (turns : List Turn) (w : LiveWorld)
        → Runs (new_live_world (new_live (new_master framework ids) finish_after out)) turns w
        → (list : List Move) × (c : Course) × IsCourse framework ids list c × Shows c w × KeepsPromises c }
    // Each update that the live test master has as acknowledged was received by the session.
    ensures acked { (framework : Id) (ids : List (List ℕ)) (finish_after : option ℕ) (out : BodyState)
        (turns : List Turn) (w : LiveWorld)
        → Runs (new_live_world (new_live (new_master framework ids) finish_after out)) turns w
        → AckedWereHeard w }
    // On a current stream, once no event waits and all calls of the session were carried out, the
    // session has the outstanding offers.
    ensures agrees { (framework : Id) (ids : List (List ℕ)) (finish_after : option ℕ) (out : BodyState)
        (turns : List Turn) (w : LiveWorld)
        → Runs (new_live_world (new_live (new_master framework ids) finish_after out)) turns w
        → AllAgrees w }
{
    world_laws();
}
