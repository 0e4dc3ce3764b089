//! Theorems about worlds, stated as the contract of an empty function.
ghost use Rattle.std.specs.Prelude.{◌≡◌, ℕ, List};
ghost use Rattle.mes_model.specs.Id.{Id};
ghost use Rattle.mes_double.specs.declared.moves.Move.{Move};
ghost use Rattle.mes_double.specs.Courses.{Course, IsCourse};
ghost use Rattle.mes_double.specs.Promises.{AckedWereHeard, LaunchedOnce, TakenOnce, WhatRanFits, WhatRanIsThere, AgainMovesNothing, HandAgrees, AllAgrees};

use mes_session_state::refusal_laws;

/// Proves what holds after any list of moves, whatever is lost, late or repeated:
/// - each acknowledged update was received;
/// - no task is launched twice, no offer is taken twice, and the tasks that a call launches fit the
///   offers that the call takes, and are of their agent;
/// - an ACCEPT, a DECLINE or an ACKNOWLEDGE with status 202 changes nothing when it arrives again;
/// - on a current stream, after the queued events, the session's offers are the outstanding ones
///   without those that a call in transit names.
///
/// A course is the final world with the events received and the calls that arrived. Each list of
/// moves has exactly one course.
pub fn world_laws()
    // Each list of moves has a course.
    ensures some { (framework : Id) (ids : List (List ℕ)) (list : List Move)
        → (c : Course) × IsCourse framework ids list c }
    // Each list of moves has at most one course.
    ensures one { (framework : Id) (ids : List (List ℕ)) (list : List Move) (c d : Course)
        → IsCourse framework ids list c → IsCourse framework ids list d → c ≡ d }
    // Each acknowledged update was received.
    ensures acked { (framework : Id) (ids : List (List ℕ)) (list : List Move) (c : Course)
        → IsCourse framework ids list c → AckedWereHeard c }
    // No task is launched twice.
    ensures launched { (framework : Id) (ids : List (List ℕ)) (list : List Move) (c : Course)
        → IsCourse framework ids list c → LaunchedOnce c }
    // No offer is taken twice.
    ensures taken { (framework : Id) (ids : List (List ℕ)) (list : List Move) (c : Course)
        → IsCourse framework ids list c → TakenOnce c }
    // The tasks that a call launches fit the offers that the call takes.
    ensures fits { (framework : Id) (ids : List (List ℕ)) (list : List Move) (c : Course)
        → IsCourse framework ids list c → WhatRanFits c }
    // The tasks that a call launches are of the agent of the offers that the call takes.
    ensures there { (framework : Id) (ids : List (List ℕ)) (list : List Move) (c : Course)
        → IsCourse framework ids list c → WhatRanIsThere c }
    // An ACCEPT, a DECLINE or an ACKNOWLEDGE with status 202 changes nothing when it arrives again.
    ensures again { (framework : Id) (ids : List (List ℕ)) (list : List Move) (c : Course)
        → IsCourse framework ids list c → AgainMovesNothing c }
    // On a current stream, after the queued events, the session's offers are the outstanding ones
    // without those that a call in transit names.
    ensures agrees { (framework : Id) (ids : List (List ℕ)) (list : List Move) (c : Course)
        → IsCourse framework ids list c → HandAgrees c }
    // On a current stream, with no queued event and no call in transit, the session's offers are
    // the outstanding ones.
    ensures same { (framework : Id) (ids : List (List ℕ)) (list : List Move) (c : Course)
        → IsCourse framework ids list c → AllAgrees c }
{
    refusal_laws();
}
