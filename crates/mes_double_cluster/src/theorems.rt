//! Theorems about the definitions that the contracts use, stated as the contract of an empty
//! function.
ghost use Rattle.std.specs.Prelude.{◌≡◌, ◌≢◌, ℕ, ◌<◌, ◌≤◌, ◌^◌, true, List, Some as some, None as none, is_some};
ghost use Rattle.mes_model_task.specs.declared.task_state.TaskState.TheVariants.{Running, Killed, Finished};
ghost use Rattle.mes_double_cluster.specs.declared.progress.Progress.{Progress as progress};
ghost use Rattle.mes_double_cluster.specs.Stock.{round_id};
ghost use Rattle.mes_double_cluster.specs.Statuses.{update_uuid};
ghost use Rattle.mes_double_cluster.specs.TaskProgress.{due, killed};
ghost use Rattle.mes_double_cluster.specs.TaskRuns.{TaskDeed, past_of, told_until};

/// Proves what the identifiers and the reports of a cluster are like:
/// - an offer has another identifier in each round, and each update another UUID;
/// - a task is reported as STARTING, RUNNING and one last state, in this order;
/// - no state is reported while an update waits for its acknowledgement;
/// - a task that is killed while it runs is reported as KILLED next, and never as FINISHED.
pub fn cluster_laws()
    // An offer has another identifier in each round.
    ensures ids { (name : List ℕ) (round other : ℕ) → 1 ≤ round → round < other → other < 2 ^ 64
        → round_id name round ≢ round_id name other }
    // Each update has another UUID.
    ensures uuids { (update other : ℕ) → update < 2 ^ 64 → other < 2 ^ 64
        → update_uuid update ≡ update_uuid other → update ≡ other }
    // Whatever happens, a task is reported as STARTING, RUNNING and one last state.
    ensures course { (deeds : List TaskDeed)
        → (past_of deeds).told ≡ told_until (past_of deeds).progress.state }
    // No state is due before the last one is acknowledged.
    ensures waits { (now : ℕ) (p : progress) → is_some p.waiting ≡ true → due now p ≡ none }
    // A task that runs is due as KILLED at once after a KILL.
    ensures kills { (now : ℕ) (p : progress) → p.state ≡ Running → p.waiting ≡ none
        → due now (killed p) ≡ some Killed }
    // A killed task is never due as FINISHED.
    ensures finished { (now : ℕ) (p : progress) → p.killed ≡ true → due now p ≢ some Finished }
{}
