//! Theorems about the changes of the test master and of the body of its current stream. Each is
//! stated as the contract of an empty function.
ghost use Rattle.std.specs.Prelude.{◌≡◌, ℕ, ◌^◌, ◌<◌, [], ◌∷◌, ◌++◌, List, Option as option, Some as some, None as none, map, slice_get};
ghost use Rattle.std.specs.List.{AllByRecursion, flat_map};
ghost use Rattle.mes_msg.specs.Event.{Event as event};
ghost use Rattle.mes_frame.specs.Chunk.{IsChunked};
ghost use Rattle.mes_model.specs.Id.{Id};
ghost use Rattle.mes_model.specs.TaskStatus.{TaskStatus};
ghost use Rattle.mes_double_cluster.specs.TaskRuns.{told_until};
ghost use Rattle.mes_double_cluster.specs.declared.task.Task.{Task};
ghost use Rattle.mes_double_faults.specs.Plans.{Plan};
ghost use Rattle.mes_double_master.specs.Masters.{MasterState};
ghost use Rattle.mes_double_master.specs.Runs.{master_with};
ghost use Rattle.mes_double_live.specs.Bodies.{BodyState, empty, cleared, last_chunk};
ghost use Rattle.mes_double_live.specs.Moving.{Moves, IsSafe};
ghost use Rattle.mes_double_live.specs.Steps.{Step, LeadsBody, LeadsTasks, LeadsWaiting, StepsTasks, arrived_by, taken_by, IsFaultless, IsFresh, IsPlain, bytes_written, sent_records};
ghost use Rattle.mes_double_live.specs.Steps.Step.{clears, reports};
ghost use Rattle.mes_double_live.specs.Reports.{Reported, reported};

/// Proves what holds of the test master of a [`Live`](crate::Live) after any sequence of inputs,
/// whatever clients, time and faults do. Each method of `Live` ensures `Moves`: the test master
/// changes only by its own deeds, and the tasks that a deed launches fit the offers that it takes.
///
/// - Methods that are called one after another move the test master as one does.
/// - From a new test master on, no task is launched twice, no offer is taken twice, and the tasks
///   that each call launches fit the offers that the call takes.
pub fn live_laws()
    // No input leaves the test master as it is.
    ensures none { (m : MasterState) → Moves m m }
    // Inputs that follow one another move the test master as one does.
    ensures then { (m n o : MasterState) → Moves m n → Moves n o → Moves m o }
    // From a new test master on, all promises are kept.
    ensures safe { (framework : Id) (ids : List (List ℕ)) (interval : option ℕ) (m : MasterState)
        → Moves (master_with framework ids interval) m → IsSafe framework ids interval m }
{}

/// Proves what the bytes of a stream of a [`Live`](crate::Live) are. Each method of `Live` that
/// succeeds ensures that the body of the stream changes only by steps that the method is allowed
/// (`StepsTo`, `BeginsWith`).
///
/// - Methods that are called one after another change the body as one does.
/// - If the run plans no fault of an event, and no event demands one, the bytes written and pending
///   of a stream, followed by a last chunk, are a chunked body. Its data are the records of the
///   events that were sent, in order.
pub fn stream_laws()
    // The steps of two calls, one after the other, lead from the first body to the last.
    ensures then { (a b c : BodyState) (first next : List Step) → LeadsBody a first b
        → LeadsBody b next c → LeadsBody a (first ++ next) c }
    // The body of a new test master is that of a new stream.
    ensures first { (most : ℕ) (plan : Plan) → IsFresh (empty most plan) }
    // So is the body after a stream ended.
    ensures next { (body : BodyState) → IsFresh (cleared body) }
    // The bytes of a stream that begins with such a body.
    ensures bytes { (old new : BodyState) (steps : List Step) → IsFresh old
        → old.most < 2 ^ 64 → IsFaultless old.plan → AllByRecursion IsPlain steps
        → LeadsBody old steps new
        → IsChunked (bytes_written steps ++ new.pending ++ last_chunk) (sent_records steps) }
    // The bytes of a stream after others, whatever was sent, demanded and lost on those.
    ensures later { (old new : BodyState) (before steps : List Step) → old.most < 2 ^ 64
        → IsFaultless old.plan → AllByRecursion IsPlain steps
        → LeadsBody old (before ++ clears ∷ steps) new
        → IsChunked (bytes_written steps ++ new.pending ++ last_chunk) (sent_records steps) }
{}

/// Proves what a [`Live`](crate::Live) reports of the tasks that were launched. They change only by
/// the steps that a method is allowed, and the next state of a task is sent in an UPDATE by the same
/// step (`reports`) that notes it. Updates that are sent again, come from outside, or require no
/// acknowledgement are not meant.
///
/// - From a new test master on, the states that were reported of a task are STARTING, RUNNING and a
///   last state, in this order, up to its present state.
/// - No state of a task is reported while the report before it waits for its acknowledgement.
pub fn task_laws()
    // The steps of two calls, one after the other, lead from the first tasks to the last.
    ensures then { (a b c : List Task) (first next : List Step) → LeadsTasks a first b
        → LeadsTasks b next c → LeadsTasks a (first ++ next) c }
    // The tasks of a run are those of `reported`, in order.
    ensures tasks { (steps : List Step) (tasks : List Task) → LeadsTasks [] steps tasks
        → map (λ (r : Reported). r.task) (reported steps) ≡ tasks }
    // What was reported of each is what is reported until its present state.
    ensures course { (steps : List Step) (tasks : List Task) (i : ℕ) (r : Reported)
        → LeadsTasks [] steps tasks → slice_get (reported steps) i ≡ some r
        → r.told ≡ told_until r.task.progress.state }
    // A task is reported only when no report of it waits for an acknowledgement.
    ensures waits { (now index update : ℕ) (finishes : option ℕ) (status : TaskStatus)
        (old new : List Task) (t : Task) → StepsTasks (reports now index update finishes status) old new
        → slice_get old index ≡ some t → t.progress.waiting ≡ none }
{}

/// Proves that a [`Live`](crate::Live) takes the events from outside in order: those that waited and
/// those that came are, in order, those that were sent, obeyed or dropped, followed by those that
/// wait. Only a RESCIND or an UPDATE is dropped. What is sent on a stream can be lost there, by a
/// fault, MUTE or BREAK.
pub fn waiting_laws()
    // The steps of two calls, one after the other, lead from the first events to the last.
    ensures then { (a b c : List event) (first next : List Step) → LeadsWaiting a first b
        → LeadsWaiting b next c → LeadsWaiting a (first ++ next) c }
    // What waited and what came are what was taken and what waits.
    ensures order { (old new : List event) (steps : List Step) → LeadsWaiting old steps new
        → old ++ flat_map arrived_by steps ≡ flat_map taken_by steps ++ new }
{}
