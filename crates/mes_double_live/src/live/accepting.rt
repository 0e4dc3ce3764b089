//! How a live test master handles ACCEPT: the master launches only tasks that fit the offers.
ghost use Rattle.std.specs.Prelude.{◌≡◌, ◌⊎◌, ◌<◌, ◌||◌, [], ◌∷◌, true, false, None as none, option_copied, IfNone, IfOk, IfSome, OnOk, length, take};
ghost use Rattle.std.specs.Str.{bytes_eq};
ghost use Rattle.mes_msg.specs.Call.TheVariants as of;
ghost use Rattle.mes_session_fit.specs.Fits.{Fits};
ghost use Rattle.mes_session_state.specs.Calls.{accept_call};
ghost use Rattle.mes_session_fit.specs.Launched.{launched, launched_by};
ghost use Rattle.mes_session_state.specs.Refusals.{is_among};
ghost use Rattle.mes_double_master_state.specs.Ids.{new_tasks};
ghost use Rattle.mes_double_master.specs.Agents.{are_of};
ghost use Rattle.mes_double_master.specs.Masters.{handled};
ghost use Rattle.mes_double_live.specs.Calling.{carrying, opened_by};
ghost use Rattle.mes_double_live.specs.Launching.{is_kept, AddsAll, IsAll, IsPlan};
ghost use Rattle.mes_double_live.specs.Moving.{Moves};
ghost use Rattle.mes_double_live.specs.Steps.{BeginsWith, Handles, StepsTo, IsLaunching, IsOfCall, IsReplying};

use super::Live;
use crate::fault::LiveFault;
use crate::reply::Reply;
use crate::taken_offers::{TakenOffers, all_there};
use http::StatusCode;
use mes_double_cluster::{refusal_end, task_error, task_lost, unfitting_resource};
use mes_double_http::StreamId;
use mes_double_master::Master;
use mes_json::{NoMemory, Text};
use mes_model::{Id, TaskInfo, TaskStatus};
use mes_model_schema::Part;
use mes_msg::{Accept, Operation};
use mes_session_calls::make_accept;
use std::alloc::Global;

/// The message for the tasks of an ACCEPT that names an offer that is not outstanding.
const NOT_THERE: &str = "An offer is not outstanding";

/// The message for the tasks of an ACCEPT of offers of two agents.
const TWO_AGENTS: &str = "Offers are of two agents";

/// The tasks of an ACCEPT that are launched, and the statuses of the others.
#[derive(Drop)]
struct LaunchPlan {
    kept: Vec<TaskInfo>,
    refused: Vec<TaskStatus>,
}

impl Live {
    /// Handles an ACCEPT. The master is given the call with only those tasks that it may launch:
    /// none unless all offers are outstanding and of one agent, no task that is for another agent
    /// or was launched before, and no task that does not fit the offers beside those before it.
    pub(super) fn accept(
        &mut self,
        stream: Option<&StreamId>,
        framework: &Id,
        body: &Accept,
    ) -> Result<Reply, LiveFault>
        ensures moves { Moves self.old.master self.new.master }
        ensures steps { OnOk result (BeginsWith (IsOfCall (of.Accept framework.now body.now))
            (carrying self.old (of.Accept framework.now body.now) (option_copied stream.entry))
            self.old self.new) }
        ensures status { IfOk result (λ reply. reply.status
            ≡ (handled self.old.master (of.Accept framework.now body.now)
            (option_copied stream.entry)).status) }
        ensures opened { IfOk result (λ reply. reply.opened ≡ opened_by reply.status
            (handled self.old.master (of.Accept framework.now body.now)
            (option_copied stream.entry)).master) }
    {
        let plan = launch_plan(self.alloc, &self.master, body)?;
        let status = self.launch(stream, framework, body, plan.kept.as_slice())?;
        if status != StatusCode::ACCEPTED {
            return Ok(Reply::plain(status));
        }
        self.note_launch(body, &plan)?;
        Ok(Reply::plain(status))
    }

    /// Gives the master the ACCEPT with only these tasks, and returns the status of its response.
    fn launch(
        &mut self,
        stream: Option<&StreamId>,
        framework: &Id,
        body: &Accept,
        tasks: &[TaskInfo],
    ) -> Result<StatusCode, NoMemory>
        requires { IsPlan self.old.master body.now tasks.now }
        ensures moves { Moves self.old.master self.new.master }
        ensures rest { self.new ≡ record self.old { master = self.new.master } }
        ensures handles { OnOk result (Handles (of.Accept framework.now body.now)
            (option_copied stream.entry) self.old.master self.new.master) }
        ensures status { IfOk result (λ status. status
            ≡ (handled self.old.master
            (accept_call framework.now body.now.offer_ids tasks.now none)
            (option_copied stream.entry)).status) }
    {
        let ids = body.offer_ids.as_slice();
        let call = make_accept(self.alloc, framework, ids, tasks, None)?;
        let answer = self.master.handle(&call, stream)?;
        Ok(answer.status)
    }

    /// Notes in the cluster what was launched, and sends the statuses of the other tasks.
    fn note_launch(&mut self, body: &Accept, plan: &LaunchPlan) -> Result<(), LiveFault>
        ensures same { self.new.master ≡ self.old.master }
        ensures steps { OnOk result (StepsTo IsLaunching self.old self.new) }
    {
        let from = refusal_end(self.time, body.filters.as_ref());
        let ids = body.offer_ids.as_slice();
        self.cluster.accepted(ids, plan.kept.as_slice(), from)?;
        self.send_statuses(plan.refused.as_slice())
    }

    fn send_statuses(&mut self, statuses: &[TaskStatus]) -> Result<(), LiveFault>
        ensures same { self.new.master ≡ self.old.master }
        ensures steps { OnOk result (StepsTo IsReplying self.old self.new) }
    {
        for status in statuses {
            self.send_status(status)?;
        }
        Ok(())
    }
}

/// Returns the plan for an ACCEPT.
fn launch_plan(alloc: Global, master: &Master, body: &Accept) -> Result<LaunchPlan, NoMemory>
    ensures { IfOk result (λ plan. IsPlan master.now body.now plan.kept.items) }
{
    let outstanding = master.outstanding();
    let ids = body.offer_ids.as_slice();
    let operations = body.operations.as_slice();
    let mut plan = LaunchPlan {
        kept: Vec::new(alloc),
        refused: Vec::new(alloc),
    };
    if !all_there(outstanding, ids) {
        lose_all(alloc, operations, NOT_THERE, &mut plan.refused)?;
        return Ok(plan);
    }
    let offers = TakenOffers::of(alloc, outstanding, ids)?;
    plan_for(alloc, master, &offers, operations, &mut plan)?;
    Ok(plan)
}

/// Adds the tasks of an ACCEPT of these offers to an empty plan, if the offers are of one agent.
fn plan_for(
    alloc: Global,
    master: &Master,
    offers: &TakenOffers<'_>,
    operations: &[Operation],
    plan: &mut LaunchPlan,
) -> Result<(), NoMemory>
    requires { plan.old.kept.items ≡ [] }
    ensures fits { OnOk result (Fits offers.now plan.new.kept.items) }
    ensures whole { OnOk result (IsAll (new_tasks master.now.launched
        (launched launched_by operations.now)) offers.now plan.new.kept.items) }
{
    if offers.are_of_one_agent() {
        plan_on(alloc, master, offers, operations, plan)
    } else {
        lose_all(alloc, operations, TWO_AGENTS, &mut plan.refused)
    }
}

/// Adds the tasks of an ACCEPT of these offers, which are of one agent, to an empty plan.
fn plan_on(
    alloc: Global,
    master: &Master,
    offers: &TakenOffers<'_>,
    operations: &[Operation],
    plan: &mut LaunchPlan,
) -> Result<(), NoMemory>
    requires { plan.old.kept.items ≡ [] }
    ensures fits { OnOk result (Fits offers.now plan.new.kept.items) }
    ensures whole { OnOk result (IsAll (new_tasks master.now.launched
        (launched launched_by operations.now)) offers.now plan.new.kept.items) }
{
    plan_all(alloc, master, offers, operations, plan)?;
    if unfitting_resource(offers, plan.kept.as_slice()).is_none() {
        return Ok(());
    }
    fit_each(alloc, offers, plan)
}

/// Refuses all tasks, because of their offers.
fn lose_all(
    alloc: Global,
    operations: &[Operation],
    why: &str,
    refused: &mut Vec<TaskStatus>,
) -> Result<(), NoMemory> {
    for operation in operations {
        let Operation::Launch { task_infos } = operation;
        lose_group(alloc, task_infos.as_slice(), why, refused)?;
    }
    Ok(())
}

fn lose_group(
    alloc: Global,
    tasks: &[TaskInfo],
    why: &str,
    refused: &mut Vec<TaskStatus>,
) -> Result<(), NoMemory> {
    for task in tasks {
        refused.push(task_lost(alloc, task, why)?)?;
    }
    Ok(())
}

/// Adds the tasks to the plan, whether they fit the offers or not.
fn plan_all(
    alloc: Global,
    master: &Master,
    offers: &TakenOffers<'_>,
    operations: &[Operation],
    plan: &mut LaunchPlan,
) -> Result<(), NoMemory>
    ensures { OnOk result (AddsAll master.now.launched (launched launched_by operations.now)
        offers.now plan.old.kept.items plan.new.kept.items) }
{
    for operation in operations {
        let Operation::Launch { task_infos } = operation;
        plan_group(alloc, master, offers, task_infos.as_slice(), plan)?;
    }
    Ok(())
}

fn plan_group(
    alloc: Global,
    master: &Master,
    offers: &TakenOffers<'_>,
    tasks: &[TaskInfo],
    plan: &mut LaunchPlan,
) -> Result<(), NoMemory>
    ensures { OnOk result (AddsAll master.now.launched tasks.now offers.now plan.old.kept.items
        plan.new.kept.items) }
{
    for task in tasks {
        plan_task(alloc, master, offers, task, plan)?;
    }
    Ok(())
}

/// Adds the task to the plan, as one that is launched or as one that is refused.
fn plan_task(
    alloc: Global,
    master: &Master,
    offers: &TakenOffers<'_>,
    task: &TaskInfo,
    plan: &mut LaunchPlan,
) -> Result<(), NoMemory>
    ensures { OnOk result (AddsAll master.now.launched (task.now ∷ []) offers.now
        plan.old.kept.items plan.new.kept.items) }
{
    match refusal_of(alloc, master, offers, plan.kept.as_slice(), task)? {
        Some(message) => plan.refused.push(task_error(alloc, task, message)?)?,
        None => plan.kept.push(task.copy(alloc)?)?,
    }
    Ok(())
}

/// Returns the message for a task that was launched before, or is for another agent than the offers.
/// `kept` are the tasks of the call before it.
fn refusal_of(
    alloc: Global,
    master: &Master,
    offers: &TakenOffers<'_>,
    kept: &[TaskInfo],
    task: &TaskInfo,
) -> Result<Option<Text>, NoMemory>
    ensures refused { IfOk result (λ refusal. IfSome refusal (λ text.
        ((is_among task.now.task_id master.now.launched || is_kept task.now.task_id kept.now) ≡ true)
        ⊎ (are_of task.now.agent_id offers.now ≡ false))) }
    ensures new { IfOk result (λ refusal. IfNone refusal
        ((is_among task.now.task_id master.now.launched || is_kept task.now.task_id kept.now)
        ≡ false)) }
{
    if master.has_launched(&task.task_id) || is_kept(kept, &task.task_id) {
        let text = message(
            alloc,
            "Task has a duplicate id: ",
            task.task_id.value.as_str(),
        )?;
        return Ok(Some(text));
    }
    if !offers.are_of(&task.agent_id) {
        let text = message(
            alloc,
            "Offers are not of agent ",
            task.agent_id.value.as_str(),
        )?;
        return Ok(Some(text));
    }
    Ok(None)
}

fn is_kept(tasks: &[TaskInfo], id: &Id) -> bool
    ensures { result ≡ is_kept id.now tasks.now }
{
    tasks.iter().any(|task| is_task(task, id))
}

fn is_task(task: &TaskInfo, id: &Id) -> bool
    ensures { result ≡ bytes_eq id.now.value task.now.task_id.value }
{
    id == &task.task_id
}

/// How far the tasks of a plan are known to fit.
#[derive(Clone, Copy, Debug, PartialEq, Eq)]
struct Fitting {
    /// The first `count` tasks fit.
    count: usize,
    /// The number of tasks after them that are tried next.
    step: usize,
}

/// Retains only the tasks that fit the offers, each beside those retained before it.
fn fit_each(alloc: Global, offers: &TakenOffers<'_>, plan: &mut LaunchPlan) -> Result<(), NoMemory>
    ensures { OnOk result (Fits offers.now plan.new.kept.items) }
{
    let mut fitting = Fitting { count: 0, step: 1 };
    for _ in 0..u64::MAX {
        if fitting.count >= plan.kept.len() {
            break;
        }
        fitting = fit_more(alloc, offers, plan, fitting)?;
    }
    plan.kept.truncate(fitting.count);
    Ok(())
}

/// Tries whether the next tasks fit the offers beside those before them. One task that does not fit
/// is refused; of several, fewer are tried next.
fn fit_more(
    alloc: Global,
    offers: &TakenOffers<'_>,
    plan: &mut LaunchPlan,
    fitting: Fitting,
) -> Result<Fitting, NoMemory>
    requires before { Fits offers.now (take fitting.count plan.old.kept.items) }
    requires more { fitting.count < length plan.old.kept.items }
    ensures { IfOk result (λ next. Fits offers.now (take next.count plan.new.kept.items)) }
{
    let until = fitting
        .count
        .saturating_add(fitting.step)
        .min(plan.kept.len());
    let Some(resource) = unfitting_resource(offers, &plan.kept[..until]) else {
        let step = fitting.step.saturating_mul(2);
        return Ok(Fitting { count: until, step });
    };
    if fitting.step > 1 {
        let step = fitting.step / 2;
        return Ok(Fitting { step, ..fitting });
    }
    let text = message(alloc, "Offers have too little of ", resource.name.as_str())?;
    let task = plan.kept.remove(fitting.count);
    plan.refused.push(task_error(alloc, &task, text)?)?;
    Ok(fitting)
}

fn message(alloc: Global, front: &str, name: &str) -> Result<Text, NoMemory> {
    let mut text = String::new(alloc);
    text.push_str(front)?;
    text.push_str(name)?;
    Ok(Text::new(text))
}
