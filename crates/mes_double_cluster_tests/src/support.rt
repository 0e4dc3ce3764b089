//! The format of the tables of tests, and the functions that run the rows.
//!
//! A row is `ACTION => RESULT`, on a cluster whose tasks run for 1,000 ms. An action is one of:
//! - `stock ID..`: offers of the agent A1 join the stock;
//! - `offer INDEX NOW`: the offer at an index is made; the result is its identifier, or `-`;
//! - `broken NOW`, `decline FROM ID..`, `rescind ID`, `suppress`, `revive`;
//! - `accept FROM ID.. / TASK..`: the tasks are launched on the offers;
//! - `report INDEX NOW`: the result is the state that is reported of the task at an index, or `-`;
//! - `ack AGENT TASK NUMBER`: the update with this number is acknowledged;
//! - `kill TASK`: the result is whether there is such a task;
//! - `told TASK STATE NOW`: others reported this state of the task;
//! - `due`: the result is the first time at which an offer or a status is due, or `-`.
//!
//! The result of every other action is the number of tasks.

use mes_double_cluster::{Cluster, update_uuid};
use mes_json::{Text, read_tape};
use mes_model::{Bytes, Id, Offer, Part, PathBuilder, TaskInfo, TaskState};
use mes_msg::Acknowledge;
use std::alloc::{AllocGlobal, Global};
use std::process::Abort;
use std::test::Fail;

/// The time for which the tasks of a table run, in milliseconds.
const RUNS_FOR: u64 = 1_000;

pub(crate) fn id_of(alloc: Global, name: &str) -> Result<Id, Fail> {
    Ok(Id {
        value: Text::of(alloc, name)?,
    })
}

fn offer_of(alloc: Global, name: &str) -> Result<Offer, Fail> {
    let text = format!(in alloc;
        r#"{{"id":{{"value":"{}"}},"framework_id":{{"value":"F1"}},"agent_id":{{"value":"A1"}},"hostname":"h"}}"#,
        name
    )?;
    let tape = read_tape(alloc, text.as_bytes())?;
    match Offer::read_from(alloc, &tape.root(), &PathBuilder::new()) {
        Ok(offer) => Ok(offer),
        Err(_) => Err("an offer")?,
    }
}

pub(crate) fn task_of(alloc: Global, name: &str) -> Result<TaskInfo, Fail> {
    task_with(alloc, name, "")
}

/// Returns a task of the agent A1 with these resources.
pub(crate) fn task_with(alloc: Global, name: &str, resources: &str) -> Result<TaskInfo, Fail> {
    let text = format!(in alloc;
        r#"{{"name":"t","task_id":{{"value":"{}"}},"agent_id":{{"value":"A1"}},"resources":[{}]}}"#,
        name, resources
    )?;
    let tape = read_tape(alloc, text.as_bytes())?;
    match TaskInfo::read_from(alloc, &tape.root(), &PathBuilder::new()) {
        Ok(task) => Ok(task),
        Err(_) => Err("a task")?,
    }
}

pub(crate) fn number_of(text: &str) -> Result<u64, Fail> {
    match text.parse::<u64>() {
        Ok(number) => Ok(number),
        Err(_) => Err("a number")?,
    }
}

fn state_of(name: &str) -> Result<TaskState, Fail> {
    Ok(TaskState::of_name(name).ok_or("a state")?)
}

fn ids_of(alloc: Global, names: &str) -> Result<Vec<Id>, Fail> {
    let mut ids = Vec::new(alloc);
    for name in names.split_ascii_whitespace() {
        ids.push(id_of(alloc, name)?)?;
    }
    Ok(ids)
}

fn offers_of(alloc: Global, names: &str) -> Result<Vec<Offer>, Fail> {
    let mut offers = Vec::new(alloc);
    for name in names.split_ascii_whitespace() {
        offers.push(offer_of(alloc, name)?)?;
    }
    Ok(offers)
}

fn tasks_of(alloc: Global, names: &str) -> Result<Vec<TaskInfo>, Fail> {
    let mut tasks = Vec::new(alloc);
    for name in names.split_ascii_whitespace() {
        tasks.push(task_of(alloc, name)?)?;
    }
    Ok(tasks)
}

/// Returns the two words of a text, or its first word and the rest.
pub(crate) fn halves(text: &str) -> Result<(&str, &str), Fail> {
    Ok(text.split_once(" ").ok_or("two words")?)
}

fn accept(alloc: Global, cluster: &mut Cluster, rest: &str) -> Result<(), Fail> {
    let (offers, tasks) = rest.split_once(" /").ok_or("offers and tasks")?;
    let (from, offers) = halves(offers)?;
    let from = number_of(from)?;
    let ids = ids_of(alloc, offers)?;
    let tasks = tasks_of(alloc, tasks)?;
    cluster.accepted(ids.as_slice(), tasks.as_slice(), from)?;
    Ok(())
}

fn decline(alloc: Global, cluster: &mut Cluster, rest: &str) -> Result<(), Fail> {
    let (from, offers) = halves(rest)?;
    let from = number_of(from)?;
    let ids = ids_of(alloc, offers)?;
    cluster.declined(ids.as_slice(), from);
    Ok(())
}

/// Returns the UUID of the update with this number.
fn uuid_of(alloc: Global, number: &str) -> Result<Bytes, Fail> {
    let uuid = update_uuid(number_of(number)?);
    let mut bytes = Vec::new(alloc);
    bytes.extend_from_slice(uuid.as_bytes())?;
    Ok(Bytes::new(bytes))
}

fn acknowledge(alloc: Global, cluster: &mut Cluster, rest: &str) -> Result<(), Fail> {
    let (agent, rest) = halves(rest)?;
    let (task, update) = halves(rest)?;
    let body = Acknowledge {
        agent_id: id_of(alloc, agent)?,
        task_id: id_of(alloc, task)?,
        uuid: uuid_of(alloc, update)?,
    };
    cluster.acknowledged(&body);
    Ok(())
}

fn tell(alloc: Global, cluster: &mut Cluster, rest: &str) -> Result<(), Fail> {
    let (task, rest) = halves(rest)?;
    let (state, now) = halves(rest)?;
    let state = state_of(state)?;
    let now = number_of(now)?;
    let id = id_of(alloc, task)?;
    cluster.overtaken(&id, state, now);
    Ok(())
}

fn offered(alloc: Global, cluster: &mut Cluster, rest: &str) -> Result<String, Fail> {
    let (index, now) = halves(rest)?;
    let index = number_of(index)? as usize;
    match cluster.offer_at(index, number_of(now)?)? {
        Some(offer) => {
            cluster.offered(index);
            Ok(String::from_str(alloc, offer.id.value.as_str())?)
        }
        None => Ok(String::from_str(alloc, "-")?),
    }
}

fn reported(alloc: Global, cluster: &mut Cluster, rest: &str) -> Result<String, Fail> {
    let (index, now) = halves(rest)?;
    let index = number_of(index)? as usize;
    let now = number_of(now)?;
    match cluster.status_at(index, now)? {
        Some(status) => {
            cluster.reported(index, status.state, now);
            Ok(String::from_str(alloc, status.state.name())?)
        }
        None => Ok(String::from_str(alloc, "-")?),
    }
}

pub(crate) fn time_text(alloc: Global, time: Option<u64>) -> Result<String, Fail> {
    match time {
        Some(time) => Ok(format!(in alloc; "{}", time)?),
        None => Ok(String::from_str(alloc, "-")?),
    }
}

fn rescind(alloc: Global, cluster: &mut Cluster, name: &str) -> Result<(), Fail> {
    let id = id_of(alloc, name)?;
    cluster.rescinded(&id);
    Ok(())
}

fn stock(alloc: Global, cluster: &mut Cluster, names: &str) -> Result<(), Fail> {
    cluster.stock(offers_of(alloc, names)?)?;
    Ok(())
}

fn killed(alloc: Global, cluster: &mut Cluster, name: &str) -> Result<String, Fail> {
    let id = id_of(alloc, name)?;
    let text = if cluster.kill(&id) { "true" } else { "false" };
    Ok(String::from_str(alloc, text)?)
}

/// Carries out an action on the offers in stock, if it is one.
fn change_stock(alloc: Global, cluster: &mut Cluster, word: &str, rest: &str) -> Result<(), Fail> {
    match word {
        "stock" => stock(alloc, cluster, rest),
        "broken" => {
            cluster.disconnected(number_of(rest)?);
            Ok(())
        }
        "decline" => decline(alloc, cluster, rest),
        "rescind" => rescind(alloc, cluster, rest),
        _ => Err("an action")?,
    }
}

fn change(alloc: Global, cluster: &mut Cluster, word: &str, rest: &str) -> Result<(), Fail> {
    match word {
        "suppress" => {
            cluster.suppress();
            Ok(())
        }
        "revive" => {
            cluster.revive();
            Ok(())
        }
        "accept" => accept(alloc, cluster, rest),
        "ack" => acknowledge(alloc, cluster, rest),
        "told" => tell(alloc, cluster, rest),
        _ => change_stock(alloc, cluster, word, rest),
    }
}

fn number_text(alloc: Global, number: usize) -> Result<String, Fail> {
    Ok(format!(in alloc; "{}", number)?)
}

fn run(alloc: Global, cluster: &mut Cluster, action: &str) -> Result<String, Fail> {
    let (word, rest) = action.split_once(" ").unwrap_or((action, ""));
    match word {
        "offer" => offered(alloc, cluster, rest),
        "report" => reported(alloc, cluster, rest),
        "kill" => killed(alloc, cluster, rest),
        "due" => time_text(alloc, cluster.first_due()),
        _ => {
            change(alloc, cluster, word, rest)?;
            number_text(alloc, cluster.tasks_len())
        }
    }
}

/// Runs the actions of the rows on a cluster, and expects the result of each.
fn expect_results<R: Abort + AllocGlobal>(
    rt: &R,
    cluster: &mut Cluster,
    rows: &str,
) -> Result<(), Fail> {
    for row in rows.lines() {
        let (action, expected) = row.split_once(" => ").ok_or("a row has a result")?;
        let result = run(rt.alloc(), cluster, action)?;
        assert_eq!(rt; result.as_str(), expected, "{row}");
    }
    Ok(())
}

/// Runs the actions of the rows on a new cluster, and expects the result of each.
pub(crate) fn expect_run<R: Abort + AllocGlobal>(rt: &R, rows: &str) -> Result<(), Fail> {
    let mut cluster = Cluster::new(rt.alloc(), Some(RUNS_FOR));
    expect_results(rt, &mut cluster, rows)
}
