//! Whether tasks fit the offers on which they would be launched, both as JSON texts.

ghost use Rattle.std.specs.Prelude.{◌≡◌, ◌+◌, ◌≤◌, IfErr, IfOk};
ghost use Rattle.mes_model_schema.specs.Lists.{list_of};
ghost use Rattle.mes_msg.specs.Texts.{IsFaultOf, IsTextOf};
ghost use Rattle.mesosev_session.specs.FitTexts.{ChecksFit, ChecksLists, IsNoList};

use crate::text_refusal::fault_of_text;
use crate::text_stop::TextStop;
use mes_model::{List, Offer, Part, PathBuilder, TaskInfo};
use mes_model_schema::json::read_tape;
use mes_model_schema::{MAX_PATH_STEPS, read_items};
use mes_msg::RecordFault;
use mes_session::Refusal;
use mes_session_fit::first_breach;
use mes_stream::Stop;
use std::alloc::Global;

/// Checks whether the tasks fit the offers (S6), without a session. `offers` is a JSON array of
/// offers, and `tasks` one of `TaskInfo`s. Errors: `Fault`, in record 1 for the offers, then in record
/// 2 for the tasks; then `Refused` with the first resource that does not fit.
pub fn check_fit(alloc: Global, offers: &[u8], tasks: &[u8]) -> Result<(), TextStop>
    ensures { ChecksFit offers.now tasks.now result }
{
    let offers = read_list::<Offer>(alloc, offers, 1)?;
    let tasks = read_list::<TaskInfo>(alloc, tasks, 2)?;
    check_lists(offers.as_slice(), tasks.as_slice())
}

fn check_lists(offers: &[Offer], tasks: &[TaskInfo]) -> Result<(), TextStop>
    ensures { ChecksLists offers.now tasks.now result }
{
    match first_breach(&offers, &[tasks]) {
        None => Ok(()),
        Some(breach) => Err(TextStop::Refused {
            before: 0,
            refusal: Refusal::Exceeds {
                task: breach.task,
                resource: breach.resource,
            },
        }),
    }
}

/// Reads a JSON array. The error is that of the record `at_record` of a stream.
fn read_list<T: Part>(alloc: Global, bytes: &[u8], at_record: u64) -> Result<List<T>, TextStop>
    requires { 1 + T.STEPS ≤ MAX_PATH_STEPS }
    ensures ok { IfOk result (IsTextOf (list_of T.kind) bytes.now) }
    ensures err { IfErr result (IsNoList at_record T.kind bytes.now) }
{
    match list_of_bytes(alloc, bytes) {
        Ok(list) => Ok(list),
        Err(fault) => Err(TextStop::Fault(Stop {
            fault: fault_of_text(fault, at_record),
            used: bytes.len() as u64,
        })),
    }
}

fn list_of_bytes<T: Part>(alloc: Global, bytes: &[u8]) -> Result<List<T>, RecordFault>
    requires { 1 + T.STEPS ≤ MAX_PATH_STEPS }
    ensures ok { IfOk result (IsTextOf (list_of T.kind) bytes.now) }
    ensures err { IfErr result (IsFaultOf (list_of T.kind) bytes.now) }
{
    let tape = read_tape(alloc, bytes)?;
    Ok(read_items::<T>(alloc, &tape.root(), &PathBuilder::new())?)
}
