//! The given events that the test master sends on a new stream.

ghost use Rattle.std.specs.Prelude.{◌≡◌, ◌≢◌, ◌⊎◌, [], ◌∷◌, ◌++◌, List, OnOk, OnErr, MatchResult};
ghost use Rattle.mes_msg.specs.Event.{Event as EventValue};
ghost use Rattle.mes_double_master.specs.declared.refusal.MasterRefusal.TheVariants.{NoMemory as no_memory};
ghost use Rattle.mesosev_serve.specs.Opening.{so_far, and_given, and_all_given};

use crate::outgoing::Outgoing;
use mes_double_master::{Master, MasterRefusal};
use mes_json::NoMemory;
use mes_msg::Event;

/// Appends the given events that are sent. OFFERS, RESCIND and UPDATE go through the master, which
/// may refuse them. Refused events and SUBSCRIBED are skipped, and all others are appended
/// unchanged.
pub(crate) fn send_all<'a>(
    master: &mut Master,
    given: &'a [Event],
    sent: &mut Outgoing<'a>,
) -> Result<(), NoMemory>
    ensures ok { OnOk result (so_far sent.new master.new
        ≡ and_all_given (so_far sent.old master.old) given.now) }
    ensures err { OnErr result ((front : List EventValue) × (rest : List EventValue)
        × (given.now ≡ front ++ rest)
        × (master.new ≡ (and_all_given (so_far sent.old master.old) front).master)) }
{
    for event in given {
        send(master, event, sent)?;
    }
    Ok(())
}

/// Like [`send_all`], for one event. If an allocation fails, the state of the master is that
/// before or after the event is sent.
fn send<'a>(master: &mut Master, given: &'a Event, sent: &mut Outgoing<'a>) -> Result<(), NoMemory>
    ensures ok { OnOk result (so_far sent.new master.new
        ≡ and_given (so_far sent.old master.old) given.now) }
    ensures err { OnErr result ((master.new ≡ master.old)
        ⊎ (master.new ≡ (and_given (so_far sent.old master.old) given.now).master)) }
{
    match given {
        Event::Subscribed(_) => Ok(()),
        Event::Offers(offers) => put(master.note_offers(offers.as_slice()), given, sent),
        Event::Rescind(body) => put(master.rescind(body.offer_id.value.as_str()), given, sent),
        Event::Update(body) => put(master.note_update(body.status.get()), given, sent),
        _ => sent.push(given),
    }
}

/// Appends the event that the master sent, unless the master refused it.
fn put<'a, T: Drop>(
    reported: Result<T, MasterRefusal>,
    given: &'a Event,
    sent: &mut Outgoing<'a>,
) -> Result<(), NoMemory>
    ensures { OnOk result (MatchResult reported (λ _. sent.new ≡ sent.old ++ given.now ∷ [])
        (λ why. (why ≢ no_memory) × (sent.new ≡ sent.old))) }
{
    match reported {
        Ok(_) => sent.push(given),
        Err(MasterRefusal::NoMemory) => Err(NoMemory),
        Err(_) => Ok(()),
    }
}
