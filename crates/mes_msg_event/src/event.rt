//! An event of the scheduler API. The bodies are in the crate `mes_msg_event_body`.
ghost use Rattle.std.specs.Prelude.{◌≡◌, [], ◌∷◌, ◌++◌, IfErr, IfOk, OnOk};
ghost use Rattle.mes_model_schema.specs.Tree.Tree.{string};
ghost use Rattle.mes_model_schema.specs.Appended.{AppendsMembers};
ghost use Rattle.mes_model_schema.specs.Choices.{type_name};
ghost use Rattle.mes_model_schema.specs.Kinds.{Returns};
ghost use Rattle.mes_model_schema.specs.Written.{pairs_view, Continues};
ghost use Rattle.mes_msg_event.specs.Events.{event_rows};

use mes_model_offer::Offer;
use mes_model_schema::json::{self, Element, NoMemory, Text};
use mes_model_schema::{
    Choice, Found, List, Part, PartFault, PathBuilder, append_name, copy_list, deeper,
    push_type_tree, put, read_typed, required, type_of, typed_text, typed_tree, write_case_text,
    write_row_text, write_type_text,
};
use mes_msg_event_body::{
    ErrorBody, Failure, Offers, OtherName, Rescind, Subscribed, Update, offers_read_back,
    offers_text, offers_tree,
};
use mes_msg_record::Message;
use std::alloc::Global;

/// An event of the scheduler API (scheduler.proto, `Event`).
#[derive(Debug, Drop)]
pub enum Event {
    /// SUBSCRIBED: the framework is subscribed.
    Subscribed(Subscribed),
    /// OFFERS: resources are offered.
    Offers(List<Offer>),
    /// RESCIND: an offer is no longer valid.
    Rescind(Rescind),
    /// UPDATE: the status of a task.
    Update(Update),
    /// MESSAGE: bytes from an executor to the framework.
    Message(Message),
    /// FAILURE: an agent or an executor is lost.
    Failure(Failure),
    /// ERROR: the master no longer serves the framework and gives a reason.
    Error(ErrorBody),
    /// HEARTBEAT: the connection is alive.
    Heartbeat,
    /// An event of any other type. Its name is retained, its body is ignored.
    Other(OtherName),
}

const EVENT_MEMBERS: [&str; 8] = [
    "type",
    "subscribed",
    "offers",
    "rescind",
    "update",
    "message",
    "failure",
    "error",
];

impl Choice for Event {
    ghost use Rattle.mes_msg_event.specs.Events.{event_members, event_rows, lawful_event_rows};
    ghost use Rattle.std.specs.Prelude.{refl};

    ghost names = { event_members };

    ghost table = { event_rows };

    ghost STEPS = { 11 };

    ghost COUNT = { 8 };

    const COUNT: usize = 8;

    ghost counted = { refl };

    ghost lawful = { lawful_event_rows };

    #[tactic(auto, using(mes_model_schema::specs::NameLaws::names_differ))]
    fn read_choice(
        alloc: Global,
        found: &[Found<'_>],
        path: &PathBuilder<'_>,
    ) -> Result<Event, PartFault> {
        match type_of(alloc, &found[0], path)? {
            "SUBSCRIBED" => Ok(Event::Subscribed(required(alloc, &found[1], "subscribed", path)?)),
            "OFFERS" => {
                let body: Offers = required(alloc, &found[2], "offers", path)?;
                Ok(Event::Offers(body.into_list()))
            }
            "RESCIND" => Ok(Event::Rescind(required(alloc, &found[3], "rescind", path)?)),
            "UPDATE" => Ok(Event::Update(required(alloc, &found[4], "update", path)?)),
            "MESSAGE" => Ok(Event::Message(required(alloc, &found[5], "message", path)?)),
            "FAILURE" => Ok(Event::Failure(required(alloc, &found[6], "failure", path)?)),
            "ERROR" => Ok(Event::Error(required(alloc, &found[7], "error", path)?)),
            "HEARTBEAT" => Ok(Event::Heartbeat),
            name => Ok(Event::Other(OtherName::of_type(alloc, name)?)),
        }
    }

    fn push_choice_tree(
        &self,
        members: &mut Vec<(Text, json::Json)>,
        alloc: Global,
    ) -> Result<(), NoMemory> {
        match self {
            Event::Subscribed(body) => put_body(members, alloc, "SUBSCRIBED", "subscribed", body),
            Event::Offers(list) => put_offers(members, alloc, list),
            Event::Rescind(body) => put_body(members, alloc, "RESCIND", "rescind", body),
            Event::Update(body) => put_body(members, alloc, "UPDATE", "update", body),
            Event::Message(body) => put_body(members, alloc, "MESSAGE", "message", body),
            Event::Failure(body) => put_body(members, alloc, "FAILURE", "failure", body),
            Event::Error(body) => put_body(members, alloc, "ERROR", "error", body),
            Event::Heartbeat => push_type_tree(members, alloc, "HEARTBEAT"),
            Event::Other(name) => put(members, alloc, "type", name.text()),
        }
    }

    fn write_choice_text(&self, alloc: Global, out: &mut Vec<u8>) -> Result<u64, NoMemory> {
        match self {
            Event::Subscribed(body) => write_case_text(
                alloc,
                "SUBSCRIBED",
                "subscribed",
                body,
                out,
            ),
            Event::Offers(list) => append_offers(alloc, list, out),
            Event::Rescind(body) => write_case_text(alloc, "RESCIND", "rescind", body, out),
            Event::Update(body) => write_case_text(alloc, "UPDATE", "update", body, out),
            Event::Message(body) => write_case_text(alloc, "MESSAGE", "message", body, out),
            Event::Failure(body) => write_case_text(alloc, "FAILURE", "failure", body, out),
            Event::Error(body) => write_case_text(alloc, "ERROR", "error", body, out),
            Event::Heartbeat => write_type_text("HEARTBEAT", out),
            Event::Other(name) => write_row_text(alloc, "type", name.text(), out),
        }
    }

    fn copy_choice(&self, alloc: Global) -> Result<Event, NoMemory> {
        match self {
            Event::Subscribed(body) => Ok(Event::Subscribed(body.copy(alloc)?)),
            Event::Offers(list) => Ok(Event::Offers(copy_list(alloc, list)?)),
            Event::Rescind(body) => Ok(Event::Rescind(body.copy(alloc)?)),
            Event::Update(body) => Ok(Event::Update(body.copy(alloc)?)),
            Event::Message(body) => Ok(Event::Message(body.copy(alloc)?)),
            Event::Failure(body) => Ok(Event::Failure(body.copy(alloc)?)),
            Event::Error(body) => Ok(Event::Error(body.copy(alloc)?)),
            Event::Heartbeat => Ok(Event::Heartbeat),
            Event::Other(name) => Ok(Event::Other(name.copy(alloc)?)),
        }
    }

    fn choice_reads_back(&self) {
        match self {
            Event::Subscribed(body) => body.reads_back(),
            Event::Offers(list) => offers_read_back(list),
            Event::Rescind(body) => body.reads_back(),
            Event::Update(body) => body.reads_back(),
            Event::Message(body) => body.reads_back(),
            Event::Failure(body) => body.reads_back(),
            Event::Error(body) => body.reads_back(),
            Event::Heartbeat => {}
            Event::Other(name) => {
                let _other = name.text();
            }
        }
    }
}

impl Part for Event {
    ghost use Rattle.mes_msg_event.specs.Events.{event, lawful_event};

    ghost kind = { event };

    ghost STEPS = { 11 };

    const STEPS: u32 = 11;

    ghost lawful = { lawful_event };

    #[tactic(auto, unfolding(crate::specs::Events::event))]
    fn read_from(
        alloc: Global,
        element: &Element<'_>,
        path: &PathBuilder<'_>,
    ) -> Result<Event, PartFault> {
        read_typed::<Event, 8>(alloc, element, &EVENT_MEMBERS, path)
    }

    #[tactic(auto, using(crate::specs::Events::event_back), unfolding(crate::specs::Events::event))]
    fn tree(&self, alloc: Global) -> Result<json::Json, NoMemory> {
        typed_tree(alloc, self)
    }

    #[tactic(auto, using(crate::specs::Events::event_back), unfolding(crate::specs::Events::event))]
    fn write_json(&self, alloc: Global, out: &mut Vec<u8>) -> Result<u64, NoMemory> {
        typed_text(alloc, self, out)
    }

    fn copy(&self, alloc: Global) -> Result<Event, NoMemory> {
        self.copy_choice(alloc)
    }

    #[tactic(auto, using(crate::specs::Events::event_back))]
    fn reads_back(&self) {
        self.choice_reads_back();
    }
}

/// Appends the member `type`, and the member `name` with the body as its value.
fn put_body<T: Part>(
    members: &mut Vec<(Text, json::Json)>,
    alloc: Global,
    kind: &'static str,
    name: &'static str,
    body: &T,
) -> Result<(), NoMemory>
    ensures members { OnOk result (pairs_view members.new.items
        ≡ pairs_view members.old.items ++ (type_name, string kind.now)
        ∷ (name.now, T.kind.tree body.now) ∷ []) }
    ensures front { IfErr result (λ _. Continues (pairs_view members.old.items)
        (pairs_view members.new.items)) }
    ensures back { OnOk result (Returns T.kind body.now) }
{
    push_type_tree(members, alloc, kind)?;
    put(members, alloc, name, body)
}

/// Appends the members `type` and `offers` of OFFERS.
fn put_offers(
    members: &mut Vec<(Text, json::Json)>,
    alloc: Global,
    list: &List<Offer>,
) -> Result<(), NoMemory>
    ensures members { OnOk result (pairs_view members.new.items
        ≡ pairs_view members.old.items ++ event_rows.members (Event.Offers list.now)) }
    ensures front { IfErr result (λ _. Continues (pairs_view members.old.items)
        (pairs_view members.new.items)) }
    ensures back { OnOk result (event_rows.Back (Event.Offers list.now)) }
{
    push_type_tree(members, alloc, "OFFERS")?;
    let tree = offers_tree(alloc, list)?;
    let name = Text::of(alloc, "offers")?;
    members.push((name, tree))?;
    Ok(())
}

/// Appends the text of the members `type` and `offers`, and returns the greater nesting depth of
/// their values.
#[tactic(auto, using(mes_model_schema::proofs::AppendLemmas::both_members))]
fn append_offers(alloc: Global, list: &List<Offer>, out: &mut Vec<u8>) -> Result<u64, NoMemory>
    ensures members { IfOk result (λ deep. AppendsMembers out.old.items
        (event_rows.members (Event.Offers list.now)) out.new.items deep) }
    ensures back { OnOk result (event_rows.Back (Event.Offers list.now)) }
{
    let first = write_type_text("OFFERS", out)?;
    append_name("offers", out)?;
    let second = offers_text(alloc, list, out)?;
    Ok(deeper(first, second))
}
