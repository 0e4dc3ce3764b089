//! A session as one JSON object.

ghost use Rattle.std.specs.Prelude.{◌≡◌, [], ◌∷◌, ◌++◌, IfOk, OnOk, map};
ghost use Rattle.std.specs.Option.{option_copied};
ghost use Rattle.mes_json.specs.View.{view};
ghost use Rattle.mes_model_schema.specs.Written.{pairs_view};
ghost use Rattle.mes_model_offer.specs.Offers.{offer as offer_kind};
ghost use Rattle.mesosev_log.specs.SessionJson.{framework_tree, key_tree, keys_tree, offers_tree, session_line, session_tree};

use mes_json::{Json, NoMemory, Text, write_text};
use mes_model::{Id, Offer, OwedKey};
use mes_model_schema::{Part, put, whole_object};
use mes_session::Session;
use std::alloc::Global;

/// Returns the line of a session after `entries` entries: one JSON object in canonical form and LF.
/// Its members are `entries`, `framework` (`null` if there is none), `connected`, `offers` (the
/// outstanding offers) and `unacknowledged` (the keys of the unacknowledged updates).
///
/// Errors: `NoMemory` if an allocation fails.
pub(crate) fn session_line(
    alloc: Global,
    session: &Session,
    entries: u64,
) -> Result<Vec<u8>, NoMemory>
    ensures { IfOk result (λ line. line.items ≡ session_line entries session.now) }
{
    let object = session_object(alloc, session, entries)?;
    let mut line = Vec::new(alloc);
    write_text(&object, &mut line)?;
    line.push(b'\n')?;
    Ok(line)
}

/// Returns the JSON object of a session.
#[tactic(auto, unfolding(mes_model_schema::specs::Numbers::whole, mes_model_schema::specs::Leaves::booleans))]
fn session_object(alloc: Global, session: &Session, entries: u64) -> Result<Json, NoMemory>
    ensures { IfOk result (λ tree. view tree ≡ session_tree entries session.now) }
{
    let framework = framework_json(alloc, session.framework())?;
    let offers = offers_json(alloc, session)?;
    let keys = keys_json(alloc, session)?;
    let mut members = Vec::new(alloc);
    put(&mut members, alloc, "entries", &entries)?;
    push_member(&mut members, alloc, "framework", framework)?;
    put(&mut members, alloc, "connected", &session.connected())?;
    push_member(&mut members, alloc, "offers", offers)?;
    push_member(&mut members, alloc, "unacknowledged", keys)?;
    Ok(whole_object(members))
}

/// Returns the JSON string of a framework, or `null`.
#[tactic(auto, using(mes_json::specs::declared::value::Json::the_lemmas), unfolding(mes_model_schema::specs::Leaves::texts))]
fn framework_json(alloc: Global, framework: Option<&Id>) -> Result<Json, NoMemory>
    ensures { IfOk result (λ tree. view tree ≡ framework_tree (option_copied framework.entry)) }
{
    match framework {
        Some(id) => id.value.tree(alloc),
        None => Ok(Json::Null),
    }
}

/// Returns the JSON array of the outstanding offers, in the order of arrival.
fn offers_json(alloc: Global, session: &Session) -> Result<Json, NoMemory>
    ensures { IfOk result (λ tree. view tree ≡ offers_tree session.now.hand) }
{
    let mut trees = Vec::new(alloc);
    for index in 0..session.hand_len() {
        if let Some(offer) = session.hand_at(index) {
            push_offer(alloc, offer, &mut trees)?;
        }
    }
    Ok(Json::List(trees))
}

/// Appends an offer.
fn push_offer(alloc: Global, offer: &Offer, trees: &mut Vec<Json>) -> Result<(), NoMemory>
    ensures { OnOk result (map view trees.new.items
        ≡ map view trees.old.items ++ offer_kind.tree offer.now ∷ []) }
{
    let tree = offer.tree(alloc)?;
    trees.push(tree)?;
    Ok(())
}

/// Returns the JSON array of the keys of the unacknowledged updates, in the order of arrival.
fn keys_json(alloc: Global, session: &Session) -> Result<Json, NoMemory>
    ensures { IfOk result (λ tree. view tree ≡ keys_tree session.now.owed) }
{
    let mut trees = Vec::new(alloc);
    for index in 0..session.owed_len() {
        if let Some(key) = session.owed_at(index) {
            push_key(alloc, key, &mut trees)?;
        }
    }
    Ok(Json::List(trees))
}

/// Appends the key of an unacknowledged update.
fn push_key(alloc: Global, key: &OwedKey, trees: &mut Vec<Json>) -> Result<(), NoMemory>
    ensures { OnOk result (map view trees.new.items
        ≡ map view trees.old.items ++ key_tree key.now ∷ []) }
{
    let tree = key_json(alloc, key)?;
    trees.push(tree)?;
    Ok(())
}

/// Returns the JSON object of the key of an unacknowledged update. The UUID is in base64.
#[tactic(auto, unfolding(mes_model_schema::specs::Leaves::texts))]
fn key_json(alloc: Global, key: &OwedKey) -> Result<Json, NoMemory>
    ensures { IfOk result (λ tree. view tree ≡ key_tree key.now) }
{
    let mut members = Vec::new(alloc);
    put(&mut members, alloc, "agent_id", &key.agent.value)?;
    put(&mut members, alloc, "task_id", &key.task.value)?;
    put(&mut members, alloc, "uuid", &key.uuid)?;
    Ok(whole_object(members))
}

/// Appends a member to those of an object.
fn push_member(
    members: &mut Vec<(Text, Json)>,
    alloc: Global,
    name: &str,
    tree: Json,
) -> Result<(), NoMemory>
    ensures { OnOk result (pairs_view members.new.items
        ≡ pairs_view members.old.items ++ (name.now, view tree) ∷ []) }
{
    let name = Text::of(alloc, name)?;
    members.push((name, tree))?;
    Ok(())
}
