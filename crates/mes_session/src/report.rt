//! The printed report of a session.
ghost use Rattle.std.specs.Prelude.{◌≡◌, [], ◌∷◌, ◌++◌, codes, decimal, IfOk};
ghost use Rattle.std.specs.List.{flat_map};
ghost use Rattle.mes_msg.specs.ShowLines.{or_dash, id_text};
ghost use Rattle.mes_session.specs.Printed.{report_line, report_text, hand_line, owed_line};

use crate::session::Session;
use mes_json::NoMemory;
use mes_model::{Id, Offer, OwedKey};
use mes_msg_event::{put_id, put_number, put_uuid, put_word};

impl Session {
    /// Returns the report of the session after `entries` entries. Its lines, each with its LF, are:
    /// - the number of entries;
    /// - the framework, or `-`;
    /// - each outstanding offer;
    /// - each unacknowledged update with its agent, its task and its UUID.
    ///
    /// Errors: `NoMemory` if an allocation fails.
    pub fn report(&self, entries: u64) -> Result<Vec<u8>, NoMemory>
        ensures { IfOk result (λ lines. lines.items ≡ report_text entries self.now) }
    {
        let mut lines = Vec::new(self.alloc);
        put_entries(entries, &mut lines)?;
        put_framework(&self.framework, &mut lines)?;
        put_hand(self, &mut lines)?;
        put_owed(self, &mut lines)?;
        Ok(lines)
    }
}

fn put_entries(entries: u64, lines: &mut Vec<u8>) -> Result<(), NoMemory>
    ensures { IfOk result (λ _. lines.new.items
        ≡ lines.old.items ++ report_line (codes "entries") (decimal entries ∷ [])) }
{
    lines.extend_from_slice(b"entries")?;
    put_number(entries, lines)?;
    lines.extend_from_slice(b"\n")?;
    Ok(())
}

fn put_framework(framework: &Option<Id>, lines: &mut Vec<u8>) -> Result<(), NoMemory>
    ensures { IfOk result (λ _. lines.new.items
        ≡ lines.old.items ++ report_line (codes "framework") (or_dash id_text framework.now ∷ [])) }
{
    lines.extend_from_slice(b"framework")?;
    match framework {
        Some(id) => put_id(id, lines)?,
        None => put_word("-", lines)?,
    }
    lines.extend_from_slice(b"\n")?;
    Ok(())
}

fn put_hand(session: &Session, lines: &mut Vec<u8>) -> Result<(), NoMemory>
    ensures { IfOk result (λ _. lines.new.items
        ≡ lines.old.items ++ flat_map hand_line session.now.hand) }
{
    for index in 0..session.hand_len() {
        if let Some(offer) = session.hand_at(index) {
            put_offer(offer, lines)?;
        }
    }
    Ok(())
}

fn put_offer(offer: &Offer, lines: &mut Vec<u8>) -> Result<(), NoMemory>
    ensures { IfOk result (λ _. lines.new.items ≡ lines.old.items ++ hand_line offer.now) }
{
    lines.extend_from_slice(b"hand")?;
    put_id(&offer.id, lines)?;
    lines.extend_from_slice(b"\n")?;
    Ok(())
}

fn put_owed(session: &Session, lines: &mut Vec<u8>) -> Result<(), NoMemory>
    ensures { IfOk result (λ _. lines.new.items
        ≡ lines.old.items ++ flat_map owed_line session.now.owed) }
{
    for index in 0..session.owed_len() {
        if let Some(key) = session.owed_at(index) {
            put_key(key, lines)?;
        }
    }
    Ok(())
}

fn put_key(key: &OwedKey, lines: &mut Vec<u8>) -> Result<(), NoMemory>
    ensures { IfOk result (λ _. lines.new.items ≡ lines.old.items ++ owed_line key.now) }
{
    lines.extend_from_slice(b"owed")?;
    put_id(&key.agent, lines)?;
    put_id(&key.task, lines)?;
    put_uuid(key.uuid.as_slice(), lines)?;
    lines.extend_from_slice(b"\n")?;
    Ok(())
}
