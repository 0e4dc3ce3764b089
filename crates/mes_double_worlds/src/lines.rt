//! Reading of the lines that represent moves.

use mes_double::Move;
use mes_json::{NoMemory, Text};
use mes_msg::{Call, Event};
use std::alloc::Global;
use uuid::Uuid;

/// The content of a line.
#[derive(Drop)]
pub(crate) enum Line {
    /// A move to append to the list of moves.
    Move(Move),
    /// The end of the list of moves.
    End,
}

/// Reads a line; returns `None` if it is not valid or an allocation fails.
pub(crate) fn read_line(alloc: Global, line: &str) -> Option<Line> {
    match line {
        "end" => Some(Line::End),
        "hear" => Some(Line::Move(Move::Hear)),
        "resubscribe" => Some(Line::Move(Move::Resubscribe)),
        _ => {
            let (word, rest) = line.split_once(' ')?;
            Some(Line::Move(read_move(alloc, word, rest)?))
        }
    }
}

/// Reads a move from the first word of a line, its name, and the rest of the line.
fn read_move(alloc: Global, word: &str, rest: &str) -> Option<Move> {
    match word {
        "offer" => read_offer(alloc, rest),
        "update" => read_update(alloc, rest),
        "rescind" => Some(Move::Rescind(Text::of(alloc, rest).ok()?)),
        "resend" => Some(Move::Resend(rest.parse::<usize>().ok()?)),
        "arrive" => Some(Move::Arrive(rest.parse::<usize>().ok()?)),
        "wish" => Some(Move::Wish(Call::read_record(alloc, rest.as_bytes()).ok()?)),
        _ => None,
    }
}

/// Reads the move that makes the offers of the OFFERS event in `text`.
fn read_offer(alloc: Global, text: &str) -> Option<Move> {
    match Event::read_record(alloc, text.as_bytes()) {
        Ok(Event::Offers(offers)) => Some(Move::Offer(offers)),
        _ => None,
    }
}

/// Reads the move that sends the status of the UPDATE event in `text`.
fn read_update(alloc: Global, text: &str) -> Option<Move> {
    match Event::read_record(alloc, text.as_bytes()) {
        Ok(Event::Update(body)) => Some(Move::Update(body.status.into_inner())),
        _ => None,
    }
}

/// Returns UUIDs that end in 1, 2 and so on and are otherwise zero.
pub(crate) fn ids_from_one(alloc: Global, count: u8) -> Result<Vec<Uuid>, NoMemory> {
    let mut ids = Vec::new(alloc);
    for last in 0..count {
        let mut bytes = [0; 16];
        bytes[15] = last + 1;
        ids.push(Uuid::from_bytes(bytes))?;
    }
    Ok(ids)
}
