//! A chunked body, decoded as its pieces arrive.

use mes_frame::Limit;
use mes_msg::Event;
use mes_stream::{Decoded, Decoder};
use std::io;

/// A chunked body of two records: a HEARTBEAT in the first chunk, and an OFFERS in the second.
pub(crate) const BODY: &[u8] = b"17\r\n20\n{\"type\":\"HEARTBEAT\"}\r\n\
    88\r\n132\n{\"type\":\"OFFERS\",\"offers\":{\"offers\":[{\"id\":{\"value\":\"O1\"},\"framework_id\":{\"value\":\"F1\"},\
    \"agent_id\":{\"value\":\"A1\"},\"hostname\":\"h\"}]}}\r\n\
    0\r\n\r\n";

/// The most bytes of a piece. The body arrives in two pieces, cut inside the second record.
const PIECE: usize = 100;

/// Decodes a chunked body as its pieces arrive, and prints how it ended.
pub(crate) fn read_pieces(rt: &HostRuntime, body: &[u8]) -> io::Result<()> {
    let mut decoder = Decoder::new(rt.alloc(), Limit::USUAL);
    for piece in body.chunks(PIECE) {
        println!(rt; "a piece of {} bytes", piece.len())?;
        if !take_piece(rt, &mut decoder, piece)? {
            break;
        }
    }
    match decoder.finish() {
        Ok(()) => println!(rt; "the body is whole"),
        Err(fault) => println!(rt; "the body is not whole: {}", fault.title()),
    }
}

/// Decodes a piece of a chunked body, and prints a line for each event that ends in it.
/// Returns whether the decoder needs more input.
fn take_piece(rt: &HostRuntime, decoder: &mut Decoder, piece: &[u8]) -> io::Result<bool> {
    let mut rest = piece;
    // Each event uses a byte at least, so a piece has no more events than bytes.
    for _ in 0..piece.len() {
        let step = decoder.next(rest);
        rest = rest.get(step.used..).unwrap_or(&[]);
        match step.out {
            Decoded::More => break,
            Decoded::Event(event) => report_event(rt, &event)?,
            Decoded::End | Decoded::Fault(_) => return Ok(false),
        }
    }
    Ok(true)
}

/// Prints how many offers an event has, or that it is another event.
fn report_event(rt: &HostRuntime, event: &Event) -> io::Result<()> {
    match event {
        Event::Offers(offers) => println!(rt; "offers: {}", offers.as_slice().len()),
        _ => println!(rt; "another event"),
    }
}
