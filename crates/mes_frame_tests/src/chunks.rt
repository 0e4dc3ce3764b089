//! Worked examples of chunked bodies.
use crate::support::{as_text, end_text};
use mes_frame::*;
use std::alloc::{AllocError, Global};

// The first result that ends the body, and the number of bytes consumed by then.
fn first_end(text: &[u8]) -> Option<(usize, ChunkOut)> {
    let mut state = ChunkState::new();
    for (at, byte) in text.iter().enumerate() {
        let out = state.step(*byte);
        match out {
            ChunkOut::Quiet => {}
            ChunkOut::Byte => {}
            ChunkOut::Closed => return Some((at + 1, out)),
            ChunkOut::Fault(_) => return Some((at + 1, out)),
        }
    }
    None
}

// The number of data bytes that the decoder expects next, after the given bytes.
fn remaining_after(text: &[u8]) -> u64 {
    let mut state = ChunkState::default();
    for byte in text {
        state.step(*byte);
    }
    state.remaining()
}

// Bodies, and for each the number of bytes up to its end or error, and the result there.
const ENDS: [(&[u8], &str); 22] = [
    (b"0\r\n\r\n", "5 Closed"),
    (b"000\r\n\r\n", "7 Closed"),
    (b"0\r\nA: b\r\n\r\n", "11 Closed"),
    (b"1\r\n2\r\n00\r\n\r\n3", "12 Closed"),
    (b"A;q=\"x\"\r\n\r\n0\r\n\r\n789\r\n0\r\n\r\n", "26 Closed"),
    (b"1\r\n2\r\n0\r\n", "no end"),
    (b"g", "1 Fault(BadChunkLine)"),
    (b"1\n", "2 Fault(BadChunkLine)"),
    (b"\r", "1 Fault(BadChunkLine)"),
    (b";", "1 Fault(BadChunkLine)"),
    (b"1\rX", "3 Fault(BadChunkLine)"),
    (b"1;\x7f", "3 Fault(BadChunkLine)"),
    (b"1;\n", "3 Fault(BadChunkLine)"),
    (b"10000000000000000", "17 Fault(ChunkTooLarge)"),
    (b"fffffffffffffffff", "17 Fault(ChunkTooLarge)"),
    (b"0ffffffffffffffff\r\n", "no end"),
    (b"1\r\n2X", "5 Fault(BadChunkEnd)"),
    (b"1\r\n2\rX", "6 Fault(BadChunkEnd)"),
    (b"0\r\n\n", "4 Fault(BadChunkEnd)"),
    (b"0\r\nA\n", "5 Fault(BadChunkEnd)"),
    (b"0\r\nA\rX", "6 Fault(BadChunkEnd)"),
    (b"0\r\n\rX", "5 Fault(BadChunkEnd)"),
];

#[test]
fn bodies_end_and_break_at_their_byte(rt: HostRuntime) -> Result<(), AllocError> {
    for &(body, end) in &ENDS {
        let reported = end_text(rt.alloc(), first_end(body))?;
        let text = as_text(body);
        assert_eq!(rt; reported.as_str(), end, "{text:?}");
    }
    Ok(())
}

// Prefixes of bodies, and the number of data bytes that are expected next.
const ROOMS: [(&[u8], u64); 5] = [
    (b"14 ;x\r\n", 20),
    (b"aF\t\r\n", 175),
    (b"ffffffffffffffff\r\n", u64::MAX),
    (b"3\r\n45", 1),
    (b"3\r\n456", 0),
];

#[test]
fn chunks_have_room_for_their_data(rt: HostRuntime) {
    for &(front, remaining) in &ROOMS {
        let text = as_text(front);
        assert_eq!(rt; remaining_after(front), remaining, "{text:?}");
    }
}

// Long bodies in parts, near the limits of lines and trailers: the result that ends the body, and
// the number of data bytes that are expected next.
const LONG: [(&[&[u8]], &str, u64); 9] = [
    (&[b"1;", &[b'a'; 255]], "257 Fault(ChunkLineTooLong)", 0),
    (&[b"1;", &[b'a'; 254], b"\r\n"], "no end", 1),
    (&[&[b'0'; 257]], "257 Fault(ChunkLineTooLong)", 0),
    (&[&[b'0'; 256], b"\r\n\r\n"], "260 Closed", 0),
    (&[b"0\r\n", &[b'a'; 4097]], "4100 Fault(TrailersTooLong)", 0),
    (&[b"0\r\n", &[b'a'; 4094], b"\r\n\r\n"], "4101 Closed", 0),
    (
        &[b"0\r\n", &[b'a'; 2046], b"\r\n", &[b'b'; 2046], b"\r\n\r\n"],
        "4101 Closed",
        0,
    ),
    (
        &[b"0\r\n", &[b'a'; 2046], b"\r\n", &[b'b'; 2046], b"\r\nc"],
        "4100 Fault(TrailersTooLong)",
        0,
    ),
    (
        &[b"0\r\n", &[b'a'; 4095], b"\r\n"],
        "4100 Fault(TrailersTooLong)",
        0,
    ),
];

// Returns the result that ends the body of the given parts, as text, and the number of data bytes
// that are expected next.
fn end_and_room(alloc: Global, parts: &[&[u8]]) -> Result<(String, u64), AllocError> {
    let body = parts.concat(alloc)?;
    let remaining = remaining_after(&body);
    Ok((end_text(alloc, first_end(&body))?, remaining))
}

#[test]
fn lines_and_trailers_have_a_limit(rt: HostRuntime) -> Result<(), AllocError> {
    for &(parts, end, remaining) in &LONG {
        let (reported, left) = end_and_room(rt.alloc(), parts)?;
        assert_eq!(rt; (reported.as_str(), left), (end, remaining));
    }
    Ok(())
}

// Returns the result of each byte.
fn steps<const N: usize>(state: &mut ChunkState, bytes: &[u8; N]) -> [ChunkOut; N] {
    let mut outs = [ChunkOut::Quiet; N];
    for (at, byte) in bytes.iter().enumerate() {
        outs[at] = state.step(*byte);
    }
    outs
}

#[test]
fn an_end_is_returned_again(rt: HostRuntime) {
    let mut broken = ChunkState::new();
    assert_eq!(rt;
        (steps(&mut broken, b"g1\r"), broken.remaining()),
        ([ChunkOut::Fault(FrameFault::BadChunkLine); 3], 0)
    );
    let mut closed = ChunkState::new();
    assert_eq!(rt; steps(&mut closed, b"0\r\n\r"), [ChunkOut::Quiet; 4]);
    assert_eq!(rt;
        (steps(&mut closed, b"\n1\r\nx"), closed.remaining()),
        ([ChunkOut::Closed; 5], 0)
    );
}

// A chunk of five bytes and two chunk ends: one run of data has the effect of its bytes one by one.
#[test]
fn data_of_chunks_passes_in_runs(rt: HostRuntime) {
    let mut run = ChunkState::new();
    run.pass(0);
    assert_eq!(rt; steps(&mut run, b"5\r\n"), [ChunkOut::Quiet; 3]);
    let mut stepped = run;
    assert_eq!(rt;
        (steps(&mut stepped, b"\r\n0"), run.remaining()),
        ([ChunkOut::Byte; 3], 5)
    );
    run.pass(3);
    assert_eq!(rt; [run.remaining(), stepped.remaining()], [2, 2]);
    assert_eq!(rt; steps(&mut run, b"de"), [ChunkOut::Byte; 2]);
    stepped.pass(2);
    let quiet = [ChunkOut::Quiet; 6];
    assert_eq!(rt;
        (
            steps(&mut run, b"\r\n0\r\n\r"),
            steps(&mut stepped, b"\r\n0\r\n\r")
        ),
        (quiet, quiet)
    );
    assert_eq!(rt;
        [run.step(b'\n'), stepped.step(b'\n')],
        [ChunkOut::Closed; 2]
    );
}

// Appends the data of the pieces to `body`, in runs. Returns the result that ends the body, and the
// number of bytes consumed by then.
fn read_pieces(
    body: &mut Vec<u8>,
    pieces: [&[u8]; 2],
) -> Result<Option<(usize, ChunkOut)>, AllocError> {
    let mut state = ChunkState::new();
    let mut taken: usize = 0;
    for piece in pieces {
        let mut rest = piece;
        for _ in 0..piece.len() {
            let count = (rest.len() as u64).min(state.remaining());
            state.pass(count);
            let (run, more) = rest.split_at(count as usize);
            body.extend_from_slice(run)?;
            taken = taken.saturating_add(run.len());
            let Some((byte, more)) = more.split_first() else {
                break;
            };
            rest = more;
            taken = taken.saturating_add(1);
            let out = state.step(*byte);
            match out {
                ChunkOut::Quiet => {}
                ChunkOut::Byte => body.push(*byte)?,
                ChunkOut::Closed => return Ok(Some((taken, out))),
                ChunkOut::Fault(_) => return Ok(Some((taken, out))),
            }
        }
    }
    Ok(None)
}

// Bodies, each with its data and the result that ends it.
const BODIES: [(&[u8], &[u8], &str); 5] = [
    (
        b"1\r\n2\r\n1\r\n0\r\n1\r\n\n\r\n0\r\n\r\n",
        b"20\n",
        "23 Closed",
    ),
    (b"2\r\n5\n\r\n0\r\n\r\n", b"5\n", "12 Closed"),
    (b"5\r\n20\n", b"20\n", "no end"),
    (b"0\r\n\r\nXYZ", b"", "5 Closed"),
    (b"3\r\nabcX", b"abc", "7 Fault(BadChunkEnd)"),
];

// Returns whether the pieces are read with the given data and end.
fn read_as(alloc: Global, pieces: [&[u8]; 2], data: &[u8], end: &str) -> Result<bool, AllocError> {
    let mut body = Vec::new(alloc);
    let ended = read_pieces(&mut body, pieces);
    let held = body.as_slice() == data;
    drop(body);
    Ok(held && end_text(alloc, ended?)?.as_str() == end)
}

#[test]
fn each_cut_into_two_reads_alike(rt: HostRuntime) -> Result<(), AllocError> {
    for &(bytes, data, end) in &BODIES {
        let text = as_text(bytes);
        for cut in 0..bytes.len() + 1 {
            let (first, second) = bytes.split_at(cut);
            assert!(rt;
                read_as(rt.alloc(), [first, second], data, end)?,
                "{text:?} cut at {cut}"
            );
        }
    }
    Ok(())
}
