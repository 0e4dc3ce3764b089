//! Reads lists of moves, one move a line, and prints the final world of each list in one line. Each
//! list ends with `end`. docs/FORMAT.md describes the lines.
//!
//! - `lines`: reads a line as a move of the crate `mes_double`.
//! - `ends`: prints a world.
//!
//! The files stdin and stdout are the input and the expected output of the program's test.
#![tactic(auto)]

mod ends;
mod lines;

use ends::end_of;
use lines::{Line, ids_from_one, read_line};
use mes_double::{Move, run_world};
use mes_json::{NoMemory, Text};
use mes_model::Id;
use std::alloc::Global;
use std::io::{self, BufRead, BufReader};

/// The number of streams that the master of each list can open.
const STREAMS: u8 = 2;

/// Makes the moves, and returns the printed form of the final world.
fn reported(alloc: Global, moves: &[Move]) -> Result<String, NoMemory> {
    let value = Text::of(alloc, "F1")?;
    let ids = ids_from_one(alloc, STREAMS)?;
    let world = run_world(alloc, Id { value }, ids, moves)?;
    end_of(alloc, &world)
}

/// Prints the final world of the moves, or that memory ran out.
fn print_world(rt: &HostRuntime, moves: &[Move]) -> io::Result<()> {
    match reported(rt.alloc(), moves) {
        Ok(end) => println!(rt; "{end}"),
        Err(NoMemory) => println!(rt; "no memory"),
    }
}

/// Executes a line: appends its move to `moves`, prints the final world at `end`, or reports an
/// invalid line.
fn take(rt: &HostRuntime, moves: &mut Vec<Move>, line: &str) -> io::Result<()> {
    match read_line(rt.alloc(), line) {
        Some(Line::Move(next)) => moves.push(next)?,
        Some(Line::End) => {
            print_world(rt, moves.as_slice())?;
            moves.clear();
        }
        None => println!(rt; "no move: {line}")?,
    }
    Ok(())
}

fn main(rt: HostRuntime) -> io::Result<()> {
    let input = BufReader::new(rt.alloc(), rt.stdin())?;
    let mut moves = Vec::new(rt.alloc());
    for line in input.lines(rt.alloc()) {
        take(&rt, &mut moves, line?.as_str())?;
    }
    Ok(())
}
