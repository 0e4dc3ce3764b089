//! Worked examples of the libraries' promises, run through their public functions. Each example row
//! prints one line: the row's name and its result. If an allocation fails, the line says so, and
//! the row runs once more. docs/FORMAT.md describes the lines; rows.rt has the rows.
#![tactic(auto)]

mod bytes;
mod heads;
mod held;
mod logs;
mod making;
mod masters;
mod messages;
mod nesting;
mod numbers;
mod offers;
mod outcome;
mod parsing;
mod pieces;
mod rows;
mod sessions;
mod streams;
mod texts;
mod words;
mod writing;

use outcome::Reported;
use rows::ROWS;
use std::alloc::Global;
use std::io;
use words::Words;

fn main(rt: HostRuntime) -> io::Result<()> {
    for line in ROWS.lines() {
        report_row(&rt, line)?;
    }
    Ok(())
}

// Runs an example row and prints its line. If an allocation fails, runs the row once more.
fn report_row(rt: &HostRuntime, line: &str) -> io::Result<()> {
    let (name, asked) = line.split_once(" => ").unwrap_or((line, ""));
    let mut words = Words::new();
    if is_refused(rt.alloc(), asked, &mut words) {
        let _again = is_refused(rt.alloc(), asked, &mut words);
    }
    println!(rt; "{name}: {}{}", words.as_str(), words.ending())
}

// Runs an example row. Returns whether an allocation failed.
fn is_refused(alloc: Global, asked: &str, words: &mut Words) -> bool {
    let (what, rest) = asked.split_once(' ').unwrap_or((asked, ""));
    let answer = answer(alloc, what, rest, words);
    words.say_answer(answer)
}

fn answer(alloc: Global, what: &str, rest: &str, words: &mut Words) -> Result<(), Reported> {
    match what {
        "stream" => streams::answer(alloc, rest, words),
        "pieces" => pieces::answer(alloc, rest, words),
        "event" => messages::report_event(alloc, rest, words),
        "short" => messages::report_short(alloc, rest, words),
        "call" => messages::report_call(alloc, rest, words),
        "numbers" => numbers::report_numbers(rest, words),
        "resource" => messages::report_resource(alloc, rest, words),
        "nested" => nesting::answer(alloc, rest, words),
        "write" => writing::answer(alloc, rest, words),
        "head" => heads::answer(alloc, rest, words),
        "session" => sessions::run(alloc, rest, words),
        "master" => masters::run(alloc, rest, words),
        "log" => logs::answer(alloc, rest, words),
        _ => Err(Reported::fault("no such row")),
    }
}
