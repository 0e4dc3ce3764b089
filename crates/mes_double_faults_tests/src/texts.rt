//! The texts of faults.

use mes_double_faults::{CallFault, EventFault, Fault};

/// Each kind of fault, with the least and the greatest of each number, and its text.
const FAULTS: [(&str, Fault); 20] = [
    ("lose:1", Fault::Event(1, EventFault::Lost)),
    (
        "lose:1000000000",
        Fault::Event(1_000_000_000, EventFault::Lost),
    ),
    ("twice:2", Fault::Event(2, EventFault::Repeated)),
    ("cut:1:0", Fault::Event(1, EventFault::Cut(0))),
    ("cut:4:100", Fault::Event(4, EventFault::Cut(100))),
    (
        "cut:1000000000:1000000000",
        Fault::Event(1_000_000_000, EventFault::Cut(1_000_000_000)),
    ),
    ("late:1:1", Fault::Event(1, EventFault::Late(1))),
    (
        "late:1000000000:1000000000",
        Fault::Event(1_000_000_000, EventFault::Late(1_000_000_000)),
    ),
    ("mute:3", Fault::Event(3, EventFault::Muted)),
    ("busy:1", Fault::Call(1, CallFault::Busy)),
    (
        "busy:1000000000",
        Fault::Call(1_000_000_000, CallFault::Busy),
    ),
    ("unanswered:5", Fault::Call(5, CallFault::Unanswered)),
    (
        "unanswered:1000000000",
        Fault::Call(1_000_000_000, CallFault::Unanswered),
    ),
    ("slow:1:1", Fault::Call(1, CallFault::Slow(1))),
    (
        "slow:1000000000:1000000000",
        Fault::Call(1_000_000_000, CallFault::Slow(1_000_000_000)),
    ),
    ("gone:6", Fault::Call(6, CallFault::Gone)),
    ("reset:7", Fault::Call(7, CallFault::Reset)),
    ("chunk:1", Fault::Chunk(1)),
    ("chunk:4096", Fault::Chunk(4096)),
    ("chunk:16777216", Fault::Chunk(16_777_216)),
];

#[test]
fn faults_are_read_from_their_texts(rt: HostRuntime) {
    for &(text, fault) in &FAULTS {
        assert_eq!(rt; Fault::parse(text), Some(fault), "{text}");
        assert_eq!(rt; fault.text().as_str(), text);
    }
}

/// Other spellings of numbers: with a leading `+`, and with leading zeros.
const SPELLINGS: [(&str, &str); 4] = [
    ("lose:+3", "lose:3"),
    ("reset:003", "reset:3"),
    ("cut:+04:00000000000000100", "cut:4:100"),
    ("chunk:+016777216", "chunk:16777216"),
];

#[test]
fn numbers_may_have_a_plus_and_leading_zeros(rt: HostRuntime) {
    for &(text, usual) in &SPELLINGS {
        let fault = Fault::parse(text);
        assert_eq!(rt; fault, Fault::parse(usual), "{text}");
        if let Some(fault) = fault {
            assert_eq!(rt; fault.text().as_str(), usual);
        }
    }
}

/// Texts that are none of a fault.
const OTHERS: [&str; 42] = [
    "",
    ":",
    ":3",
    "lose",
    "lose:",
    "lose:0",
    "lose:1000000001",
    "lose:4294967299",
    "lose:18446744073709551619",
    "lose:-1",
    "lose:+",
    "lose:++3",
    "lose: 3",
    "lose:3 ",
    "lose:3.0",
    "lose:0x3",
    "lose:x",
    "lose:3:",
    "lose:3:4",
    "lose::3",
    "lose=3",
    " lose:3",
    "Lose:3",
    "los:3",
    "loses:3",
    "drop:3",
    "mute:2:1",
    "cut:3",
    "cut:3:",
    "cut::3",
    "cut:0:5",
    "cut:3:1000000001",
    "cut:3:4:5",
    "late:3:0",
    "late:3:1000000001",
    "slow:3",
    "slow:3:0",
    "reset:0",
    "chunk:0",
    "chunk:16777217",
    "chunk:4:16",
    "lose:\u{663}",
];

#[test]
fn other_texts_are_refused(rt: HostRuntime) {
    for &text in &OTHERS {
        assert_eq!(rt; Fault::parse(text), None, "{text}");
    }
}
