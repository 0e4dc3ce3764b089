//! Texts of the scheduler API in pieces. Every prefix is read byte by byte, in every cut into two
//! runs, and in runs of any length.

use crate::lexer::{expect_same, same};
use mes_json::{Json, Lexer, ReadFault, read_text};
use std::alloc::Global;

const TEXTS: [&[u8]; 12] = [
    b"{\"type\":\"HEARTBEAT\",\"x\":\"\\ud800x\"}",
    b"{\"type\":\"HEARTBEAT\",\"x\":\"\\udc00\"}",
    b"{\"type\":\"UPDATE\",\"update\":{\"status\":{\"task_id\":{\"value\":\"T1\"},\"state\":\"TASK_PAUSED\"}}}",
    b"{\"type\":\"UPDATE\",\"update\":{\"status\":{\"task_id\":{\"value\":\"T1\"}}}}",
    b"{\"type\":\"INVERSE_OFFERS\",\"inverse_offers\":{\"inverse_offers\":[]}}",
    b"{\"type\":\"OFFERS\",\"offers\":[{\"id\":{\"value\":\"O1\"},\"framework_id\":{\"value\":\"F1\"},\"agent_id\":{\"value\":\"A1\"},\"hostname\":\"h\"}]}",
    b"{\"type\":\"ERROR\",\"error\":{\"message\":\"a\",\"message\":\"a\"}}",
    b"{\"type\":\"HEARTBEAT\",\"x\":1,\"x\":2}",
    b"{\"type\":\"FAILURE\",\"failure\":{\"status\":null}}",
    b"{\"name\":\"disk\",\"type\":\"SCALAR\",\"scalar\":{\"value\":10},\"role\":\"*\",\"reservations\":[{\"type\":\"DYNAMIC\",\"role\":\"web\",\"principal\":\"p\",\"labels\":{\"labels\":[{\"key\":\"k\"}]}}],\"disk\":{\"volume\":0.10},\"shared\":{}}",
    b"{\"type\":\"ACKNOWLEDGE\",\"framework_id\":{\"value\":\"F1\"},\"acknowledge\":{\"agent_id\":{\"value\":\"A1\"},\"task_id\":{\"value\":\"T1\"},\"uuid\":\"AAECAwQFBgcICQoLDA0ODw==\"}}",
    b"{\"type\":\"SUBSCRIBED\",\"subscribed\":{\"framework_id\":{\"value\":\"F1\"},\"heartbeat_interval_seconds\":15.0}}",
];

#[test]
fn messages_are_read_in_pieces(rt: HostRuntime) {
    for &text in &TEXTS {
        expect_same(&rt, text);
    }
}

/// Returns the next pseudo-random number for the choice of cuts (linear congruential).
fn following(seed: u64) -> u64 {
    seed.wrapping_mul(6_364_136_223_846_793_005)
        .wrapping_add(1_442_695_040_888_963_407)
}

/// Pushes the text in runs of 0 to 31 bytes.
fn push_any_runs(lexer: &mut Lexer, text: &[u8], seed: u64) -> Result<(), ReadFault> {
    let mut rest = text;
    let mut chosen = seed;
    for _ in 0..text.len() {
        chosen = following(chosen);
        let run = ((chosen >> 59) as usize).min(rest.len());
        lexer.push_run(&rest[..run])?;
        rest = &rest[run..];
    }
    Ok(lexer.push_run(rest)?)
}

/// Reads the text in runs of 0 to 31 bytes.
fn read_by_any_runs(alloc: Global, text: &[u8], seed: u64) -> Result<Json, ReadFault> {
    let mut lexer = Lexer::new(alloc);
    push_any_runs(&mut lexer, text, seed)?;
    lexer.finish()
}

fn is_same(alloc: Global, text: &[u8], seed: u64, whole: &Result<Json, ReadFault>) -> bool {
    same(&read_by_any_runs(alloc, text, seed), whole)
}

/// Returns whether the text has the same result as a whole and in a hundred cuts into runs.
fn is_same_by_any_runs(alloc: Global, text: &[u8]) -> bool {
    let whole = read_text(alloc, text);
    let mut alike = true;
    for seed in 0..100 {
        alike = alike && is_same(alloc, text, seed, &whole);
    }
    alike
}

#[test]
fn messages_are_read_in_any_runs(rt: HostRuntime) {
    for &text in &TEXTS {
        assert!(rt; is_same_by_any_runs(rt.alloc(), text), "{text:?}");
    }
}
