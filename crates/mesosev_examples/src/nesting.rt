//! Example rows that read nested JSON arrays of the maximum depth, or deeper, at once or byte by
//! byte.

use crate::messages::{after_word, event_of, text_of, tree_of};
use crate::outcome::Reported;
use crate::words::Words;
use mes_model_schema::json::{self, Lexer, MAX_NESTING, ReadFault};
use std::alloc::Global;

// The beginning of arrays that nest one level deeper than the maximum.
const DEEPER: [u8; MAX_NESTING + 1] = [b'['; MAX_NESTING + 1];

/// Reads nested arrays in the way that an example row names.
pub(crate) fn answer(alloc: Global, how: &str, words: &mut Words) -> Result<(), Reported> {
    match how {
        "deep" => read_deep(alloc, &deep(), words),
        "deep-event" => read_event(alloc, &deep(), words),
        "deep-bytes" => compare_lexed(alloc, &deep(), words),
        "deeper" => read(alloc, &DEEPER, words),
        _ => lex(alloc, &DEEPER, words),
    }
}

// Returns the text of nested arrays of the maximum depth.
fn deep() -> [u8; 2 * MAX_NESTING] {
    let mut text = [b'['; 2 * MAX_NESTING];
    text[MAX_NESTING..].fill(b']');
    text
}

// Prints the depth of a JSON tree, and whether its copy and its written text are the same.
fn read_deep(alloc: Global, text: &[u8], words: &mut Words) -> Result<(), Reported> {
    let tree = tree_of(alloc, text)?;
    words.say_number("depth", tree.depth());
    compare_copy(alloc, &tree, words)?;
    compare_text(alloc, &tree, text, words)
}

fn compare_copy(alloc: Global, tree: &json::Json, words: &mut Words) -> Result<(), Reported> {
    let copy = tree.copy(alloc)?;
    words.say_same("copied", copy.same(tree));
    Ok(())
}

// Prints whether the written text of a JSON tree is the text from which it was read.
fn compare_text(
    alloc: Global,
    tree: &json::Json,
    text: &[u8],
    words: &mut Words,
) -> Result<(), Reported> {
    let written = text_of(alloc, tree)?;
    words.say_same("written", after_word(written.as_slice()) == Some(text));
    Ok(())
}

fn read_event(alloc: Global, text: &[u8], words: &mut Words) -> Result<(), Reported> {
    let _event = event_of(alloc, text)?;
    words.say("an event");
    Ok(())
}

fn read(alloc: Global, text: &[u8], words: &mut Words) -> Result<(), Reported> {
    let _tree = tree_of(alloc, text)?;
    words.say("a tree");
    Ok(())
}

fn lex(alloc: Global, text: &[u8], words: &mut Words) -> Result<(), Reported> {
    let _tree = lexed(alloc, text)?;
    words.say("a tree");
    Ok(())
}

fn compare_lexed(alloc: Global, text: &[u8], words: &mut Words) -> Result<(), Reported> {
    let lexed = lexed(alloc, text)?;
    let whole = tree_of(alloc, text)?;
    words.say_same("read", lexed.same(&whole));
    Ok(())
}

// Reads a JSON tree byte by byte. After a failed allocation the lexer must report the failure
// again.
fn lexed(alloc: Global, text: &[u8]) -> Result<json::Json, Reported> {
    let mut lexer = Lexer::new(alloc);
    for byte in text {
        if lexer.push(*byte).is_err() {
            return Err(Reported::NoMemory.or_changed(is_refused_again(lexer)));
        }
    }
    Ok(lexer.finish()?)
}

fn is_refused_again(lexer: Lexer) -> bool {
    let mut lexer = lexer;
    let push = lexer.push(b' ');
    let finish = lexer.finish();
    push.is_err() && matches!(finish, Err(ReadFault::NoMemory))
}
