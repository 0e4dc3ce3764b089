//! The tape: a JSON value as one flat list of nodes over one buffer of texts. `reader` and
//! `tape/spell` write it; `cursor` reads it.
ghost use Rattle.std.specs.Prelude.{◌≡◌, ◌*◌, ◌<◌, ◌≤◌, [], vec_capacity, IfOk, IfErr};
ghost use Rattle.std.specs.List.{AllByRecursion};
ghost use Rattle.mes_json.specs.Tape.{span, IsSpan, HasSpan};
ghost use Rattle.mes_json.specs.Cursor.{tokens_held};
ghost use Rattle.mes_json.specs.Lengths.{TellLengths};

mod spell;

use crate::cursor::Element;
use crate::limits::{MAX_REUSED_CAPACITY, MAX_TEXTS};
use crate::memory::NoMemory;
use crate::text_buffer::Texts;
use std::alloc::Global;
use std::marker::Model;
use std::{mem, str};

/// A node of the tape, of `NODE_SIZE` bytes. `from` and `to` are the offsets of the node's text in
/// the buffer of texts.
#[derive(Clone, Copy)]
pub(crate) enum Node {
    Null,
    Bool(bool),
    Number { from: u32, to: u32 },
    /// A string's text.
    Text { from: u32, to: u32 },
    /// The name of the member whose value follows.
    Name { from: u32, to: u32 },
    /// The first node of an array, with the number of nodes of the array after this one, or 0 if
    /// unknown.
    List { length: u32 },
    /// The first node of an object, with the number of nodes of the object after this one, or 0 if
    /// unknown.
    Map { length: u32 },
    /// The last node of the innermost array or object.
    End,
}

pub(crate) const NODE_SIZE: usize = mem::size_of::<Node>();

const _: () = prove!(NODE_SIZE == 12);

/// A whole JSON value in two buffers instead of a tree. In contracts a tape is its list of tokens.
#[derive(Drop)]
pub struct Tape {
    /// The texts of the strings and numbers, concatenated.
    texts: Texts,
    nodes: Vec<Node>,
}

impl Model for Tape {
    ghost use Rattle.std.specs.Prelude.{List};
    ghost use Rattle.std.specs.List.{AllByRecursion};
    ghost use Rattle.mes_json.specs.Tokens.{Token, tokens_code};

    ghost Value = { List Token };

    ghost coded = { tokens_code };

    ghost use Rattle.mes_json.specs.Tape.{HasSpan};
    ghost use Rattle.mes_json.specs.Cursor.{tokens_held};
    ghost use Rattle.mes_json.specs.Lengths.{TellLengths};

    ghost view = { λ t. tokens_held t.texts.items t.nodes.items };

    ghost invariant = { λ t. AllByRecursion (HasSpan t.texts.items) t.nodes.items
        × TellLengths t.nodes.items };
}

impl Tape {
    pub(crate) fn new(texts: Texts, nodes: Vec<Node>) -> Tape
        requires spans { AllByRecursion (HasSpan texts.items) nodes.items }
        requires reported { TellLengths nodes.items }
        ensures { result ≡ tokens_held texts.items nodes.items }
    {
        Tape { texts, nodes }
    }

    /// Returns a cursor at the value.
    pub fn root(&self) -> Element<'_>
        ensures { result ≡ self.now }
    {
        Element::new(self.texts.as_slice(), &self.nodes)
    }
}

impl Tape {
    /// Returns the tape's buffers, emptied. A buffer with a capacity of more than
    /// `MAX_REUSED_CAPACITY` bytes is freed. Does not allocate.
    #[inline(always)]
    pub(crate) fn into_room(self, alloc: Global) -> (Texts, Vec<Node>)
        ensures texts { result.0.items ≡ [] }
        ensures nodes { result.1.items ≡ [] }
        ensures texts_room { result.0.room ≤ MAX_REUSED_CAPACITY }
        ensures nodes_room { vec_capacity result.1 * NODE_SIZE ≤ MAX_REUSED_CAPACITY }
    {
        let Tape { texts, nodes } = self;
        let most = MAX_REUSED_CAPACITY / NODE_SIZE;
        (
            texts.emptied(alloc, MAX_REUSED_CAPACITY),
            emptied(alloc, nodes, most),
        )
    }
}

/// Returns the emptied vector, or a new one if its capacity exceeds `most` elements.
#[inline(always)]
fn emptied<T: Drop>(alloc: Global, mut room: Vec<T>, most: usize) -> Vec<T>
    ensures items { result.items ≡ [] }
    ensures most { vec_capacity result ≤ most }
    ensures kept { vec_capacity room ≤ most → vec_capacity result ≡ vec_capacity room }
{
    if room.capacity() > most {
        return Vec::new(alloc);
    }
    room.clear();
    room
}

/// Converts an offset in the buffer of texts to 32 bits. Returns `NoMemory` above `MAX_TEXTS`.
pub(crate) fn text_place(place: usize) -> Result<u32, NoMemory>
    ensures ok { IfOk result (λ kept. kept ≡ place) }
    ensures err { IfErr result (λ _. MAX_TEXTS < place) }
{
    if place > MAX_TEXTS {
        return Err(NoMemory);
    }
    Ok(place as u32)
}

/// Converts the offsets of a text to 32 bits. Returns `NoMemory` if `to` is above `MAX_TEXTS`.
#[inline(always)]
pub(crate) fn text_span(from: usize, to: usize) -> Result<(u32, u32), NoMemory>
    requires { from ≤ to }
    ensures { IfOk result (λ span. (span.0 ≡ from) × (span.1 ≡ to)) }
{
    let to = text_place(to)?;
    Ok((from as u32, to))
}

/// Returns the text between two offsets.
pub(crate) fn span_text(texts: &[u8], from: u32, to: u32) -> &str
    requires { IsSpan texts.now from to }
    ensures { result.now ≡ span texts.now from to }
{
    unsafe { str::from_utf8_unchecked(&texts[from as usize..to as usize]) }
}
