//! The buffer of a tape's texts: the contents of strings and numbers, concatenated. The nodes of
//! the tape are in `node_buffer`.
ghost use Rattle.std.specs.Prelude.{◌≡◌, ◌+◌, ◌⊎◌, ◌≤◌, [], ◌∷◌, ◌++◌, true, length, take, OnOk, OnErr};
ghost use Rattle.mes_json.specs.Texts.{IsNone};

use crate::memory::NoMemory;
use crate::plain_scan::BLOCK;
use std::alloc::Global;
use std::marker::Model;
use std::simd::prelude::*;

/// A buffer of concatenated texts. A short text is copied as a whole block, in one store of a fixed
/// size, and the buffer is truncated to the text. In contracts this is the bytes and the capacity.
#[derive(Drop)]
pub(crate) struct Texts {
    bytes: Vec<u8>,
}

impl Model for Texts {
    ghost use Rattle.std.specs.Prelude.{vec_capacity};
    ghost use Rattle.mes_json.specs.Texts.{Texts as texts, texts_code};

    ghost Value = { texts };

    ghost coded = { texts_code };

    ghost view = { λ t. record { items = t.bytes.items; room = vec_capacity t.bytes } };
}

impl Texts {
    /// Creates an empty buffer. Does not allocate.
    pub(crate) fn new(alloc: Global) -> Texts
        ensures { IsNone result }
    {
        Texts {
            bytes: Vec::new(alloc),
        }
    }

    #[inline(always)]
    pub(crate) fn len(&self) -> usize
        ensures { result ≡ length self.now.items }
    {
        self.bytes.len()
    }

    /// Returns the length with `count` more bytes. The result is at most the capacity.
    #[inline(always)]
    pub(crate) fn end_following(&self, count: usize) -> usize
        requires { length self.now.items + count ≤ self.now.room }
        ensures { result ≡ length self.now.items + count }
    {
        self.bytes.len() + count
    }

    /// Returns the capacity in bytes.
    pub(crate) fn room(&self) -> usize
        ensures { result ≡ self.now.room }
    {
        self.bytes.capacity()
    }

    #[inline(always)]
    pub(crate) fn as_slice(&self) -> &[u8]
        ensures { result.now ≡ self.now.items }
    {
        self.bytes.as_slice()
    }

    /// Removes all bytes and retains the capacity.
    pub(crate) fn clear(&mut self)
        ensures items { self.new.items ≡ [] }
        ensures room { self.new.room ≡ self.old.room }
    {
        self.bytes.clear();
    }

    /// Appends a byte. Changes nothing if an allocation fails.
    #[inline(always)]
    pub(crate) fn push(&mut self, byte: u8) -> Result<(), NoMemory>
        ensures ok { OnOk result (self.new.items ≡ self.old.items ++ byte ∷ []) }
        ensures err { OnErr result (self.new.items ≡ self.old.items) }
    {
        Ok(self.bytes.push(byte)?)
    }

    /// Appends bytes. Changes nothing if an allocation fails.
    pub(crate) fn extend_from_slice(&mut self, bytes: &[u8]) -> Result<(), NoMemory>
        ensures ok { OnOk result (self.new.items ≡ self.old.items ++ bytes.now) }
        ensures err { OnErr result (self.new.items ≡ self.old.items) }
    {
        Ok(self.bytes.extend_from_slice(bytes)?)
    }

    /// Appends the first `count` of `bytes` and returns `count`, or returns 0 if an allocation
    /// fails. A short text is copied as a whole block.
    #[inline(always)]
    pub(crate) fn append_front(&mut self, bytes: &[u8], count: usize) -> usize
        requires { count ≤ length bytes.now }
        ensures text { self.new.items ≡ self.old.items ++ take result bytes.now }
        ensures all { (result ≡ count) ⊎ (result ≡ 0) }
    {
        if count > BLOCK || bytes.len() < BLOCK || !self.has_block() {
            return self.append_any(bytes, count);
        }
        self.append_block(bytes, count);
        count
    }

    /// Returns whether there is capacity for one more block.
    #[inline(always)]
    pub(crate) fn has_block(&self) -> bool
        ensures { result ≡ true → length self.now.items + BLOCK ≤ self.now.room }
    {
        self.bytes.capacity() - self.bytes.len() >= BLOCK
    }

    /// Appends the first `count` bytes of the block at the front of `bytes`, in one store, within
    /// the capacity.
    #[inline(always)]
    pub(crate) fn append_block(&mut self, bytes: &[u8], count: usize)
        requires few { count ≤ BLOCK }
        requires block { BLOCK ≤ length bytes.now }
        requires room { length self.old.items + BLOCK ≤ self.old.room }
        ensures { self.new.items ≡ self.old.items ++ take count bytes.now }
    {
        let block = u8x16::from_slice(bytes);
        let end = self.bytes.len() + count;
        if let Ok(()) = self.bytes.extend_from_slice(block.as_array()) {
            self.bytes.truncate(end);
        }
    }

    /// Like `append_front`, for any `count`. Not inlined, since most texts are short.
    #[inline(never)]
    fn append_any(&mut self, bytes: &[u8], count: usize) -> usize
        requires { count ≤ length bytes.now }
        ensures text { self.new.items ≡ self.old.items ++ take result bytes.now }
        ensures all { (result ≡ count) ⊎ (result ≡ 0) }
    {
        match self.extend_from_slice(&bytes[..count]) {
            Ok(()) => count,
            Err(NoMemory) => 0,
        }
    }

    /// Returns the emptied buffer, or a new one if its capacity exceeds `most` bytes.
    #[inline(always)]
    pub(crate) fn emptied(mut self, alloc: Global, most: usize) -> Texts
        ensures items { result.items ≡ [] }
        ensures most { result.room ≤ most }
        ensures kept { self.room ≤ most → result.room ≡ self.room }
    {
        if self.room() > most {
            return Texts::new(alloc);
        }
        self.clear();
        self
    }
}
