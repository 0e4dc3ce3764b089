//! The handles of a decoder and of a session on the heap. Of this crate, only this file uses raw
//! memory; its proofs are written by hand.

ghost use Rattle.std.specs.Prelude.{◌≡◌, Option, Some};
ghost use Rattle.std.specs.Box.Ownership.{box_owns};
ghost use Rattle.mesosev_c.specs.Handles.{handle_owns, slot_owns, decoder_coded, maybe_coded};
ghost use Rattle.mesosev_c.specs.SessionHandles.{maybe_session_coded, session_coded, session_owns, session_slot_owns};
ghost use Rattle.mesosev_c.specs.declared.text_decoder.TextDecoder.{TextDecoder};
ghost use Rattle.mesosev_session.specs.declared.text_session.TextSession.{TextSession};

use crate::text_decoder::TextDecoder;
use mesosev_session::TextSession;
use std::alloc::{Allocator, Global};
use std::marker::Model;

/// A handle that a C program owns: the address of a decoder on the heap.
#[repr(C)]
pub struct Handle {
    ptr: *mut u8,
    alloc: Global,
    /// The decoder that the handle owns.
    pub ghost held: { TextDecoder } by { decoder_coded },
}

impl Model for Handle {
    ghost also_owns = { λ h. handle_owns h.alloc h.ptr h.held };
}

impl Handle {
    ghost use Rattle.std.specs.Prelude.{◌≡◌};
    ghost use Rattle.std.specs.Borrow.{sem};
    ghost use Rattle.mesosev_c.specs.HandleLends.{handle_follows};

    /// Borrows the decoder.
    pub fn reach(&mut self) -> &mut TextDecoder
        ensures* writes_back { sem 𝓛 (handle_follows self.entry result) }
        ensures value { result.now ≡ self.old.held }
    {
        unsafe { &mut *self.ptr.cast::<TextDecoder>() }
    }

    // Takes the handle apart without freeing the decoder.
    fn into_parts(self) -> Parts<TextDecoder, Global>
        ensures { result.value ≡ self.held }
    {
        let Handle { ptr, alloc } = self;
        Parts {
            ptr: ptr.cast::<TextDecoder>(),
            alloc,
        }
    }
}

/// The place at which a C program has a handle stored. Dropping a slot does not free the decoder.
#[repr(C)]
#[derive(Drop)]
pub struct Slot {
    ptr: *mut u8,
    alloc: Global,
    /// The decoder of the handle in the slot, if the slot has a handle.
    pub ghost held: { Option TextDecoder } by { maybe_coded },
}

impl Model for Slot {
    ghost also_owns = { λ s. slot_owns s.alloc s.ptr s.held };
}

impl Slot {
    /// Creates a slot with a handle of the boxed decoder.
    pub fn of(placed: Box<TextDecoder>) -> Slot
        ensures { result.held ≡ Some placed.value }
    {
        Slot::of_parts(Parts::of(placed))
    }

    fn of_parts(parts: Parts<TextDecoder, Global>) -> Slot
        ensures { result.held ≡ Some parts.value }
    {
        let Parts { ptr, alloc } = parts;
        Slot {
            ptr: ptr.cast::<u8>(),
            alloc,
        }
    }
}

impl Drop for Handle {
    fn drop(self) {
        drop(self.into_parts().into_box());
    }
}

/// A handle that a C program owns: the address of a session on the heap.
#[repr(C)]
pub struct SessionHandle {
    ptr: *mut u8,
    alloc: Global,
    /// The session that the handle owns.
    pub ghost held: { TextSession } by { session_coded },
}

impl Model for SessionHandle {
    ghost also_owns = { λ h. session_owns h.alloc h.ptr h.held };
}

impl SessionHandle {
    ghost use Rattle.std.specs.Prelude.{◌≡◌};
    ghost use Rattle.std.specs.Borrow.{sem};
    ghost use Rattle.mesosev_c.specs.SessionLends.{session_follows};

    /// Borrows the session.
    pub fn reach(&mut self) -> &mut TextSession
        ensures* writes_back { sem 𝓛 (session_follows self.entry result) }
        ensures value { result.now ≡ self.old.held }
    {
        unsafe { &mut *self.ptr.cast::<TextSession>() }
    }

    // Takes the handle apart without freeing the session.
    fn into_parts(self) -> Parts<TextSession, Global>
        ensures { result.value ≡ self.held }
    {
        let SessionHandle { ptr, alloc } = self;
        Parts {
            ptr: ptr.cast::<TextSession>(),
            alloc,
        }
    }
}

/// The place at which a C program has a handle stored. Dropping a slot does not free the session.
#[repr(C)]
#[derive(Drop)]
pub struct SessionSlot {
    ptr: *mut u8,
    alloc: Global,
    /// The session of the handle in the slot, if the slot has a handle.
    pub ghost held: { Option TextSession } by { maybe_session_coded },
}

impl Model for SessionSlot {
    ghost also_owns = { λ s. session_slot_owns s.alloc s.ptr s.held };
}

impl SessionSlot {
    /// Creates a slot with a handle of the boxed session.
    pub fn of(placed: Box<TextSession>) -> SessionSlot
        ensures { result.held ≡ Some placed.value }
    {
        SessionSlot::of_parts(Parts::of(placed))
    }

    fn of_parts(parts: Parts<TextSession, Global>) -> SessionSlot
        ensures { result.held ≡ Some parts.value }
    {
        let Parts { ptr, alloc } = parts;
        SessionSlot {
            ptr: ptr.cast::<u8>(),
            alloc,
        }
    }
}

impl Drop for SessionHandle {
    fn drop(self) {
        drop(self.into_parts().into_box());
    }
}

// A box with its fields accessible, so that they can be moved into a handle.
struct Parts<T, A: Allocator> {
    ptr: *mut T,
    alloc: A,
    ghost value: { T },
}

impl<T, A: Allocator> Model for Parts<T, A> {
    ghost also_owns = { λ p. box_owns (A.dealloc_token p.alloc) T.row p.ptr p.value };
}

impl<T, A: Allocator> Parts<T, A> {
    fn of(placed: Box<T, A>) -> Parts<T, A>
    where
        T: Drop,
        ensures { result.value ≡ placed.value }
    {
        let (ptr, alloc) = Box::into_raw_with_allocator(placed);
        Parts { ptr, alloc }
    }

    fn into_box(self) -> Box<T, A>
        ensures { result.value ≡ self.value }
    {
        let Parts { ptr, alloc } = self;
        unsafe { Box::from_raw(alloc, ptr) }
    }
}
