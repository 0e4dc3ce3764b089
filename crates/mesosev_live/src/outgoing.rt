//! The bytes that a connection has to write.

ghost use Rattle.std.specs.Prelude.{◌≡◌, ◌≤◌, [], ◌++◌, length, drop, OnOk, OnErr};
ghost use Rattle.mes_double_http.specs.Texts.{ok_text, page_head, response_text};

use http::StatusCode;
use mes_double_http::{PageMedia, Persistence, StreamId, push_ok, push_page_head, push_status};
use std::alloc::{AllocError, Global};
use std::marker::Model;

/// The bytes that a connection has to write and has not. In contracts its value is the list of
/// these bytes.
#[derive(Drop)]
pub(crate) struct Outgoing {
    bytes: Vec<u8>,
    /// The number of bytes at the start of `bytes` that were written, at most the length of
    /// `bytes`.
    written: usize,
}

impl Model for Outgoing {
    ghost use Rattle.std.specs.Prelude.{ℕ, ◌≤◌, List, length, drop};

    ghost Value = { List ℕ };

    ghost view = { λ out. drop out.written out.bytes.items };

    ghost invariant = { λ out. out.written ≤ length out.bytes.items };
}

impl Outgoing {
    /// Returns an empty list of bytes. Does not allocate.
    pub fn new(alloc: Global) -> Outgoing
        ensures { result ≡ [] }
    {
        Outgoing {
            bytes: Vec::new(alloc),
            written: 0,
        }
    }

    /// Returns the bytes that are not written.
    pub fn pending(&self) -> &[u8]
        ensures { result.now ≡ self.now }
    {
        &self.bytes[self.written..]
    }

    /// Appends bytes. Errors: an allocation failed; the bytes are as before.
    pub fn push(&mut self, bytes: &[u8]) -> Result<(), AllocError>
        ensures ok { OnOk result (self.new ≡ self.old ++ bytes.now) }
        ensures err { OnErr result (self.new ≡ self.old) }
    {
        self.free_written();
        self.bytes.extend_from_slice(bytes)
    }

    /// Appends the head of a response without a body. Errors: an allocation failed; the bytes are
    /// as before.
    pub fn push_status(
        &mut self,
        status: StatusCode,
        persistence: Persistence,
    ) -> Result<(), AllocError>
        ensures ok { OnOk result (self.new ≡ self.old ++ response_text persistence status) }
        ensures err { OnErr result (self.new ≡ self.old) }
    {
        self.free_written();
        push_status(&mut self.bytes, status, persistence)
    }

    /// Appends the head of the response to a SUBSCRIBE. Errors: an allocation failed; the bytes are
    /// as before.
    pub fn push_ok(&mut self, id: &StreamId) -> Result<(), AllocError>
        ensures ok { OnOk result (self.new ≡ self.old ++ ok_text id.now) }
        ensures err { OnErr result (self.new ≡ self.old) }
    {
        self.free_written();
        push_ok(&mut self.bytes, id)
    }

    /// Appends a response with status 200 and this body. Errors: an allocation failed; the head may
    /// then be appended, without the body.
    pub fn push_page(
        &mut self,
        media: PageMedia,
        body: &[u8],
        persistence: Persistence,
    ) -> Result<(), AllocError>
        ensures { OnOk result (self.new
            ≡ self.old ++ page_head persistence media (length body.now) ++ body.now) }
    {
        self.free_written();
        push_page_head(&mut self.bytes, media, body.len(), persistence)?;
        self.bytes.extend_from_slice(body)
    }

    /// Notes that the first `count` pending bytes were written.
    pub fn wrote(&mut self, count: usize)
        requires { count ≤ length self.old }
        ensures { self.new ≡ drop count self.old }
    {
        self.written += count;
    }

    /// Frees the space of the bytes, if all were written.
    fn free_written(&mut self)
        ensures { self.new ≡ self.old }
    {
        if self.written == self.bytes.len() {
            self.bytes.clear();
            self.written = 0;
        }
    }
}
