//! Reading of the requests on a connection whose bytes come in pieces. `request.rt` reads one
//! request from a device by the same rules. `page_request.rt` reads the requests for a page.

ghost use Rattle.std.specs.Prelude.{◌≡◌, ◌≢◌, ℕ, ◌≤◌, ◌↔◌, List, [], ◌++◌, ◌+◌, ◌<◌, Option, Some, length, take, drop, OnOk, OnErr, IfOk, IsTrue, IsNone, MatchOption, MatchResult};
ghost use Rattle.httparse.specs.Grammar.{NeverHasRequest, EndsInTarget};
ghost use Rattle.mes_double_http.specs.Heads.{PendsRequest};
ghost use Rattle.mes_double_http.specs.Connections.{persistence};
ghost use Rattle.mes_double_http.specs.Received.{MayBeginHead, MayBeginCall, IsNoHead, IsFoundHead, RefusesHead, RefusesAfter, TakesNext, GivesCall};
ghost use Rattle.mes_double_http.specs.Requests.{IsWholeCall, EndsInBody};
ghost use Rattle.mes_double_http.specs.Stops.{IsRequestTaken};
ghost use Rattle.mes_double_http.specs.declared.fault.HeadFault.{HeadFault};
ghost use Rattle.mes_double_http.specs.declared.fault.HeadFault.TheVariants.{BadHead, ShortBody};
ghost use Rattle.mes_double_http.specs.declared.request_reader.NextRequest.TheVariants.{More, Fault};

use crate::fault::HeadFault;
use crate::limits::{MAX_FIELDS, MAX_HEAD};
use crate::lines::field_lines;
use crate::persistence::{Persistence, persistence_of};
use crate::request::{Announced, Request, announced_by};
use crate::target::{ends_in_target, through_space};
use httparse::spans::{EMPTY_HEADER_SPAN, HeaderSpan, RequestSpans, parse_request};
use httparse::{Error, Status};
use std::alloc::{AllocError, Global};
use std::marker::Model;

/// The result of a search for the next request of a connection.
#[derive(Debug, Drop)]
pub enum NextRequest {
    /// The bytes so far are the beginning of a request, or there is none.
    More,
    /// A whole request was taken.
    Whole(Request, Persistence),
    /// The bytes so far begin with a request that is refused, or an allocation failed.
    Fault(HeadFault),
}

/// A valid head at the start of the bytes.
#[derive(Drop)]
struct FoundHead {
    /// The length of the head in bytes.
    size: usize,
    announced: Announced,
    persistence: Persistence,
}

/// Reads consecutive requests from bytes that come in pieces of any size (RFC 9112 section 9.3).
/// Buffers the bytes that came and are not taken. In contracts its value is the list of these
/// bytes.
#[derive(Drop)]
pub struct RequestReader {
    alloc: Global,
    bytes: Vec<u8>,
    /// The number of bytes at the start of `bytes` that were taken, at most the length of `bytes`.
    taken: usize,
}

impl Model for RequestReader {
    ghost use Rattle.std.specs.Prelude.{ℕ, ◌≤◌, List, length, drop};

    ghost Value = { List ℕ };

    ghost view = { λ r. drop r.taken r.bytes.items };

    ghost invariant = { λ r. r.taken ≤ length r.bytes.items };
}

impl RequestReader {
    /// Returns a reader without bytes. Does not allocate.
    pub fn new(alloc: Global) -> RequestReader
        ensures { result ≡ [] }
    {
        RequestReader {
            alloc,
            bytes: Vec::new(alloc),
            taken: 0,
        }
    }

    /// Appends the bytes that came. Errors: an allocation failed; the bytes not taken are as
    /// before.
    pub fn feed(&mut self, piece: &[u8]) -> Result<(), AllocError>
        ensures ok { OnOk result (self.new ≡ self.old ++ piece.now) }
        ensures err { OnErr result (self.new ≡ self.old) }
    {
        self.drop_taken();
        self.bytes.extend_from_slice(piece)
    }

    /// Takes the next request, if all its bytes came. Otherwise nothing is taken: more bytes are
    /// needed, or the request is refused by the first fault, as [`read_request`] refuses it.
    ///
    /// After a fault no more requests may be taken, since it is unknown where the next one begins.
    /// If an allocation failed (H13), the call may be repeated.
    ///
    /// [`read_request`]: crate::read_request
    pub fn next(&mut self) -> NextRequest
        // A whole request was taken, and the bytes after it are left. Or more bytes are needed, or
        // the first request is refused, or memory ran out: then all bytes are left.
        ensures takes { TakesNext self.old self.new result }
        // If the bytes begin with a whole request (the definition that `read_request` cites), it is
        // taken, except if an allocation failed.
        ensures whole { (taken after : List ℕ) (stream : Option (List ℕ)) (body : List ℕ)
            → self.old ≡ taken ++ after → (call : IsWholeCall taken stream body)
            → GivesCall stream body (persistence call.head) after self.new result }
        // If the bytes are a head that is incomplete so far, or a valid head and less than its whole
        // body, more are needed.
        ensures more { MayBeginCall self.old → result ≡ More }
        // If the first request is refused (H2, H3, H6 to H11), this fault is returned.
        ensures refuses { (f : HeadFault) → RefusesHead f self.old → result ≡ Fault f }
        // It is the fault with which `read_request` stops after the first of the bytes.
        ensures fault { (f : HeadFault) (taken after : List ℕ) → self.old ≡ taken ++ after
            → RefusesAfter f taken → result ≡ Fault f }
    {
        self.take_next()
    }

    /// Takes the next request. `next` has more clauses, which follow from the one of this function.
    fn take_next(&mut self) -> NextRequest
        ensures { TakesNext self.old self.new result }
    {
        let left = self.left();
        let found = match find_request(left) {
            Ok(Some(found)) => found,
            Ok(None) => return NextRequest::More,
            Err(fault) => return NextRequest::Fault(fault),
        };
        let length = found.announced.length;
        if left.len() - found.size < length {
            return NextRequest::More;
        }
        let body = match self.take_body(found.size, length) {
            Ok(body) => body,
            Err(_) => return NextRequest::Fault(HeadFault::NoMemory),
        };
        let request = Request {
            stream: found.announced.stream,
            body,
        };
        NextRequest::Whole(request, found.persistence)
    }

    /// Takes a head of `size` bytes and the body of `count` bytes after it, and returns the body.
    /// Does not allocate for an empty body. Errors: an allocation failed; nothing is taken.
    pub(crate) fn take_body(&mut self, size: usize, count: usize) -> Result<Vec<u8>, AllocError>
        requires { size + count ≤ length self.old }
        ensures ok { OnOk result (self.new ≡ drop count (drop size self.old)) }
        ensures body { IfOk result (λ body. body.items ≡ take count (drop size self.old)) }
        ensures err { OnErr result ((self.new ≡ self.old) × (0 < count)) }
    {
        let left = self.left();
        let mut body = Vec::new(self.alloc);
        if count > 0 {
            body.extend_from_slice(&left[size..size + count])?;
        }
        self.taken += size + count;
        Ok(body)
    }

    /// Returns the fault of the request that the connection's end cuts off, or `None` if no bytes
    /// are left. [`next`](Self::next) must have returned `More`.
    pub fn fault_at_end(&self) -> Option<HeadFault>
        ensures none { IsNone result ↔ (self.now ≡ []) }
        // H3 in a head and H12 in a body, as `read_request` reports the end of its reader.
        ensures head { MayBeginHead self.now → self.now ≢ [] → result ≡ Some BadHead }
        ensures body { EndsInBody self.now → result ≡ Some ShortBody }
    {
        let left = self.left();
        if left.is_empty() {
            return None;
        }
        Some(cut_off(left))
    }

    /// Returns the bytes that came and are not taken.
    pub(crate) fn left(&self) -> &[u8]
        ensures { result.now ≡ self.now }
    {
        &self.bytes[self.taken..]
    }

    /// Frees the space of the bytes that were taken.
    fn drop_taken(&mut self)
        ensures { self.new ≡ self.old }
    {
        self.bytes.drain(..self.taken);
        self.taken = 0;
    }
}

/// Returns the fault of the request that begins with these bytes, if no more come.
fn cut_off(bytes: &[u8]) -> HeadFault
    ensures head { MayBeginHead bytes.now → result ≡ BadHead }
    ensures body { EndsInBody bytes.now → result ≡ ShortBody }
{
    match find_request(bytes) {
        Ok(Some(_)) => HeadFault::ShortBody,
        Ok(None) => HeadFault::BadHead,
        Err(fault) => fault,
    }
}

/// Returns the valid head at the start of the bytes, or `None` if the head may end later. Errors:
/// the first fault of the head.
fn find_request(bytes: &[u8]) -> Result<Option<FoundHead>, HeadFault>
    ensures { MatchResult result
        (λ found. MatchOption found (MayBeginHead bytes.now) (IsFoundHead bytes.now))
        (λ f. RefusesHead f bytes.now) }
{
    let mut headers = [EMPTY_HEADER_SPAN; MAX_FIELDS];
    let Some(head) = find_head(bytes, &mut headers)? else {
        return Ok(None);
    };
    let taken = &bytes[..head.len];
    let announced = match announced_by(taken, &headers, &head) {
        Ok(announced) => announced,
        Err(fault) => return Err(fault),
    };
    let persistence = persistence_of(taken, &headers[..head.headers], head.version);
    Ok(Some(FoundHead {
        size: head.len,
        announced,
        persistence,
    }))
}

/// Returns the spans of the head at the start of the bytes, or `None` if the head may end later.
/// Errors: the bytes begin with no head (H3), or with `MAX_HEAD` bytes of a longer one (H2).
fn find_head(
    bytes: &[u8],
    headers: &mut [HeaderSpan; MAX_FIELDS],
) -> Result<Option<RequestSpans>, HeadFault>
    ensures { MatchResult result
        (λ found. MatchOption found (MayBeginHead bytes.now)
        (λ r. IsRequestTaken (take r.len bytes.now) headers.new r))
        (λ f. RefusesHead f bytes.now) }
{
    let front = &bytes[..bytes.len().min(MAX_HEAD)];
    match parse_head(front, headers) {
        Ok(Some(head)) => Ok(Some(head)),
        Ok(None) => {
            if front.len() == MAX_HEAD {
                Err(HeadFault::HeadTooLong)
            } else {
                Ok(None)
            }
        }
        Err(fault) => Err(fault),
    }
}

/// Returns the spans of the head at the start of these at most `MAX_HEAD` bytes, or `None` if the
/// head may end later. Errors: the bytes begin with no head (H3).
pub(crate) fn parse_head(
    front: &[u8],
    headers: &mut [HeaderSpan; MAX_FIELDS],
) -> Result<Option<RequestSpans>, HeadFault>
    requires { length front.now ≤ MAX_HEAD }
    ensures { MatchResult result
        (λ found. MatchOption found (PendsRequest front.now)
        (λ r. IsRequestTaken (take r.len front.now) headers.new r))
        (λ f. (f ≡ BadHead) × IsNoHead front.now) }
{
    match parse_request(front, headers) {
        Ok(Status::Complete(head)) => Ok(Some(head)),
        Ok(Status::Partial) => {
            if field_lines(front) > MAX_FIELDS {
                Err(HeadFault::BadHead)
            } else {
                Ok(None)
            }
        }
        Err(Error::TooManyHeaders) => Err(HeadFault::BadHead),
        Err(_) => {
            if waits_in_target(front, headers) {
                Ok(None)
            } else {
                Err(HeadFault::BadHead)
            }
        }
    }
}

/// Returns whether the bytes, which begin no head as they are, end in the target of a request line.
/// The parser tests such a target for UTF-8 before its end came, so it refuses half a character.
fn waits_in_target(front: &[u8], headers: &mut [HeaderSpan; MAX_FIELDS]) -> bool
    requires { NeverHasRequest front.now }
    ensures { IsTrue result ↔ EndsInTarget front.now }
{
    let Some(start) = through_space(front) else {
        return false;
    };
    match parse_request(start, headers) {
        Ok(Status::Partial) => ends_in_target(front),
        Ok(Status::Complete(_)) => false,
        Err(Error::TooManyHeaders) => false,
        Err(_) => false,
    }
}
