//! Reading of the requests for a page of the test master, on a connection of the scheduler API.

ghost use Rattle.std.specs.Prelude.{◌≡◌, ◌↔◌, ◌++◌, ℕ, List, take, IsTrue, MatchOption, MatchResult};
ghost use Rattle.httparse.specs.Grammar.{RequestHead};
ghost use Rattle.mes_double_http.specs.Connections.{persistence};
ghost use Rattle.mes_double_http.specs.Heads.{IsRequest};
ghost use Rattle.mes_double_http.specs.Pages.{target_of, method_of, IsPageTarget, IsPageHead, BreaksPage, BeginsNoPage, RefusesPage, resource_of, body_of, IsWholePage, EndsInPage, IsFoundPage, TakesPage, GivesPage};
ghost use Rattle.mes_double_http.specs.Received.{BeginsHead};
ghost use Rattle.mes_double_http.specs.Stops.{IsRequestTaken};
ghost use Rattle.mes_double_http.specs.declared.page_request.PageRequest.{PageRequest};
ghost use Rattle.mes_double_http.specs.declared.page_request.NextPage.TheVariants.{Nothing, More, Refused};
ghost use Rattle.mes_double_http.specs.declared.page_request.Resource.TheVariants.{Fault};

use crate::limits::{MAX_FIELDS, MAX_HEAD};
use crate::page_rules::{is_local, length_for};
use crate::persistence::{Persistence, persistence_of};
use crate::request_reader::{RequestReader, parse_head};
use http::StatusCode;
use httparse::spans::{EMPTY_HEADER_SPAN, HeaderSpan, RequestSpans};

/// A request for a page.
#[derive(Debug, Drop)]
pub enum PageRequest {
    /// `GET /`: the page.
    Page,
    /// `GET /state`: the state of the master.
    State,
    /// `POST /fault`, with its body. If the client follows the rules, the body is a record in JSON.
    Fault(Vec<u8>),
}

/// The result of a search for a request for a page.
#[derive(Debug, Drop)]
pub enum NextPage {
    /// The bytes so far do not begin with the head of a request for a page: the first request is
    /// another one, its head is incomplete, or there is none.
    Nothing,
    /// The bytes so far are a valid head of `POST /fault`, and less than its whole body.
    More,
    /// A whole request for a page was taken.
    Whole(PageRequest, Persistence),
    /// The first request is for a page, and is refused with this status.
    Refused(StatusCode),
    /// An allocation failed.
    NoMemory,
}

/// The page for which a request is, by its target.
#[derive(Clone, Copy)]
pub(crate) enum Resource {
    Page,
    State,
    Fault,
}

/// The page for which a request is, and the length of the request's body in bytes.
#[derive(Clone, Copy)]
pub(crate) struct Asked {
    pub resource: Resource,
    pub length: usize,
}

/// A valid head of a request for a page, at the start of the bytes.
#[derive(Clone, Copy)]
pub(crate) struct FoundPage {
    /// The length of the head in bytes.
    pub size: usize,
    pub asked: Asked,
    pub persistence: Persistence,
}

impl Resource {
    /// Returns the resource with this target, if there is one.
    fn with_target(target: &[u8]) -> Option<Resource>
        ensures { MatchOption result ((r : Resource) → target.now ≡ target_of r → ⊥)
            (λ r. target.now ≡ target_of r) }
    {
        if target == b"/".as_slice() {
            Some(Resource::Page)
        } else if target == b"/state".as_slice() {
            Some(Resource::State)
        } else if target == b"/fault".as_slice() {
            Some(Resource::Fault)
        } else {
            None
        }
    }

    /// Returns whether this is the method of the requests for the resource.
    fn has_method(self, method: &[u8]) -> bool
        ensures { IsTrue result ↔ (method.now ≡ method_of self) }
    {
        match self {
            Resource::Page | Resource::State => method == b"GET".as_slice(),
            Resource::Fault => method == b"POST".as_slice(),
        }
    }

    /// Returns the request for the resource. The body is used only for `Fault`.
    fn request(self, body: Vec<u8>) -> PageRequest
        ensures resource { resource_of result ≡ self }
        ensures body { self ≡ Fault → body_of result ≡ body.items }
    {
        match self {
            Resource::Page => PageRequest::Page,
            Resource::State => PageRequest::State,
            Resource::Fault => PageRequest::Fault(body),
        }
    }
}

impl RequestReader {
    /// Takes the next request, if it is a valid one for a page and all its bytes came. Otherwise
    /// nothing is taken. After `Nothing` the first request, if there is one, is for
    /// [`next`](Self::next).
    ///
    /// A request is for a page if its target is `/`, `/state` or `/fault`. It is refused with the
    /// status of the first of these rules that it breaks:
    ///
    /// - 405: the method is GET, or POST for `/fault`.
    /// - 403: there is exactly one `Host`, which is `localhost`, `127.0.0.1` or `[::1]`, with or
    ///   without a port. There is no `Origin`, or exactly one, which is `http://` followed by the
    ///   value of `Host`. So a browser lets no page of another site read these pages or send a
    ///   fault, even if the name of that site resolves to this machine.
    /// - 400: a GET has no body. The body of a POST is JSON, and one `Content-Length` states its
    ///   length, which is at most `MAX_BODY` bytes.
    ///
    /// After a refusal no more requests may be taken, since it is unknown where the next one begins.
    /// If an allocation failed, the call may be repeated.
    pub fn next_page(&mut self) -> NextPage
        // A whole request for a page was taken, and the bytes after it are left. Or there is none,
        // more bytes are needed, the request is refused, or memory ran out: then all bytes are left.
        ensures takes { TakesPage self.old self.new result }
        // If the bytes begin with a whole request for a page, it is taken, except if an allocation
        // for the body of a POST failed.
        ensures whole { (taken after : List ℕ) (page : PageRequest) → self.old ≡ taken ++ after
            → (whole : IsWholePage taken page)
            → GivesPage page (persistence whole.head) after self.new result }
        // If the bytes are a valid head of POST /fault, and less than its whole body, more are needed.
        ensures more { EndsInPage self.old → result ≡ More }
        // If the first request is for a page and breaks a rule, it is refused with this status.
        ensures refuses { (status : ℕ) → RefusesPage status self.old → result ≡ Refused status }
        // If no head of a request for a page begins the bytes, there is nothing to take.
        ensures nothing { BeginsNoPage self.old → result ≡ Nothing }
    {
        self.take_page()
    }

    /// Takes the next request for a page. `next_page` has more clauses, which follow from the one of
    /// this function.
    fn take_page(&mut self) -> NextPage
        ensures { TakesPage self.old self.new result }
    {
        let left = self.left();
        let found = match find_page(left) {
            Ok(Some(found)) => found,
            Ok(None) => return NextPage::Nothing,
            Err(status) => return NextPage::Refused(status),
        };
        let length = found.asked.length;
        if left.len() - found.size < length {
            return NextPage::More;
        }
        match self.take_body(found.size, length) {
            Ok(body) => NextPage::Whole(found.asked.resource.request(body), found.persistence),
            Err(_) => NextPage::NoMemory,
        }
    }
}

/// Returns the valid head of a request for a page at the start of the bytes, or `None` if no head
/// of such a request begins them. Errors: the status of the first rule that the head breaks.
fn find_page(bytes: &[u8]) -> Result<Option<FoundPage>, StatusCode>
    ensures { MatchResult result
        (λ found. MatchOption found (BeginsNoPage bytes.now) (IsFoundPage bytes.now))
        (λ status. RefusesPage status bytes.now) }
{
    let mut headers = [EMPTY_HEADER_SPAN; MAX_FIELDS];
    let Some(head) = whole_head(bytes, &mut headers) else {
        return Ok(None);
    };
    let taken = &bytes[..head.len];
    let asked = match asked_by(taken, &headers, &head) {
        Ok(Some(asked)) => asked,
        Ok(None) => return Ok(None),
        Err(status) => return Err(status),
    };
    let persistence = persistence_of(taken, &headers[..head.headers], head.version);
    Ok(Some(FoundPage {
        size: head.len,
        asked,
        persistence,
    }))
}

/// Returns the spans of the head at the start of the bytes, or `None` if no head within the limits
/// begins them.
fn whole_head(bytes: &[u8], headers: &mut [HeaderSpan; MAX_FIELDS]) -> Option<RequestSpans>
    ensures { MatchOption result
        ((h : RequestHead) → BeginsHead bytes.now h → ⊥)
        (λ r. IsRequestTaken (take r.len bytes.now) headers.new r) }
{
    let front = &bytes[..bytes.len().min(MAX_HEAD)];
    match parse_head(front, headers) {
        Ok(Some(head)) => Some(head),
        Ok(None) => None,
        Err(_) => None,
    }
}

/// Returns the page for which the request is and the length of its body, or `None` if it is for no
/// page. Errors: the status of the first rule that the head breaks.
fn asked_by(
    taken: &[u8],
    headers: &[HeaderSpan],
    head: &RequestSpans,
) -> Result<Option<Asked>, StatusCode>
    requires { IsRequestTaken taken.now headers.now head.now }
    ensures { (h : RequestHead) × IsRequest taken.now h
        × MatchResult result
        (λ asked. MatchOption asked (IsPageTarget h → ⊥) (λ a. IsPageHead h a.resource a.length))
        (λ status. BreaksPage status h) }
{
    let Some(resource) = Resource::with_target(head.path.of(taken)) else {
        return Ok(None);
    };
    if !resource.has_method(head.method.of(taken)) {
        return Err(StatusCode::METHOD_NOT_ALLOWED);
    }
    let fields = &headers[..head.headers];
    if !is_local(taken, fields) {
        return Err(StatusCode::FORBIDDEN);
    }
    match length_for(resource, taken, fields) {
        Some(length) => Ok(Some(Asked { resource, length })),
        None => Err(StatusCode::BAD_REQUEST),
    }
}
