//! The responses to requests for pages.

ghost use Rattle.std.specs.Prelude.{◌≡◌, ◌++◌, length, IfOk, OnOk};
ghost use Rattle.mes_double_http.specs.Texts.{page_head};
ghost use Rattle.mesosev_live.specs.Desks.{Keeps};
ghost use Rattle.mesosev_live.specs.Serving.{Shows, phase_after};

use super::{Connection, Phase, Served, persistence_after};
use crate::desk::Desk;
use crate::page::PAGE;
use mes_double_http::{PageMedia, PageRequest, Persistence};
use mes_double_live::LiveFault;

/// The number of first bytes that show whether a request is for a page.
pub(super) const CALL_START: usize = 11;

impl Connection {
    /// Appends the response to a request for a page: the page, the state, or the status of the
    /// response to an event.
    pub(super) fn show<D: Desk>(
        &mut self,
        desk: &mut D,
        request: &PageRequest,
        persistence: Persistence,
    ) -> Result<Served, LiveFault>
        ensures kept { Keeps D.follows desk.old desk.new }
        ensures requests { self.new.requests ≡ self.old.requests }
        ensures shows { IfOk result (Shows D.shows D.takes self.old desk.old request.now persistence
            self.new desk.new) }
    {
        match request {
            PageRequest::Page => {
                self.push_page(PageMedia::Html, PAGE.as_bytes(), persistence)?;
                Ok(Served::Shown)
            }
            PageRequest::State => {
                let text = desk.state()?;
                self.push_page(PageMedia::Json, text.as_slice(), persistence)?;
                Ok(Served::Shown)
            }
            PageRequest::Fault(body) => {
                let status = desk.demand(body.as_slice())?;
                self.push_status(status, persistence_after(status, persistence))?;
                Ok(Served::Demanded(status))
            }
        }
    }

    /// Appends a response with status 200 and this body. The connection ends if it is to be closed.
    fn push_page(
        &mut self,
        media: PageMedia,
        body: &[u8],
        persistence: Persistence,
    ) -> Result<(), LiveFault>
        ensures requests { self.new.requests ≡ self.old.requests }
        ensures out { OnOk result (self.new.out
            ≡ self.old.out ++ page_head persistence media (length body.now) ++ body.now) }
        ensures phase { OnOk result (self.new.phase ≡ phase_after persistence self.old.phase) }
    {
        if self.out.push_page(media, body, persistence).is_err() {
            return Err(LiveFault::NoMemory);
        }
        if persistence == Persistence::Close {
            self.phase = Phase::Ending;
        }
        Ok(())
    }
}

/// Returns whether the first bytes of a request are those of a request for a page. Of fewer than
/// `CALL_START` bytes it may be unknown; they count as those of a call then.
pub(super) fn begins_page(first: &[u8]) -> bool {
    first.starts_with(b"GET ") || first.starts_with(b"POST /fault")
}
