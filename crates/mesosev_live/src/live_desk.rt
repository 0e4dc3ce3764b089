//! `Live` as the test master of the loop over the sockets.

ghost use Rattle.std.specs.Prelude.{◌≡◌};

use crate::desk::{Answered, Desk};
use http::StatusCode;
use mes_double_faults::Fault;
use mes_double_http::{Request, StreamId};
use mes_double_live::{EndedStream, Live, LiveFault, Reply};
use mes_double_state::state_text;
use mes_msg::{Call, Event, RecordFault};
use mesosev_serve::call_name;

impl Desk for Live {
    ghost use Rattle.mes_double_state.specs.States.{state_text};
    ghost use Rattle.mesosev_live.specs.LiveDesks.{MovesTo, RespondsTo, TakesEvent, pending_of};

    ghost follows = { MovesTo };

    ghost answers = { RespondsTo };

    ghost pending = { pending_of };

    ghost shows = { state_text };

    ghost takes = { TakesEvent };

    #[tactic(auto, using(crate::proofs::LiveDeskLemmas::keeps_moves))]
    fn answer(&mut self, request: &Request) -> Result<Answered, LiveFault> {
        let call = match Call::read_record(self.alloc(), request.body.as_slice()) {
            Ok(call) => call,
            Err(RecordFault::NoMemory) => return Err(LiveFault::NoMemory),
            Err(_) => {
                return Ok(Answered {
                    reply: Reply::plain(StatusCode::BAD_REQUEST),
                    name: "-",
                });
            }
        };
        let reply = self.call(request.stream.as_ref(), &call)?;
        Ok(Answered {
            reply,
            name: call_name(&call),
        })
    }

    fn resets_next(&self) -> bool {
        Live::resets_next(self)
    }

    #[tactic(auto, using(crate::proofs::LiveDeskLemmas::keeps_same))]
    fn reset(&mut self) -> Result<(), LiveFault> {
        Live::reset(self)
    }

    #[tactic(auto, using(crate::proofs::LiveDeskLemmas::keeps_taken))]
    fn take_happened(&mut self) -> Vec<Fault> {
        Live::take_happened(self)
    }

    #[tactic(auto, using(crate::proofs::LiveDeskLemmas::keeps_moves))]
    fn told(&mut self, event: Event) -> Result<(), LiveFault> {
        Live::told(self, event)
    }

    #[tactic(auto, using(crate::proofs::LiveDeskLemmas::keeps_moves))]
    fn demand(&mut self, body: &[u8]) -> Result<StatusCode, LiveFault> {
        match Event::read_record(self.alloc(), body) {
            Ok(event) => {
                Live::told(self, event)?;
                Ok(StatusCode::ACCEPTED)
            }
            Err(RecordFault::NoMemory) => Err(LiveFault::NoMemory),
            Err(_) => Ok(StatusCode::BAD_REQUEST),
        }
    }

    fn state(&self) -> Result<Vec<u8>, LiveFault> {
        Ok(state_text(self.alloc(), self)?)
    }

    #[tactic(auto, using(crate::proofs::LiveDeskLemmas::keeps_moves))]
    fn passed(&mut self, now: u64) -> Result<(), LiveFault> {
        Live::passed(self, now)
    }

    #[tactic(auto, using(crate::proofs::LiveDeskLemmas::keeps_same))]
    fn beat(&mut self) -> Result<(), LiveFault> {
        Live::beat(self)
    }

    #[tactic(auto, using(crate::proofs::LiveDeskLemmas::keeps_moves))]
    fn broken(&mut self) {
        Live::broken(self)
    }

    #[tactic(auto, using(crate::proofs::LiveDeskLemmas::keeps_moves))]
    fn stop(&mut self) -> Result<Option<EndedStream>, LiveFault> {
        Live::stop(self)
    }

    #[tactic(auto, using(crate::proofs::LiveDeskLemmas::keeps_written))]
    fn wrote(&mut self, count: usize) {
        Live::wrote(self, count)
    }

    fn pending(&self) -> &[u8] {
        Live::pending(self)
    }

    fn is_broken_off(&self) -> bool {
        Live::is_broken_off(self)
    }

    fn stream(&self) -> Option<&StreamId> {
        Live::stream(self)
    }

    fn first_due(&self) -> Option<u64> {
        Live::first_due(self)
    }
}
