//! The reasons for which a log leads to no session, and for which tasks do not fit.

use mes_session::Refusal;
use mes_stream::Stop;

/// The reason for which a log leads to no session, or for which tasks do not fit the offers.
#[derive(Debug, Drop)]
pub enum TextStop {
    /// The bytes are no log, no offers or no tasks; or an allocation failed.
    Fault(Stop),
    /// An entry of the log is refused, after `before` others; or the tasks do not fit (S6).
    Refused {
        /// The number of entries before.
        before: u64,
        /// The reason.
        refusal: Refusal,
    },
}
