#![tactic(auto)]
//! The cluster of a test master: the offers in stock, and the tasks that run on them.
//!
//! - `stocked_offer`, `offer_state`: an offer of the stock, and whether it may be offered.
//! - `task`, `progress`: a task, the state that was reported last, and the next one.
//! - `cluster`: the lists of both, changed by what the framework calls and by the time.
//! - `stock`, `task_list`: changes of the items of a list.
//! - `sent_updates`: when each unacknowledged update was sent last.
//! - `statuses`: the statuses that are reported; `fitting`: which tasks fit their offers.
//!
//!     let mut cluster = Cluster::new(alloc, finish_after);
//!     cluster.stock(offers)?;
//!     let offer = cluster.offer_at(0, now)?;
//!
//! Times are in milliseconds since the start of the run. The crate `mes_double_live` joins the
//! cluster with the test master of `mes_double_master`.

mod cluster;
mod fitting;
mod offer_state;
mod progress;
mod sent_updates;
mod statuses;
mod stock;
mod stocked_offer;
mod task;
mod task_list;
mod theorems;

pub use cluster::Cluster;
pub use fitting::unfitting_resource;
pub use offer_state::OfferState;
pub use progress::{NextState, Progress, is_last};
pub use sent_updates::{SentUpdate, SentUpdates};
pub use statuses::{REFUSE_DEFAULT, refusal_end, task_error, task_lost, task_unknown, update_uuid};
pub use stocked_offer::StockedOffer;
pub use task::Task;
pub use theorems::cluster_laws;
