//! Whether tasks fit the offers that they are launched on.
ghost use Rattle.std.specs.Prelude.{IfSome, IfNone};
ghost use Rattle.mes_session_fit.specs.Fits.{Fits};
ghost use Rattle.mes_double_cluster.specs.Fitting.{IsFirstUnfitting};

use mes_model::{Resource, TaskInfo};
use mes_session_fit::{OfferList, first_breach};

/// Returns the first resource of the tasks that does not fit the offers, or `None` if all fit. Does
/// not allocate.
pub fn unfitting_resource<'a, O: OfferList>(
    offers: &O,
    tasks: &'a [TaskInfo],
) -> Option<&'a Resource>
    ensures some { IfSome result (λ r. IsFirstUnfitting (O.offers offers.now) tasks.now r.now) }
    ensures none { IfNone result (Fits (O.offers offers.now) tasks.now) }
{
    let breach = first_breach(offers, &[tasks])?;
    let resources = tasks[breach.task].resources.as_slice();
    Some(&resources[breach.resource])
}
