//! The frameworks of the test master and of the scheduler.

ghost use Rattle.std.specs.Prelude.{◌≡◌, IfOk, codes};
ghost use Rattle.mesosev_net.specs.Given.{plain_framework, test_framework};

use mes_json::{NoMemory, Text};
use mes_model::{FrameworkInfo, Id};
use mes_model_schema::List;
use std::alloc::Global;

/// The framework id of the test master.
const FRAMEWORK: &str = "F1";

/// Returns the framework id of the test master: `F1`.
pub fn framework_id(alloc: Global) -> Result<Id, NoMemory>
    ensures { IfOk result (λ id. id ≡ test_framework) }
{
    let value = Text::of(alloc, FRAMEWORK)?;
    Ok(Id { value })
}

/// Returns a framework with only this user and name.
pub(crate) fn framework_info(
    alloc: Global,
    user: &str,
    name: &str,
) -> Result<FrameworkInfo, NoMemory>
    ensures { IfOk result (λ info. info ≡ plain_framework user.now name.now) }
{
    let user = Text::of(alloc, user)?;
    let name = Text::of(alloc, name)?;
    Ok(FrameworkInfo {
        user,
        name,
        id: None,
        failover_timeout: None,
        checkpoint: None,
        roles: List::new(Vec::new(alloc)),
        hostname: None,
        principal: None,
        capabilities: List::new(Vec::new(alloc)),
    })
}
