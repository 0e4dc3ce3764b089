//! Comparison of amounts without sums: each requested amount is subtracted from the amount that
//! remains in the offers.
ghost use Rattle.std.specs.Prelude.{◌≡◌, ◌+◌, ◌<◌, ◌≤◌, ◌↔◌, take, IsTrue, IsFalse, false};
ghost use Rattle.std.specs.List.{list_any};
ghost use Rattle.mes_session_fit.specs.Keys.{key_of, is_of};
ghost use Rattle.mes_session_fit.specs.Fits.{amount_of, amount, asked, offered, thousandths_in};
ghost use Rattle.mes_session_fit.specs.Launched.{launched, place, IsInRange};
ghost use Rattle.mes_session_fit.specs.Pouring.{rest, steps};

use crate::key::same_key;
use crate::offer_list::OfferList;
use crate::task_group::TaskGroup;
use mes_model::{Resource, ResourceValue, TaskInfo};

/// The amount of a key that remains in the offers: `left` of the current resource, and all of each
/// later resource.
#[derive(Drop)]
struct Supply {
    offer: usize,
    resource: usize,
    left: u64,
}

/// Returns the amount of a resource in thousandths, or 0 if it has another key.
fn amount_under(key: &Resource, resource: &Resource) -> u64
    ensures { result ≡ amount_of (key_of key.now) resource.now }
{
    match &resource.value {
        ResourceValue::Scalar(scalar) if same_key(key, resource) => scalar.value.units(),
        _ => 0,
    }
}

impl Supply {
    /// Advances to the next resource or offer; returns `false` after the last offer.
    fn step<O: OfferList>(&mut self, offers: &O, key: &Resource) -> bool
        requires { self.old.left ≡ 0 }
        ensures same { IsTrue result → rest (key_of key.now) (O.offers offers.now) self.new
            ≡ rest (key_of key.now) (O.offers offers.now) self.old }
        ensures less { IsTrue result → steps (O.offers offers.now) self.new
            < steps (O.offers offers.now) self.old }
        ensures end { IsFalse result → rest (key_of key.now) (O.offers offers.now) self.old ≡ 0 }
    {
        if self.offer >= offers.count() {
            return false;
        }
        let resources = offers.get_index(self.offer).resources.as_slice();
        if self.resource >= resources.len() {
            self.offer += 1;
            self.resource = 0;
            return true;
        }
        self.left = amount_under(key, &resources[self.resource]);
        self.resource += 1;
        true
    }

    /// Takes the amount `wanted`; returns `false` if less than that remains.
    fn draw<O: OfferList>(&mut self, offers: &O, key: &Resource, wanted: u64) -> bool
        ensures enough { IsTrue result → wanted
            + rest (key_of key.now) (O.offers offers.now) self.new
            ≡ rest (key_of key.now) (O.offers offers.now) self.old }
        ensures short { IsFalse result → rest (key_of key.now) (O.offers offers.now) self.old
            < wanted }
    {
        let mut wanted = wanted;
        while self.left < wanted {
            wanted -= self.left;
            self.left = 0;
            if !self.step(offers, key) {
                return false;
            }
        }
        self.left -= wanted;
        true
    }

    fn take_resources<O: OfferList>(
        &mut self,
        offers: &O,
        key: &Resource,
        resources: &[Resource],
    ) -> bool
        ensures enough { IsTrue result → amount (key_of key.now) resources.now
            + rest (key_of key.now) (O.offers offers.now) self.new
            ≡ rest (key_of key.now) (O.offers offers.now) self.old }
        ensures short { IsFalse result → rest (key_of key.now) (O.offers offers.now) self.old
            < amount (key_of key.now) resources.now }
    {
        for resource in resources {
            if !self.draw(offers, key, amount_under(key, resource)) {
                return false;
            }
        }
        true
    }

    fn take_tasks<O: OfferList>(&mut self, offers: &O, key: &Resource, tasks: &[TaskInfo]) -> bool
        ensures enough { IsTrue result → amount (key_of key.now) (asked tasks.now)
            + rest (key_of key.now) (O.offers offers.now) self.new
            ≡ rest (key_of key.now) (O.offers offers.now) self.old }
        ensures short { IsFalse result → rest (key_of key.now) (O.offers offers.now) self.old
            < amount (key_of key.now) (asked tasks.now) }
    {
        for task in tasks {
            if !self.take_resources(offers, key, task.resources.as_slice()) {
                return false;
            }
        }
        true
    }

    fn take_groups<O: OfferList, L: TaskGroup>(
        &mut self,
        offers: &O,
        key: &Resource,
        launches: &[L],
    ) -> bool
        ensures enough { IsTrue result → amount (key_of key.now)
            (asked (launched L.tasks launches.now))
            + rest (key_of key.now) (O.offers offers.now) self.new
            ≡ rest (key_of key.now) (O.offers offers.now) self.old }
        ensures short { IsFalse result → rest (key_of key.now) (O.offers offers.now) self.old
            < amount (key_of key.now) (asked (launched L.tasks launches.now)) }
    {
        for group in launches {
            if !self.take_tasks(offers, key, group.tasks()) {
                return false;
            }
        }
        true
    }
}

/// Returns whether the tasks take more of the key than the offers have. No task before task `task`
/// of group `at` has a resource of the key.
pub(crate) fn exceeds<O: OfferList, L: TaskGroup>(
    offers: &O,
    key: &Resource,
    launches: &[L],
    at: usize,
    task: usize,
) -> bool
    requires is_index { IsInRange L.tasks launches.now at task }
    requires first { list_any (is_of (key_of key.now))
        (asked (take (place L.tasks launches.now at task) (launched L.tasks launches.now)))
        ≡ false }
    ensures { IsTrue result ↔ amount (key_of key.now) (offered (O.offers offers.now))
        < amount (key_of key.now) (asked (launched L.tasks launches.now)) }
{
    let mut supply = Supply {
        offer: 0,
        resource: 0,
        left: 0,
    };
    let tasks = launches[at].tasks();
    if !supply.take_tasks(offers, key, &tasks[task..]) {
        return true;
    }
    !supply.take_groups(offers, key, &launches[at + 1..])
}
