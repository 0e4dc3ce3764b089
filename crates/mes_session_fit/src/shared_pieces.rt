//! Search for pieces that several tasks take. A piece is a point of a range or an item of a set.
ghost use Rattle.std.specs.Prelude.{◌≡◌, ℕ, List};
ghost use Rattle.std.specs.List.{list_any};
ghost use Rattle.mes_session_fit.specs.Keys.{key_of, is_of};
ghost use Rattle.mes_session_fit.specs.Fits.{in_range, in_ranges, in_items, piece_in, piece_of, has_piece, asked};
ghost use Rattle.mes_session_fit.specs.Launched.{launched};
ghost use Rattle.mes_session_fit.specs.Looking.{Meets};

use crate::key::{same_key, same_text};
use crate::task_group::TaskGroup;
use mes_json::Text;
use mes_model::{Range, Resource, ResourceValue, TaskInfo};

pub(crate) fn has_item(items: &[Text], item: &Text) -> bool
    ensures { result ≡ in_items item.now items.now }
{
    items.iter().any(|other| same_text(item, other))
}

fn items_meet(items: &[Text], others: &[Text]) -> bool
    ensures { Meets (λ n. in_items n items.now) (λ n. in_items n others.now) result }
{
    for item in items {
        if has_item(others, item) {
            return true;
        }
    }
    false
}

/// Returns whether a range and a list of ranges have a point in common.
fn range_meets(range: &Range, others: &[Range]) -> bool
    ensures { Meets (λ x. in_range x range.now) (λ x. in_ranges x others.now) result }
{
    for other in others {
        let first = range.first.max(other.first);
        if first <= range.last && first <= other.last {
            return true;
        }
    }
    false
}

fn ranges_meet(ranges: &[Range], others: &[Range]) -> bool
    ensures { Meets (λ x. in_ranges x ranges.now) (λ x. in_ranges x others.now) result }
{
    for range in ranges {
        if range_meets(range, others) {
            return true;
        }
    }
    false
}

/// Returns whether two values have a piece in common.
fn values_meet(value: &ResourceValue, other: &ResourceValue) -> bool
    ensures { Meets (λ p. piece_in p value.now) (λ p. piece_in p other.now) result }
{
    match value {
        ResourceValue::Scalar(_) => false,
        ResourceValue::Ranges(ranges) => match other {
            ResourceValue::Ranges(others) => ranges_meet(
                ranges.range.as_slice(),
                others.range.as_slice(),
            ),
            _ => false,
        },
        ResourceValue::Set(set) => match other {
            ResourceValue::Set(others) => items_meet(set.item.as_slice(), others.item.as_slice()),
            _ => false,
        },
    }
}

/// Returns whether one of `others` has the key of `resource` and a piece in common with it.
fn resources_meet(resource: &Resource, others: &[Resource]) -> bool
    ensures { Meets (λ p. piece_in p resource.now.value)
        (λ p. has_piece (key_of resource.now) p others.now) result }
{
    for other in others {
        if values_meet(&resource.value, &other.value) && same_key(resource, other) {
            return true;
        }
    }
    false
}

pub(crate) fn tasks_meet(resource: &Resource, tasks: &[TaskInfo]) -> bool
    ensures { Meets (λ p. piece_in p resource.now.value)
        (λ p. has_piece (key_of resource.now) p (asked tasks.now)) result }
{
    for task in tasks {
        if resources_meet(resource, task.resources.as_slice()) {
            return true;
        }
    }
    false
}

pub(crate) fn groups_meet<L: TaskGroup>(resource: &Resource, launches: &[L]) -> bool
    ensures { Meets (λ p. piece_in p resource.now.value)
        (λ p. has_piece (key_of resource.now) p (asked (launched L.tasks launches.now))) result }
{
    for group in launches {
        if tasks_meet(resource, group.tasks()) {
            return true;
        }
    }
    false
}
