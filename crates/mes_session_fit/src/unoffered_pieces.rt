//! Search for pieces that no offer has.
ghost use Rattle.std.specs.Prelude.{◌≡◌, ◌<◌, ◌≤◌, ◌||◌, ℕ, List, true};
ghost use Rattle.std.specs.List.{list_any};
ghost use Rattle.mes_session_fit.specs.Keys.{key_of};
ghost use Rattle.mes_session_fit.specs.Fits.{in_range, in_ranges, in_items, piece_in, piece_of, has_piece, offered};
ghost use Rattle.mes_session_fit.specs.Fits.Piece.{point, item as item_piece};
ghost use Rattle.mes_session_fit.specs.Looking.{Lacks, Reaches};

use crate::key::same_key;
use crate::offer_list::OfferList;
use crate::range_walk::{farther_end, offer_reach, range_reach, resource_reach};
use crate::shared_pieces::has_item;
use mes_json::Text;
use mes_model::{Range, Resource, ResourceValue};

/// Returns a number of at least `end`. All points after `end` up to that number are in the ranges
/// or in the resources of the key.
fn go_on(ranges: &[Range], resources: &[Resource], key: &Resource, end: u64, wanted: u64) -> u64
    ensures on { end ≤ result }
    ensures all { (x : ℕ) → end < x → x ≤ result
        → (in_ranges x ranges.now || has_piece (key_of key.now) (point x) resources.now) ≡ true }
{
    if end >= wanted {
        return end;
    }
    let reach = range_reach(ranges, end, wanted);
    match farther_end(reach, resource_reach(resources, key, end, wanted)) {
        None => end,
        Some(far) => far,
    }
}

/// Returns the end of consecutive points from `at` on that the offers have, or `None` if they lack
/// `at`. Skips the points of earlier ranges and of the task's earlier resources, because these are
/// known to be offered.
fn reach_on<O: OfferList>(
    offers: &O,
    near: &mut usize,
    own: &[Resource],
    key: &Resource,
    front: &[Range],
    at: u64,
    wanted: u64,
) -> Option<u64>
    requires { (x : ℕ) → (in_ranges x front.now || has_piece (key_of key.now) (point x) own.now)
        ≡ true → has_piece (key_of key.now) (point x) (offered (O.offers offers.now)) ≡ true }
    ensures { Reaches (λ x. has_piece (key_of key.now) (point x) (offered (O.offers offers.now))) at
        result }
{
    match offer_reach(offers, near, key, at, wanted) {
        None => None,
        Some(end) => Some(go_on(front, own, key, end, wanted)),
    }
}

/// Returns whether the offers lack a point of a range. The points of earlier ranges and of the
/// task's earlier resources are known to be offered.
fn is_range_unoffered<O: OfferList>(
    offers: &O,
    near: &mut usize,
    own: &[Resource],
    key: &Resource,
    front: &[Range],
    range: &Range,
) -> bool
    requires { (x : ℕ) → (in_ranges x front.now || has_piece (key_of key.now) (point x) own.now)
        ≡ true → has_piece (key_of key.now) (point x) (offered (O.offers offers.now)) ≡ true }
    ensures { Lacks (λ x. in_range x range.now)
        (λ x. has_piece (key_of key.now) (point x) (offered (O.offers offers.now))) result }
{
    let mut at = range.first;
    while at <= range.last {
        match reach_on(offers, near, own, key, front, at, range.last) {
            None => return true,
            Some(end) => {
                if end >= range.last {
                    return false;
                }
                at = end + 1;
            }
        }
    }
    false
}

/// Returns whether the offers lack a point of the ranges. The task's earlier resources are known to
/// be offered.
fn are_ranges_unoffered<O: OfferList>(
    offers: &O,
    near: &mut usize,
    own: &[Resource],
    key: &Resource,
    ranges: &[Range],
) -> bool
    requires { (x : ℕ) → has_piece (key_of key.now) (point x) own.now ≡ true
        → has_piece (key_of key.now) (point x) (offered (O.offers offers.now)) ≡ true }
    ensures { Lacks (λ x. in_ranges x ranges.now)
        (λ x. has_piece (key_of key.now) (point x) (offered (O.offers offers.now))) result }
{
    for index in 0..ranges.len() {
        if is_range_unoffered(offers, near, own, key, &ranges[..index], &ranges[index]) {
            return true;
        }
    }
    false
}

fn resource_has_item(resource: &Resource, key: &Resource, item: &Text) -> bool
    ensures { result ≡ piece_of (key_of key.now) (item_piece item.now) resource.now }
{
    match &resource.value {
        ResourceValue::Set(set) => has_item(set.item.as_slice(), item) && same_key(key, resource),
        _ => false,
    }
}

fn resources_have_item(resources: &[Resource], key: &Resource, item: &Text) -> bool
    ensures { result ≡ has_piece (key_of key.now) (item_piece item.now) resources.now }
{
    resources
        .iter()
        .any(|resource| resource_has_item(resource, key, item))
}

fn offers_have_item<O: OfferList>(offers: &O, key: &Resource, item: &Text) -> bool
    ensures { result ≡ has_piece (key_of key.now) (item_piece item.now)
        (offered (O.offers offers.now)) }
{
    for index in 0..offers.count() {
        if resources_have_item(offers.get_index(index).resources.as_slice(), key, item) {
            return true;
        }
    }
    false
}

/// Returns whether the offers lack one of the items.
fn are_items_unoffered<O: OfferList>(offers: &O, key: &Resource, items: &[Text]) -> bool
    ensures { Lacks (λ n. in_items n items.now)
        (λ n. has_piece (key_of key.now) (item_piece n) (offered (O.offers offers.now))) result }
{
    for item in items {
        if !offers_have_item(offers, key, item) {
            return true;
        }
    }
    false
}

/// Returns whether the offers lack a piece of a resource. The task's earlier resources are known to
/// be offered.
pub(crate) fn is_unoffered<O: OfferList>(
    offers: &O,
    near: &mut usize,
    own: &[Resource],
    resource: &Resource,
) -> bool
    requires { (x : ℕ) → has_piece (key_of resource.now) (point x) own.now ≡ true
        → has_piece (key_of resource.now) (point x) (offered (O.offers offers.now)) ≡ true }
    ensures { Lacks (λ p. piece_in p resource.now.value)
        (λ p. has_piece (key_of resource.now) p (offered (O.offers offers.now))) result }
{
    match &resource.value {
        ResourceValue::Scalar(_) => false,
        ResourceValue::Ranges(ranges) => are_ranges_unoffered(
            offers,
            near,
            own,
            resource,
            ranges.range.as_slice(),
        ),
        ResourceValue::Set(set) => are_items_unoffered(offers, resource, set.item.as_slice()),
    }
}
