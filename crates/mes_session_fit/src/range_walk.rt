//! Search for the end of the consecutive numbers that ranges cover from a given number on. Used by
//! `unoffered_pieces.rt`.
ghost use Rattle.std.specs.Prelude.{◌≡◌, ◌≤◌, ℕ, true, false, Some, IfSome};
ghost use Rattle.mes_session_fit.specs.Keys.{key_of};
ghost use Rattle.mes_session_fit.specs.Fits.{in_ranges, piece_of, has_piece, offered};
ghost use Rattle.mes_session_fit.specs.Fits.Piece.{point};
ghost use Rattle.mes_session_fit.specs.Looking.{Reaches, AllFrom, farther};

use crate::key::same_key;
use crate::offer_list::OfferList;
use mes_model::{Range, Resource, ResourceValue};

/// The number of offers on each side of the last match that are searched first.
const NEAR_OFFERS: usize = 8;

pub(crate) fn farther_end(end: Option<u64>, other: Option<u64>) -> Option<u64>
    ensures { result ≡ farther end other }
{
    match end {
        None => other,
        Some(end) => match other {
            None => Some(end),
            Some(other) => Some(end.max(other)),
        },
    }
}

fn is_far(end: Option<u64>, wanted: u64) -> bool
    ensures { end ≡ None → result ≡ false }
{
    match end {
        None => false,
        Some(end) => end >= wanted,
    }
}

/// Returns the largest end of the ranges that contain `at`, or the first such end that is at least
/// `wanted`. Returns `None` if no range contains `at`.
pub(crate) fn range_reach(ranges: &[Range], at: u64, wanted: u64) -> Option<u64>
    ensures { Reaches (λ x. in_ranges x ranges.now) at result }
{
    let mut reach = None;
    for range in ranges {
        if range.first <= at && at <= range.last {
            if range.last >= wanted {
                return Some(range.last);
            }
            reach = farther_end(reach, Some(range.last));
        }
    }
    reach
}

/// Like [`range_reach`], but for the ranges of one resource that has the key of `key`.
fn value_reach(resource: &Resource, key: &Resource, at: u64, wanted: u64) -> Option<u64>
    ensures { Reaches (λ x. piece_of (key_of key.now) (point x) resource.now) at result }
{
    if let ResourceValue::Ranges(ranges) = &resource.value {
        let reach = range_reach(ranges.range.as_slice(), at, wanted);
        if reach.is_some() && same_key(key, resource) {
            return reach;
        }
    }
    None
}

/// Like [`range_reach`], but for the ranges of all resources that have the key of `key`.
pub(crate) fn resource_reach(
    resources: &[Resource],
    key: &Resource,
    at: u64,
    wanted: u64,
) -> Option<u64>
    ensures { Reaches (λ x. has_piece (key_of key.now) (point x) resources.now) at result }
{
    let mut reach = None;
    for resource in resources {
        let end = value_reach(resource, key, at, wanted);
        if is_far(end, wanted) {
            return end;
        }
        reach = farther_end(reach, end);
    }
    reach
}

/// Like [`range_reach`], but for the offers within `NEAR_OFFERS` of index `near`. Returns only an
/// end of at least `wanted`, and then stores the index of its offer in `near`.
fn last_coverage<O: OfferList>(
    offers: &O,
    near: &mut usize,
    key: &Resource,
    at: u64,
    wanted: u64,
) -> Option<u64>
    ensures { IfSome result (λ end. Reaches
        (λ x. has_piece (key_of key.now) (point x) (offered (O.offers offers.now))) at (Some end)) }
{
    let first = near.saturating_sub(NEAR_OFFERS);
    let end = near.saturating_add(NEAR_OFFERS).min(offers.count());
    for index in first..end {
        let end = resource_reach(
            offers.get_index(index).resources.as_slice(),
            key,
            at,
            wanted,
        );
        if is_far(end, wanted) {
            *near = index;
            return end;
        }
    }
    None
}

/// Like [`range_reach`], but for all offers. If an offer reaches `wanted`, stores its index in
/// `near`.
fn coverage<O: OfferList>(
    offers: &O,
    near: &mut usize,
    key: &Resource,
    at: u64,
    wanted: u64,
) -> Option<u64>
    ensures { Reaches (λ x. has_piece (key_of key.now) (point x) (offered (O.offers offers.now))) at
        result }
{
    let mut reach = None;
    for index in 0..offers.count() {
        let end = resource_reach(
            offers.get_index(index).resources.as_slice(),
            key,
            at,
            wanted,
        );
        if is_far(end, wanted) {
            *near = index;
            return end;
        }
        reach = farther_end(reach, end);
    }
    reach
}

/// Like [`range_reach`], but for the offers. Searches the offers next to index `near` first,
/// because consecutive ranges usually are in consecutive offers.
pub(crate) fn offer_reach<O: OfferList>(
    offers: &O,
    near: &mut usize,
    key: &Resource,
    at: u64,
    wanted: u64,
) -> Option<u64>
    ensures { Reaches (λ x. has_piece (key_of key.now) (point x) (offered (O.offers offers.now))) at
        result }
{
    match last_coverage(offers, near, key, at, wanted) {
        Some(end) => Some(end),
        None => coverage(offers, near, key, at, wanted),
    }
}
