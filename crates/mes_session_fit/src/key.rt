//! The key of a resource. Only resources of one key are compared.
ghost use Rattle.std.specs.Prelude.{◌≡◌, ◌-◌, ◌↔◌, IsTrue, codes, unwrap_or, length, slice_get};
ghost use Rattle.std.specs.Str.{bytes_eq};
ghost use Rattle.mes_session_fit.specs.Keys.{key_of, keys_agree, type_of};

use mes_json::Text;
use mes_model::{Boxed, Id, Kept, Label, Labels, Reservation, Resource, ResourceValue};

/// The role of a resource that names no role.
const ANY_ROLE: &str = "*";

/// Returns whether two resources have one key: they agree in all but value and allocation. The name
/// is compared first, beginning with its last byte.
pub(crate) fn same_key(resource: &Resource, other: &Resource) -> bool
    ensures { result ≡ keys_agree (key_of resource.now) (key_of other.now) }
{
    is_same_key(resource, other)
}

fn is_same_key(resource: &Resource, other: &Resource) -> bool
    ensures { IsTrue result ↔ key_of resource.now ≡ key_of other.now }
{
    is_same_text(&resource.name, &other.name)
        && same_type(&resource.value, &other.value)
        && resource.revocable == other.revocable
        && resource.shared == other.shared
        && same_role(&resource.role, &other.role)
        && same_provider(&resource.provider_id, &other.provider_id)
        && same_disk(&resource.disk, &other.disk)
        && same_reserved(&resource.reservation, &other.reservation)
        && same_reservations(
            resource.reservations.as_slice(),
            other.reservations.as_slice(),
        )
}

pub(crate) fn same_text(text: &Text, other: &Text) -> bool
    ensures { result ≡ bytes_eq text.now other.now }
{
    is_same_text(text, other)
}

/// Returns whether two texts are equal. Last bytes are compared first, because names often differ
/// only there.
fn is_same_text(text: &Text, other: &Text) -> bool
    ensures { IsTrue result ↔ text.now ≡ other.now }
{
    last_byte(text) == last_byte(other) && text == other
}

/// Returns the last byte of a text, or 0 if it is empty.
fn last_byte(text: &Text) -> u8
    ensures { result ≡ unwrap_or (slice_get text.now (length text.now - 1)) 0 }
{
    match text.as_str().as_bytes().last() {
        None => 0,
        Some(byte) => *byte,
    }
}

fn same_type(value: &ResourceValue, other: &ResourceValue) -> bool
    ensures { IsTrue result ↔ type_of value.now ≡ type_of other.now }
{
    match value {
        ResourceValue::Scalar(_) => matches!(other, ResourceValue::Scalar(_)),
        ResourceValue::Ranges(_) => matches!(other, ResourceValue::Ranges(_)),
        ResourceValue::Set(_) => matches!(other, ResourceValue::Set(_)),
    }
}

/// Returns the role, or `*` if there is none.
fn role_of(role: &Option<Text>) -> &str
    ensures { result.now ≡ unwrap_or role.now (codes "*") }
{
    match role {
        Some(role) => role.as_str(),
        None => ANY_ROLE,
    }
}

fn same_role(role: &Option<Text>, other: &Option<Text>) -> bool
    ensures { IsTrue result ↔ unwrap_or role.now (codes "*") ≡ unwrap_or other.now (codes "*") }
{
    role_of(role) == role_of(other)
}

fn same_provider(provider: &Option<Boxed<Id>>, other: &Option<Boxed<Id>>) -> bool
    ensures { IsTrue result ↔ provider.now ≡ other.now }
{
    match provider {
        None => other.is_none(),
        Some(provider) => match other {
            None => false,
            Some(other) => provider.get() == other.get(),
        },
    }
}

fn same_disk(disk: &Option<Boxed<Kept>>, other: &Option<Boxed<Kept>>) -> bool
    ensures { IsTrue result ↔ disk.now ≡ other.now }
{
    match disk {
        None => other.is_none(),
        Some(disk) => match other {
            None => false,
            Some(other) => same_kept(disk.get(), other.get()),
        },
    }
}

/// Returns whether two objects are equal as JSON trees.
fn same_kept(disk: &Kept, other: &Kept) -> bool
    ensures { IsTrue result ↔ disk.now ≡ other.now }
{
    disk.get().same(other.get())
}

/// Returns whether two `reservation` members are equal or both absent.
fn same_reserved(
    reservation: &Option<Boxed<Reservation>>,
    other: &Option<Boxed<Reservation>>,
) -> bool
    ensures { IsTrue result ↔ reservation.now ≡ other.now }
{
    match reservation {
        None => other.is_none(),
        Some(reservation) => match other {
            None => false,
            Some(other) => same_reservation(reservation.get(), other.get()),
        },
    }
}

fn same_reservations(reservations: &[Reservation], others: &[Reservation]) -> bool
    ensures { IsTrue result ↔ reservations.now ≡ others.now }
{
    if reservations.len() != others.len() {
        return false;
    }
    for at in 0..reservations.len() {
        if !same_reservation(&reservations[at], &others[at]) {
            return false;
        }
    }
    true
}

fn same_reservation(reservation: &Reservation, other: &Reservation) -> bool
    ensures { IsTrue result ↔ reservation.now ≡ other.now }
{
    reservation.kind == other.kind
        && reservation.role == other.role
        && reservation.principal == other.principal
        && same_labels(&reservation.labels, &other.labels)
}

fn same_labels(labels: &Option<Labels>, other: &Option<Labels>) -> bool
    ensures { IsTrue result ↔ labels.now ≡ other.now }
{
    match labels {
        None => other.is_none(),
        Some(labels) => match other {
            None => false,
            Some(other) => same_label_lists(labels.as_slice(), other.as_slice()),
        },
    }
}

fn same_label_lists(labels: &[Label], others: &[Label]) -> bool
    ensures { IsTrue result ↔ labels.now ≡ others.now }
{
    if labels.len() != others.len() {
        return false;
    }
    for at in 0..labels.len() {
        if !same_label(&labels[at], &others[at]) {
            return false;
        }
    }
    true
}

fn same_label(label: &Label, other: &Label) -> bool
    ensures { IsTrue result ↔ label.now ≡ other.now }
{
    label.key == other.key && label.value == other.value
}
