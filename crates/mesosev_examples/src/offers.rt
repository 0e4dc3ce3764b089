//! An offer as a text that does not allocate: all members of the JSON object, in the order of the
//! offer's table of members.

use crate::words::Words;
use arrayvec::ArrayString;
use mes_model::{
    Allocation, Attribute, AttributeValue, Boxed, Id, Kept, Label, Labels, Offer, Range, Ranges,
    Reservation, Resource, ResourceValue, Scalar, Set,
};
use mes_model_schema::json::{Json, Text};

/// Appends an offer: its identifier, and its other members in braces. Absent members are left out.
pub(crate) fn add_offer(words: &mut Words, offer: &Offer) {
    words.add_word(offer.id.value.as_str());
    words.add("{framework ");
    words.add(offer.framework_id.value.as_str());
    add_member(words, "agent", offer.agent_id.value.as_str());
    add_member(words, "host", offer.hostname.as_str());
    add_resources(words, offer.resources.as_slice());
    add_attributes(words, offer.attributes.as_slice());
    add_executors(words, offer.executor_ids.as_slice());
    add_allocation(words, offer.allocation_info.as_ref());
    words.add("}");
}

/// Returns whether two offers have the same text.
pub(crate) fn is_same_offer(one: &Offer, other: &Offer) -> bool {
    words_of(one).is_same(&words_of(other))
}

fn words_of(offer: &Offer) -> Words {
    let mut words = Words::new();
    add_offer(&mut words, offer);
    words
}

fn add_member(words: &mut Words, name: &str, value: &str) {
    words.add_word(name);
    words.add_word(value);
}

fn add_some(words: &mut Words, name: &str, value: Option<&Text>) {
    if let Some(value) = value {
        add_member(words, name, value.as_str());
    }
}

fn add_resources(words: &mut Words, resources: &[Resource]) {
    for resource in resources {
        add_resource(words, resource);
    }
}

// Appends a resource: its name, and its other members in braces.
fn add_resource(words: &mut Words, resource: &Resource) {
    add_member(words, "resource", resource.name.as_str());
    words.add("{");
    add_resource_value(words, &resource.value);
    add_some(words, "role", resource.role.as_ref());
    add_allocation(words, resource.allocation_info.as_ref());
    add_reservations(words, resource);
    add_disk(words, resource);
    add_flag(words, "revocable", resource.revocable);
    add_flag(words, "shared", resource.shared);
    add_provider(words, resource.provider_id.as_ref());
    words.add("}");
}

fn add_resource_value(words: &mut Words, value: &ResourceValue) {
    match value {
        ResourceValue::Scalar(scalar) => add_scalar(words, scalar),
        ResourceValue::Ranges(ranges) => add_ranges(words, ranges),
        ResourceValue::Set(set) => add_set(words, set),
    }
}

fn add_scalar(words: &mut Words, scalar: &Scalar) {
    let mut number = ArrayString::new();
    scalar.value.write(&mut number);
    words.add("SCALAR ");
    words.add(number.as_str());
}

fn add_ranges(words: &mut Words, ranges: &Ranges) {
    words.add("RANGES");
    for range in ranges.range.as_slice() {
        add_range(words, range);
    }
}

fn add_range(words: &mut Words, range: &Range) {
    words.add(" ");
    words.add_number(range.first);
    words.add("-");
    words.add_number(range.last);
}

fn add_set(words: &mut Words, set: &Set) {
    words.add("SET");
    for item in set.item.as_slice() {
        words.add_word(item.as_str());
    }
}

// Appends an allocation, if any: its role, or `-` without a role.
fn add_allocation(words: &mut Words, allocation: Option<&Allocation>) {
    if let Some(allocation) = allocation {
        add_member(words, "allocated", text_or_none(allocation.role.as_ref()));
    }
}

fn text_or_none(text: Option<&Text>) -> &str {
    match text {
        Some(text) => text.as_str(),
        None => "-",
    }
}

// Appends the reservation in the older form, then the reservations from the outermost role inwards.
fn add_reservations(words: &mut Words, resource: &Resource) {
    if let Some(reservation) = &resource.reservation {
        add_reservation(words, "reservation", reservation.get());
    }
    for reservation in resource.reservations.as_slice() {
        add_reservation(words, "reservations", reservation);
    }
}

fn add_reservation(words: &mut Words, name: &str, reservation: &Reservation) {
    words.add_word(name);
    words.add("{");
    words.add(text_or_none(reservation.kind.as_ref()));
    add_some(words, "role", reservation.role.as_ref());
    add_some(words, "principal", reservation.principal.as_ref());
    add_labels(words, reservation.labels.as_ref());
    words.add("}");
}

fn add_labels(words: &mut Words, labels: Option<&Labels>) {
    if let Some(labels) = labels {
        words.add_word("labels");
        add_each_label(words, labels.as_slice());
    }
}

fn add_each_label(words: &mut Words, labels: &[Label]) {
    for label in labels {
        words.add_word(label.key.as_str());
        words.add("=");
        words.add(text_or_none(label.value.as_ref()));
    }
}

fn add_disk(words: &mut Words, resource: &Resource) {
    if let Some(disk) = &resource.disk {
        words.add_word("disk{");
        add_kept(words, disk.get());
        words.add(" }");
    }
}

fn add_kept(words: &mut Words, kept: &Kept) {
    if let Json::Map(members) = kept.get() {
        for (name, value) in members {
            words.add_word(name.as_str());
            add_json(words, value);
        }
    }
}

// Appends a JSON value. A list or an object is represented by its depth.
fn add_json(words: &mut Words, value: &Json) {
    match value {
        Json::Null => words.add_word("null"),
        Json::Bool(truth) => words.add_word(if *truth { "true" } else { "false" }),
        Json::Num(number) => words.add_word(number.as_str()),
        Json::Text(text) => words.add_word(text.as_str()),
        Json::List(_) | Json::Map(_) => {
            words.add_word("depth ");
            words.add_number(value.depth());
        }
    }
}

fn add_flag(words: &mut Words, name: &str, is_set: bool) {
    if is_set {
        words.add_word(name);
    }
}

fn add_provider(words: &mut Words, provider: Option<&Boxed<Id>>) {
    if let Some(id) = provider {
        add_member(words, "provider", id.get().value.as_str());
    }
}

fn add_attributes(words: &mut Words, attributes: &[Attribute]) {
    for attribute in attributes {
        add_attribute(words, attribute);
    }
}

fn add_attribute(words: &mut Words, attribute: &Attribute) {
    add_member(words, "attribute", attribute.name.as_str());
    words.add("{");
    add_attribute_value(words, &attribute.value);
    words.add("}");
}

fn add_attribute_value(words: &mut Words, value: &AttributeValue) {
    match value {
        AttributeValue::Scalar(scalar) => add_scalar(words, scalar),
        AttributeValue::Ranges(ranges) => add_ranges(words, ranges),
        AttributeValue::Set(set) => add_set(words, set),
        AttributeValue::Text(text) => {
            words.add("TEXT ");
            words.add(text.value.as_str());
        }
    }
}

fn add_executors(words: &mut Words, executors: &[Id]) {
    for id in executors {
        add_member(words, "executor", id.value.as_str());
    }
}
