//! Cursors that read a value on a tape in place, without a tree or a copy.
ghost use Rattle.std.specs.Prelude.{◌≡◌, ◌<◌, length, drop, min, option_map, OnSome};
ghost use Rattle.std.specs.List.{AllByRecursion};
ghost use Rattle.mes_json.specs.Tree.{Tree, Items as items, Members as members};
ghost use Rattle.mes_json.specs.Tape.{span, IsSpan, HasSpan};
ghost use Rattle.mes_json.specs.Tokens.{BeginsWith, BeginsItems, BeginsMembers};
ghost use Rattle.mes_json.specs.Cursor.{tokens_held, is_null, as_bool, as_number, as_text, as_items, as_members, count_of, FindsItems, FindsMembers, NextItem, NextMember};
ghost use Rattle.mes_json.specs.Passing.{is_end, as_name, following};
ghost use Rattle.mes_json.specs.Lengths.{TellLengths};
ghost use Rattle.mes_json.specs.ValueKinds.{kind_of};

mod tree;

use crate::skip::{first, following_value};
use crate::tape::{Node, span_text};
use crate::value_kind::ValueKind;
use std::marker::Model;
use std::mem;

/// A value on a tape. In contracts it is the list of the tape's tokens from the value on.
#[derive(Drop)]
pub struct Element<'a> {
    texts: &'a [u8],
    /// The nodes from the value on.
    nodes: &'a [Node],
}

impl<'a> Model for Element<'a> {
    ghost use Rattle.std.specs.Prelude.{List};
    ghost use Rattle.std.specs.List.{AllByRecursion};
    ghost use Rattle.mes_json.specs.Tokens.{Token, tokens_code};
    ghost use Rattle.mes_json.specs.Tape.{HasSpan};
    ghost use Rattle.mes_json.specs.Cursor.{tokens_held};
    ghost use Rattle.mes_json.specs.Lengths.{TellLengths};

    ghost Value = { List Token };

    ghost coded = { tokens_code };

    ghost view = { λ e. tokens_held e.texts.now e.nodes.now };

    ghost invariant = { λ e. AllByRecursion (HasSpan e.texts.now) e.nodes.now
        × TellLengths e.nodes.now };
}

impl<'a> Element<'a> {
    pub(crate) fn new(texts: &'a [u8], nodes: &'a [Node]) -> Element<'a>
        requires spans { AllByRecursion (HasSpan texts.now) nodes.now }
        requires lengths { TellLengths nodes.now }
        ensures { result ≡ tokens_held texts.now nodes.now }
    {
        Element { texts, nodes }
    }

    /// Returns a second cursor at the same value.
    pub fn copy(&self) -> Element<'a>
        ensures { result ≡ self.now }
    {
        Element {
            texts: self.texts,
            nodes: self.nodes,
        }
    }

    /// Returns the kind of the value.
    pub fn kind(&self) -> ValueKind
        ensures { (t : Tree) → BeginsWith self.now t → result ≡ kind_of t }
    {
        match first(self.nodes) {
            Node::Null => ValueKind::Null,
            Node::Bool(_) => ValueKind::Bool,
            Node::Number { .. } => ValueKind::Number,
            Node::Text { .. } => ValueKind::Text,
            Node::List { .. } => ValueKind::List,
            Node::Map { .. } => ValueKind::Map,
            // No value begins with a name or an end.
            Node::Name { .. } | Node::End => ValueKind::Null,
        }
    }

    /// Returns whether the value is `null`.
    pub fn is_null(&self) -> bool
        ensures { (t : Tree) → BeginsWith self.now t → result ≡ is_null t }
    {
        match first(self.nodes) {
            Node::Null => true,
            _ => false,
        }
    }

    /// Returns the boolean, or `None` for any other kind of value.
    pub fn as_bool(&self) -> Option<bool>
        ensures { (t : Tree) → BeginsWith self.now t → result ≡ as_bool t }
    {
        match first(self.nodes) {
            Node::Bool(truth) => Some(truth),
            _ => None,
        }
    }

    /// Returns the text of the number as written, or `None` for any other kind of value.
    pub fn as_number(&self) -> Option<&'a str>
        ensures { (t : Tree) → BeginsWith self.now t
            → option_map (λ n. n.now) result ≡ as_number t }
    {
        match first(self.nodes) {
            Node::Number { from, to } => Some(span_text(self.texts, from, to)),
            _ => None,
        }
    }

    /// Returns the string with its escapes decoded, or `None` for any other kind of value.
    pub fn as_text(&self) -> Option<&'a str>
        ensures { (t : Tree) → BeginsWith self.now t → option_map (λ s. s.now) result ≡ as_text t }
    {
        match first(self.nodes) {
            Node::Text { from, to } => Some(span_text(self.texts, from, to)),
            _ => None,
        }
    }

    /// Returns the items of the array, or `None` for any other kind of value.
    pub fn items(&self) -> Option<Items<'a>>
        ensures { (t : Tree) → BeginsWith self.now t → FindsItems result (as_items t) }
    {
        match first(self.nodes) {
            Node::List { .. } => Some(Items {
                next: self.inside(),
            }),
            _ => None,
        }
    }

    /// Returns the members of the object, or `None` for any other kind of value.
    pub fn members(&self) -> Option<Members<'a>>
        ensures { (t : Tree) → BeginsWith self.now t → FindsMembers result (as_members t) }
    {
        match first(self.nodes) {
            Node::Map { .. } => Some(Members {
                next: self.inside(),
            }),
            _ => None,
        }
    }

    /// Returns whether an array, an object or the tape ends at the cursor.
    fn is_end(&self) -> bool
        ensures { result ≡ is_end self.now }
    {
        match first(self.nodes) {
            Node::End => true,
            _ => false,
        }
    }

    /// Returns the name of the member that begins at the cursor, if one does.
    fn name(&self) -> Option<&'a str>
        ensures { option_map (λ n. n.now) result ≡ as_name self.now }
    {
        match first(self.nodes) {
            Node::Name { from, to } => Some(span_text(self.texts, from, to)),
            _ => None,
        }
    }

    /// Returns the cursor after the value.
    fn following(&self) -> Element<'a>
        ensures { result ≡ following 0 self.now }
    {
        Element {
            texts: self.texts,
            nodes: following_value(self.nodes),
        }
    }

    /// Returns the cursor after the first node.
    fn inside(&self) -> Element<'a>
        ensures { result ≡ drop 1 self.now }
    {
        let (texts, nodes) = (self.texts, self.nodes);
        match nodes.split_first() {
            Some((_, nodes)) => Element { texts, nodes },
            None => Element { texts, nodes },
        }
    }
}

/// The items of an array, in order. In contracts this is the list of the tape's tokens from the
/// next item on.
#[derive(Drop)]
pub struct Items<'a> {
    next: Element<'a>,
}

impl<'a> Model for Items<'a> {
    ghost use Rattle.std.specs.Prelude.{List};
    ghost use Rattle.mes_json.specs.Tokens.{Token, tokens_code};

    ghost Value = { List Token };

    ghost coded = { tokens_code };

    ghost view = { λ i. i.next };
}

impl<'a> Items<'a> {
    /// Returns the next item, or `None` at the end of the array. Takes constant time on a tape that
    /// was read from a text.
    pub fn next(&mut self) -> Option<Element<'a>>
        ensures item { (ts : items) → BeginsItems self.old ts → NextItem ts result self.new }
        ensures shorter { OnSome result (length self.new < length self.old) }
    {
        if self.next.is_end() {
            return None;
        }
        let following = self.next.following();
        Some(mem::replace(&mut self.next, following))
    }

    /// Counts the items, up to `most`, at the cost of as many calls of `next`.
    pub fn count(&self, most: usize) -> usize
        ensures { (ts : items) → BeginsItems self.now ts → result ≡ min (count_of ts) most }
    {
        let mut rest = Items {
            next: self.next.copy(),
        };
        for count in 0..most {
            match rest.next() {
                Some(_) => {}
                None => return count,
            }
        }
        most
    }
}

/// The members of an object, in order, with repeated names. In contracts this is the list of the
/// tape's tokens from the next member on.
#[derive(Drop)]
pub struct Members<'a> {
    next: Element<'a>,
}

impl<'a> Model for Members<'a> {
    ghost use Rattle.std.specs.Prelude.{List};
    ghost use Rattle.mes_json.specs.Tokens.{Token, tokens_code};

    ghost Value = { List Token };

    ghost coded = { tokens_code };

    ghost view = { λ m. m.next };
}

impl<'a> Members<'a> {
    /// Returns the next member's name and value, or `None` at the end of the object. Takes constant
    /// time on a tape that was read from a text.
    pub fn next(&mut self) -> Option<(&'a str, Element<'a>)>
        ensures member { (ms : members) → BeginsMembers self.old ms
            → NextMember ms (option_map (λ m. (m.0.now, m.1)) result) self.new }
        ensures shorter { OnSome result (length self.new < length self.old) }
    {
        let name = self.next.name()?;
        let value = self.next.inside();
        self.next = value.following();
        Some((name, value))
    }
}
