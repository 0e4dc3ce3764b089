//! Builds the tree of a tape. `tape/spell` does the reverse.
ghost use Rattle.std.specs.Prelude.{◌≡◌, [], ◌∷◌, option_map, IsTrue, IfOk, OnOk};
ghost use Rattle.std.specs.List.{AllByRecursion};
ghost use Rattle.mes_json.specs.Tree.{Tree};
ghost use Rattle.mes_json.specs.Machine.{ReaderState as at, finish};
ghost use Rattle.mes_json.specs.Machine.ReaderState.{named, after};
ghost use Rattle.mes_json.specs.Machine.State.{state};
ghost use Rattle.mes_json.specs.Tape.{span, value_due, name_due, valued, in_object, ended, apply, spelled, IsSpan, IsNumberSpan, HasSpan};
ghost use Rattle.mes_json.specs.View.{view};
ghost use Rattle.mes_json.specs.Build.{frames_view, building_view, Opens};

use crate::memory::NoMemory;
use crate::number_text::NumText;
use crate::tape::{Node, span_text};
use crate::text::Text;
use crate::value::Json;
use std::alloc::Global;
use std::mem;

/// Returns the value that the nodes begin with, if it is whole; later nodes are ignored. Uses a
/// stack on the heap, and does not recurse.
pub(crate) fn to_json(alloc: Global, texts: &[u8], nodes: &[Node]) -> Result<Option<Json>, NoMemory>
    requires { AllByRecursion (HasSpan texts.now) nodes.now }
    ensures { IfOk result (λ json. option_map view json ≡ finish (spelled texts.now nodes.now)) }
{
    let mut building = TreeBuilder {
        outer: Vec::new(alloc),
        inner: Inner::Nothing,
    };
    for node in nodes {
        building.apply(alloc, texts, *node)?;
        if building.is_whole() {
            return Ok(building.finish());
        }
    }
    Ok(building.finish())
}

/// An open object or array other than the innermost one.
#[derive(Drop)]
enum Outer {
    /// The members so far of an object, and the name of the member whose value is next.
    Object(Vec<(Text, Json)>, Text),
    /// The items so far of an array.
    Array(Vec<Json>),
}

/// The innermost open object or array, with the contents so far.
#[derive(Drop)]
enum Inner {
    /// No node has been added.
    Nothing,
    /// The value is whole, and no object or array is open.
    Whole(Json),
    /// The members so far of an object, and the name of the next one, if it has been added.
    Object(Vec<(Text, Json)>, Option<Text>),
    /// The items so far of an array.
    Array(Vec<Json>),
}

/// A tree in construction.
#[derive(Drop)]
struct TreeBuilder {
    /// The open objects and arrays around the innermost one, the outermost first.
    outer: Vec<Outer>,
    inner: Inner,
}

// The effect of a node where the node is allowed. Elsewhere a node has no effect.
impl TreeBuilder {
    fn apply(&mut self, alloc: Global, texts: &[u8], node: Node) -> Result<(), NoMemory>
        requires { HasSpan texts.now node }
        ensures { OnOk result (building_view self.new
            ≡ apply texts.now node (building_view self.old)) }
    {
        match node {
            Node::Null => self.whole(Json::Null),
            Node::Bool(truth) => self.whole(Json::Bool(truth)),
            Node::Number { from, to } => {
                let number = number_of(alloc, texts, from, to)?;
                self.whole(Json::Num(number))
            }
            Node::Text { from, to } => {
                let text = text_of(alloc, texts, from, to)?;
                self.whole(Json::Text(text))
            }
            Node::Name { from, to } => {
                let name = text_of(alloc, texts, from, to)?;
                self.named(name);
                Ok(())
            }
            Node::List { .. } => self.open(alloc, Inner::Array(Vec::new(alloc))),
            Node::Map { .. } => self.open(alloc, Inner::Object(Vec::new(alloc), None)),
            Node::End => self.ended(),
        }
    }

    fn whole(&mut self, json: Json) -> Result<(), NoMemory>
        ensures { OnOk result (building_view self.new
            ≡ valued (after (view json)) (value_due (building_view self.old))) }
    {
        match &mut self.inner {
            Inner::Array(items) => items.push(json)?,
            Inner::Object(members, due) => match due.take() {
                Some(name) => members.push((name, json))?,
                None => {}
            },
            Inner::Nothing => self.inner = Inner::Whole(json),
            Inner::Whole(_) => {}
        }
        Ok(())
    }

    fn named(&mut self, name: Text)
        ensures { building_view self.new
            ≡ in_object (λ ms. named ms name) (name_due (building_view self.old)) }
    {
        match &mut self.inner {
            Inner::Object(_, due) => match due {
                None => *due = Some(name),
                Some(_) => {}
            },
            Inner::Array(_) => {}
            Inner::Nothing => {}
            Inner::Whole(_) => {}
        }
    }

    /// Opens an object or an array. Pushes the one that was innermost onto the stack.
    fn open(&mut self, alloc: Global, opened: Inner) -> Result<(), NoMemory>
        ensures { OnOk result ((a : at) → Opens opened a
            → building_view self.new ≡ valued a (value_due (building_view self.old))) }
    {
        match mem::replace(&mut self.inner, opened) {
            Inner::Array(items) => self.outer.push(Outer::Array(items))?,
            Inner::Object(members, due) => match due {
                Some(name) => self.outer.push(Outer::Object(members, name))?,
                None => self.inner = Inner::Object(members, None),
            },
            // No object or array is open, so the list is empty already. A new list states this
            // without an invariant.
            Inner::Nothing => self.outer = Vec::new(alloc),
            Inner::Whole(json) => self.inner = Inner::Whole(json),
        }
        Ok(())
    }

    /// Closes the innermost object or array, and shrinks its vector to its contents.
    fn ended(&mut self) -> Result<(), NoMemory>
        ensures { OnOk result (building_view self.new ≡ ended (building_view self.old)) }
    {
        match mem::replace(&mut self.inner, Inner::Nothing) {
            Inner::Array(mut items) => {
                items.shrink_to_fit();
                self.close(Json::List(items))
            }
            Inner::Object(mut members, due) => match due {
                None => {
                    members.shrink_to_fit();
                    self.close(Json::Map(members))
                }
                Some(name) => {
                    self.inner = Inner::Object(members, Some(name));
                    Ok(())
                }
            },
            Inner::Nothing => Ok(()),
            Inner::Whole(json) => {
                self.inner = Inner::Whole(json);
                Ok(())
            }
        }
    }

    /// Adds the value of the closed object or array to the one around it. That one becomes the
    /// innermost.
    fn close(&mut self, json: Json) -> Result<(), NoMemory>
        ensures { OnOk result (building_view self.new
            ≡ state (frames_view self.old.outer.items) (after (view json))) }
    {
        match self.outer.pop() {
            Some(Outer::Array(mut items)) => {
                items.push(json)?;
                self.inner = Inner::Array(items);
            }
            Some(Outer::Object(mut members, name)) => {
                members.push((name, json))?;
                self.inner = Inner::Object(members, None);
            }
            None => self.inner = Inner::Whole(json),
        }
        Ok(())
    }

    fn is_whole(&self) -> bool
        ensures { IsTrue result → (t : Tree) × (building_view self.now ≡ state [] (after t)) }
    {
        matches!(&self.inner, Inner::Whole(_))
    }

    fn finish(self) -> Option<Json>
        ensures { option_map view result ≡ finish (building_view self) }
    {
        let TreeBuilder {
            outer: _outer,
            inner,
        } = self;
        match inner {
            Inner::Whole(json) => Some(json),
            _ => None,
        }
    }
}

/// Copies the text between two offsets.
fn text_of(alloc: Global, texts: &[u8], from: u32, to: u32) -> Result<Text, NoMemory>
    requires { IsSpan texts.now from to }
    ensures { IfOk result (λ text. text ≡ span texts.now from to) }
{
    Text::of(alloc, span_text(texts, from, to))
}

fn number_of(alloc: Global, texts: &[u8], from: u32, to: u32) -> Result<NumText, NoMemory>
    requires { IsNumberSpan texts.now from to }
    ensures { IfOk result (λ number. number ≡ span texts.now from to) }
{
    Ok(NumText::of_text(text_of(alloc, texts, from, to)?))
}
