//! Builds the tape of a tree. `tree_builder` does the reverse.
ghost use Rattle.std.specs.Prelude.{◌≡◌, ℕ, List, [], ◌∷◌, ◌++◌, IfOk, OnOk};
ghost use Rattle.mes_json.specs.Tokens.{tokens, tokens_of_items, tokens_of_members};
ghost use Rattle.mes_json.specs.Tape.{span, IsSpan, HasSpan};
ghost use Rattle.mes_json.specs.Cursor.{token_of};
ghost use Rattle.mes_json.specs.Lengths.{unreported};
ghost use Rattle.mes_json.specs.Spell.{HasNoText, text_token, IsTextOf};
ghost use Rattle.mes_json.specs.View.{view, items_view, members_view};

use crate::memory::NoMemory;
use crate::node_buffer::Nodes;
use crate::tape::{Node, Tape, text_place};
use crate::text::Text;
use crate::text_buffer::Texts;
use crate::value::Json;
use std::alloc::Global;
use std::marker::Model;

/// What a text on the tape is: a number, a string or a name.
#[derive(Clone, Copy)]
enum Form {
    Number,
    Text,
    Name,
}

impl Form {
    /// Returns the node of a text between two offsets.
    fn node(self, from: u32, to: u32) -> Node
        ensures unreported { unreported result ≡ result }
        ensures token { (texts : List ℕ)
            → token_of texts result ≡ text_token self (span texts from to) }
        ensures span { (texts : List ℕ) → IsSpan texts from to → IsTextOf self (span texts from to)
            → HasSpan texts result }
    {
        match self {
            Form::Number => Node::Number { from, to },
            Form::Text => Node::Text { from, to },
            Form::Name => Node::Name { from, to },
        }
    }
}

impl Tape {
    /// Creates the tape of a tree. Recurses as deep as the tree nests.
    pub fn of_json(alloc: Global, json: &Json) -> Result<Tape, NoMemory>
        ensures { IfOk result (λ tape. tape ≡ tokens (view json.now)) }
    {
        let mut spelling = Spelling {
            texts: Texts::new(alloc),
            nodes: Nodes::within(Vec::new(alloc)),
        };
        spelling.put_value(json)?;
        Ok(spelling.into_tape(alloc))
    }
}

/// A tape in construction. In contracts it is the list of the tape's tokens.
#[derive(Drop)]
struct Spelling {
    texts: Texts,
    nodes: Nodes,
}

impl Model for Spelling {
    ghost use Rattle.std.specs.Prelude.{List};
    ghost use Rattle.std.specs.List.{AllByRecursion};
    ghost use Rattle.mes_json.specs.Tokens.{Token, tokens_code};
    ghost use Rattle.mes_json.specs.Tape.{HasSpan};
    ghost use Rattle.mes_json.specs.Cursor.{tokens_held};

    ghost Value = { List Token };

    ghost coded = { tokens_code };

    ghost view = { λ s. tokens_held s.texts.items s.nodes.items };

    ghost invariant = { λ s. AllByRecursion (HasSpan s.texts.items) s.nodes.items };
}

impl Spelling {
    fn into_tape(mut self, alloc: Global) -> Tape
        ensures { result ≡ self }
    {
        let nodes = self.nodes.take(alloc);
        Tape::new(self.texts, nodes)
    }

    #[cycle(spell)]
    fn put_value(&mut self, json: &Json) -> Result<(), NoMemory>
        ensures { OnOk result (self.new ≡ self.old ++ tokens (view json.now)) }
    {
        match json {
            Json::Null => self.put(Node::Null),
            Json::Bool(truth) => self.put(Node::Bool(*truth)),
            Json::Num(number) => self.put_text(Form::Number, number.as_str()),
            Json::Text(text) => self.put_text(Form::Text, text.as_str()),
            Json::List(items) => {
                self.put(Node::List { length: 0 })?;
                self.put_items(items)?;
                self.put(Node::End)
            }
            Json::Map(members) => {
                self.put(Node::Map { length: 0 })?;
                self.put_members(members)?;
                self.put(Node::End)
            }
        }
    }

    #[cycle(spell)]
    fn put_items(&mut self, items: &[Json]) -> Result<(), NoMemory>
        ensures { OnOk result (self.new ≡ self.old ++ tokens_of_items (items_view items.now)) }
    {
        for item in items {
            self.put_value(item)?;
        }
        Ok(())
    }

    #[cycle(spell)]
    fn put_members(&mut self, members: &[(Text, Json)]) -> Result<(), NoMemory>
        ensures { OnOk result (self.new
            ≡ self.old ++ tokens_of_members (members_view members.now)) }
    {
        for (name, value) in members {
            self.put_text(Form::Name, name.as_str())?;
            self.put_value(value)?;
        }
        Ok(())
    }

    /// Appends a node without a text.
    fn put(&mut self, node: Node) -> Result<(), NoMemory>
        requires text { HasNoText node }
        requires unreported { unreported node ≡ node }
        ensures { OnOk result (self.new ≡ self.old ++ token_of [] node ∷ []) }
    {
        self.nodes.put(node)?;
        Ok(())
    }

    /// Appends a text and its node.
    fn put_text(&mut self, form: Form, text: &str) -> Result<(), NoMemory>
        requires { IsTextOf form text.now }
        ensures { OnOk result (self.new ≡ self.old ++ text_token form text.now ∷ []) }
    {
        let from = text_place(self.texts.len())?;
        self.texts.extend_from_slice(text.as_bytes())?;
        let to = text_place(self.texts.len())?;
        self.nodes.put(form.node(from, to))?;
        Ok(())
    }
}
