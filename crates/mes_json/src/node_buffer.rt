//! The list of nodes of a tape that is being written. The tape's texts are in `text_buffer`.
ghost use Rattle.std.specs.Prelude.{◌≡◌, ℕ, ◌+◌, ◌-◌, ◌<◌, ◌≤◌, List, [], ◌∷◌, ◌++◌, true, None, length, OnOk, OnErr};
ghost use Rattle.std.specs.List.{AllByRecursion};
ghost use Rattle.mes_json.specs.Tape.{HasSpan};
ghost use Rattle.mes_json.specs.Cursor.{tokens_held};
ghost use Rattle.mes_json.specs.Lengths.{reported, unreported, IsLeaf, TellLengths};

use crate::container_lengths::kept_length;
use crate::limits::MAX_NESTING;
use crate::memory::NoMemory;
use crate::tape::Node;
use arrayvec::ArrayVec;
use std::alloc::Global;
use std::marker::Model;
use std::mem;

/// The nodes of a value, in order. Each array and object stores its length once its end is
/// appended. In contracts this is the nodes with all lengths replaced by 0, and the capacity.
#[derive(Drop)]
pub(crate) struct Nodes {
    nodes: Vec<Node>,
    /// The indices of open arrays and objects, the innermost last. At overflow the outer ones are
    /// dropped and get no length.
    begins: ArrayVec<usize, MAX_NESTING>,
}

impl Model for Nodes {
    ghost use Rattle.std.specs.Prelude.{map, reverse, vec_capacity};
    ghost use Rattle.mes_json.specs.Nodes.{Nodes as nodes_seen};
    ghost use Rattle.mes_json.specs.Lengths.{unreported, AreBegun};

    ghost Value = { nodes_seen };

    ghost view = { λ n. record {
      items = map unreported n.nodes.items;
      room = vec_capacity
          n.nodes;
    } };

    ghost invariant = { λ n. AreBegun (reverse n.begins.items) n.nodes.items };
}

impl Nodes {
    /// Creates an empty list in the given memory. Does not allocate.
    pub(crate) fn within(nodes: Vec<Node>) -> Nodes
        requires { nodes.items ≡ [] }
        ensures { result.items ≡ [] }
    {
        Nodes {
            nodes,
            begins: ArrayVec::new(),
        }
    }

    /// Resets to an empty list in the given memory.
    pub(crate) fn restart(&mut self, nodes: Vec<Node>)
        requires { nodes.items ≡ [] }
        ensures { self.new.items ≡ [] }
    {
        self.nodes = nodes;
        self.begins.clear();
    }

    /// Returns the nodes with their lengths, and leaves an empty list.
    pub(crate) fn take(&mut self, alloc: Global) -> Vec<Node>
        ensures held { (texts : List ℕ)
            → tokens_held texts result.items ≡ tokens_held texts self.old.items }
        ensures spans { (texts : List ℕ) → AllByRecursion (HasSpan texts) self.old.items
            → AllByRecursion (HasSpan texts) result.items }
        ensures reported { TellLengths result.items }
        ensures left { self.new.items ≡ [] }
    {
        self.begins.clear();
        mem::replace(&mut self.nodes, Vec::new(alloc))
    }

    /// Appends a node. Only the growth of the list is a separate function, so that each inlined
    /// append is a few instructions.
    #[inline(always)]
    pub(crate) fn put(&mut self, node: Node) -> Result<(), NoMemory>
        requires { unreported node ≡ node }
        ensures ok { OnOk result (self.new.items ≡ self.old.items ++ node ∷ []) }
        ensures err { OnErr result (self.new.items ≡ self.old.items) }
    {
        if self.len() >= self.room() {
            self.make_room(1)?;
        }
        self.put_reserved(node);
        Ok(())
    }

    /// Appends two nodes, or none if an allocation fails.
    #[inline(always)]
    pub(crate) fn put_both(&mut self, first: Node, second: Node) -> Result<(), NoMemory>
        requires first { unreported first ≡ first }
        requires second { unreported second ≡ second }
        ensures ok { OnOk result (self.new.items ≡ self.old.items ++ first ∷ second ∷ []) }
        ensures err { OnErr result (self.new.items ≡ self.old.items) }
    {
        if self.room() - self.len() < 2 {
            self.make_room(2)?;
        }
        self.put_reserved(first);
        self.put_reserved(second);
        Ok(())
    }

    #[inline(always)]
    fn len(&self) -> usize
        ensures count { result ≡ length self.now.items }
        ensures room { result ≤ self.now.room }
    {
        self.nodes.len()
    }

    /// Returns the capacity, in nodes.
    #[inline(always)]
    fn room(&self) -> usize
        ensures { result ≡ self.now.room }
    {
        self.nodes.capacity()
    }

    /// Reserves capacity for `count` more nodes.
    #[cold]
    #[inline(never)]
    fn make_room(&mut self, count: usize) -> Result<(), NoMemory>
        ensures items { self.new.items ≡ self.old.items }
        ensures room { OnOk result (length self.new.items + count ≤ self.new.room) }
    {
        Ok(self.nodes.reserve(count)?)
    }

    /// Appends a node within the capacity.
    #[inline(always)]
    fn put_reserved(&mut self, node: Node)
        requires room { length self.old.items < self.old.room }
        requires unreported { unreported node ≡ node }
        ensures items { self.new.items ≡ self.old.items ++ node ∷ [] }
        ensures room { self.new.room ≡ self.old.room }
    {
        match node {
            Node::List { .. } | Node::Map { .. } => self.begin(node),
            Node::End => self.end(),
            _ => self.put_leaf(node),
        }
    }

    #[inline(always)]
    pub(crate) fn has_room(&self) -> bool
        ensures { result ≡ true → length self.now.items < self.now.room }
    {
        self.len() < self.room()
    }

    /// Appends a node other than the first or last of an array or object, within the capacity.
    #[inline(always)]
    pub(crate) fn put_leaf(&mut self, node: Node)
        requires room { length self.old.items < self.old.room }
        requires leaf { IsLeaf node }
        ensures items { self.new.items ≡ self.old.items ++ node ∷ [] }
        ensures room { self.new.room ≡ self.old.room }
    {
        self.nodes.push_reserved(node);
    }

    /// Appends the first node of an array or an object.
    #[inline(always)]
    fn begin(&mut self, node: Node)
        requires room { length self.old.items < self.old.room }
        requires unknown { reported node ≡ None }
        ensures items { self.new.items ≡ self.old.items ++ node ∷ [] }
        ensures room { self.new.room ≡ self.old.room }
    {
        if self.begins.is_full() {
            self.begins.clear();
        }
        self.begins.push(self.nodes.len());
        self.nodes.push_reserved(node);
    }

    /// Appends the last node of the innermost array or object, and stores the length in the first
    /// node of that array or object.
    #[inline(always)]
    fn end(&mut self)
        requires { length self.old.items < self.old.room }
        ensures items { self.new.items ≡ self.old.items ++ Node.End ∷ [] }
        ensures room { self.new.room ≡ self.old.room }
    {
        if let Some(begin) = self.begins.pop() {
            let length = kept_length(self.nodes.len() - begin);
            self.nodes[begin].tell(length);
        }
        self.nodes.push_reserved(Node::End);
    }
}
