//! The lengths of arrays and objects on a tape, in nodes.
ghost use Rattle.std.specs.Prelude.{◌≡◌, ◌≢◌};
ghost use Rattle.mes_json.specs.Lengths.{reported, telling};

use crate::tape::Node;

impl Node {
    /// Returns the number of nodes after the node in the value that the node begins, if the node
    /// stores that number.
    #[inline(always)]
    pub(crate) fn reported(self) -> Option<usize>
        ensures { result ≡ reported self }
    {
        match self {
            Node::List { length } | Node::Map { length } => {
                if length == 0 {
                    None
                } else {
                    Some(length as usize)
                }
            }
            _ => Some(0),
        }
    }

    /// Stores in the first node of an array or object how many more nodes the array or object has.
    #[inline(always)]
    pub(crate) fn tell(&mut self, reported: u32)
        ensures { self.new ≡ telling reported self.old }
    {
        if let Node::Map { length } = self {
            *length = reported;
        } else if let Node::List { length } = self {
            *length = reported;
        }
    }
}

/// Converts a length to 32 bits, or to 0 (unknown) if the length exceeds 32 bits.
#[inline(always)]
pub(crate) fn kept_length(length: usize) -> u32
    ensures { result ≢ 0 → result ≡ length }
{
    if length > u32::MAX as usize {
        0
    } else {
        length as u32
    }
}
