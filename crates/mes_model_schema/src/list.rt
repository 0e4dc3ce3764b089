//! An owned list of values, in JSON an array.
ghost use Rattle.std.specs.Prelude.{◌≡◌, [], IsTrue, ◌↔◌, length};

use std::marker::Model;

/// An owned list of values. In contracts its value is the list of those values.
#[derive(Debug, Drop)]
pub struct List<T> {
    values: Vec<T>,
}

impl<T> Model for List<T> {
    ghost use Rattle.std.specs.Prelude.{List as list};

    ghost Value = { list T };

    ghost view = { λ l. l.values.items };
}

impl<T> List<T> {
    /// Takes over a vector of values. Does not allocate.
    pub fn new(values: Vec<T>) -> List<T>
        ensures { result ≡ values.items }
    {
        List { values }
    }

    /// Borrows the values in order.
    pub fn as_slice(&self) -> &[T]
        ensures { result.now ≡ self.now }
    {
        self.values.as_slice()
    }

    /// Returns the vector with the values, without a copy.
    pub fn into_vec(self) -> Vec<T>
        ensures { result.items ≡ self }
    {
        let List { values } = self;
        values
    }

    /// Returns the number of values.
    pub fn len(&self) -> usize
        ensures { result ≡ length self.now }
    {
        self.values.len()
    }

    /// Returns whether there are no values.
    pub fn is_empty(&self) -> bool
        ensures { IsTrue result ↔ self.now ≡ [] }
    {
        self.values.is_empty()
    }
}
