//! The open objects and arrays around the position of a reader.

use std::alloc::Global;
use std::default::MadeWith;

/// An open object or array.
#[derive(Clone, Copy)]
pub(crate) enum Open {
    Object,
    Array,
}

impl MadeWith<Global> for Open {
    fn made_with(_alloc: Global) -> Open {
        Open::Object
    }
}
