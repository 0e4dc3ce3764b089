//! Tests of what no contract states: the JSON texts of paths, bytes, labels and retained objects.

mod bytes;
mod path;
mod read;
mod written;
