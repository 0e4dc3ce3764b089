//! Paths into a JSON value; `path_builder` builds them while a value is read.

ghost use Rattle.std.specs.Prelude.{◌≡◌, ◌+◌, ◌*◌, ◌<◌, ◌≤◌, [], ◌∷◌, ◌++◌, length, decimal, codes};
ghost use Rattle.arrayvec.specs.ArrayString.{array_string_len};
ghost use Rattle.mes_model_schema.specs.Paths.{Place, IsPlace, step_text, path_text};
ghost use Rattle.mes_model_schema.specs.Steps.{place_of};

use crate::limits::{MAX_PATH_NAME, MAX_PATH_STEPS, MAX_PATH_TEXT};
use arrayvec::ArrayString;
use itoa::Buffer;
use std::marker::Model;

/// One step into a JSON value.
#[derive(Clone, Copy, Debug)]
pub enum Step {
    /// To the member of this name, which has 1 to `MAX_PATH_NAME` bytes.
    Name(&'static str),
    /// To the element at this index, from 0.
    Index(u64),
}

/// The value of the unused steps of a path.
impl Default for Step {
    ghost use Rattle.mes_model_schema.specs.declared.path.Step.TheVariants.{Index};

    ghost is_default = { λ s. s ≡ Index 0 };

    fn default() -> Step {
        Step::Index(0)
    }
}

/// A path from the root of a JSON value to a fault, of at most `MAX_PATH_STEPS` steps.
#[derive(Debug, Drop)]
pub struct Path {
    /// The steps in order, followed by unused steps.
    steps: [Step; MAX_PATH_STEPS],
    len: usize,
}

impl Model for Path {
    ghost use Rattle.std.specs.Prelude.{◌≡◌, ◌≤◌, List, length, map, take};
    ghost use Rattle.mes_model_schema.specs.Paths.{Place, IsPath};
    ghost use Rattle.mes_model_schema.specs.Steps.{place_of};
    ghost use Rattle.mes_model_schema.specs.declared.limits.TheConstants.{MAX_PATH_STEPS};

    ghost Value = { List Place };

    ghost view = { λ p. map place_of (take p.len p.steps) };

    ghost invariant = { λ p. (length p.steps ≡ MAX_PATH_STEPS) × (p.len ≤ MAX_PATH_STEPS)
        × IsPath (map place_of (take p.len p.steps)) };
}

impl Path {
    /// Returns the path to the root, which has no step.
    pub fn new() -> Path
        ensures { result ≡ [] }
    {
        Path {
            steps: [Step::default(); MAX_PATH_STEPS],
            len: 0,
        }
    }

    /// Copies the path. Does not allocate.
    pub fn copy(&self) -> Path
        ensures { result ≡ self.now }
    {
        Path {
            steps: self.steps,
            len: self.len,
        }
    }

    /// Returns the path with one more step, for which it must have room. Does not allocate.
    pub fn with(&self, step: Step) -> Path
        requires room { length self.now < MAX_PATH_STEPS }
        requires step { IsPlace (place_of step) }
        ensures { result ≡ self.now ++ place_of step ∷ [] }
    {
        let mut steps = self.steps;
        steps[self.len] = step;
        Path {
            steps,
            len: self.len + 1,
        }
    }

    /// Writes the path over `text` in the form `a.b[0].c`, or `.` for the root.
    pub fn text(&self, text: &mut ArrayString<MAX_PATH_TEXT>)
        ensures { text.new.bytes ≡ path_text self.now }
    {
        text.clear();
        let Some((first, rest)) = self.steps[..self.len].split_first() else {
            return text.push_str(".");
        };
        match first {
            Step::Name(name) => text.push_str(name),
            Step::Index(index) => push_index(text, *index),
        }
        for step in rest {
            push_step(text, *step);
        }
    }
}

/// Appends the text of any step but the first of a path.
fn push_step(text: &mut ArrayString<MAX_PATH_TEXT>, step: Step)
    requires place { IsPlace (place_of step) }
    requires room { array_string_len text.old + MAX_PATH_NAME + 1 ≤ MAX_PATH_TEXT }
    ensures { text.new.bytes ≡ text.old.bytes ++ step_text (place_of step) }
{
    match step {
        Step::Name(name) => {
            text.push_str(".");
            text.push_str(name);
        }
        Step::Index(index) => push_index(text, index),
    }
}

/// Appends an index in brackets.
fn push_index(text: &mut ArrayString<MAX_PATH_TEXT>, index: u64)
    requires { array_string_len text.old + 22 ≤ MAX_PATH_TEXT }
    ensures { text.new.bytes ≡ text.old.bytes ++ (codes "[" ++ decimal index ++ codes "]") }
{
    let mut buffer = Buffer::new();
    text.push_str("[");
    text.push_str(buffer.format(index));
    text.push_str("]");
}
