//! The path to the value that is being read. It is copied to a [`Path`] only for a fault.

ghost use Rattle.std.specs.Prelude.{◌≡◌, ◌<◌, [], ◌∷◌, ◌++◌, length};
ghost use Rattle.mes_model_schema.specs.Paths.{IsPlace};
ghost use Rattle.mes_model_schema.specs.Steps.{place_of};

use crate::limits::MAX_PATH_STEPS;
use crate::path::{Path, Step};
use std::marker::Model;

/// The path to a value: the last step, and a borrow of the path before that step. Adding a step
/// copies nothing.
#[cycle(trail)]
#[derive(Drop)]
pub struct PathBuilder<'a> {
    link: Link<'a>,
}

#[cycle(trail)]
#[derive(Drop)]
enum Link<'a> {
    /// The path without steps.
    Start,
    /// The steps of an existing [`Path`].
    Along(&'a Path),
    /// The borrowed path, and one more step.
    Below(&'a PathBuilder<'a>, Step),
}

impl<'a> Model for PathBuilder<'a> {
    ghost use Rattle.std.specs.Prelude.{List, length};
    ghost use Rattle.mes_model_schema.specs.Paths.{Place};

    ghost Value = { List Place };

    ghost use Rattle.mes_model_schema.specs.PathBuilders.{places, HasRoom};

    ghost view = { λ t. places t.link };

    ghost invariant = { λ t. HasRoom t.link };

    ghost size = { length };

    ghost use Rattle.std.proofs.Common.{arith, length-append};

    ghost size_decreases = { λ a h. Prim.grind (arith, length-append) };
}

impl<'a> PathBuilder<'a> {
    /// Returns the path to the root.
    pub fn new() -> PathBuilder<'a>
        ensures { result ≡ [] }
    {
        PathBuilder { link: Link::Start }
    }

    /// Returns the same path as `path`.
    pub fn along(path: &'a Path) -> PathBuilder<'a>
        ensures { result ≡ path.now }
    {
        PathBuilder {
            link: Link::Along(path),
        }
    }

    /// Returns the path with one more step, for which it must have room. Does not allocate.
    pub fn with(&self, step: Step) -> PathBuilder<'_>
        requires room { length self.now < MAX_PATH_STEPS }
        requires step { IsPlace (place_of step) }
        ensures { result ≡ self.now ++ place_of step ∷ [] }
    {
        PathBuilder {
            link: Link::Below(self, step),
        }
    }

    /// Returns the steps as a [`Path`]. Does not allocate.
    pub fn path(&self) -> Path
        ensures { result ≡ self.now }
    {
        match &self.link {
            Link::Start => Path::new(),
            Link::Along(path) => path.copy(),
            Link::Below(above, step) => above.path().with(*step),
        }
    }
}
