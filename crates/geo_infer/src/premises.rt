//! The premises of a step, kept in a fixed place.

ghost use Rattle.std.specs.Prelude.{◌≡◌, length, slice_get};

use geo_sketch::Statement;
use std::marker::Model;

/// What stands behind the first two premises.
#[derive(Clone, Copy, Debug)]
pub(crate) enum More {
    Nothing,
    One(Statement),
    Two(Statement, Statement),
}

/// A list of two to four statements.
#[derive(Debug, Drop)]
pub struct Premises {
    pub(crate) first: Statement,
    pub(crate) second: Statement,
    pub(crate) more: More,
}

impl Model for Premises {
    ghost use Rattle.std.specs.Prelude.{List, ◌∷◌};
    ghost use Rattle.geo_sketch.specs.declared.statements.Statement.{Statement as Posed};
    ghost use Rattle.geo_infer.specs.Lists.{behind};

    ghost Value = { List Posed };

    ghost view = { λ p. p.first ∷ p.second ∷ behind p.more };
}

impl Premises {
    /// How many there are.
    pub fn len(&self) -> usize
        ensures { result ≡ length self.now }
    {
        match &self.more {
            More::Nothing => 2,
            More::One(_) => 3,
            More::Two(_, _) => 4,
        }
    }

    /// The premise at place k, counted from 0, and none past the last one.
    pub fn get(&self, k: usize) -> Option<Statement>
        ensures { result ≡ slice_get self.now k }
    {
        match (k, &self.more) {
            (0, _) => Some(self.first),
            (1, _) => Some(self.second),
            (2, More::One(third)) | (2, More::Two(third, _)) => Some(*third),
            (3, More::Two(_, fourth)) => Some(*fourth),
            _ => None,
        }
    }
}
