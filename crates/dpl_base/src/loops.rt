//! Closed loops of points.
ghost use Rattle.std.specs.Prelude.{◌≡◌};

use crate::Pt;
use std::marker::Model;

/// The corners of a loop in order, closed by an edge from the last to the first. A contract sees the list of its points.
#[derive(Drop)]
pub struct Loop {
    points: Vec<Pt>,
}

impl Model for Loop {
    ghost use Rattle.std.specs.Prelude.{List};
    ghost use Rattle.dpl_spec_split.specs.declared.Pt.{Pt};

    ghost Value = { List Pt };

    ghost view = { λ l. l.points.items };
}

impl Loop {
    /// The loop through these points.
    pub fn of(points: Vec<Pt>) -> Loop
        ensures { result ≡ points.items }
    {
        Loop { points }
    }

    /// The points.
    pub fn items(&self) -> &[Pt]
        ensures { result.now ≡ self.now }
    {
        self.points.as_slice()
    }

    /// The points, without taking memory.
    pub fn into_vec(self) -> Vec<Pt>
        ensures { result.items ≡ self }
    {
        self.points
    }
}
