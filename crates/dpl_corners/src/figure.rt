//! A loop that is kept as a bar where it is one.
ghost use Rattle.std.specs.Prelude.{◌≡◌, IfSome};
ghost use Rattle.dpl_spec_split.specs.Loops.{IsRectilinear};
ghost use Rattle.dpl_corners.specs.Figures.{points_of};

use crate::bar::{Bar, bar_of};
use dpl_base::{Loop, Pt};
use std::marker::Model;

/// What a loop is kept as.
#[derive(Drop)]
pub enum Shape {
    Bar(Bar),
    Loop(Loop),
}

/// A loop, without a list of its points where they are the corners of a rectangle. A contract sees the list of its points.
#[derive(Drop)]
pub struct Figure {
    shape: Shape,
}

impl Model for Figure {
    ghost use Rattle.std.specs.Prelude.{List};
    ghost use Rattle.dpl_spec_split.specs.declared.Pt.{Pt};
    ghost use Rattle.dpl_corners.specs.Figures.{points_of};

    ghost Value = { List Pt };

    ghost view = { λ f. points_of f.shape };
}

impl Figure {
    /// The figure of the loop through these points, where they are the corners of a rectangle, each beside the one before it, and the first may stand once more at the end.
    #[inline(always)]
    pub fn through(points: &[Pt]) -> Option<Figure>
        ensures points { IfSome result (λ f. f ≡ points.now) }
        ensures straight { IfSome result (λ f. IsRectilinear points.now) }
    {
        let bar = bar_of(points)?;
        Some(Figure {
            shape: Shape::Bar(bar),
        })
    }

    /// The figure of a loop: a bar where its points are the corners of a rectangle, each beside the one before it, and the first may stand once more at the end.
    pub fn of(points: Loop) -> Figure
        ensures { result ≡ points }
    {
        let shape = match bar_of(points.items()) {
            Some(bar) => Shape::Bar(bar),
            None => Shape::Loop(points),
        };
        Figure { shape }
    }

    /// What it is kept as.
    pub fn shape(&self) -> &Shape
        ensures { points_of result.now ≡ self.now }
    {
        &self.shape
    }
}
