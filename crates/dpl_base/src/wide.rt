//! Rectangles that may reach past all layers.
ghost use Rattle.std.specs.Prelude.{◌≡◌};
ghost use Rattle.dpl_spec_split.specs.Zones.{transposed_rect};

use dpl_spec_split::Rect;
use std::marker::Model;

/// A rectangle in 64 bits a coordinate, which may reach past all layers: the window of a search, the cell of a grid, the outline of a path's segment. A contract sees it as a `Rect`.
#[derive(Drop)]
pub struct WideRect {
    x0: i64,
    y0: i64,
    x1: i64,
    y1: i64,
}

impl Model for WideRect {
    ghost use Rattle.dpl_spec_split.specs.declared.Rect.{Rect};

    ghost Value = { Rect };

    ghost view = { λ w. record { x0 = w.x0; y0 = w.y0; x1 = w.x1; y1 = w.y1 } };

    ghost invariant = { λ w. Unit {0} };
}

impl WideRect {
    /// The squares from column `x0` up to but not `x1`, and from row `y0` up to but not `y1`.
    pub fn new(x0: i64, y0: i64, x1: i64, y1: i64) -> WideRect
        ensures { result ≡ record { x0 = x0; y0 = y0; x1 = x1; y1 = y1 } }
    {
        WideRect { x0, y0, x1, y1 }
    }

    /// The same squares.
    pub fn of(r: &Rect) -> WideRect
        ensures { result ≡ r.now }
    {
        WideRect {
            x0: r.x0 as i64,
            y0: r.y0 as i64,
            x1: r.x1 as i64,
            y1: r.y1 as i64,
        }
    }

    /// The transposed squares.
    pub fn transposed(&self) -> WideRect
        ensures { result ≡ transposed_rect self.now }
    {
        WideRect {
            x0: self.y0,
            y0: self.x0,
            x1: self.y1,
            y1: self.x1,
        }
    }

    /// The first column.
    pub fn x0(&self) -> i64
        ensures { result ≡ self.now.x0 }
    {
        self.x0
    }

    /// The first row.
    pub fn y0(&self) -> i64
        ensures { result ≡ self.now.y0 }
    {
        self.y0
    }

    /// The column after the last.
    pub fn x1(&self) -> i64
        ensures { result ≡ self.now.x1 }
    {
        self.x1
    }

    /// The row after the last.
    pub fn y1(&self) -> i64
        ensures { result ≡ self.now.y1 }
    {
        self.y1
    }
}
