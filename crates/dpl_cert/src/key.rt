//! The keys of pieces.
ghost use Rattle.std.specs.Prelude.{◌≡◌};
ghost use Rattle.dpl_cert.specs.Grammar.{IsPoint};

use dpl_spec_split::Pt;
use std::marker::Model;

/// The least square of a piece, in 32 bits a coordinate, in database units. A contract sees it as a `Pt`.
#[derive(Clone, Copy, Drop)]
pub struct Key {
    x: i32,
    y: i32,
}

impl Model for Key {
    ghost use Rattle.dpl_spec_split.specs.declared.Pt.{Pt};

    ghost Value = { Pt };

    ghost view = { λ k. record { x = k.x; y = k.y } };

    ghost invariant = { λ k. Unit {0} };

    ghost inverse = { λ p. record { x = p.x; y = p.y } };
}

impl Key {
    /// The square of a point of a layer.
    pub fn of(point: Pt) -> Key
        requires { IsPoint point }
        ensures { result ≡ point }
    {
        Key {
            x: point.x as i32,
            y: point.y as i32,
        }
    }

    /// The square as a point.
    pub fn point(self) -> Pt
        ensures { result ≡ self }
    {
        Pt {
            x: self.x as i64,
            y: self.y as i64,
        }
    }
}
