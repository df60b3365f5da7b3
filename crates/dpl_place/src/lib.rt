//! Where references place what they name, by STRANS, ANGLE and XY of the GDSII Stream Format, Release 6.
#![tactic(auto)]

ghost use Rattle.std.specs.Prelude.{◌≡◌, ◌+◌, ◌-◌, ◌%◌, ◌^◌, ◌<◌, ◌≤◌, false, ℤ, pos, if◌then◌else◌};
ghost use Rattle.dpl_spec_split.specs.declared.Pt.{Pt};
ghost use Rattle.dpl_spec_split.specs.Loops.{IsPointWithin};
ghost use Rattle.dpl_spec_elements.specs.Motions.{Motion, reflected, turned, image, IsComposed, IsMotionWithin};

use dpl_base::Pt;
use std::marker::Model;

/// A motion: it reflects in the x axis, then turns counterclockwise round (0,0) by quarter turns, then moves.
#[derive(Clone, Copy, Debug, Drop, PartialEq, Eq)]
pub struct Place {
    reflect: bool,
    turns: u8,
    dx: i64,
    dy: i64,
}

impl Model for Place {
    ghost Value = { Motion };

    ghost view = { λ p. record { reflect = p.reflect; turns = p.turns; dx = p.dx; dy = p.dy } };

    ghost inverse = { λ p. record { reflect = p.reflect; turns = p.turns; dx = p.dx; dy = p.dy } };

    ghost invariant = { λ p. p.turns < 4 };
}

impl Place {
    /// The placement that reflects where `reflect` says so, then makes `turns` quarter turns (below 4), then moves by `dx` and `dy` database units.
    pub fn new(reflect: bool, turns: u8, dx: i64, dy: i64) -> Place
        requires { turns < 4 }
        ensures { result ≡ record { reflect = reflect; turns = turns; dx = dx; dy = dy } }
    {
        Place {
            reflect,
            turns,
            dx,
            dy,
        }
    }

    /// The placement that moves nothing.
    pub fn unit() -> Place
        ensures stays { (p : Pt) → image result p ≡ p }
        ensures value { result ≡ record { reflect = false; turns = 0; dx = pos 0; dy = pos 0 } }
    {
        Place {
            reflect: false,
            turns: 0,
            dx: 0,
            dy: 0,
        }
    }

    /// Whether it reflects.
    pub fn reflect(&self) -> bool
        ensures { result ≡ self.now.reflect }
    {
        self.reflect
    }

    /// How many quarter turns it makes.
    pub fn turns(&self) -> u8
        ensures value { result ≡ self.now.turns }
        ensures small { result < 4 }
    {
        self.turns
    }

    /// How far it moves in x, in database units.
    pub fn dx(&self) -> i64
        ensures { result ≡ self.now.dx }
    {
        self.dx
    }

    /// How far it moves in y, in database units.
    pub fn dy(&self) -> i64
        ensures { result ≡ self.now.dy }
    {
        self.dy
    }

    /// Where it takes a point. Coordinates are database units, within 2^61 of 0.
    pub fn apply(&self, point: Pt) -> Pt
        requires place { IsMotionWithin (2 ^ 61) self.now }
        requires point { IsPointWithin (2 ^ 61) point }
        ensures { result ≡ image self.now point }
    {
        let at = turn(self.turns, mirror(self.reflect, point));
        Pt {
            x: at.x + self.dx,
            y: at.y + self.dy,
        }
    }
}

/// The point, reflected in the x axis where `reflect` says so.
fn mirror(reflect: bool, point: Pt) -> Pt
    requires { IsPointWithin (2 ^ 61) point }
    ensures image { result ≡ (if reflect then reflected point else point) }
    ensures within { IsPointWithin (2 ^ 61) result }
{
    if reflect {
        Pt {
            x: point.x,
            y: -point.y,
        }
    } else {
        point
    }
}

/// The point, turned counterclockwise by quarter turns.
fn turn(turns: u8, point: Pt) -> Pt
    requires few { turns < 4 }
    requires point { IsPointWithin (2 ^ 61) point }
    ensures image { result ≡ turned turns point }
    ensures within { IsPointWithin (2 ^ 61) result }
{
    match turns {
        0 => point,
        1 => Pt {
            x: -point.y,
            y: point.x,
        },
        2 => Pt {
            x: -point.x,
            y: -point.y,
        },
        _ => Pt {
            x: point.y,
            y: -point.x,
        },
    }
}

/// The quarter turns of two placements, one after the other: a reflection turns the inner ones round.
fn turns_in_all(reflect: bool, outer: u8, inner: u8) -> u8
    requires outer { outer < 4 }
    requires inner { inner < 4 }
    ensures value { result ≡ (if reflect then (outer + 4 - inner) % 4 else (outer + inner) % 4) }
    ensures small { result < 4 }
{
    if reflect {
        return (outer + 4 - inner) % 4;
    }
    (outer + inner) % 4
}

/// The placement that does `inner` and then `outer`. Both move by at most 2^61 database units.
pub fn compose(outer: &Place, inner: &Place) -> Place
    requires outer { IsMotionWithin (2 ^ 61) outer.now }
    requires inner { IsMotionWithin (2 ^ 61) inner.now }
    ensures { IsComposed outer.now inner.now result }
{
    let moved = outer.apply(Pt {
        x: inner.dx,
        y: inner.dy,
    });
    let turns = turns_in_all(outer.reflect, outer.turns, inner.turns);
    Place {
        reflect: outer.reflect != inner.reflect,
        turns,
        dx: moved.x,
        dy: moved.y,
    }
}

/// A placement is known by where it takes points.
pub fn one_motion()
    ensures { (m n : Motion) → m.turns < 4 → n.turns < 4 → ((p : Pt) → image m p ≡ image n p) → m ≡ n }
{}

/// Composing is associative.
pub fn composing_is_associative()
    ensures { (a b c ab bc x y : Motion) → IsComposed a b ab → IsComposed ab c x → IsComposed b c bc → IsComposed a bc y → x ≡ y }
{}

/// Composing with a placement that moves nothing changes nothing.
pub fn composing_has_a_unit()
    ensures outer { (u m x : Motion) → ((p : Pt) → image u p ≡ p) → m.turns < 4 → IsComposed u m x → x ≡ m }
    ensures inner { (u m x : Motion) → ((p : Pt) → image u p ≡ p) → m.turns < 4 → IsComposed m u x → x ≡ m }
{}
