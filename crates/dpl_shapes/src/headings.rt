//! Which way the segments of a path go.
ghost use Rattle.std.specs.Prelude.{◌≡◌, ◌↔◌, IsTrue, MatchBool};
ghost use Rattle.dpl_spec_elements.specs.Paths.{heading, same_heading, back, HasTurnBack};
ghost use Rattle.dpl_shapes.specs.Straight.{GoesOnBelow};

use dpl_base::Pt;
use dpl_spec_elements::Heading;

/// Which way a segment between two points goes.
pub fn heading_to(p: &Pt, q: &Pt) -> Heading
    ensures { result ≡ heading p.now q.now }
{
    if p.x < q.x {
        Heading::East
    } else if q.x < p.x {
        Heading::West
    } else if p.y < q.y {
        Heading::North
    } else {
        Heading::South
    }
}

/// Whether two segments go the same way.
pub fn go_the_same_way(a: Heading, b: Heading) -> bool
    ensures { result ≡ same_heading a b }
{
    a == b
}

/// Whether the second of two segments goes the way that the first came.
fn goes_back(a: Heading, b: Heading) -> bool
    ensures { MatchBool result (b ≡ back a) (b ≡ back a → ⊥) }
{
    let opposite = match a {
        Heading::East => Heading::West,
        Heading::North => Heading::South,
        Heading::West => Heading::East,
        Heading::South => Heading::North,
    };
    opposite == b
}

/// Whether two consecutive segments go opposite ways.
pub fn turns_back(points: &[Pt]) -> bool
    ensures { MatchBool result (HasTurnBack points.now) (HasTurnBack points.now → ⊥) }
{
    for i in 2..points.len() {
        let before = heading_to(&points[i - 2], &points[i - 1]);
        let after = heading_to(&points[i - 1], &points[i]);
        if goes_back(before, after) {
            return true;
        }
    }
    false
}
