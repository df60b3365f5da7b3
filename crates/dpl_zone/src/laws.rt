//! What follows for zones.
ghost use Rattle.dpl_zone.specs.Laws.{TransposingKeepsDistance, ZonesAreOfSquares, ZonesHaveTwoSides, ZonesStandApart};

/// Zones of one feature never touch one another.
pub fn zones_stand_apart()
    ensures { ZonesStandApart }
{}

/// What touches a zone from its feature lies on its two sides, the left or lower one and the right or upper one, each within one piece.
pub fn zones_have_two_sides()
    ensures { ZonesHaveTwoSides }
{}

/// Transposed squares lie as far apart as the squares, and transposed sets are near exactly where the sets are.
pub fn transposing_keeps_distance()
    ensures { TransposingKeepsDistance }
{}

/// The zones of features are those of each layer that has just their squares.
pub fn zones_are_of_squares()
    ensures { ZonesAreOfSquares }
{}
