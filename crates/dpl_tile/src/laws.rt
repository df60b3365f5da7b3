//! What follows from the definition of tiles.
ghost use Rattle.dpl_tile.specs.Laws.{SquaresHaveOneCell};

/// Each square of a part is in one tile's cell.
pub fn squares_have_one_cell()
    ensures { SquaresHaveOneCell }
{}
