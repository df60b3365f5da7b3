//! What follows from the definition of a tile's edges.
ghost use Rattle.dpl_edges.specs.Fixed.{MarksMakeTheGraph};
ghost use Rattle.dpl_edges.specs.InCells.{TilesMakeTheGraph};

/// Pieces conflict where they do so in some tile.
pub fn tiles_make_the_graph()
    ensures { TilesMakeTheGraph }
{}

/// Where marks are asked for, the edges of pieces by their vertices and those of marks together join just what the graph with anchors joins.
pub fn marks_make_the_graph()
    ensures { MarksMakeTheGraph }
{}
