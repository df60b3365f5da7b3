//! Makes slabs of pieces.
ghost use Rattle.std.specs.Prelude.{◌↔◌, IsTrue};
ghost use Rattle.dpl_spec_split.specs.Squares.{Covers};
ghost use Rattle.dpl_spec_split.specs.Slabs.{AreSlabsOf, StandsOn};
ghost use Rattle.dpl_order.specs.Pieces.{AreApart, Continues};
ghost use Rattle.dpl_order.specs.Orders.{ColumnsRise};
ghost use Rattle.dpl_order.specs.Joins.{AreJoined, HasGrown};

use crate::order::{sort_by_columns, sort_by_corner};
use dpl_spec_split::Rect;

/// Whether the piece stands on the last one, with the same columns.
pub fn continues(last: &Rect, piece: &Rect) -> bool
    ensures { IsTrue result ↔ Continues last.now piece.now }
{
    if piece.y0 != last.y1 {
        return false;
    }
    if piece.x0 != last.x0 {
        return false;
    }
    if piece.x1 != last.x1 {
        return false;
    }
    if piece.y1 <= piece.y0 {
        return false;
    }
    last.y0 < last.y1
}

/// Whether the piece stands on the slab, with the same columns.
fn stands_on(slab: &Rect, piece: &Rect) -> bool
    ensures { IsTrue result ↔ StandsOn slab.now piece.now }
{
    piece.y0 == slab.y1 && piece.x0 == slab.x0 && piece.x1 == slab.x1
}

/// Lets the slab grow over a piece that stands on it, and tells whether the piece does.
fn grow(slab: &mut Rect, piece: &Rect) -> bool
    ensures { HasGrown slab.old piece.now result slab.new }
{
    let stands = stands_on(slab, piece);
    if stands {
        slab.y1 = piece.y1;
    }
    stands
}

/// Puts pieces on one another, where they lie in the list.
fn join(pieces: &mut Vec<Rect>)
    requires apart { AreApart pieces.old.items }
    requires rise { ColumnsRise pieces.old.items }
    ensures { AreJoined pieces.old.items pieces.new.items }
{
    // Each piece is shown to the last slab, and let go where that has grown over it.
    pieces.dedup_by(|piece, slab| grow(slab, piece));
}

/// Puts pieces on one another, in the same list: no two of the same columns are left where one stands on the other.
pub fn join_pieces(pieces: Vec<Rect>) -> Vec<Rect>
    requires { AreApart pieces.items }
    ensures { AreJoined pieces.items result.items }
{
    let mut pieces = pieces;
    sort_by_columns(&mut pieces);
    join(&mut pieces);
    pieces
}

/// The canonical slabs of pieces, in the same list, without room for more.
pub fn slabs_of(pieces: Vec<Rect>) -> Vec<Rect>
    requires { AreApart pieces.items }
    ensures { AreSlabsOf (Covers pieces.items) result.items }
{
    let mut slabs = join_pieces(pieces);
    slabs.shrink_to_fit();
    sort_by_corner(&mut slabs);
    slabs
}
