//! The cells over a layer, of a grid whose corner is that of all layers.
ghost use Rattle.std.specs.Prelude.{◌≡◌, ℕ, ◌<◌, ◌≤◌, ◌⊎◌, ◌↔◌, List, [], ◌∷◌, IfOk, length};
ghost use Rattle.std.specs.List.{All};
ghost use Rattle.dpl_spec_split.specs.declared.Rect.{Rect};
ghost use Rattle.dpl_spec_split.specs.declared.Pt.{Pt};
ghost use Rattle.dpl_spec_split.specs.Loops.{farthest, AreRectsWithin};
ghost use Rattle.dpl_spec_split.specs.Squares.{Covers};
ghost use Rattle.dpl_tile.specs.Plans.{IsPlan};
ghost use Rattle.dpl_session.specs.Kept.{AreCells, AreWide};
ghost use Rattle.dpl_session.specs.Tiles.{IsSide, with_corner};

use dpl_base::{FARTHEST, Rect, Spacing, WideRect};
use dpl_slabs::{Parts, Slabs};
use dpl_tile::{Plan, plan};
use std::alloc::{AllocError, Global};

/// The cells of a grid, by row, then by column, and the length of their sides in database units.
#[derive(Drop)]
pub(crate) struct Cells {
    pub(crate) side: u32,
    pub(crate) cells: Vec<WideRect>,
}

/// The layer with the least square that any may have, at which every grid begins.
fn corner_added(alloc: Global, layer: &Slabs) -> Result<Parts, AllocError>
    ensures { IfOk result (λ parts. (rs : List Rect) × (parts ≡ rs ∷ []) × ((p : Pt) → Covers rs p ↔ with_corner (Covers layer.now) p)) }
{
    let low = -FARTHEST as i32;
    let first = Slabs::one(
        alloc,
        Rect {
            x0: low,
            y0: low,
            x1: low + 1,
            y1: low + 1,
        },
    )?;
    let all = layer.union(alloc, &first)?;
    // What is known of a set is known once it is looked at.
    let _ = all.rects();
    let mut sets = Vec::new(alloc);
    sets.push(all)?;
    Ok(Parts::of(sets))
}

/// The cells of a plan.
fn cells_in(alloc: Global, plan: &Plan) -> Result<Vec<WideRect>, AllocError>
    ensures { IfOk result (λ v. v.items ≡ plan.now.cells) }
{
    let mut cells = Vec::new(alloc);
    for tile in 0..plan.tiles() {
        cells.push(plan.cell(tile))?;
    }
    Ok(cells)
}

/// The length of the cells' sides.
fn side_of(cells: &[WideRect]) -> u32
    requires { (side : ℕ) × AreWide cells.now side }
    ensures { AreWide cells.now result }
{
    let first = &cells[0];
    (first.x1() - first.x0()) as u32
}

/// The cells over a layer, with sides of `tile` database units, doubled until there are at most 16,777,216 pairs of a slab and a cell that it meets, where the square at the corner of all layers counts as one of the layer's.
pub(crate) fn cells_over(alloc: Global, layer: &Slabs, tile: u32) -> Result<Cells, AllocError>
    requires { 1 ≤ tile }
    ensures side { IfOk result (λ c. IsSide (Covers layer.now) tile c.side) }
    ensures cells { IfOk result (λ c. AreCells (Covers layer.now) c.side c.cells.items) }
{
    let parts = corner_added(alloc, layer)?;
    let plan = plan(alloc, &parts, &[0], Spacing::uniform(1), tile)?;
    let cells = cells_in(alloc, &plan)?;
    let side = side_of(&cells);
    Ok(Cells { side, cells })
}
