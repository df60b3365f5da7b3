//! The features of a layer, found by workers.
ghost use Rattle.std.specs.Prelude.{◌≡◌, ◌<◌, ◌≤◌, ◌^◌, ℕ, IfOk, List, length};
ghost use Rattle.dpl_spec_split.specs.Squares.{Covers};
ghost use Rattle.dpl_spec_split.specs.Slabs.{IsCanonical};
ghost use Rattle.dpl_spec_split.specs.Components.{AreComponents};
ghost use Rattle.dpl_feature.specs.Meeting.{AreMet};
ghost use Rattle.dpl_stars.specs.Sums.{AreEdgePairs, Sums};
ghost use Rattle.dpl_stars.specs.declared.joined.Joined.TheVariants.{Stars};
ghost use Rattle.dpl_wide.specs.Sheets.{below};
ghost use Rattle.dpl_wide.specs.Touching.{AreTouchEdges, IsParent, SumsTouching, alone};

use crate::alone::{own_owners, slabs_alone};
use crate::dealt::components;
use crate::touching::TouchJob;
use dpl_base::{Id, Spacing};
use dpl_pool::{Gate, run_pool};
use dpl_slabs::{Parts, Slabs};
use dpl_stars::{Joined, StarList};
use dpl_tile::{plan, side_for};
use std::alloc::{AllocError, Global};
use std::sync::Wait;
use std::thread::Threads;

/// By this spacing, in database units, squares are near where they touch.
const TOUCHING: Spacing = Spacing { rule: 1, corner: 1 };

/// The parent of a slab: the slab that has the least number of its component.
fn parent_of(layer: &Slabs, rows: &StarList, k: usize) -> usize
    requires canonical { IsCanonical layer.now }
    requires few { length layer.now < 2 ^ 32 }
    requires sums { SumsTouching layer.now (Stars rows.now) }
    requires inside { k < length layer.now }
    ensures { (edges : List (ℕ × ℕ)) → AreEdgePairs edges → AreTouchEdges layer.now edges → Sums edges (Stars rows.now) → IsParent edges k result }
{
    match rows.find(2 * k as Id) {
        Some(row) => (row.root / 2) as usize,
        None => unreachable!(),
    }
}

/// The parent of each slab of a layer, by the summary of the edges of slabs that touch. That is never odd, since each edge joins an even and an odd number.
fn parents_of(alloc: Global, layer: &Slabs, joined: &Joined) -> Result<Vec<usize>, AllocError>
    requires few { length layer.now < 2 ^ 32 }
    requires sums { SumsTouching layer.now joined.now }
    ensures { IfOk result (λ v. AreMet layer.now v.items) }
{
    let Joined::Stars(rows) = joined else {
        unreachable!();
    };
    let count = layer.rects().len();
    let mut parents = Vec::with_capacity(alloc, count)?;
    for k in 0..count {
        parents.push(parent_of(layer, rows, k))?;
    }
    Ok(parents)
}

/// The parent of each slab of a layer, found by workers, where each slab is a set by itself with its own number for its owner.
fn parents_by<G: Gate + Sync, R: Threads + Wait + Sync>(
    rt: &R,
    alloc: Global,
    layer: &Slabs,
    parts: &Parts,
    owners: &[Id],
    tile: u32,
    workers: u32,
    gate: &G,
) -> Result<Vec<usize>, AllocError>
    requires canonical { IsCanonical layer.now }
    requires parts { parts.now ≡ alone layer.now }
    requires owners { owners.now ≡ below (length layer.now) }
    requires tile { 1 ≤ tile }
    requires workers { (0 < workers) × (workers ≤ 64) }
    ensures { IfOk result (λ v. AreMet layer.now v.items) }
{
    let side = side_for(parts, tile);
    let plan = plan(alloc, parts, owners, TOUCHING, side)?;
    let job = TouchJob::of(alloc, layer, plan)?;
    let board = run_pool(rt, alloc, workers, &job, gate)?;
    parents_of(alloc, layer, board.joined())
}

/// The features of a layer, as `dpl_feature::features` gives them, by so many workers, 1 to 64, which share the tiles of the layer's slabs. A tile's side is `tile` in database units, 1 or more, doubled while there would be too many tiles. Nothing of the tiles and workers shows in the features.
///
/// The error: out of memory, as which a layer of 2^32 slabs or more is refused too.
pub fn features_by<G: Gate + Sync, R: Threads + Wait + Sync>(
    rt: &R,
    alloc: Global,
    layer: &Slabs,
    tile: u32,
    workers: u32,
    gate: &G,
) -> Result<Parts, AllocError>
    requires tile { 1 ≤ tile }
    requires workers { (0 < workers) × (workers ≤ 64) }
    ensures { IfOk result (λ parts. AreComponents (Covers layer.now) parts) }
{
    let parts = slabs_alone(alloc, layer)?;
    let owners = own_owners(alloc, layer.rects().len())?;
    let parents = parents_by(rt, alloc, layer, &parts, &owners, tile, workers, gate)?;
    components(alloc, layer, parents)
}
