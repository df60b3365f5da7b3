//! The tiles of a layer's slabs as a job: each tile's edges of slabs that touch, and the summary of all of them.
ghost use Rattle.std.specs.Prelude.{◌≡◌, ◌↔◌, ◌<◌, ◌≤◌, ◌^◌, ℕ, IfOk, IfSome, OnOk, length, slice_get};
ghost use Rattle.std.specs.List.{All, Contains};
ghost use Rattle.dpl_spec_split.specs.Squares.{uniform};
ghost use Rattle.dpl_tile.specs.Adding.{Adds};
ghost use Rattle.dpl_tree.specs.declared.items.Item.{Item};
ghost use Rattle.dpl_wide.specs.Sheets.{IsOwnEdgeOf, IsPairEdge, IsPairEdgeOf, below, edges_in, sheet_of};
ghost use Rattle.dpl_wide.specs.Touching.{alone, crossed};

use dpl_base::{Edge, Id, WideRect, short_id};
use dpl_board::Job;
use dpl_edges::edges_of;
use dpl_slabs::Slabs;
use dpl_stars::{Joined, stars};
use dpl_tile::Plan;
use dpl_tree::{Owners, Tree};
use std::alloc::{AllocError, Global};
use std::marker::Model;

/// The job of a pool that finds which slabs of a layer touch. Slab `k` has the numbers 2k and 2k + 1. The summary of a tile is that of its edges: each joins the even number of one slab and the odd number of another that touches it by a square of either in the tile's cell, or of the same slab, where that has a square in the cell. A contract sees the slabs and the tiles' cells.
#[derive(Drop)]
pub struct TouchJob<'a> {
    layer: &'a Slabs,
    plan: Plan<'a>,
    tree: Tree,
}

impl<'a> Model for TouchJob<'a> {
    ghost use Rattle.dpl_wide.specs.Sheets.{IsSlabPlan, SlabTiles};

    ghost Value = { SlabTiles };

    ghost view = { λ job. record { slabs = job.layer.now; cells = job.plan.cells } };

    ghost invariant = { λ job. IsSlabPlan job.layer.now job.plan job.tree };
}

/// The edge of the even number of slab `i` and the odd number of slab `j`, the smaller number first.
fn crossed(i: Id, j: Id) -> Edge
    requires first { i < 2 ^ 32 }
    requires second { j < 2 ^ 32 }
    ensures { result ≡ crossed i j }
{
    if j < i {
        (2 * j + 1, 2 * i)
    } else {
        (2 * i, 2 * j + 1)
    }
}

/// Adds the edge of the two numbers of each slab that has a square in the cell.
fn add_own(edges: &mut Vec<Edge>, tree: &Tree, cell: &WideRect) -> Result<(), AllocError>
    requires { All (λ (item : Item). item.owner < 2 ^ 32) tree.now }
    ensures { OnOk result (Adds (IsOwnEdgeOf cell.now tree.now) edges.old.items edges.new.items) }
{
    let mut n = tree.seek(0, cell, Owners::All);
    while n < tree.count() {
        let k = tree.item(n).owner as Id;
        edges.push(crossed(k, k))?;
        n = tree.seek(n + 1, cell, Owners::All);
    }
    Ok(())
}

/// Adds the two edges of a pair of slabs.
fn add_pair(edges: &mut Vec<Edge>, pair: Edge) -> Result<(), AllocError>
    requires first { pair.0 < 2 ^ 32 }
    requires second { pair.1 < 2 ^ 32 }
    ensures { OnOk result (Adds (IsPairEdge pair) edges.old.items edges.new.items) }
{
    let (i, j) = pair;
    edges.push(crossed(i, j))?;
    edges.push(crossed(j, i))?;
    Ok(())
}

/// Adds the two edges of each pair of slabs.
fn add_pairs(edges: &mut Vec<Edge>, pairs: &[Edge]) -> Result<(), AllocError>
    requires { All (λ (e : ℕ × ℕ). (e.0 < 2 ^ 32) × (e.1 < 2 ^ 32)) pairs.now }
    ensures { OnOk result (Adds (IsPairEdgeOf pairs.now) edges.old.items edges.new.items) }
{
    for pair in pairs {
        add_pair(edges, *pair)?;
    }
    Ok(())
}

impl<'a> TouchJob<'a> {
    /// The job of a layer and a plan of its slabs. A layer of 2^32 slabs or more is answered as out of memory.
    pub(crate) fn of(
        alloc: Global,
        layer: &'a Slabs,
        plan: Plan<'a>,
    ) -> Result<TouchJob<'a>, AllocError>
        requires parts { plan.parts ≡ alone layer.now }
        requires owners { plan.owners ≡ below (length layer.now) }
        requires spacing { plan.spacing ≡ uniform 1 }
        ensures job { IfOk result (λ job. (job.slabs ≡ layer.now) × (job.cells ≡ plan.entry.cells)) }
        ensures few { IfOk result (λ job. length layer.now < 2 ^ 32) }
    {
        let _few = short_id(layer.rects().len() as Id)?;
        let tree = Tree::of_parts(alloc, plan.parts().items())?;
        Ok(TouchJob { layer, plan, tree })
    }

    /// The edges of a tile, in no order.
    fn edges(&self, alloc: Global, tile: u32) -> Result<Vec<Edge>, AllocError>
        requires { tile < length self.now.cells }
        ensures { IfOk result (λ v. IfSome (slice_get self.now.cells tile) (λ cell. (e : ℕ × ℕ) → Contains v.items e ↔ Contains (edges_in self.now.slabs cell) e)) }
    {
        let cell = self.plan.cell(tile);
        let pairs = edges_of(alloc, &self.plan, tile)?;
        let mut edges = Vec::new(alloc);
        add_own(&mut edges, &self.tree, &cell)?;
        add_pairs(&mut edges, &pairs)?;
        Ok(edges)
    }
}

impl<'a> Job for TouchJob<'a> {
    ghost sheet = { λ job. sheet_of job };

    fn tiles(&self) -> u32 {
        self.plan.tiles()
    }

    fn summary(&self, alloc: Global, tile: u32) -> Result<Joined, AllocError> {
        let edges = self.edges(alloc, tile)?;
        stars(alloc, &edges)
    }
}
