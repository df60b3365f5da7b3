//! The odd cycles of a cut layer, with what is told of each.
ghost use Rattle.std.specs.Prelude.{None, ◌≤◌, IfOk, List, ℕ, length};
ghost use Rattle.std.specs.List.{AllZip, Contains};
ghost use Rattle.dpl_spec_split.specs.declared.Pt.{Pt};
ghost use Rattle.dpl_spec_split.specs.Graphs.{AreEdges, IsOddCycle};
ghost use Rattle.dpl_spec_split.specs.Pieces.{Conflict};
ghost use Rattle.dpl_stars.specs.Levels.{AreEdgesBelow};
ghost use Rattle.dpl_cert.specs.Grammar.{IsPoint, IsRule};
ghost use Rattle.dpl_cut.specs.Cutting.{HasPointKeys, OfAnyCut, OfCompleted};
ghost use Rattle.dpl_answer.specs.View.{AreConflictsOf};
ghost use Rattle.dpl_view.specs.Clashes.{AreTangles, IsToldOf};

use crate::tangles::tangled_count;
use dpl_answer::{Clash, Conflicts, head, near_lines, place_lines};
use dpl_base::{Edge, Id, Listed, Spacing};
use dpl_cut::{BareLayerCut, LayerCut};
use dpl_odd::odd_cycles;
use std::alloc::{AllocError, Global};

/// The components of a conflict graph that have an odd cycle.
#[derive(Debug, Drop)]
pub struct Tangles {
    /// The cycle that is reported of each, in the order of their least pieces.
    pub clashes: Vec<Clash>,
    /// How many edges they have together.
    pub edges: u64,
}

/// For each component of the conflict graph with an odd cycle, in the order of their least pieces, the cycle that is reported of it, with the least pair of near squares of each of its pieces and the next one; and how many edges these components have. The first cycle is the one that `dpl split` reports; there is none exactly where it makes masks. The spacing and the overlap are in database units.
///
/// The error: out of memory.
pub fn clashes_of(
    alloc: Global,
    cut: BareLayerCut,
    conflicts: &Conflicts,
    spacing: Spacing,
    overlap: u32,
) -> Result<Tangles, AllocError>
    requires corner { spacing.corner ≤ spacing.rule }
    requires rule { IsRule spacing.rule }
    requires overlap { IsRule overlap }
    requires keys { HasPointKeys cut }
    requires conflicts { AreConflictsOf None spacing cut.pieces.parts cut.pieces.owners conflicts.now }
    ensures { IfOk result (λ found. OfCompleted cut (λ c. AreTangles spacing overlap c found.clashes.items found.edges)) }
{
    let cut = cut.completed(alloc)?;
    match conflicts {
        Conflicts::Even(_) => Ok(Tangles {
            clashes: Vec::new(alloc),
            edges: 0,
        }),
        Conflicts::Odd(edges) => odd_clashes(alloc, &cut, edges.as_slice(), spacing, overlap),
    }
}

/// The odd cycles of a cut layer whose conflicts these edges are.
fn odd_clashes(
    alloc: Global,
    cut: &LayerCut,
    edges: &[Edge],
    spacing: Spacing,
    overlap: u32,
) -> Result<Tangles, AllocError>
    requires corner { spacing.corner ≤ spacing.rule }
    requires rule { IsRule spacing.rule }
    requires overlap { IsRule overlap }
    requires keys { (p : Pt) → Contains cut.now.pieces.keys p → IsPoint p }
    requires edges { AreEdges (Conflict spacing cut.now.pieces.parts cut.now.pieces.owners) edges.now }
    requires below { AreEdgesBelow (length cut.now.pieces.parts) edges.now }
    ensures { IfOk result (λ found. OfAnyCut cut.now (λ c. AreTangles spacing overlap c found.clashes.items found.edges)) }
{
    let count = cut.pieces.parts().items().len() as u64;
    let cycles = odd_cycles(alloc, count, edges)?;
    let clashes = told(alloc, cut, &cycles, spacing, overlap)?;
    drop(cycles);
    let edges = tangled_count(alloc, count, edges)?;
    Ok(Tangles { clashes, edges })
}

/// What is told of each of these cycles.
fn told(
    alloc: Global,
    cut: &LayerCut,
    cycles: &[Listed<Id>],
    spacing: Spacing,
    overlap: u32,
) -> Result<Vec<Clash>, AllocError>
    requires corner { spacing.corner ≤ spacing.rule }
    requires rule { IsRule spacing.rule }
    requires overlap { IsRule overlap }
    requires keys { (p : Pt) → Contains cut.now.pieces.keys p → IsPoint p }
    requires odd { (c : List ℕ) → Contains cycles.now c → IsOddCycle (Conflict spacing cut.now.pieces.parts cut.now.pieces.owners) c }
    ensures { IfOk result (λ found. OfAnyCut cut.now (λ c. AllZip (IsToldOf spacing overlap c) cycles.now found.items)) }
{
    let mut found = Vec::new(alloc);
    for cycle in cycles {
        let clash = clash(alloc, cut, cycle.items(), spacing, overlap)?;
        found.push(clash)?;
    }
    Ok(found)
}

/// What is told of a cycle.
fn clash(
    alloc: Global,
    cut: &LayerCut,
    cycle: &[Id],
    spacing: Spacing,
    overlap: u32,
) -> Result<Clash, AllocError>
    requires corner { spacing.corner ≤ spacing.rule }
    requires rule { IsRule spacing.rule }
    requires overlap { IsRule overlap }
    requires keys { (p : Pt) → Contains cut.now.pieces.keys p → IsPoint p }
    requires odd { IsOddCycle (Conflict spacing cut.now.pieces.parts cut.now.pieces.owners) cycle.now }
    ensures { IfOk result (λ x. OfAnyCut cut.now (λ c. IsToldOf spacing overlap c cycle.now x)) }
{
    let places = place_lines(alloc, &cut.pieces, cycle)?;
    let near = near_lines(alloc, &cut.pieces, cycle, spacing)?;
    Ok(Clash {
        head: head(cut, spacing, overlap),
        cycle: Listed::of(places),
        near: Listed::of(near),
    })
}
