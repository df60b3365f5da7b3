//! The conflicts of the slabs in a window.
ghost use Rattle.std.specs.Prelude.{◌≡◌, ℕ, ◌+◌, ◌<◌, ◌≤◌, IfOk, OnOk, length};
ghost use Rattle.std.specs.List.{All};
ghost use Rattle.dpl_spec_split.specs.Graphs.{AreEdges};
ghost use Rattle.dpl_spec_split.specs.Pieces.{Conflict};
ghost use Rattle.dpl_tile.specs.Adding.{Adds};
ghost use Rattle.dpl_session.specs.Windows.{IsEnds, IsNamedEdge, each_alone};

use crate::steps::Steps;
use dpl_base::{Edge, Id, Listed, Spacing};
use dpl_edges::all_conflicts;
use dpl_slabs::{Parts, Slabs};
use std::alloc::{AllocError, Global};
use std::marker::Model;
use std::sync::ledger::Ledger;

/// The conflicts of the slabs in a window, by their numbers. They are made by `edges_of`, which takes a step, or copied: no other module can make them.
#[derive(Drop)]
pub(crate) struct TileEdges {
    edges: Listed<Edge>,
}

impl Model for TileEdges {
    ghost use Rattle.std.specs.Prelude.{ℕ, List};

    ghost Value = { List (ℕ × ℕ) };

    ghost view = { λ t. t.edges };
}

impl TileEdges {
    /// The edges, as a slice.
    pub(crate) fn items(&self) -> &[Edge]
        ensures { result.now ≡ self.now }
    {
        self.edges.items()
    }

    /// A copy.
    ///
    /// The error: out of memory.
    pub(crate) fn copy(&self, alloc: Global) -> Result<TileEdges, AllocError>
        ensures { IfOk result (λ t. t ≡ self.now) }
    {
        let edges = Vec::from_slice(alloc, self.edges.items())?;
        Ok(TileEdges {
            edges: Listed::of(edges),
        })
    }
}

/// Each slab of a set as a set of its own.
fn apart(alloc: Global, slabs: &Slabs) -> Result<Parts, AllocError>
    ensures { IfOk result (λ parts. parts ≡ each_alone slabs.now) }
{
    let mut sets = Vec::with_capacity(alloc, slabs.rects().len())?;
    for r in slabs.rects() {
        sets.push(Slabs::one(alloc, *r)?)?;
    }
    Ok(Parts::of(sets))
}

/// The conflicts of the slabs of a window, by their numbers, where slabs with one label have one owner. It takes one step.
///
/// The error: out of memory.
pub(crate) fn edges_of<L: Ledger>(
    alloc: Global,
    slabs: &Slabs,
    labels: &[Id],
    spacing: Spacing,
    steps: &mut Steps<L>,
) -> Result<TileEdges, AllocError>
    requires corner { spacing.corner ≤ spacing.rule }
    requires labels { length labels.now ≡ length slabs.now }
    ensures edges { IfOk result (AreEdges (Conflict spacing (each_alone slabs.now) labels.now)) }
    ensures step { steps.new ≡ steps.old + 1 }
{
    steps.tick();
    let parts = apart(alloc, slabs)?;
    let edges = all_conflicts(alloc, &parts, labels, spacing)?;
    Ok(TileEdges {
        edges: Listed::of(edges),
    })
}

/// The two numbers, the smaller first.
fn ends(p: Id, q: Id) -> Edge
    ensures { IsEnds p q result }
{
    if p < q { (p, q) } else { (q, p) }
}

/// Adds the edges of slabs by the pieces that these are named for, smaller number first.
pub(crate) fn add_named(all: &mut Vec<Edge>, names: &[Id], edges: &[Edge]) -> Result<(), AllocError>
    requires { All (λ (e : ℕ × ℕ). (e.0 < length names.now) × (e.1 < length names.now)) edges.now }
    ensures { OnOk result (Adds (IsNamedEdge names.now edges.now) all.old.items all.new.items) }
{
    for (i, k) in edges {
        all.push(ends(names[*i as usize], names[*k as usize]))?;
    }
    Ok(())
}
