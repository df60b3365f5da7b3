//! The lines of a cycle.
ghost use Rattle.std.specs.Prelude.{◌≤◌, IfOk, None, Some};
ghost use Rattle.std.specs.List.{Contains};
ghost use Rattle.std.specs.Option.{option_copied};
ghost use Rattle.dpl_spec_split.specs.declared.Pt.{Pt};
ghost use Rattle.dpl_spec_split.specs.Graphs.{IsOddCycle};
ghost use Rattle.dpl_spec_split.specs.Marks.{Anchored, graph};
ghost use Rattle.dpl_spec_split.specs.Pieces.{Conflict};
ghost use Rattle.dpl_cert.specs.Grammar.{IsPoint};
ghost use Rattle.dpl_answer.specs.Anchors.{marks_in, marks_of};
ghost use Rattle.dpl_answer.specs.Cycles.{AreCycleLines};

use crate::lines::place_lines;
use crate::marks::MarkSets;
use crate::near::near_lines;
use crate::vertices::{link_lines, vertex_lines};
use dpl_base::{Id, Spacing};
use dpl_cert::{NearLine, PlaceLine};
use dpl_piece::Pieces;
use std::alloc::{AllocError, Global};

/// What is told of a cycle.
#[derive(Drop)]
pub(crate) struct CycleLines {
    /// The piece or the anchor at each place.
    pub places: Vec<PlaceLine>,
    /// What joins each place to the next one, the last to the first.
    pub near: Vec<NearLine>,
}

/// What is told of an odd cycle of conflicts.
fn piece_cycle_lines(
    alloc: Global,
    pieces: &Pieces,
    cycle: &[Id],
    spacing: Spacing,
) -> Result<CycleLines, AllocError>
    requires corner { spacing.corner ≤ spacing.rule }
    requires keys { (p : Pt) → Contains pieces.now.keys p → IsPoint p }
    requires odd { IsOddCycle (Conflict spacing pieces.now.parts pieces.now.owners) cycle.now }
    ensures { IfOk result (AreCycleLines None spacing pieces.now cycle.now) }
{
    let places = place_lines(alloc, pieces, cycle)?;
    let near = near_lines(alloc, pieces, cycle, spacing)?;
    Ok(CycleLines { places, near })
}

/// What is told of an odd cycle of the graph with anchors.
fn vertex_cycle_lines(
    alloc: Global,
    pieces: &Pieces,
    cycle: &[Id],
    spacing: Spacing,
    marks: &MarkSets,
) -> Result<CycleLines, AllocError>
    requires corner { spacing.corner ≤ spacing.rule }
    requires keys { (p : Pt) → Contains pieces.now.keys p → IsPoint p }
    requires odd { IsOddCycle (Anchored spacing (marks_of marks.now) pieces.now.parts pieces.now.owners) cycle.now }
    ensures { IfOk result (AreCycleLines (Some (marks_of marks.now)) spacing pieces.now cycle.now) }
{
    let places = vertex_lines(alloc, pieces, cycle)?;
    let near = link_lines(alloc, pieces, cycle, spacing, marks)?;
    Ok(CycleLines { places, near })
}

/// What is told of an odd cycle of the graph, with anchors where marks are asked for.
pub(crate) fn cycle_lines(
    alloc: Global,
    pieces: &Pieces,
    cycle: &[Id],
    spacing: Spacing,
    marks: Option<&MarkSets>,
) -> Result<CycleLines, AllocError>
    requires corner { spacing.corner ≤ spacing.rule }
    requires keys { (p : Pt) → Contains pieces.now.keys p → IsPoint p }
    requires odd { IsOddCycle (graph (marks_in (option_copied marks)) spacing pieces.now.parts pieces.now.owners) cycle.now }
    ensures { IfOk result (AreCycleLines (marks_in (option_copied marks.entry)) spacing pieces.now cycle.now) }
{
    match marks {
        None => piece_cycle_lines(alloc, pieces, cycle, spacing),
        Some(sets) => vertex_cycle_lines(alloc, pieces, cycle, spacing, sets),
    }
}
