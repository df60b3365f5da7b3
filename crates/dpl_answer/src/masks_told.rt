//! What a certificate tells of masks, before they are made.
ghost use Rattle.std.specs.Prelude.{◌≤◌, IfOk, length};
ghost use Rattle.std.specs.List.{Contains};
ghost use Rattle.std.specs.Option.{option_copied};
ghost use Rattle.dpl_spec_split.specs.declared.Pt.{Pt};
ghost use Rattle.dpl_spec_split.specs.Marks.{graph, vertex};
ghost use Rattle.dpl_orient.specs.Oriented.{IsEvenBelow};
ghost use Rattle.dpl_cert.specs.Grammar.{IsPoint};
ghost use Rattle.dpl_answer.specs.Anchors.{marks_in};
ghost use Rattle.dpl_answer.specs.Conflicts.{SumsGraph};
ghost use Rattle.dpl_answer.specs.Lines.{IsTold};

use crate::colours::piece_colours;
use crate::gains::gains_by;
use crate::lines::{MaskLines, mask_lines};
use crate::marks::MarkSets;
use dpl_base::{Listed, Spacing};
use dpl_cert::Gain;
use dpl_orient::Colours;
use dpl_piece::Pieces;
use dpl_stars::Joined;
use std::alloc::{AllocError, Global};

/// The masks of pieces, and what is told of them.
#[derive(Drop)]
pub(crate) struct MasksTold {
    pub(crate) colours: Colours,
    pub(crate) gains: Option<Listed<Gain>>,
    pub(crate) lines: MaskLines,
}

/// The masks of pieces whose graph `joined` sums up, the gains that are left of them, if fewer stitches are asked for, and their lines.
///
/// The error: out of memory.
pub(crate) fn masks_told(
    alloc: Global,
    pieces: &Pieces,
    joined: &Joined,
    marks: Option<&MarkSets>,
    spacing: Spacing,
    fewer: bool,
) -> Result<MasksTold, AllocError>
    requires corner { spacing.corner ≤ spacing.rule }
    requires keys { (p : Pt) → Contains pieces.now.keys p → IsPoint p }
    requires sums { SumsGraph (graph (marks_in (option_copied marks)) spacing pieces.now.parts pieces.now.owners) joined.now }
    requires even { IsEvenBelow (vertex (marks_in (option_copied marks)) (length pieces.now.parts)) joined.now }
    ensures { IfOk result (λ t. IsTold fewer (marks_in (option_copied marks.entry)) spacing joined.now pieces.now t.colours t.gains t.lines.pieces t.lines.stitches) }
{
    let count = pieces.parts().items().len() as u64;
    let colours = piece_colours(alloc, count, pieces.sides(), joined, marks, fewer)?;
    let gains = gains_by(alloc, pieces, &colours, joined, marks, spacing, fewer)?;
    let lines = mask_lines(alloc, colours.items(), pieces)?;
    Ok(MasksTold {
        colours,
        gains,
        lines,
    })
}
