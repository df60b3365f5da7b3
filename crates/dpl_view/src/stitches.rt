//! From the bytes of a layout to the stitches of its split.
ghost use Rattle.std.specs.Prelude.{None, ◌≡◌, ◌≤◌, IfOk, length};
ghost use Rattle.dpl_cert.specs.Grammar.{IsRule};
ghost use Rattle.dpl_cut.specs.Cutting.{HasPointKeys, OfCompleted};
ghost use Rattle.dpl_layer.specs.Reading.{limit};
ghost use Rattle.dpl_layer.specs.View.{choice_view};
ghost use Rattle.dpl_answer.specs.View.{AreConflictsOf};
ghost use Rattle.dpl_view.specs.Findings.{IsInRange};
ghost use Rattle.dpl_view.specs.Stitches.{AreSeams, IsSplit, status_of_split};

use crate::conflicting::{Conflicting, cut_with_conflicts};
use crate::finding::Order;
use crate::status::Status;
use dpl_answer::{Conflicts, Decomposed, answer_of};
use dpl_base::{Listed, Spacing};
use dpl_cert::{Name, StitchLine};
use dpl_cut::BareLayerCut;
use dpl_layer::{Layer, LayerFault, layer_by};
use dpl_pool::Gate;
use std::alloc::{AllocError, Global};
use std::sync::Wait;
use std::thread::Threads;

/// Where both masks of a layer overlap.
#[derive(Drop)]
pub enum Seams {
    /// The rectangle of each stitch, and the pieces on its two sides, in the order of the zones.
    Stitches(Listed<StitchLine>),
    /// The layer has no masks: the cycle that is reported has so many pieces.
    Conflict(u64),
}

/// What a split makes of a layout.
#[derive(Drop)]
pub enum Split {
    /// The first fault of the layout, by its name in certificates, and where it stands.
    Refused { name: Name, at: u64 },
    /// The records of the file before the elements of the top structure, and the stitches.
    Answered { copied: Vec<u8>, seams: Seams },
}

/// The stitches of the split of a layer of a file's bytes, at most 268,435,456 of them.
///
/// The error: out of memory.
pub fn find_stitches<R: Threads + Wait + Sync, G: Gate + Sync>(
    rt: &R,
    alloc: Global,
    order: &Order<'_>,
    bytes: Vec<u8>,
    gate: &G,
) -> Result<Split, AllocError>
    requires size { length bytes.items ≤ limit }
    requires ranges { IsInRange order.now }
    ensures { IfOk result (IsSplit (choice_view order.now.choice) order.now.rule order.now.overlap bytes.items) }
{
    let Layer { copied, slabs } = match layer_by(
        rt,
        alloc,
        &order.choice,
        bytes,
        order.sharing.workers,
    ) {
        Ok(layer) => layer,
        Err(LayerFault::Refused { name, at }) => return Ok(Split::Refused { name, at }),
        Err(LayerFault::NoMemory) => return Err(AllocError),
    };
    let Conflicting { cut, conflicts } = cut_with_conflicts(rt, alloc, order, slabs, gate)?;
    let spacing = Spacing::uniform(order.rule);
    let seams = seams_of(
        rt,
        alloc,
        cut,
        &conflicts,
        spacing,
        order.overlap,
        order.sharing.workers,
    )?;
    Ok(Split::Answered { copied, seams })
}

/// The stitches of the masks of a cut layer, if it has no odd cycle.
fn seams_of<R: Threads>(
    rt: &R,
    alloc: Global,
    cut: BareLayerCut,
    conflicts: &Conflicts,
    spacing: Spacing,
    overlap: u32,
    workers: u32,
) -> Result<Seams, AllocError>
    requires corner { spacing.corner ≤ spacing.rule }
    requires rule { IsRule spacing.rule }
    requires overlap { IsRule overlap }
    requires keys { HasPointKeys cut }
    requires conflicts { AreConflictsOf None spacing cut.pieces.parts cut.pieces.owners conflicts.now }
    ensures { IfOk result (λ seams. OfCompleted cut (λ c. AreSeams spacing c seams)) }
{
    let answer = answer_of(
        rt, alloc, cut, conflicts, None, spacing, overlap, false, workers,
    )?;
    match answer {
        Decomposed::Masks(painted) => Ok(Seams::Stitches(painted.stitches)),
        Decomposed::Cycle(clash) => Ok(Seams::Conflict(clash.cycle.items().len() as u64)),
    }
}

/// With what a run ends that found these.
pub fn status_by_split(split: &Split) -> Status
    ensures { result ≡ status_of_split split.now }
{
    match split {
        Split::Refused { .. } => Status::Refused,
        Split::Answered {
            seams: Seams::Stitches(_),
            ..
        } => Status::Done,
        Split::Answered {
            seams: Seams::Conflict(_),
            ..
        } => Status::Conflict,
    }
}
