//! From the bytes of a layout to the odd cycles of its conflicts.
ghost use Rattle.std.specs.Prelude.{◌≤◌, IfOk, length};
ghost use Rattle.dpl_layer.specs.Reading.{limit};
ghost use Rattle.dpl_layer.specs.View.{choice_view};
ghost use Rattle.dpl_view.specs.Findings.{IsFinding, IsInRange};

use crate::clashes::{Tangles, clashes_of};
use crate::conflicting::{Conflicting, cut_with_conflicts};
use dpl_answer::Sharing;
use dpl_base::Spacing;
use dpl_cert::Name;
use dpl_layer::{Layer, LayerChoice, LayerFault, layer_by};
use dpl_pool::Gate;
use std::alloc::{AllocError, Global};
use std::sync::Wait;
use std::thread::Threads;

/// What is asked of a layout.
#[derive(Clone, Copy, Debug)]
pub struct Order<'a> {
    /// The layer whose conflicts are shown.
    pub choice: LayerChoice<'a>,
    /// How far apart features are on one mask, 1 to 1,000,000 database units.
    pub rule: u32,
    /// How long a stitch is, 1 to 1,000,000 database units.
    pub overlap: u32,
    /// How the work is shared.
    pub sharing: Sharing,
}

/// The odd cycles of the conflicts of a layer.
#[derive(Drop)]
pub struct Cycles {
    /// The records of the file before the elements of the top structure.
    pub copied: Vec<u8>,
    /// The components of the conflict graph that have an odd cycle.
    pub tangles: Tangles,
}

/// What is found in a layout.
#[derive(Drop)]
pub enum Finding {
    /// The first fault of the layout, by its name in certificates, and where it stands.
    Refused { name: Name, at: u64 },
    /// The odd cycles of its conflicts.
    Cycles(Cycles),
}

/// What is found in the bytes of a file, at most 268,435,456 of them.
///
/// The error: out of memory.
pub fn find<R: Threads + Wait + Sync, G: Gate + Sync>(
    rt: &R,
    alloc: Global,
    order: &Order<'_>,
    bytes: Vec<u8>,
    gate: &G,
) -> Result<Finding, AllocError>
    requires size { length bytes.items ≤ limit }
    requires ranges { IsInRange order.now }
    ensures { IfOk result (IsFinding (choice_view order.now.choice) order.now.rule order.now.overlap bytes.items) }
{
    let Layer { copied, slabs } = match layer_by(
        rt,
        alloc,
        &order.choice,
        bytes,
        order.sharing.workers,
    ) {
        Ok(layer) => layer,
        Err(LayerFault::Refused { name, at }) => return Ok(Finding::Refused { name, at }),
        Err(LayerFault::NoMemory) => return Err(AllocError),
    };
    let Conflicting { cut, conflicts } = cut_with_conflicts(rt, alloc, order, slabs, gate)?;
    let spacing = Spacing::uniform(order.rule);
    let tangles = clashes_of(alloc, cut, &conflicts, spacing, order.overlap)?;
    Ok(Finding::Cycles(Cycles { copied, tangles }))
}
