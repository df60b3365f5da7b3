//! From a layer to its cut, with the conflicts of the pieces.
ghost use Rattle.std.specs.Prelude.{None, IfOk};
ghost use Rattle.dpl_spec_split.specs.Squares.{Covers, uniform};
ghost use Rattle.dpl_cut.specs.Cutting.{HasPointKeys, IsBareCutOf};
ghost use Rattle.dpl_answer.specs.View.{AreConflictsOf};
ghost use Rattle.dpl_view.specs.Findings.{IsInRange};

use crate::finding::Order;
use dpl_answer::{Conflicts, conflicts_of};
use dpl_base::Spacing;
use dpl_cut::BareLayerCut;
use dpl_pool::Gate;
use dpl_slabs::Slabs;
use dpl_wide::cut_by;
use std::alloc::{AllocError, Global};
use std::sync::Wait;
use std::thread::Threads;

/// A cut layer, and the conflicts of its pieces.
#[derive(Drop)]
pub(crate) struct Conflicting {
    pub(crate) cut: BareLayerCut,
    pub(crate) conflicts: Conflicts,
}

/// Cuts a layer as it is asked for, and finds the conflicts of its pieces.
///
/// The error: out of memory.
pub(crate) fn cut_with_conflicts<R: Threads + Wait + Sync, G: Gate + Sync>(
    rt: &R,
    alloc: Global,
    order: &Order<'_>,
    layer: Slabs,
    gate: &G,
) -> Result<Conflicting, AllocError>
    requires { IsInRange order.now }
    ensures cut { IfOk result (λ x. IsBareCutOf None (uniform order.now.rule) order.now.overlap (Covers layer) x.cut) }
    ensures keys { IfOk result (λ x. HasPointKeys x.cut) }
    ensures conflicts { IfOk result (λ x. AreConflictsOf None (uniform order.now.rule) x.cut.pieces.parts x.cut.pieces.owners x.conflicts) }
{
    let spacing = Spacing::uniform(order.rule);
    let no_marks = Slabs::empty(alloc);
    let cut = cut_by(
        rt,
        alloc,
        layer,
        spacing,
        order.overlap,
        &no_marks,
        order.sharing.workers,
    )?;
    let conflicts = conflicts_of(rt, alloc, &cut, None, spacing, order.sharing, gate)?;
    Ok(Conflicting { cut, conflicts })
}
