//! Marked squares that aren't on their mask alone.
ghost use Rattle.std.specs.Prelude.{IfOk, Option};
ghost use Rattle.dpl_spec_split.specs.Marks.{AreMarks, Marks};
ghost use Rattle.dpl_spec_split.specs.Slabs.{AreSlabsOf};
ghost use Rattle.dpl_spec_verdict.specs.Masks.{is_misplaced};
ghost use Rattle.dpl_check.specs.Findings.{IsLeastOf, is_off};

use dpl_base::Pt;
use dpl_slabs::Slabs;
use std::alloc::{AllocError, Global};

/// The marked squares of a layer that aren't on the one mask alone, or are on the other too.
fn squares_off(
    alloc: Global,
    layer: &Slabs,
    mask: &Slabs,
    other: &Slabs,
    marked: &Slabs,
) -> Result<Slabs, AllocError>
    ensures { IfOk result (AreSlabsOf (is_off layer.now mask.now other.now marked.now)) }
{
    if marked.rects().is_empty() {
        return Ok(Slabs::empty(alloc));
    }
    let fixed = layer.meet(alloc, marked)?;
    let alone = mask.minus(alloc, other)?;
    fixed.minus(alloc, &alone)
}

/// The least square of the layer that is fixed to a mask and isn't on that one alone.
pub(crate) fn misplaced(
    alloc: Global,
    layer: &Slabs,
    a: &Slabs,
    b: &Slabs,
    mark_a: &Slabs,
    mark_b: &Slabs,
) -> Result<Option<Pt>, AllocError>
    ensures { (marks : Option Marks) → AreMarks mark_a.now mark_b.now marks → IfOk result (λ found. IsLeastOf (is_misplaced marks layer.now a.now b.now) found) }
{
    let first = squares_off(alloc, layer, a, b, mark_a)?;
    let second = squares_off(alloc, layer, b, a, mark_b)?;
    let all = first.union(alloc, &second)?;
    Ok(all.least())
}
