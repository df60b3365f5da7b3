//! Zones without a marked square.
ghost use Rattle.std.specs.Prelude.{◌↔◌, IfOk};
ghost use Rattle.std.specs.List.{All, AllPairs, Contains};
ghost use Rattle.dpl_spec_split.specs.declared.Zone.{Zone};
ghost use Rattle.dpl_spec_split.specs.Slabs.{Before, IsSolid};
ghost use Rattle.dpl_spec_split.specs.Squares.{Covers};
ghost use Rattle.dpl_spec_split.specs.Zones.{IsUnmarked};

use dpl_base::Zone;
use dpl_slabs::Slabs;
use dpl_tree::SetTree;
use std::alloc::{AllocError, Global};

/// The zones without a marked square, in the same order.
///
/// The error: out of memory.
pub fn unmarked(alloc: Global, zones: Vec<Zone>, marked: &Slabs) -> Result<Vec<Zone>, AllocError>
    requires solid { All (λ z. IsSolid z.rect) zones.items }
    requires ordered { AllPairs (λ a b. Before a.rect b.rect) zones.items }
    ensures ordered { IfOk result (λ v. AllPairs (λ a b. Before a.rect b.rect) v.items) }
    ensures members { IfOk result (λ v. (z : Zone) → Contains v.items z ↔ (Contains zones.items z × IsUnmarked (Covers marked.now) z.rect)) }
{
    if marked.rects().is_empty() {
        return Ok(zones);
    }
    let tree = SetTree::of(alloc, marked)?;
    let mut kept = Vec::new(alloc);
    for z in &zones {
        if !tree.meets(&z.rect) {
            kept.push(*z)?;
        }
    }
    Ok(kept)
}
