//! Searches for zones that touch others.
ghost use Rattle.std.specs.Prelude.{◌↔◌, IsTrue};
ghost use Rattle.dpl_spec_split.specs.declared.Rect.{Rect};
ghost use Rattle.dpl_spec_split.specs.Loops.{farthest};
ghost use Rattle.dpl_spec_split.specs.Squares.{AreTouching, Has, IsSolidWithin};
ghost use Rattle.dpl_tree.specs.Trees.{HasItem};
ghost use Rattle.dpl_zone.specs.Layers.{AreItemsWithin};

use dpl_base::Zone;
use dpl_tree::{Owners, View, widened};

/// Whether the zone touches an item of its feature.
pub fn touches_own(tree: &View, z: &Zone) -> bool
    requires items { AreItemsWithin tree.now }
    requires solid { IsSolidWithin farthest z.now.rect }
    ensures { IsTrue result ↔ ((h : Rect) × HasItem tree.now h z.now.feature × AreTouching (Has h) (Has z.now.rect)) }
{
    let window = widened(&z.rect, 1);
    let count = tree.count();
    let n = tree.seek(0, &window, Owners::Only(z.feature as usize));
    if n < count {
        return true;
    }
    false
}
