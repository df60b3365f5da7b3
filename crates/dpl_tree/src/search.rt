//! Searches through levels of blocks.
ghost use Rattle.std.specs.Prelude.{◌≡◌, ℕ, ◌<◌, ◌≤◌, ◌↔◌, IsTrue, length, map, slice_index_or};
ghost use Rattle.dpl_tree.specs.declared.items.Item.{Item};
ghost use Rattle.dpl_tree.specs.Trees.{ArePassed, IsMissed};
ghost use Rattle.dpl_tree.specs.Blocks.{AreLeftOut, IsBarred, IsFoundAt, IsIndex, IsFoundAmong, start_of};
ghost use Rattle.dpl_tree.specs.StoredItems.{item_of};

use crate::blocks::{Block, Bounded, FAN};
use crate::items::StoredItem;
use crate::owners::Owners;
use crate::window::lies_apart;
use dpl_base::{Listed, WideRect};

/// Where a search stands: before a block of a level, where the things of level 0 are the items.
#[derive(Clone, Copy, Drop)]
pub(crate) struct Place {
    pub(crate) level: usize,
    pub(crate) at: usize,
}

/// What a search finds among things.
#[derive(Clone, Copy, Drop)]
pub(crate) enum Finding {
    /// The first thing in which there may be what is sought.
    Found(usize),
    /// Nothing before this one, which is a later one.
    Passed(usize),
    /// There are no more things.
    Over,
}

/// Whether the search isn't for any owner in the block.
fn are_left_out(owners: Owners, block: &Block) -> bool
    ensures { IsTrue result ↔ AreLeftOut owners block.now }
{
    let least = block.least as usize;
    let greatest = block.greatest as usize;
    match owners {
        Owners::All => false,
        Owners::But(k) => least == k && greatest == k,
        Owners::Only(k) => k < least || greatest < k,
        Owners::Above(k) => greatest <= k,
    }
}

/// Whether a search finds nothing in the block.
fn is_barred(window: &WideRect, owners: Owners, block: &Block) -> bool
    ensures { IsTrue result ↔ IsBarred window.now owners block.now }
{
    if lies_apart(window, &block.bounds) {
        return true;
    }
    if are_left_out(owners, block) {
        return true;
    }
    false
}

/// What a search finds among things from number `at` on, to the end of the eight in a row that it stands in.
fn find_in<T: Bounded>(things: &[T], at: usize, window: &WideRect, owners: Owners) -> Finding
    ensures { IsFoundAmong T.block_of things.now at window.now owners result }
{
    if at >= things.len() {
        return Finding::Over;
    }
    let end = (at / FAN + 1).saturating_mul(FAN).min(things.len());
    for i in at..end {
        if !is_barred(window, owners, &things[i].block()) {
            return Finding::Found(i);
        }
    }
    Finding::Passed(end)
}

/// What a search finds from a place on, to the end of the eight blocks, or items, in a row that it stands in.
fn find_at(
    items: &[StoredItem],
    levels: &[Listed<Block>],
    place: Place,
    window: &WideRect,
    owners: Owners,
) -> Finding
    requires index { IsIndex (map item_of items.now) levels.now }
    requires level { place.level ≤ length levels.now }
    ensures { IsFoundAt (map item_of items.now) place window.now owners result }
{
    if place.level == 0 {
        return find_in(items, place.at, window, owners);
    }
    find_in(levels[place.level - 1].items(), place.at, window, owners)
}

/// The place on the highest of so many levels that begins with the same item.
fn highest(place: Place, levels: usize) -> Place
    requires { place.level ≤ levels }
    ensures level { result.level ≤ levels }
    ensures start { start_of result ≡ start_of place }
{
    let mut level = place.level;
    let mut at = place.at;
    while level < levels && at % FAN == 0 {
        at /= FAN;
        level += 1;
    }
    Place { level, at }
}

/// The number of the first item from number `from` on that has a square in the window, of the owners that are sought, or a number past all items.
pub(crate) fn seek_in(
    items: &[StoredItem],
    levels: &[Listed<Block>],
    from: usize,
    window: &WideRect,
    owners: Owners,
) -> usize
    requires index { IsIndex (map item_of items.now) levels.now }
    ensures from { from ≤ result }
    ensures passed { ArePassed window.now owners (map item_of items.now) from result }
    ensures found { (d : Item) → result < length items.now → ¬ IsMissed window.now owners (slice_index_or (map item_of items.now) result d) }
{
    let count = items.len();
    let start = Place { level: 0, at: from };
    let mut place = highest(start, levels.len());
    loop {
        match find_at(items, levels, place, window, owners) {
            Finding::Over => return count.max(from),
            Finding::Passed(end) => {
                let next = Place { at: end, ..place };
                place = highest(next, levels.len());
            }
            Finding::Found(k) if place.level == 0 => return k,
            Finding::Found(k) => {
                place = Place {
                    level: place.level - 1,
                    at: k * FAN,
                };
            }
        }
    }
}
