//! Which components are flipped.
ghost use Rattle.std.specs.Prelude.{◌≡◌, ◌<◌, ◌+◌, nat_lt, length, IfOk};
ghost use Rattle.dpl_orient.specs.Crossings.{crossings_at, AreGrouped, GoUp, IsSplit, AreFlips, is_flipped_by};

use crate::chart::Rooted;
use crate::crossing::{Across, crossing_at, differs};
use dpl_list::Id;
use std::alloc::{AllocError, Global};

/// What is settled for a component.
#[derive(Clone, Copy, Drop)]
struct Settled {
    /// Where the crossings of the next component begin.
    next: usize,
    flip: bool,
}

/// Whether a component is flipped, by how many of its crossings agree and how many differ: on a tie it isn't.
fn is_flipped(agreeing: usize, differing: usize) -> bool
    ensures { result ≡ nat_lt agreeing differing }
{
    agreeing < differing
}

/// Whether the component of `root` is flipped. Its crossings begin at `start`.
fn settle(
    chart: &[Rooted],
    sides: &[(Id, Id)],
    across: &[Across],
    start: usize,
    root: Id,
    flips: &[bool],
) -> Settled
    requires grouped { AreGrouped (crossings_at chart.now sides.now across.now) }
    requires up { GoUp (crossings_at chart.now sides.now across.now) }
    requires split { IsSplit (crossings_at chart.now sides.now across.now) root start }
    requires earlier { root ≡ length flips.now }
    ensures split { IsSplit (crossings_at chart.now sides.now across.now) (root + 1) result.next }
    ensures flip { result.flip ≡ is_flipped_by flips.now root (crossings_at chart.now sides.now across.now) }
{
    let mut agreeing = 0usize;
    let mut differing = 0usize;
    for next in start..across.len() {
        let crossing = crossing_at(chart, sides, across[next].zone as usize);
        if crossing.later != root {
            let flip = is_flipped(agreeing, differing);
            return Settled { next, flip };
        }
        if differs(crossing.odd, flips[crossing.earlier as usize]) {
            differing += 1;
        } else {
            agreeing += 1;
        }
    }
    Settled {
        next: across.len(),
        flip: is_flipped(agreeing, differing),
    }
}

/// For each number below `n` whether the component of that root is flipped, by these crossings.
pub fn flips(
    alloc: Global,
    n: Id,
    chart: &[Rooted],
    sides: &[(Id, Id)],
    across: &[Across],
) -> Result<Vec<bool>, AllocError>
    requires grouped { AreGrouped (crossings_at chart.now sides.now across.now) }
    requires up { GoUp (crossings_at chart.now sides.now across.now) }
    ensures len { IfOk result (λ v. length v.items ≡ n) }
    ensures flips { IfOk result (λ v. AreFlips (crossings_at chart.now sides.now across.now) v.items) }
{
    let mut flips = Vec::with_capacity(alloc, n as usize)?;
    let mut next = 0;
    for root in 0..n {
        let settled = settle(chart, sides, across, next, root, &flips);
        flips.push(settled.flip)?;
        next = settled.next;
    }
    Ok(flips)
}
