//! The shades of the pairs of a join, whose strips are dealt to workers.
ghost use Rattle.std.specs.Prelude.{◌≡◌, ℕ, ◌≤◌, ◌⊎◌, ◌↔◌, true, false, IfOk, OnOk, length, slice_index_or};
ghost use Rattle.dpl_join.specs.Pairs.{IsPair};
ghost use Rattle.dpl_shade.specs.Items.{AreOwnedWithin};
ghost use Rattle.dpl_shade.specs.Shading.{AreBoth, HandlesBoth, HandlesDealt, IsMore, IsShare, IsSound};

use crate::shades::{Shades, add_pairs, sort_by_number};
use dpl_join::Join;
use std::alloc::{AllocError, Global};
use std::thread::{Threads, map_indices};

/// Adds what pairs shade of one another that count in a strip dealt to a worker. Strip `k` is dealt to worker `k % workers`. The pairs are found strip by strip, so those of one are in memory at a time.
pub(crate) fn add_dealt(
    shades: &mut Shades,
    alloc: Global,
    join: &Join,
    worker: usize,
    workers: usize,
) -> Result<(), AllocError>
    requires corner { shades.old.spacing.corner ≤ shades.old.spacing.rule }
    requires rule { join.now.rule ≡ shades.old.spacing.rule }
    requires within { AreOwnedWithin join.now.items }
    requires sound { IsSound join.now.items shades.old }
    requires workers { 1 ≤ workers }
    ensures sound { OnOk result (IsSound join.now.items shades.new) }
    ensures more { OnOk result (IsMore shades.old shades.new) }
    ensures handles { OnOk result (HandlesDealt join.now worker workers shades.new) }
{
    let items = join.items();
    let count = join.strips();
    for strip in 0..count {
        if strip % workers == worker {
            let pairs = join.pairs_of_strip(alloc, strip)?;
            add_pairs(shades, items, pairs.as_slice())?;
        }
    }
    Ok(())
}

/// What a worker finds, to whom these items are dead before.
fn dealt_shades(
    alloc: Global,
    join: &Join,
    known: &Shades,
    worker: usize,
    workers: usize,
) -> Result<Shades, AllocError>
    requires corner { known.now.spacing.corner ≤ known.now.spacing.rule }
    requires rule { join.now.rule ≡ known.now.spacing.rule }
    requires within { AreOwnedWithin join.now.items }
    requires sound { IsSound join.now.items known.now }
    requires workers { 1 ≤ workers }
    ensures { IfOk result (IsShare join.now known.now worker workers) }
{
    let mut shades = Shades {
        spacing: known.spacing,
        overlap: known.overlap,
        found: Vec::new(alloc),
        dead: Vec::from_slice(alloc, &known.dead)?,
    };
    add_dealt(&mut shades, alloc, join, worker, workers)?;
    sort_by_number(&mut shades.found);
    Ok(shades)
}

/// Marks as dead what is dead by other marks.
fn darken_by(dead: &mut Vec<bool>, other: &[bool])
    requires { length other.now ≡ length dead.old.items }
    ensures sized { length dead.new.items ≡ length dead.old.items }
    ensures dead { (n : ℕ) → (slice_index_or dead.new.items n false ≡ true) ↔ ((slice_index_or dead.old.items n false ≡ true) ⊎ (slice_index_or other.now n false ≡ true)) }
{
    for n in 0..other.len() {
        if other[n] {
            dead[n] = true;
        }
    }
}

/// Adds what a worker found.
fn add_found(shades: &mut Shades, mut other: Shades) -> Result<(), AllocError>
    requires { length other.dead.items ≡ length shades.old.dead.items }
    ensures { OnOk result (AreBoth shades.old other shades.new) }
{
    shades.found.append(&mut other.found)?;
    darken_by(&mut shades.dead, &other.dead);
    Ok(())
}

/// How many of the workers look for shades in the strips of a join: no more than there are strips.
fn workers_for(join: &Join, workers: u32) -> usize
    ensures { 1 ≤ result }
{
    (workers as usize).min(join.strips()).max(1)
}

/// The shades of all pairs of a join, and those that are known before. Each pair is looked at by one of so many workers, or of as many as there are strips.
pub(crate) fn all_dealt<R: Threads + Sync>(
    rt: &R,
    alloc: Global,
    join: &Join,
    known: Shades,
    workers: u32,
) -> Result<Shades, AllocError>
    requires corner { known.spacing.corner ≤ known.spacing.rule }
    requires rule { join.now.rule ≡ known.spacing.rule }
    requires within { AreOwnedWithin join.now.items }
    requires sound { IsSound join.now.items known }
    requires workers { 1 ≤ workers }
    ensures sound { IfOk result (IsSound join.now.items) }
    ensures more { IfOk result (IsMore known) }
    ensures handles { IfOk result (λ t. (p : ℕ × ℕ) → IsPair join.now.rule join.now.items p → HandlesBoth join.now.items t p) }
{
    let count = workers_for(join, workers);
    let mut shares = map_indices(
        rt,
        alloc,
        count,
        &|worker| { dealt_shades(alloc, join, &known, worker, count) },
    )?;
    let mut shades = known;
    while let Some(share) = shares.pop() {
        add_found(&mut shades, share?)?;
    }
    Ok(shades)
}
