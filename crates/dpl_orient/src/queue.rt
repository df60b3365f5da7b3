//! Components that wait to be flipped, the least first.
ghost use Rattle.std.specs.Prelude.{◌≢◌, ◌<◌, ◌≤◌, ◌^◌, ℕ, length, IfOk, IfSome, OnOk, MatchOption};
ghost use Rattle.std.specs.BinaryHeap.{heap_items};
ghost use Rattle.dpl_orient.specs.Links.{AreLinksBelow};
ghost use Rattle.dpl_orient.specs.Tallies.{GainsAt, IsQueue, Waits, AllWait, AreMoved, AreCounted};

use crate::links::{Link, differs_by};
use crate::tallies::{Tally, is_gain};
use std::alloc::{AllocError, Global};
use std::cmp::Reverse;
use std::collections::BinaryHeap;

/// Puts a component in the queue where it gains.
fn wait(
    tallies: &[Tally],
    held: Option<u32>,
    root: u32,
    waiting: &mut BinaryHeap<Reverse<u32>>,
) -> Result<(), AllocError>
    requires { IsQueue (heap_items waiting.old) }
    ensures queue { OnOk result (IsQueue (heap_items waiting.new)) }
    ensures kept { OnOk result ((r : ℕ) → Waits (heap_items waiting.old) r → Waits (heap_items waiting.new) r) }
    ensures gains { OnOk result (GainsAt held tallies.now root → Waits (heap_items waiting.new) root) }
{
    if is_gain(tallies, held, root) {
        waiting.push(Reverse(root))?;
    }
    Ok(())
}

/// The queue of all components that gain.
pub fn queue_of(
    alloc: Global,
    tallies: &[Tally],
    held: Option<u32>,
) -> Result<BinaryHeap<Reverse<u32>>, AllocError>
    requires { length tallies.now < 2 ^ 32 }
    ensures queue { IfOk result (λ waiting. IsQueue (heap_items waiting)) }
    ensures all { IfOk result (λ waiting. AllWait held tallies.now (heap_items waiting)) }
{
    let mut waiting = BinaryHeap::new(alloc);
    for root in 0..tallies.len() {
        wait(tallies, held, root as u32, &mut waiting)?;
    }
    Ok(waiting)
}

/// Takes the least component that gains out of the queue, and those before it, which don't gain any more.
pub fn next_gain(
    tallies: &[Tally],
    held: Option<u32>,
    waiting: &mut BinaryHeap<Reverse<u32>>,
) -> Option<u32>
    requires queue { IsQueue (heap_items waiting.old) }
    requires all { AllWait held tallies.now (heap_items waiting.old) }
    ensures queue { IsQueue (heap_items waiting.new) }
    ensures gains { MatchOption result ((root : ℕ) → ¬ GainsAt held tallies.now root) (GainsAt held tallies.now) }
    ensures least { IfSome result (λ root. (other : ℕ) → GainsAt held tallies.now other → root ≤ other) }
    ensures rest { IfSome result (λ root. (other : ℕ) → GainsAt held tallies.now other → other ≢ root → Waits (heap_items waiting.new) other) }
{
    while let Some(Reverse(root)) = waiting.pop() {
        if is_gain(tallies, held, root) {
            return Some(root);
        }
    }
    None
}

/// Moves the zone of each of these links over in the tally of the component that it leads to: its sides, which agreed,
/// now differ, or the other way round. Each such component that gains then is put in the queue.
pub fn move_zones(
    links: &[Link],
    flips: &[bool],
    held: Option<u32>,
    tallies: &mut [Tally],
    waiting: &mut BinaryHeap<Reverse<u32>>,
) -> Result<(), AllocError>
    requires below { AreLinksBelow (length tallies.old) links.now }
    requires counted { AreCounted flips.now links.now tallies.old }
    requires queue { IsQueue (heap_items waiting.old) }
    requires all { AllWait held tallies.old (heap_items waiting.old) }
    ensures moved { OnOk result (AreMoved flips.now links.now tallies.old tallies.new) }
    ensures queue { OnOk result (IsQueue (heap_items waiting.new)) }
    ensures all { OnOk result (AllWait held tallies.new (heap_items waiting.new)) }
{
    for link in links {
        let to = link.to as usize;
        tallies[to] = tallies[to].moved_by(differs_by(flips, link));
        wait(tallies, held, link.to, waiting)?;
    }
    Ok(())
}
