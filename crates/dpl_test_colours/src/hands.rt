//! Hands that take the tiles dealt to them, and then those of others.
ghost use Rattle.std.specs.Prelude.{◌≡◌, ◌<◌, ℕ, Contains, OnOk, vec_len};
ghost use Rattle.dpl_deal.specs.Hands.{AreHandsOf, IsDone, IsHandOf};

use dpl_deal::{Deal, Hand};
use std::alloc::{AllocError, Global};
use std::sync::Wait;
use std::test::*;

fn rest_of<R: Wait>(
    rt: &R,
    alloc: Global,
    deal: &Deal,
    hand: &mut Hand,
) -> Result<Vec<u32>, AllocError>
    requires { (me : ℕ) × IsHandOf deal.now me hand.old }
    ensures hand { (me : ℕ) → IsHandOf deal.now me hand.old → IsHandOf deal.now me hand.new }
    ensures done { OnOk result (IsDone hand.new) }
{
    let mut tiles = Vec::new(alloc);
    for _ in rt.forever() {
        match deal.take(rt, hand) {
            Some(tile) => tiles.push(tile)?,
            None => return Ok(tiles),
        }
    }
    unreachable!()
}

fn rest_at<R: Wait>(
    rt: &R,
    alloc: Global,
    deal: &Deal,
    hands: &mut Vec<Hand>,
    at: usize,
) -> Result<Vec<u32>, AllocError>
    requires { AreHandsOf deal.now hands.old.items × (at < vec_len hands.old) }
    ensures hands { AreHandsOf deal.now hands.new.items × (vec_len hands.new ≡ vec_len hands.old) }
    ensures done { OnOk result ((h : Hand) × Contains hands.new.items h × IsDone h) }
{
    rest_of(rt, alloc, deal, &mut hands[at])
}

/// Whether a hand takes all five tiles that were dealt to two, in this order, and leaves the other one none.
fn takes_all<R: Wait>(
    rt: &R,
    alloc: Global,
    at: usize,
    other: usize,
    want: &[u32],
) -> Result<bool, AllocError>
    requires { (at < 2) × (other < 2) }
{
    let (deal, mut hands) = Deal::open(alloc, 5, 2)?;
    let first = rest_at(rt, alloc, &deal, &mut hands, at)?;
    let second = rest_at(rt, alloc, &deal, &mut hands, other)?;
    deal.close(hands);
    Ok(first.as_slice() == want && second.is_empty())
}

#[test]
fn five_tiles_are_taken_by_two_hands(rt: HostRuntime) -> Result<(), Fail> {
    assert!(rt; takes_all(&rt, rt.alloc(), 0, 1, &[0, 2, 4, 1, 3])?);
    Ok(())
}

#[test]
fn a_hand_takes_its_own_tiles_first(rt: HostRuntime) -> Result<(), Fail> {
    assert!(rt; takes_all(&rt, rt.alloc(), 1, 0, &[1, 3, 0, 2, 4])?);
    Ok(())
}
