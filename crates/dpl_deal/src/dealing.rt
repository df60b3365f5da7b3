//! The steps by which a deal is opened: tiles are dealt, and hands get what they take them with.
ghost use Rattle.std.specs.Prelude.{◌≡◌, ◌<◌, ◌≤◌, ◌+◌, [], All, IfOk, OnOk, ℕ, true, List, map, replicate, vec_len};
ghost use Rattle.dpl_deal.specs.Rule.{after_grip, cut_off, dealer};
ghost use Rattle.dpl_deal.specs.Grips.{grip_deque, grip_view, thief_deque};
ghost use Rattle.dpl_deal.specs.Hands.{EachAt, IsArmed, IsDealing, IsOut, deques_of, marks_of, rows_of, views_of};

use crate::grip::{Grip, Thief};
use crate::hand::Hand;
use std::alloc::{AllocError, Global};

/// Hands whose deques have nothing in them.
pub(crate) fn fresh(alloc: Global, workers: u32) -> Result<Vec<Hand>, AllocError>
    ensures { IfOk result (λ hs. (vec_len hs ≡ workers) × (views_of hs.items ≡ replicate workers dealer)) }
{
    let mut hands = Vec::new(alloc);
    for _ in 0..workers {
        hands.push(Hand::new(alloc)?)?;
    }
    Ok(hands)
}

/// Deals the tiles to the hands round by round: tile k to hand k modulo their number.
pub(crate) fn spread(hands: &mut Vec<Hand>, tiles: u32) -> Result<(), AllocError>
    requires some { 0 < vec_len hands.old }
    requires fresh { views_of hands.old.items ≡ replicate (vec_len hands.old) dealer }
    ensures len { OnOk result (vec_len hands.new ≡ vec_len hands.old) }
    ensures views { OnOk result (EachAt (IsDealing tiles (vec_len hands.old)) (views_of hands.new.items)) }
{
    for tile in 0..tiles {
        let at = tile as usize % hands.len();
        hands[at].deal(tile)?;
    }
    Ok(())
}

/// A grip on each deque.
fn grip_all(alloc: Global, hands: &mut Vec<Hand>) -> Result<Vec<Grip>, AllocError>
    requires parts { All (λ v. 1 < v.parts) (views_of hands.old.items) }
    ensures views { OnOk result (views_of hands.new.items ≡ map after_grip (views_of hands.old.items)) }
    ensures deques { OnOk result (deques_of hands.new.items ≡ deques_of hands.old.items) }
    ensures rows { OnOk result (rows_of hands.new.items ≡ rows_of hands.old.items) }
    ensures marks { OnOk result (marks_of hands.new.items ≡ marks_of hands.old.items) }
    ensures grips { IfOk result (λ gs. (map grip_deque gs.items ≡ deques_of hands.old.items) × (map grip_view gs.items ≡ map cut_off (views_of hands.old.items))) }
{
    let mut grips = Vec::new(alloc);
    for at in 0..hands.len() {
        let grip = hands[at].grip()?;
        grips.push(grip)?;
    }
    Ok(grips)
}

/// Gives each hand a grip on each deque.
pub(crate) fn arm_all(alloc: Global, hands: &mut Vec<Hand>, tiles: u32) -> Result<(), AllocError>
    requires few { vec_len hands.old ≤ 64 }
    requires views { EachAt (IsDealing tiles (vec_len hands.old)) (views_of hands.old.items) }
    ensures len { OnOk result (vec_len hands.new ≡ vec_len hands.old) }
    ensures views { OnOk result (EachAt (IsOut (vec_len hands.old) tiles (vec_len hands.old)) (views_of hands.new.items)) }
    ensures hands { OnOk result (All (IsArmed (deques_of hands.new.items) tiles) (rows_of hands.new.items)) }
    ensures marks { OnOk result (All (λ m. m ≡ true) (marks_of hands.new.items)) }
{
    for me in 0..hands.len() {
        let grips = grip_all(alloc, hands)?;
        hands[me].arm(grips)?;
    }
    Ok(())
}

/// The ends at which the hands' deques are stolen from.
pub(crate) fn thieves_of(alloc: Global, hands: &Vec<Hand>) -> Result<Vec<Thief>, AllocError>
    ensures { IfOk result (λ ts. map thief_deque ts.items ≡ deques_of hands.now.items) }
{
    let mut thieves = Vec::new(alloc);
    for at in 0..hands.len() {
        let thief = hands[at].thief()?;
        thieves.push(thief)?;
    }
    Ok(thieves)
}
