//! A deal from its opening, over the taking of tiles, to its close.
ghost use Rattle.std.specs.Prelude.{◌≡◌, ◌<◌, ◌≤◌, ◌+◌, ◌⊎◌, ◌∷◌, ◌++◌, [], true, All, Contains, IfNone, IfOk, IfSome, ℕ, vec_len};
ghost use Rattle.dpl_deal.specs.Rule.{times};
ghost use Rattle.dpl_deal.specs.Hands.{AreHandsOf, HasEachOnce, IsDone, IsHandOf, all_taken, own_view, taken};

use crate::closing::{join_rows, learn_all};
use crate::dealing::{arm_all, fresh, spread, thieves_of};
use crate::grip::Thief;
use crate::hand::Hand;
use std::alloc::{AllocError, Global};
use std::sync::Wait;

/// The tiles below a count, dealt to the deques of hands. All workers share it.
///
/// Deques are first in, first out, and all tiles are dealt before the first hand is given out.
#[derive(Drop)]
pub struct Deal {
    pub tiles: u32,
    pub(crate) thieves: Vec<Thief>,
    alloc: Global,
}

impl Deal {
    /// Deals tile k to hand k modulo the workers.
    pub fn open(alloc: Global, tiles: u32, workers: u32) -> Result<(Deal, Vec<Hand>), AllocError>
        requires workers { (0 < workers) × (workers ≤ 64) }
        ensures deal { IfOk result (λ r. (r.0.tiles ≡ tiles) × (vec_len r.1 ≡ workers)) }
        ensures hands { IfOk result (λ r. AreHandsOf r.0 r.1.items) }
        ensures taken { IfOk result (λ r. All (λ h. taken h ≡ []) r.1.items) }
    {
        let mut hands = fresh(alloc, workers)?;
        spread(&mut hands, tiles)?;
        arm_all(alloc, &mut hands, tiles)?;
        let thieves = thieves_of(alloc, &hands)?;
        let deal = Deal {
            tiles,
            thieves,
            alloc,
        };
        Ok((deal, hands))
    }

    /// One more tile: of the hand's own deque, else stolen from another. None only where each deque was found empty;
    /// since nothing is dealt any more it stays so. It may wait for other thieves.
    pub fn take<R: Wait>(&self, rt: &R, hand: &mut Hand) -> Option<u32>
        requires hand { (me : ℕ) × IsHandOf self.now me hand.old }
        ensures hand { (me : ℕ) → IsHandOf self.now me hand.old → IsHandOf self.now me hand.new }
        ensures some { IfSome result (λ t. (t < self.now.tiles) × ((x : ℕ) → times x (taken hand.new) ≡ times x (taken hand.old) + times x (t ∷ []))) }
        // A tile is stolen only where it was noted that none is left in the hand's own deque.
        ensures own { IfSome result (λ t. ((own_view hand.new).took ≡ (own_view hand.old).took ++ t ∷ []) ⊎ ((own_view hand.new).ended ≡ true)) }
        ensures none { IfNone result ((taken hand.new ≡ taken hand.old) × IsDone hand.new) }
        ensures done { IsDone hand.old → IsDone hand.new }
    {
        let own = hand.pop();
        if own.is_some() {
            return own;
        }
        for at in 0..self.thieves.len() {
            let stolen = hand.steal(rt, &self.thieves[at], at);
            if stolen.is_some() {
                return stolen;
            }
        }
        None
    }

    /// Ends the deal: the hands' tiles together are the numbers below the count, each once.
    pub fn close(self, hands: Vec<Hand>)
        requires all { AreHandsOf self hands.items }
        requires done { (h : Hand) × Contains hands.items h × IsDone h }
        ensures { HasEachOnce self.tiles (all_taken hands.items) }
    {
        let mut hands = hands;
        join_rows(self.alloc, &mut hands);
        learn_all(&mut hands);
    }
}
