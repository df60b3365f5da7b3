//! What a worker takes tiles with, from its own deque and from others.
ghost use Rattle.std.specs.Prelude.{◌≡◌, ◌<◌, ◌≤◌, ◌+◌, ◌⊎◌, ◌∷◌, [], ◌++◌, IfNone, IfOk, IfSome, OnOk, ℕ, true, false, vec_len, slice_index_or};
ghost use Rattle.crossbeam_deque.specs.Handles.{stealer_deque, view, worker_deque, worker_flavor, worker_view};
ghost use Rattle.dpl_deal.specs.Ports.{pass_deque};
ghost use Rattle.dpl_deal.specs.Rule.{AreBelow, after_deal, after_grip, after_join, after_seal, after_takes, cut_off, dealer, times};
ghost use Rattle.dpl_deal.specs.Grips.{AreWithin, EndedBelow, Tried, grip_deque, grip_view, thief_deque, took_by};

use crate::grip::{Grip, Thief};
use crate::view::{Deals, Dealt, DequeItem, PassCut, PassView, Seals, Takes, Total};
use crossbeam_deque::Worker;
use std::alloc::{AllocError, Global};
use std::mem::replace;
use std::sync::Wait;

/// What one worker takes tiles with: a deque of its own, first in, first out, and a grip on each deque of the deal.
#[derive(Drop)]
pub struct Hand {
    pub(crate) own: Worker<DequeItem, Global, PassView, Dealt>,
    pub(crate) marked: bool,
    pub(crate) grips: Vec<Grip>,
    ghost fifo: { worker_flavor own ≡ 0 },
    ghost part: { 0 < (worker_view own).parts },
    ghost due: { marked ≡ true → 0 < (worker_view own).due },
}

impl Hand {
    /// A hand whose deque has nothing in it, and that can't take yet.
    pub(crate) fn new(alloc: Global) -> Result<Hand, AllocError>
        ensures { IfOk result (λ h. worker_view h.own ≡ dealer) }
    {
        let own = Worker::<DequeItem, Global, PassView, Dealt>::fifo_as(alloc, 64)?;
        Ok(Hand {
            own,
            marked: false,
            grips: Vec::new(alloc),
        })
    }

    /// Deals a tile to the hand's deque.
    pub(crate) fn deal(&mut self, tile: u32) -> Result<(), AllocError>
        requires dealing { ((worker_view self.old.own).parts ≡ 1024) × ((worker_view self.old.own).due ≡ 0) × ((worker_view self.old.own).ended ≡ false) }
        requires rising { (worker_view self.old.own).limit ≤ tile }
        ensures dealt { OnOk result (worker_view self.new.own ≡ after_deal (worker_view self.old.own) tile) }
    {
        match self.own.push_as::<Deals>(DequeItem::Tile(tile)) {
            Ok(()) => Ok(()),
            Err(_) => Err(AllocError),
        }
    }

    /// The end of the hand's deque at which others steal.
    pub(crate) fn thief(&self) -> Result<Thief, AllocError>
        ensures { IfOk result (λ t. thief_deque t ≡ worker_deque self.now.own) }
    {
        let stealer = self.own.stealer()?;
        Ok(Thief { stealer })
    }

    /// A grip on the hand's deque, and the end mark that is due to it.
    pub(crate) fn grip(&mut self) -> Result<Grip, AllocError>
        requires parts { 1 < (worker_view self.old.own).parts }
        ensures deque { OnOk result (worker_deque self.new.own ≡ worker_deque self.old.own) }
        ensures view { OnOk result (worker_view self.new.own ≡ after_grip (worker_view self.old.own)) }
        ensures grips { OnOk result (self.new.grips ≡ self.old.grips) }
        ensures marked { OnOk result (self.new.marked ≡ self.old.marked) }
        ensures grip { IfOk result (λ g. (grip_deque g ≡ worker_deque self.old.own) × (grip_view g ≡ cut_off (worker_view self.old.own))) }
    {
        if self.own.push_as::<Seals>(DequeItem::End).is_err() {
            return Err(AllocError);
        }
        let pass = self.own.another::<PassCut>();
        Ok(Grip { pass, ended: false })
    }

    /// Gives the hand its grips, and the end mark that is due to it.
    pub(crate) fn arm(&mut self, grips: Vec<Grip>) -> Result<(), AllocError>
        ensures deque { OnOk result (worker_deque self.new.own ≡ worker_deque self.old.own) }
        ensures view { OnOk result (worker_view self.new.own ≡ after_seal (worker_view self.old.own)) }
        ensures grips { OnOk result (self.new.grips ≡ grips) }
        ensures marked { OnOk result (self.new.marked ≡ true) }
    {
        if self.own.push_as::<Seals>(DequeItem::End).is_err() {
            return Err(AllocError);
        }
        self.marked = true;
        self.grips = grips;
        Ok(())
    }

    /// One more tile of the hand's own deque.
    pub(crate) fn pop(&mut self) -> Option<u32>
        ensures deque { worker_deque self.new.own ≡ worker_deque self.old.own }
        ensures parts { (worker_view self.new.own).parts ≡ (worker_view self.old.own).parts }
        ensures limit { (worker_view self.new.own).limit ≡ (worker_view self.old.own).limit }
        ensures dealt { (worker_view self.new.own).dealt ≡ (worker_view self.old.own).dealt }
        ensures grips { self.new.grips ≡ self.old.grips }
        ensures some { IfSome result (λ t. ((worker_view self.new.own).took ≡ (worker_view self.old.own).took ++ t ∷ []) × (t < (worker_view self.old.own).limit)) }
        ensures none { IfNone result (((worker_view self.new.own).took ≡ (worker_view self.old.own).took) × (self.new.marked ≡ false)) }
        ensures notes { (self.old.marked ≡ false → (worker_view self.old.own).ended ≡ true) → self.new.marked ≡ false → (worker_view self.new.own).ended ≡ true }
    {
        if !self.marked {
            return None;
        }
        match self.pop_item() {
            DequeItem::Tile(tile) => {
                self.marked = true;
                Some(tile)
            }
            DequeItem::End => None,
        }
    }

    /// The first item of the hand's own deque. No end mark counts as due behind it.
    fn pop_item(&mut self) -> DequeItem
        requires due { self.old.marked ≡ true }
        ensures deque { worker_deque self.new.own ≡ worker_deque self.old.own }
        ensures took { worker_view self.new.own ≡ after_takes (worker_view self.old.own) (result ∷ []) }
        ensures below { AreBelow (worker_view self.old.own).limit (result ∷ []) }
        ensures marked { self.new.marked ≡ false }
        ensures grips { self.new.grips ≡ self.old.grips }
    {
        self.marked = false;
        match self.own.pop_as::<Takes>() {
            Some(item) => item,
            None => unreachable!(),
        }
    }

    /// One more tile of the deque at this place, which may be the hand's own, or none where it is noted that none is left.
    pub(crate) fn steal<R: Wait>(&mut self, rt: &R, thief: &Thief, at: usize) -> Option<u32>
        requires place { at < vec_len self.old.grips }
        requires deque { (d : Grip) → grip_deque (slice_index_or self.old.grips.items at d) ≡ thief_deque thief.now }
        ensures own { self.new.own ≡ self.old.own }
        ensures marked { self.new.marked ≡ self.old.marked }
        ensures tried { Tried self.old.grips.items result self.new.grips.items }
        ensures ended { IfNone result (EndedBelow at self.old.grips.items → EndedBelow (at + 1) self.new.grips.items) }
    {
        self.grips[at].take(rt, thief)
    }

    /// Takes in what a grip on the hand's deque knows.
    pub(crate) fn join(&mut self, grip: Grip)
        requires deque { grip_deque grip ≡ worker_deque self.old.own }
        ensures deque { worker_deque self.new.own ≡ worker_deque self.old.own }
        ensures view { worker_view self.new.own ≡ after_join (worker_view self.old.own) (grip_view grip) }
        ensures grips { self.new.grips ≡ self.old.grips }
    {
        self.own.absorb::<PassCut>(grip.pass)
    }

    /// Gives its grips away.
    pub(crate) fn give_grips(&mut self, alloc: Global) -> Vec<Grip>
        ensures own { self.new.own ≡ self.old.own }
        ensures grips { result ≡ self.old.grips }
    {
        replace(&mut self.grips, Vec::new(alloc))
    }

    /// Learns that all that was dealt to its deque was taken.
    pub(crate) fn learn(&mut self)
        requires parts { (worker_view self.old.own).parts ≡ 1024 }
        requires ended { (worker_view self.old.own).ended ≡ true }
        ensures same { worker_view self.new.own ≡ worker_view self.old.own }
        ensures all { (x : ℕ) → times x (worker_view self.old.own).dealt ≡ times x (worker_view self.old.own).took }
    {
        self.own.len_as::<Total>();
    }
}
