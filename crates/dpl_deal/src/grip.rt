//! What a hand takes from one deque with.
ghost use Rattle.std.specs.Prelude.{◌≡◌, ◌<◌, ◌∷◌, [], ◌++◌, IfNone, IfSome, true, false};
ghost use Rattle.crossbeam_deque.specs.Handles.{IsPassOf, stealer_deque, stealer_flavor, view};
ghost use Rattle.dpl_deal.specs.Ports.{IsAtRest, pass_deque};
ghost use Rattle.dpl_deal.specs.Rule.{AreBelow, after_takes};

use crate::view::{Dealt, DequeItem, PassView, Takes};
use crossbeam_deque::{Pass, Steal, Stealer};
use std::alloc::Global;
use std::sync::Wait;

/// The end of a deque that all workers share, at which items are stolen.
#[derive(Drop)]
pub struct Thief {
    pub stealer: Stealer<DequeItem, Global, PassView, Dealt>,
    pub ghost fifo: { stealer_flavor stealer ≡ 0 },
}

/// What a hand knows of one deque, and whether it has noted that no tile is left there.
#[derive(Drop)]
pub struct Grip {
    pub pass: Pass<DequeItem, PassView>,
    pub ended: bool,
    pub ghost rests: { IsAtRest pass },
    pub ghost part: { (view pass).parts ≡ 1 },
    pub ghost noted: { (view pass).ended ≡ ended },
    pub ghost due: { (view pass).ended ≡ false → 0 < (view pass).due },
    pub ghost dealt_none: { (view pass).dealt ≡ [] },
}

impl Grip {
    /// One more tile of this deque, or none where it has noted that none is left.
    pub fn take<R: Wait>(&mut self, rt: &R, thief: &Thief) -> Option<u32>
        requires deque { pass_deque self.old.pass ≡ stealer_deque thief.now.stealer }
        ensures deque { pass_deque self.new.pass ≡ pass_deque self.old.pass }
        ensures limit { (view self.new.pass).limit ≡ (view self.old.pass).limit }
        ensures some { IfSome result (λ t. ((view self.new.pass).took ≡ (view self.old.pass).took ++ t ∷ []) × (t < (view self.old.pass).limit)) }
        ensures none { IfNone result (((view self.new.pass).took ≡ (view self.old.pass).took) × ((view self.new.pass).ended ≡ true)) }
        ensures ended { (view self.old.pass).ended ≡ true → (view self.new.pass).ended ≡ true }
    {
        if self.ended {
            return None;
        }
        let item = next(rt, thief, &mut self.pass);
        match item {
            DequeItem::Tile(tile) => Some(tile),
            DequeItem::End => {
                self.ended = true;
                None
            }
        }
    }
}

/// The first item of a deque, which is stolen. It may wait for other thieves.
fn next<R: Wait>(rt: &R, thief: &Thief, pass: &mut Pass<DequeItem, PassView>) -> DequeItem
    requires fits { IsPassOf (stealer_deque thief.now.stealer) pass.old }
    requires due { (0 < (view pass.old).parts) × (0 < (view pass.old).due) }
    ensures fits { IsPassOf (stealer_deque thief.now.stealer) pass.new }
    ensures took { view pass.new ≡ after_takes (view pass.old) (result ∷ []) }
    ensures below { AreBelow (view pass.old).limit (result ∷ []) }
{
    for _ in rt.forever() {
        match thief.stealer.steal_as::<Takes>(pass) {
            Steal::Success(item) => return item,
            Steal::Empty => unreachable!(),
            Steal::Retry => {}
        }
    }
    unreachable!()
}
