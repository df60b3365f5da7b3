//! What a pass knows, and the rule of the deque. These types are for the proofs alone.
use crossbeam_deque::protocol::{Join, Lesson, Outcome, Protocol, Split};
use std::collections::LinkedList;

/// What lies in the deque: the tiles, and behind them end marks.
#[derive(Clone, Copy, Debug)]
pub enum DequeItem {
    Tile(u32),
    End,
}

/// What a pass knows: its parts of the right to deal, how many end marks are due to it, a bound of the tiles, what it dealt and took, and whether it has noted the end.
pub struct PassView {
    pub parts: u64,
    pub due: u64,
    pub limit: u64,
    pub dealt: LinkedList<u32>,
    pub took: LinkedList<u32>,
    pub ended: bool,
}

/// The rule that a deque keeps at every step, and what a pass knows when it is made.
pub struct Dealt;

impl Protocol<DequeItem, PassView> for Dealt {
    ghost use Rattle.dpl_deal.specs.Rule.{IsKept, bystander, dealer};

    ghost holds = { IsKept };

    ghost first = { dealer };

    ghost guest = { bystander };
}

/// The step by which a tile is dealt to the deque.
pub struct Deals;

impl Outcome<DequeItem, PassView> for Deals {
    ghost use Rattle.std.specs.Prelude.{◌≡◌, ◌∷◌, [], ℕ};
    ghost use Rattle.dpl_deal.specs.Rule.{after_deal, tiles_in};

    ghost then = { λ v xs w. (t : ℕ) × (tiles_in xs ≡ t ∷ []) × (w ≡ after_deal v t) };
}

/// The step by which an end mark is laid behind the tiles.
pub struct Seals;

impl Outcome<DequeItem, PassView> for Seals {
    ghost use Rattle.std.specs.Prelude.{◌≡◌};
    ghost use Rattle.dpl_deal.specs.Rule.{after_seal};

    ghost then = { λ v xs w. w ≡ after_seal v };
}

/// The step by which a tile is taken, or a mark, which notes the end. A deque where a mark is due is never empty.
pub struct Takes;

impl Outcome<DequeItem, PassView> for Takes {
    ghost use Rattle.std.specs.Prelude.{◌≡◌};
    ghost use Rattle.dpl_deal.specs.Rule.{AreBelow, after_takes};

    ghost then = { λ v xs w. (w ≡ after_takes v xs) × AreBelow v.limit xs };

    ghost empty = { λ v. v.due ≡ 0 };
}

/// The steps by which a pass is cut off another, or joined to it.
pub struct PassCut;

impl Split<PassView> for PassCut {
    ghost use Rattle.dpl_deal.specs.Rule.{after_cut, cut_off};

    ghost left = { after_cut };

    ghost right = { cut_off };
}

impl Join<PassView> for PassCut {
    ghost use Rattle.dpl_deal.specs.Rule.{after_join, bystander};

    ghost both = { after_join };

    ghost spent = { bystander };
}

/// What is learnt where all parts have come together: what was dealt was taken.
pub struct Total;

impl Lesson<DequeItem, PassView> for Total {
    ghost use Rattle.std.specs.Prelude.{◌≡◌, ℕ};
    ghost use Rattle.dpl_deal.specs.Rule.{times};

    ghost fact = { λ v items. (x : ℕ) → times x v.dealt ≡ times x v.took };
}
