//! The steps by which a deal is closed: what all grips know comes together at each deque's own hand.
ghost use Rattle.std.specs.Prelude.{◌≡◌, ◌<◌, All, ℕ, true, map, vec_len, slice_index_or};
ghost use Rattle.dpl_deal.specs.Grips.{grip_deque, joined};
ghost use Rattle.dpl_deal.specs.Hands.{deques_of, dealt_times, joined_all, row_of, rows_of, took_times, views_of};

use crate::grip::Grip;
use crate::hand::Hand;
use std::alloc::Global;

/// Lets each hand take in the grip on its deque out of one hand's grips.
fn join_row(hands: &mut Vec<Hand>, row: Vec<Grip>)
    requires deques { map grip_deque row.items ≡ deques_of hands.old.items }
    ensures deques { deques_of hands.new.items ≡ deques_of hands.old.items }
    ensures views { views_of hands.new.items ≡ joined (views_of hands.old.items) row.items }
    ensures rows { rows_of hands.new.items ≡ rows_of hands.old.items }
{
    let mut at = 0;
    for grip in row {
        hands[at].join(grip);
        at += 1;
    }
}

/// One hand's grips, which it gives away.
fn take_row(alloc: Global, hands: &mut Vec<Hand>, at: usize) -> Vec<Grip>
    requires place { at < vec_len hands.old }
    ensures row { (d : Hand) → result ≡ (slice_index_or hands.old.items at d).grips }
    ensures views { views_of hands.new.items ≡ views_of hands.old.items }
    ensures deques { deques_of hands.new.items ≡ deques_of hands.old.items }
    ensures rows { (j : ℕ) (d : Hand) → at < j → slice_index_or hands.new.items j d ≡ slice_index_or hands.old.items j d }
{
    hands[at].give_grips(alloc)
}

/// Lets each hand take in all grips on its deque.
pub(crate) fn join_rows(alloc: Global, hands: &mut Vec<Hand>)
    requires rows { All (λ h. map grip_deque (row_of h) ≡ deques_of hands.old.items) hands.old.items }
    ensures views { views_of hands.new.items ≡ joined_all (views_of hands.old.items) hands.old.items }
{
    for at in 0..hands.len() {
        let row = take_row(alloc, hands, at);
        join_row(hands, row);
    }
}

/// Lets each hand learn that what was dealt to its deque was taken.
pub(crate) fn learn_all(hands: &mut Vec<Hand>)
    requires views { All (λ v. (v.parts ≡ 1024) × (v.ended ≡ true)) (views_of hands.old.items) }
    ensures { (x : ℕ) → dealt_times x (views_of hands.old.items) ≡ took_times x (views_of hands.old.items) }
{
    for at in 0..hands.len() {
        hands[at].learn();
    }
}
