//! Seats, with which threads post.
ghost use Rattle.std.specs.Prelude.{◌≡◌, ◌<◌, length, if◌then◌else◌, nat_lt};
ghost use Rattle.dpl_turn.specs.Rule.{Idle, longer};

use crate::view::SeatView;
use dpl_board::Blocks;

/// The seat at the table of atomic words, with which a thread takes its steps there.
pub type TableSeat = atomic_table::Seat<Option<Blocks>, SeatView>;

/// A seat at a board: what it knows of the history, and how many entries that are.
#[derive(Drop)]
pub struct Seat {
    pub(crate) place: TableSeat,
    pub(crate) count: u64,
    ghost idle: { Idle place.me },
    ghost counted: { count ≡ length place.me.0.known },
}

impl Seat {
    /// How many entries of the history the seat has seen.
    pub fn seen(&self) -> u64
        ensures { result ≡ length self.now.place.me.0.known }
    {
        self.count
    }
}

/// The greater of two numbers of entries.
pub(crate) fn longest(one: u64, two: u64) -> u64
    ensures { result ≡ (if nat_lt one two then two else one) }
{
    if one < two { two } else { one }
}
