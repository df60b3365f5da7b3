//! What a seat knows, and the rule of the board. These types are for the proofs alone.
use atomic_table::{Join, Play, Split, TableRule};
use dpl_board::{Blocks, Entry, Job};
use std::collections::LinkedList;
use std::snapshot::Snapshot;

/// What a seat knows: the job's sheet and workers, its own posts, the entries that it has seen, and, while it holds the
/// turn, the history that it found and the entry that it named. No value of it is made.
pub struct SeatView {
    pub sheet: LinkedList<LinkedList<(u64, u64)>>,
    pub workers: u32,
    pub spent: bool,
    pub own: LinkedList<(u64, Entry)>,
    pub known: LinkedList<Entry>,
    pub older: LinkedList<LinkedList<Entry>>,
    pub holds: bool,
    pub found: LinkedList<Entry>,
    pub named: Option<Entry>,
}

/// What the table is told when it is made.
#[derive(Drop)]
pub struct About<J> {
    pub job: Snapshot<J>,
    pub workers: u32,
}

/// The rule that the table keeps at every step, and what the first seat knows.
pub struct Law;

impl<J: Job> TableRule<Option<Blocks>, SeatView, About<J>> for Law {
    ghost use Rattle.dpl_turn.specs.Rule.{IsKept, newcomer};
    ghost use Rattle.std.specs.Prelude.{[]};

    ghost holds = { λ about s. IsKept (J.sheet about.job.value) about.workers s };

    ghost first = { λ about. newcomer (J.sheet about.job.value) about.workers [] };
}

/// The step by which a seat makes another, which has seen as much and posted nothing.
pub struct SeatCopy;

impl Split<SeatView> for SeatCopy {
    ghost use Rattle.dpl_turn.specs.Rule.{newcomer};

    ghost left = { λ v. v };

    ghost right = { λ v. newcomer v.sheet v.workers v.known };
}

/// The step by which a seat tries to get the turn.
pub struct Tries;

impl Play<Option<Blocks>, SeatView> for Tries {
    ghost use Rattle.dpl_turn.specs.Rule.{TriesTurn};

    ghost then = { TriesTurn };
}

/// The step by which the holder of the turn names the entry that it is about to post.
pub struct Names;

impl Play<Option<Blocks>, SeatView> for Names {
    ghost use Rattle.dpl_turn.specs.Rule.{NamesEntry};

    ghost then = { NamesEntry };
}

/// The step by which the holder gives the turn back, with its post behind the history.
pub struct Gives;

impl Play<Option<Blocks>, SeatView> for Gives {
    ghost use Rattle.dpl_turn.specs.Rule.{GivesTurn};

    ghost then = { GivesTurn };
}

/// The step by which one seat takes in what another knows, which ends.
pub struct Pairs;

impl Join<SeatView> for Pairs {
    ghost use Rattle.dpl_turn.specs.Rule.{both_views, spent_view};

    ghost both = { both_views };

    ghost spent = { spent_view };
}

/// The step after which of two lists that seats had seen one is known to begin with the other.
pub struct Meet;

impl Play<Option<Blocks>, SeatView> for Meet {
    ghost use Rattle.dpl_turn.specs.Rule.{Meets};

    ghost then = { Meets };
}
