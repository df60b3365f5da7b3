//! A board that threads share: opening it, its seats, posting under its turn, and closing it.
ghost use Rattle.std.specs.Prelude.{◌≡◌, ◌<◌, length, [], ◌∷◌, ◌++◌, None, IfOk, MatchBool, Some, false, true};
ghost use Rattle.dpl_stars.specs.Sums.{Sums};
ghost use Rattle.dpl_board.specs.Sheets.{edges_at, entry};
ghost use Rattle.dpl_board.specs.Boards.{Stands};
ghost use Rattle.dpl_board.specs.Cores.{IsCore};
ghost use Rattle.dpl_turn.specs.Replay.{events_of, workers_to};
ghost use Rattle.dpl_turn.specs.Seats.{IsSeatOf, knows};
ghost use Rattle.dpl_turn.specs.Rule.{Answers, AreEntries, GoesOn, HasTurn, Holding, Idle, IsOut, IsProper, MayFollow, Rise, StartsWith, after_give, both_views, longer, named_list, newcomer};

use crate::ready::{find_ready, folded};
use crate::seat::{Seat, TableSeat, longest};
use crate::view::{About, Gives, Law, Meet, Names, Pairs, SeatCopy, SeatView, Tries};
use atomic_table::Table;
use dpl_board::{Blocks, BoardState, Job, PostFault};
use dpl_stars::Joined;
use std::alloc::{AllocError, Global};
use std::snapshot::Snapshot;
use std::sync::Wait;
use std::thread::yield_now;

/// The word that is 1 while a seat holds the turn, else 0.
const TURN: usize = 0;

/// The word of the entry that the holder of the turn is about to post.
const TILE: usize = 1;

/// A board that threads share by seats. Only the seat that holds the turn reads or changes its state.
#[derive(Drop)]
pub struct Board<J: Job> {
    table: Table<Option<Blocks>, SeatView, About<J>, Law, Global>,
    alloc: Global,
    ghost sized: { (table.shared.table_id.words ≡ 2) × (table.shared.table_id.slots ≡ 1) },
}

impl<J: Job> Board<J> {
    /// An empty board of the job for so many workers, and its first seat.
    pub fn open(alloc: Global, job: &J, workers: u32) -> Result<(Board<J>, Seat), AllocError>
        ensures seat { IfOk result (λ r. IsSeatOf r.0.table.shared.table_id r.1 × (knows r.1 ≡ newcomer (J.sheet job.now) workers [])) }
    {
        let about = About {
            job: Snapshot::of(job),
            workers,
        };
        let tiles = job.tiles();
        let state = Blocks::new(alloc, tiles)?;
        let slots = vec![in alloc; Some(state)]?;
        match Table::new(alloc, &[0, 0], slots, &about) {
            Ok((table, place)) => Ok((Board { table, alloc }, Seat { place, count: 0 })),
            Err(_) => Err(AllocError),
        }
    }

    /// A new seat, which has seen as much as this one and posted nothing.
    pub fn split(&self, seat: &mut Seat) -> Seat
        requires table { IsSeatOf self.now.table.shared.table_id seat.old }
        ensures old { IsSeatOf self.now.table.shared.table_id seat.new × ((knows seat.new) ≡ (knows seat.old)) }
        ensures new { IsSeatOf self.now.table.shared.table_id result × ((knows result) ≡ newcomer (knows seat.old).sheet (knows seat.old).workers (knows seat.old).known) }
    {
        let place = self.table.shared.split_seat::<SeatCopy>(&mut seat.place);
        Seat {
            place,
            count: seat.count,
        }
    }

    /// Takes in what another seat knows and posted. What either had seen begins what is known then.
    pub fn rejoin(&self, seat: &mut Seat, other: Seat)
        requires table { IsSeatOf self.now.table.shared.table_id seat.old × IsSeatOf self.now.table.shared.table_id other }
        ensures table { IsSeatOf self.now.table.shared.table_id seat.new }
        ensures seat { (knows seat.new) ≡ record (both_views (knows seat.old) (knows other)) { older = [] } }
        ensures prefixes { StartsWith (knows seat.new).known (knows seat.old).known × StartsWith (knows seat.new).known (knows other).known }
    {
        let Seat { place, count } = other;
        let longer = longest(seat.count, count);
        self.meet(&mut seat.place, place);
        seat.count = longer;
    }

    /// Posts a tile with the summary of its edges. It may wait for the turn. Where memory runs out, the history is as it was found.
    pub fn post<R: Wait>(
        &self,
        rt: &R,
        seat: &mut Seat,
        worker: u32,
        tile: u32,
        sum: Joined,
    ) -> Result<(), PostFault>
        requires table { IsSeatOf self.now.table.shared.table_id seat.old }
        requires entry { (worker < (knows seat.old).workers) × (tile < length (knows seat.old).sheet) }
        requires sum { Sums (edges_at (knows seat.old).sheet tile) sum }
        ensures table { IsSeatOf self.now.table.shared.table_id seat.new }
        ensures answer { Answers (knows seat.old) worker tile result (knows seat.new) }
    {
        let (answer, count) = self.post_at(rt, &mut seat.place, worker, tile, sum);
        seat.count = count;
        answer
    }

    /// Ends the board: a state that stands for the sheet, whose history begins with what the seat has seen and has the
    /// seat's posts at their places, in their order. The state is what the takes and posts of its history lead to. It
    /// may wait for the turn.
    pub fn close<R: Wait>(self, rt: &R, seat: Seat) -> Result<BoardState, AllocError>
        requires table { IsSeatOf self.table.shared.table_id seat }
        ensures seen { IfOk result (λ s. StartsWith s.history (knows seat).known) }
        ensures own { IfOk result (λ s. AreEntries s.history (knows seat).own × Rise (knows seat).own) }
        ensures stands { IfOk result (λ s. Stands (knows seat).sheet s) }
        ensures proper { IfOk result (λ s. IsProper (knows seat).sheet (knows seat).workers s.history) }
        ensures core { IfOk result (λ s. IsCore (knows seat).sheet (events_of s.history) (workers_to (length (knows seat).sheet) s.history) s) }
    {
        let Seat {
            mut place,
            count: _,
        } = seat;
        self.take_state(rt, &mut place).finish()
    }

    /// Lets a seat of the table take in what another knows, which ends.
    fn meet(&self, seat: &mut TableSeat, other: TableSeat)
        requires table { (seat.old.table_id ≡ self.now.table.shared.table_id) × (other.table_id ≡ self.now.table.shared.table_id) }
        requires idle { Idle seat.old.me × Idle other.me }
        ensures table { seat.new.table_id ≡ seat.old.table_id }
        ensures seat { seat.new.me ≡ (record (both_views seat.old.me.0 other.me.0) { older = [] }, []) }
        ensures prefixes { (history : _) × StartsWith history (longer seat.old.me.0.known other.me.0.known) × StartsWith history seat.old.me.0.known × StartsWith history other.me.0.known }
    {
        self.table.shared.join_seat::<Pairs>(seat, other);
        self.table.shared.load::<Meet>(seat, TURN);
    }

    /// Tries to get the turn, and says whether it did. With the turn comes the history.
    fn try_turn(&self, seat: &mut TableSeat) -> bool
        requires table { seat.old.table_id ≡ self.now.table.shared.table_id }
        requires idle { Idle seat.old.me }
        ensures table { seat.new.table_id ≡ seat.old.table_id }
        ensures turn { MatchBool result (HasTurn seat.old.me.0 seat.new.me) (seat.new.me ≡ seat.old.me) }
    {
        self.table
            .shared
            .compare_exchange::<Tries>(seat, TURN, 0, 1)
            == 0
    }

    /// Gets the turn. It may wait for it.
    fn take_turn<R: Wait>(&self, rt: &R, seat: &mut TableSeat)
        requires table { seat.old.table_id ≡ self.now.table.shared.table_id }
        requires idle { Idle seat.old.me }
        ensures table { seat.new.table_id ≡ seat.old.table_id }
        ensures turn { HasTurn seat.old.me.0 seat.new.me }
    {
        for _ in rt.forever() {
            if self.try_turn(seat) {
                break;
            }
            yield_now();
        }
    }

    /// Takes the state out of the slot.
    fn take_out(&self, seat: &mut TableSeat) -> Blocks
        requires table { seat.old.table_id ≡ self.now.table.shared.table_id }
        requires holds { (state : _) × (seat.old.me.1 ≡ (0, Some state) ∷ []) }
        ensures table { seat.new.table_id ≡ seat.old.table_id }
        ensures out { seat.old.me.1 ≡ (0, Some result) ∷ [] }
        ensures seat { seat.new.me ≡ (seat.old.me.0, (0, None) ∷ []) }
    {
        match self.table.shared.exchange(seat, 0, None) {
            Some(state) => state,
            None => unreachable!(),
        }
    }

    /// Puts the state back into the slot.
    fn put_back(&self, seat: &mut TableSeat, state: Blocks)
        requires table { seat.old.table_id ≡ self.now.table.shared.table_id }
        requires holds { seat.old.me.1 ≡ (0, None) ∷ [] }
        ensures table { seat.new.table_id ≡ seat.old.table_id }
        ensures seat { seat.new.me ≡ (seat.old.me.0, (0, Some state) ∷ []) }
    {
        let empty = self.table.shared.exchange(seat, 0, Some(state));
        let None = empty else { unreachable!() };
    }

    /// Gets the turn and takes the state out. It may wait for the turn.
    fn take_state<R: Wait>(&self, rt: &R, seat: &mut TableSeat) -> Blocks
        requires table { seat.old.table_id ≡ self.now.table.shared.table_id }
        requires idle { Idle seat.old.me }
        ensures table { seat.new.table_id ≡ seat.old.table_id }
        ensures out { IsOut result seat.new.me }
        ensures view { seat.new.me.0 ≡ record seat.old.me.0 { holds = true; found = result.history } }
        ensures own { AreEntries result.history seat.old.me.0.own × Rise seat.old.me.0.own }
    {
        self.take_turn(rt, seat);
        self.take_out(seat)
    }

    /// Merges a block outside the turn, if one is ready before the tile is posted, and folds it in. It may wait for the
    /// turn, which the seat has before and after.
    fn fold_ready<R: Wait>(
        &self,
        rt: &R,
        seat: &mut TableSeat,
        state: Blocks,
        tile: u32,
        sum: &Joined,
    ) -> Blocks
        requires table { seat.old.table_id ≡ self.now.table.shared.table_id }
        requires out { IsOut state seat.old.me }
        ensures table { seat.new.table_id ≡ seat.old.table_id }
        ensures out { IsOut result seat.new.me }
        ensures goes { GoesOn seat.old.me.0 seat.new.me.0 }
    {
        let Some(ready) = find_ready(&state, tile, sum) else {
            return state;
        };
        self.put_back(seat, state);
        self.give(seat);
        let sum = ready.merged(self.alloc);
        let state = self.take_state(rt, seat);
        folded(state, ready.block, sum)
    }

    /// Writes the entry that is to be posted into the tile word.
    fn name(&self, seat: &mut TableSeat, worker: u32, tile: u32)
        requires table { seat.old.table_id ≡ self.now.table.shared.table_id }
        requires turn { (seat.old.me.0.holds ≡ true) × (seat.old.me.0.spent ≡ false) }
        requires may { MayFollow seat.old.me.0.sheet seat.old.me.0.workers seat.old.me.0.found (entry worker tile) }
        ensures table { seat.new.table_id ≡ seat.old.table_id }
        ensures seat { seat.new.me ≡ (record seat.old.me.0 { named = Some (entry worker tile) }, seat.old.me.1) }
    {
        let entry = u64::from(worker) * (1 << 32) + u64::from(tile);
        self.table.shared.store::<Names>(seat, TILE, entry);
    }

    /// Gives the turn back, and the slot with the state in it.
    fn give(&self, seat: &mut TableSeat)
        requires table { seat.old.table_id ≡ self.now.table.shared.table_id }
        requires turn { (seat.old.me.0.holds ≡ true) × (seat.old.me.0.spent ≡ false) }
        requires slot { Holding seat.old.me.0 (seat.old.me.0.found ++ named_list seat.old.me.0.named) seat.old.me }
        ensures table { seat.new.table_id ≡ seat.old.table_id }
        ensures seat { seat.new.me ≡ (after_give seat.old.me.0, []) }
    {
        self.table.shared.store::<Gives>(seat, TURN, 0);
    }

    /// Posts a tile, and says how many entries have been seen then.
    fn post_at<R: Wait>(
        &self,
        rt: &R,
        seat: &mut TableSeat,
        worker: u32,
        tile: u32,
        sum: Joined,
    ) -> (Result<(), PostFault>, u64)
        requires table { seat.old.table_id ≡ self.now.table.shared.table_id }
        requires idle { Idle seat.old.me }
        requires entry { (worker < seat.old.me.0.workers) × (tile < length seat.old.me.0.sheet) }
        requires sum { Sums (edges_at seat.old.me.0.sheet tile) sum }
        ensures table { seat.new.table_id ≡ seat.old.table_id }
        ensures idle { Idle seat.new.me }
        ensures answer { Answers seat.old.me.0 worker tile result.0 seat.new.me.0 }
        ensures seen { result.1 ≡ length seat.new.me.0.known }
    {
        let state = self.take_state(rt, seat);
        let mut state = self.fold_ready(rt, seat, state, tile, &sum);
        if let Err(fault) = state.post(worker, tile, sum) {
            let seen = state.history().len() as u64;
            self.put_back(seat, state);
            self.give(seat);
            return (Err(fault), seen);
        }
        let seen = state.history().len() as u64;
        self.name(seat, worker, tile);
        self.put_back(seat, state);
        self.give(seat);
        (Ok(()), seen)
    }
}
