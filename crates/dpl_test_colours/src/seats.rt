//! Seats at a board that post by turns, and from two threads.
ghost use Rattle.std.specs.Prelude.{◌≡◌, ◌<◌, length, [], ◌∷◌};
ghost use Rattle.dpl_stars.specs.Sums.{Sums};
ghost use Rattle.dpl_board.specs.Sheets.{edges_at};
ghost use Rattle.dpl_turn.specs.Seats.{IsSeatOf, knows};

use crate::jobs::TwoTiles;
use dpl_board::{BoardState, Entry, PostFault};
use dpl_stars::Joined;
use dpl_turn::{Board, Seat};
use std::alloc::{AllocError, Global};
use std::sync::Wait;
use std::test::*;
use std::thread::{Threads, join};

/// What two seats that post by turns are answered, how many posts they have seen, and what they leave.
#[derive(Drop)]
struct ByTurns {
    answers: [Result<(), PostFault>; 3],
    seen: [u64; 6],
    state: BoardState,
}

/// Posts by turns from two seats, and has them meet.
fn by_turns<R: Wait>(rt: &R, alloc: Global) -> Result<ByTurns, AllocError> {
    let (board, mut seat) = Board::open(alloc, &TwoTiles, 2)?;
    let mut other = board.split(&mut seat);
    let first = board.post(rt, &mut other, 1, 1, Joined::new(alloc));
    let (a, b) = (other.seen(), seat.seen());
    let again = board.post(rt, &mut seat, 0, 1, Joined::new(alloc));
    let c = seat.seen();
    let last = board.post(rt, &mut seat, 0, 0, Joined::new(alloc));
    let (d, e) = (seat.seen(), other.seen());
    board.rejoin(&mut seat, other);
    let f = seat.seen();
    let state = board.close(rt, seat)?;
    Ok(ByTurns {
        answers: [first, again, last],
        seen: [a, b, c, d, e, f],
        state,
    })
}

/// The posts that are made.
static ENTRIES: [Entry; 2] = [Entry { worker: 1, tile: 1 }, Entry { worker: 0, tile: 0 }];

/// Whether a board has these posts, and all its tiles.
fn has_entries(state: &BoardState) -> bool {
    state.history() == ENTRIES.as_slice() && state.first_missing().is_none()
}

#[test]
fn seats_post_and_meet(rt: HostRuntime) -> Result<(), Fail> {
    let found = by_turns(&rt, rt.alloc())?;
    let again = Err(PostFault::Twice { by: 1 });
    assert!(rt; found.answers == [Ok(()), again, Ok(())]);
    assert!(rt; found.seen == [1, 0, 1, 2, 1, 2]);
    assert!(rt; has_entries(&found.state));
    Ok(())
}

/// A seat, and what its post was answered.
#[derive(Drop)]
struct Answered {
    seat: Seat,
    answer: Result<(), PostFault>,
}

/// Posts a tile from a seat that is handed on.
fn post_from<R: Wait>(
    rt: &R,
    board: &Board<TwoTiles>,
    seat: Seat,
    worker: u32,
    tile: u32,
    sum: Joined,
) -> Answered
    requires table { IsSeatOf board.now.table.shared.table_id seat }
    requires entry { (worker < (knows seat).workers) × (tile < length (knows seat).sheet) }
    requires sum { Sums (edges_at (knows seat).sheet tile) sum }
    ensures table { IsSeatOf board.now.table.shared.table_id result.seat }
    ensures sheet { (knows result.seat).sheet ≡ (knows seat).sheet }
    ensures workers { (knows result.seat).workers ≡ (knows seat).workers }
{
    let mut seat = seat;
    let answer = board.post(rt, &mut seat, worker, tile, sum);
    Answered { seat, answer }
}

/// What two threads that post a tile each are answered, and a third post, of the first tile, and what they leave.
fn post_from_two_threads<R: Threads + Wait + Sync>(
    rt: &R,
    alloc: Global,
) -> Result<([Result<(), PostFault>; 3], BoardState), AllocError> {
    let (shared, mut seat) = Board::open(alloc, &TwoTiles, 2)?;
    let board = &shared;
    let other = board.split(&mut seat);
    let (first, second) = join(
        rt,
        move || -> Answered
            requires table { IsSeatOf board.now.table.shared.table_id seat }
            requires sheet { ((knows seat).sheet ≡ [] ∷ [] ∷ []) × ((knows seat).workers ≡ 2) }
            ensures table { IsSeatOf board.entry.now.table.shared.table_id result.seat }
            ensures sheet { ((knows result.seat).sheet ≡ [] ∷ [] ∷ []) × ((knows result.seat).workers ≡ 2) }
        { post_from(rt, board, seat, 0, 0, Joined::new(alloc)) },
        move || -> Answered
            requires table { IsSeatOf board.now.table.shared.table_id other }
            requires sheet { ((knows other).sheet ≡ [] ∷ [] ∷ []) × ((knows other).workers ≡ 2) }
            ensures table { IsSeatOf board.entry.now.table.shared.table_id result.seat }
        { post_from(rt, board, other, 1, 1, Joined::new(alloc)) },
    );
    let Answered { mut seat, answer } = first;
    board.rejoin(&mut seat, second.seat);
    let third = board.post(rt, &mut seat, 1, 0, Joined::new(alloc));
    let state = shared.close(rt, seat)?;
    Ok(([answer, second.answer, third], state))
}

/// Whether a board has two posts, of tile 0 by worker 0 and of tile 1 by worker 1.
fn is_by_each(state: &BoardState) -> bool {
    state.history().len() == 2 && state.poster(0) == Some(0) && state.poster(1) == Some(1)
}

#[test]
fn two_threads_post_a_tile_each(rt: HostRuntime) -> Result<(), Fail> {
    let (answers, state) = post_from_two_threads(&rt, rt.alloc())?;
    let again = Err(PostFault::Twice { by: 0 });
    assert!(rt; answers == [Ok(()), Ok(()), again]);
    assert!(rt; is_by_each(&state));
    Ok(())
}
