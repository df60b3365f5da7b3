//! Seats at the boards of many jobs, one at each.
ghost use Rattle.std.specs.Prelude.{◌≡◌, All, IfOk, map};
ghost use Rattle.std.specs.List.{AllZip};
ghost use Rattle.dpl_turn.specs.Seats.{knows};
ghost use Rattle.dpl_pool.specs.Seating.{Grow, IsClosed, as_newcomer, board_table, histories_of, sheet_of, table_of, workers_of};

use dpl_board::{BoardState, Job};
use dpl_turn::{Board, Seat};
use std::alloc::{AllocError, Global};
use std::sync::Wait;

/// An empty board of each job for so many workers, and its first seat.
pub(crate) fn open_all<J: Job>(
    alloc: Global,
    jobs: &[J],
    workers: u32,
) -> Result<(Vec<Board<J>>, Vec<Seat>), AllocError>
    ensures tables { IfOk result (λ r. map table_of r.1.items ≡ map board_table r.0.items) }
    ensures sheets { IfOk result (λ r. map sheet_of r.1.items ≡ map J.sheet jobs.now) }
    ensures workers { IfOk result (λ r. All (λ s. workers_of s ≡ workers) r.1.items) }
{
    let mut boards = Vec::new(alloc);
    let mut seats = Vec::new(alloc);
    for job in jobs {
        let (board, seat) = Board::open(alloc, job, workers)?;
        boards.push(board)?;
        seats.push(seat)?;
    }
    Ok((boards, seats))
}

/// A new seat at each board, which has seen as much as the one that is there and posted nothing.
pub(crate) fn split_all<J: Job>(
    alloc: Global,
    boards: &Vec<Board<J>>,
    seats: &mut Vec<Seat>,
) -> Result<Vec<Seat>, AllocError>
    requires tables { map table_of seats.old.items ≡ map board_table boards.now.items }
    ensures tables { map table_of seats.new.items ≡ map table_of seats.old.items }
    ensures same { map knows seats.new.items ≡ map knows seats.old.items }
    ensures others { IfOk result (λ ss. map table_of ss.items ≡ map table_of seats.old.items) }
    ensures new { IfOk result (λ ss. map knows ss.items ≡ map as_newcomer (map knows seats.old.items)) }
{
    let mut others = Vec::new(alloc);
    for at in 0..seats.len() {
        let other = boards[at].split(&mut seats[at]);
        others.push(other)?;
    }
    Ok(others)
}

/// Lets each seat take in what the other one at its board knows and posted.
pub(crate) fn rejoin_all<J: Job>(boards: &Vec<Board<J>>, seats: &mut Vec<Seat>, others: Vec<Seat>)
    requires tables { map table_of seats.old.items ≡ map board_table boards.now.items }
    requires others { map table_of others.items ≡ map board_table boards.now.items }
    ensures tables { map table_of seats.new.items ≡ map table_of seats.old.items }
    ensures sheets { map sheet_of seats.new.items ≡ map sheet_of seats.old.items }
    ensures workers { map workers_of seats.new.items ≡ map workers_of seats.old.items }
    ensures seen { Grow (histories_of seats.old.items) (histories_of seats.new.items) }
    ensures told { Grow (histories_of others.items) (histories_of seats.new.items) }
{
    let mut at = 0;
    for other in others {
        boards[at].rejoin(&mut seats[at], other);
        at += 1;
    }
}

/// Ends the boards: the state of each, in order. It may wait for their turns.
pub(crate) fn close_all<J: Job, R: Wait>(
    rt: &R,
    alloc: Global,
    boards: Vec<Board<J>>,
    seats: Vec<Seat>,
) -> Result<Vec<BoardState>, AllocError>
    requires tables { map table_of seats.items ≡ map board_table boards.items }
    ensures { IfOk result (λ ss. AllZip IsClosed (map knows seats.items) ss.items) }
{
    let mut states = Vec::new(alloc);
    let mut waiting = seats.into_iter();
    for board in boards {
        let Some(seat) = waiting.next() else {
            unreachable!()
        };
        let state = board.close(rt, seat)?;
        states.push(state)?;
    }
    Ok(states)
}
