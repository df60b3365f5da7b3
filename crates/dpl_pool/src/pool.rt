//! Workers from the opening of a deal and of boards to the closing of all.
ghost use Rattle.std.specs.Prelude.{◌≡◌, ◌<◌, ◌≤◌, ◌^◌, All, IfOk, ℕ, List, [], length, map, vec_len};
ghost use Rattle.std.specs.List.{AllZip};
ghost use Rattle.dpl_board.specs.Boards.{AreAllPosted, Stands};
ghost use Rattle.dpl_board.specs.Cores.{IsCore};
ghost use Rattle.dpl_deal.specs.declared.deal.Deal.{Deal};
ghost use Rattle.dpl_deal.specs.Hands.{AreHandsOf, EachAt, IsDone, IsHandOf, all_taken, taken};
ghost use Rattle.dpl_turn.specs.Replay.{events_of, workers_to};
ghost use Rattle.dpl_turn.specs.Rule.{IsProper};
ghost use Rattle.dpl_turn.specs.Seats.{knows};
ghost use Rattle.dpl_pool.specs.Numbering.{IsNumbered, tile_count};
ghost use Rattle.dpl_pool.specs.Seating.{IsWorkedOut, board_table, histories_of, sheet_of, table_of, workers_of};
ghost use Rattle.dpl_pool.specs.Members.{Covers, IsMember, Leaves};

use crate::gate::Gate;
use crate::member::{Floor, Member, work};
use crate::numbers::Numbers;
use crate::seats::{close_all, open_all, rejoin_all, split_all};
use crate::single::Single;
use dpl_board::{BoardState, Job};
use dpl_deal::{Deal, Hand};
use dpl_turn::{Board, Seat};
use std::alloc::{AllocError, Global};
use std::sync::Wait;
use std::thread;
use std::thread::Threads;

/// Works out all tiles of a job by so many workers, 1 to 64, each in a thread of its own where one can be made; the
/// caller's thread does the work of the others. All workers have ended when it returns.
pub fn run_pool<J: Job + Sync, G: Gate + Sync, R: Threads + Wait + Sync>(
    rt: &R,
    alloc: Global,
    workers: u32,
    job: &J,
    gate: &G,
) -> Result<BoardState, AllocError>
    requires workers { (0 < workers) × (workers ≤ 64) }
    ensures stands { IfOk result (λ s. Stands (J.sheet job.now) s) }
    ensures once { IfOk result (λ s. AreAllPosted s × IsProper (J.sheet job.now) workers s.history) }
    ensures replay { IfOk result (λ s. IsCore (J.sheet job.now) (events_of s.history) (workers_to (length (J.sheet job.now)) s.history) s) }
{
    let _tiles = job.tiles();
    let mut states = run_many(rt, alloc, workers, &[Single { job }], gate)?;
    match states.pop() {
        Some(state) => Ok(state),
        None => unreachable!(),
    }
}

/// Works out all tiles of many jobs, fewer than 2^32 together, by so many workers, 1 to 64, as `run_pool` does those of
/// one. The answer is a board for each job, in order. The gate's `enter` gets a tile's number over all jobs, in which the
/// tiles of each job follow those of the jobs before it; its `posted` gets the seat at the job's board, and the tile's
/// number within the job.
pub fn run_many<J: Job + Sync, G: Gate + Sync, R: Threads + Wait + Sync>(
    rt: &R,
    alloc: Global,
    workers: u32,
    jobs: &[J],
    gate: &G,
) -> Result<Vec<BoardState>, AllocError>
    requires workers { (0 < workers) × (workers ≤ 64) }
    requires tiles { tile_count (map J.sheet jobs.now) < 2 ^ 32 }
    ensures { IfOk result (λ ss. AllZip (IsWorkedOut workers) (map J.sheet jobs.now) ss.items) }
{
    let numbers = Numbers::of(alloc, jobs)?;
    let (deal, hands) = Deal::open(alloc, numbers.tiles, workers)?;
    let (boards, mut seats) = open_all(alloc, jobs, workers)?;
    let floor = Floor {
        numbers,
        deal,
        boards,
    };
    let members = seated(alloc, &floor.boards, &mut seats, hands)?;
    let done = all_work(rt, alloc, &floor, jobs, gate, members)?;
    let hands = gathered(alloc, &floor, &mut seats, done)?;
    let Floor {
        numbers: _,
        deal,
        boards,
    } = floor;
    deal.close(hands);
    close_all(rt, alloc, boards, seats)
}

/// Lets the workers work, and waits for all.
fn all_work<J: Job + Sync, G: Gate + Sync, R: Threads + Wait + Sync>(
    rt: &R,
    alloc: Global,
    floor: &Floor<J>,
    jobs: &[J],
    gate: &G,
    members: Vec<Member>,
) -> Result<Vec<Member>, AllocError>
    requires numbered { IsNumbered (map J.sheet jobs.now) floor.now.numbers }
    requires tiles { floor.now.deal.tiles ≡ floor.now.numbers.tiles }
    requires members { EachAt (IsMember (map board_table floor.now.boards.items) (map J.sheet jobs.now) floor.now.deal) members.items }
    ensures len { IfOk result (λ ms. vec_len ms ≡ vec_len members) }
    ensures done { IfOk result (λ ms. EachAt (Leaves (map board_table floor.now.boards.items) (map J.sheet jobs.now) floor.now.deal) ms.items) }
{
    thread::map_vec(
        rt,
        members,
        &|member: Member| -> Member
            requires { IsNumbered (map J.sheet jobs.now) floor.now.numbers × (floor.now.deal.tiles ≡ floor.now.numbers.tiles) × IsMember (map board_table floor.now.boards.items) (map J.sheet jobs.now) floor.now.deal member.number member }
            ensures { Leaves (map board_table floor.entry.now.boards.items) (map J.sheet jobs.entry.now) floor.entry.now.deal member.number result }
        { work(rt, alloc, floor, jobs, gate, member) },
    )
}

/// A seat at each board for each hand.
fn seated<J: Job>(
    alloc: Global,
    boards: &Vec<Board<J>>,
    seats: &mut Vec<Seat>,
    hands: Vec<Hand>,
) -> Result<Vec<Member>, AllocError>
    requires tables { map table_of seats.old.items ≡ map board_table boards.now.items }
    requires workers { All (λ s. vec_len hands ≤ workers_of s) seats.old.items }
    requires hands { (vec_len hands ≤ 64) × All (λ h. taken h ≡ []) hands.items }
    ensures tables { map table_of seats.new.items ≡ map table_of seats.old.items }
    ensures same { map knows seats.new.items ≡ map knows seats.old.items }
    ensures len { IfOk result (λ ms. vec_len ms ≡ vec_len hands) }
    ensures members { IfOk result (λ ms. (deal : Deal) → AreHandsOf deal hands.items → EachAt (IsMember (map board_table boards.now.items) (map sheet_of seats.old.items) deal) ms.items) }
{
    let mut members = Vec::new(alloc);
    let mut number = 0;
    for hand in hands {
        let others = split_all(alloc, boards, seats)?;
        members.push(Member {
            number,
            seats: others,
            hand,
            out_of_memory: false,
        })?;
        number += 1;
    }
    Ok(members)
}

/// The hands of workers that are done, whose seats are rejoined.
fn gathered<J: Job>(
    alloc: Global,
    floor: &Floor<J>,
    seats: &mut Vec<Seat>,
    members: Vec<Member>,
) -> Result<Vec<Hand>, AllocError>
    requires tables { map table_of seats.old.items ≡ map board_table floor.now.boards.items }
    requires members { EachAt (Leaves (map board_table floor.now.boards.items) (map sheet_of seats.old.items) floor.now.deal) members.items }
    ensures tables { map table_of seats.new.items ≡ map table_of seats.old.items }
    ensures sheets { map sheet_of seats.new.items ≡ map sheet_of seats.old.items }
    ensures workers { map workers_of seats.new.items ≡ map workers_of seats.old.items }
    ensures len { IfOk result (λ hs. vec_len hs ≡ vec_len members) }
    ensures hands { IfOk result (λ hs. EachAt (IsHandOf floor.now.deal) hs.items × All (λ h. IsDone h) hs.items) }
    ensures covers { IfOk result (λ hs. Covers (map sheet_of seats.old.items) (all_taken hs.items) (histories_of seats.new.items)) }
{
    let mut hands = Vec::new(alloc);
    for member in members {
        if member.out_of_memory {
            return Err(AllocError);
        }
        rejoin_all(&floor.boards, seats, member.seats);
        hands.push(member.hand)?;
    }
    Ok(hands)
}
