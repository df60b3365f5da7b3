//! One worker of the pool: the tiles that it takes, works out and posts.
ghost use Rattle.std.specs.Prelude.{◌≡◌, ◌<◌, ◌↔◌, true, false, length, map};
ghost use Rattle.dpl_stars.specs.Sums.{Sums};
ghost use Rattle.dpl_board.specs.Sheets.{IsPosted, edges_at};
ghost use Rattle.dpl_deal.specs.Hands.{taken};
ghost use Rattle.dpl_turn.specs.Seats.{IsSeatOf, knows};
ghost use Rattle.dpl_pool.specs.Numbering.{IsNumbered};
ghost use Rattle.dpl_pool.specs.Seating.{board_table};
ghost use Rattle.dpl_pool.specs.Members.{IsMember, IsTwice, Keeps, Leaves, TookOne};

use crate::gate::Gate;
use crate::numbers::Numbers;
use dpl_board::{Job, PostFault};
use dpl_deal::{Deal, Hand};
use dpl_stars::Joined;
use dpl_turn::{Board, Seat};
use std::alloc::Global;
use std::sync::Wait;

/// What the workers share: a deal of the tiles of all jobs by their numbers, and a board for each job.
#[derive(Drop)]
pub struct Floor<J: Job> {
    pub numbers: Numbers,
    pub deal: Deal,
    pub boards: Vec<Board<J>>,
}

/// A worker: its number, its seat at each board, its hand, and whether it ran out of memory.
#[derive(Drop)]
pub struct Member {
    pub number: u32,
    pub seats: Vec<Seat>,
    pub hand: Hand,
    pub out_of_memory: bool,
}

/// Posts a tile, and says whether it stands on the board now.
fn post_tile<J: Job, R: Wait>(
    rt: &R,
    board: &Board<J>,
    seat: &mut Seat,
    worker: u32,
    tile: u32,
    sum: Joined,
) -> bool
    requires table { IsSeatOf board.now.table.shared.table_id seat.old }
    requires entry { (worker < (knows seat.old).workers) × (tile < length (knows seat.old).sheet) }
    requires sum { Sums (edges_at (knows seat.old).sheet tile) sum }
    ensures table { IsSeatOf board.now.table.shared.table_id seat.new }
    ensures keeps { Keeps (knows seat.old) (knows seat.new) }
    ensures posted { result ≡ true → IsPosted tile (knows seat.new).known }
{
    match board.post(rt, seat, worker, tile, sum) {
        Ok(()) => true,
        Err(fault) => is_posted(fault),
    }
}

/// Whether the tile stood there before.
fn is_posted(fault: PostFault) -> bool
    ensures { result ≡ true ↔ IsTwice fault }
{
    matches!(fault, PostFault::Twice { .. })
}

/// One tile: taken, worked out and posted on its job's board. The answer is false where the worker is done.
fn step<J: Job, G: Gate, R: Wait>(
    rt: &R,
    alloc: Global,
    floor: &Floor<J>,
    jobs: &[J],
    gate: &G,
    member: &mut Member,
) -> bool
    requires numbered { IsNumbered (map J.sheet jobs.now) floor.now.numbers }
    requires tiles { floor.now.deal.tiles ≡ floor.now.numbers.tiles }
    requires member { IsMember (map board_table floor.now.boards.items) (map J.sheet jobs.now) floor.now.deal member.old.number member.old }
    ensures number { member.new.number ≡ member.old.number }
    ensures goes { result ≡ true → IsMember (map board_table floor.now.boards.items) (map J.sheet jobs.now) floor.now.deal member.old.number member.new }
    ensures took { result ≡ true → TookOne (taken member.old.hand) (taken member.new.hand) }
    ensures done { result ≡ false → Leaves (map board_table floor.now.boards.items) (map J.sheet jobs.now) floor.now.deal member.old.number member.new }
{
    let Some(number) = floor.deal.take(rt, &mut member.hand) else {
        return false;
    };
    gate.enter(member.number, number);
    let (at, tile) = floor.numbers.place(number);
    let Ok(sum) = jobs[at].summary(alloc, tile) else {
        member.out_of_memory = true;
        return false;
    };
    let worker = member.number;
    let board = &floor.boards[at];
    if !post_tile(rt, board, &mut member.seats[at], worker, tile, sum) {
        member.out_of_memory = true;
        return false;
    }
    gate.posted(&member.seats[at], tile);
    true
}

/// Takes tiles until each deque was found empty, or the worker runs out of memory.
pub fn work<J: Job, G: Gate, R: Wait>(
    rt: &R,
    alloc: Global,
    floor: &Floor<J>,
    jobs: &[J],
    gate: &G,
    member: Member,
) -> Member
    requires numbered { IsNumbered (map J.sheet jobs.now) floor.now.numbers }
    requires tiles { floor.now.deal.tiles ≡ floor.now.numbers.tiles }
    requires member { IsMember (map board_table floor.now.boards.items) (map J.sheet jobs.now) floor.now.deal member.number member }
    ensures { Leaves (map board_table floor.now.boards.items) (map J.sheet jobs.now) floor.now.deal member.number result }
{
    let mut member = member;
    for _ in rt.forever() {
        if !step(rt, alloc, floor, jobs, gate, &mut member) {
            return member;
        }
    }
    unreachable!()
}
