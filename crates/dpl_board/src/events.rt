//! What workers do with tiles, event by event, and the state that the events lead to.
ghost use Rattle.std.specs.Prelude.{◌≡◌, List, ◌++◌, ◌∷◌, [], IfOk, OnOk, length};
ghost use Rattle.dpl_board.specs.declared.entry.Entry.{Entry};
ghost use Rattle.dpl_board.specs.Sheets.{AreWorkers, entry};
ghost use Rattle.dpl_board.specs.Cores.{Goes, HasPosts, IsCore};

use crate::board::BoardState;
use crate::fault::PostFault;
use crate::job::Job;
use dpl_list::Listed;
use std::alloc::{AllocError, Global};

/// What a worker does with a tile.
#[derive(Clone, Copy, Drop)]
pub enum Event {
    Take { worker: u32, tile: u32 },
    Post { worker: u32, tile: u32 },
}

/// What events have led to: who took each tile, and the board.
#[derive(Drop)]
pub struct Core {
    /// For each tile the worker that took it.
    pub taken: Listed<Option<u32>>,
    pub board: BoardState,
}

/// What the events lead to, one after the other, from the state in which no tile is taken or posted. A tile is taken by
/// the first that takes it, and posted by the first that posts it, taken or not. Every other event, and every event of a
/// tile that the job doesn't have, changes nothing.
pub fn replay<J: Job>(alloc: Global, job: &J, events: &[Event]) -> Result<Core, AllocError>
    ensures { IfOk result (λ core. IsCore (J.sheet job.now) events.now core.taken core.board) }
{
    let tiles = job.tiles();
    let mut taken = vec![in alloc; None; tiles as usize]?;
    let mut board = BoardState::new(alloc, tiles)?;
    for event in events {
        step(alloc, job, *event, &mut taken, &mut board)?;
    }
    Ok(Core {
        taken: Listed::of(taken),
        board,
    })
}

/// Changes what was taken and posted as one more event does.
fn step<J: Job>(
    alloc: Global,
    job: &J,
    event: Event,
    taken: &mut [Option<u32>],
    board: &mut BoardState,
) -> Result<(), AllocError>
    requires taken { length taken.old ≡ length (J.sheet job.now) }
    requires tiles { board.old.tiles ≡ length (J.sheet job.now) }
    ensures { OnOk result (Goes (J.sheet job.now) event taken.old board.old taken.new board.new) }
{
    match event {
        Event::Take { worker, tile } => {
            take(taken, worker, tile);
            Ok(())
        }
        Event::Post { worker, tile } => post(alloc, job, worker, tile, board),
    }
}

/// Notes the worker, unless the tile is taken or isn't there.
fn take(taken: &mut [Option<u32>], worker: u32, tile: u32)
    ensures { (entries : List Entry) → AreWorkers (length taken.old) entries taken.old → AreWorkers (length taken.old) (entries ++ entry worker tile ∷ []) taken.new }
{
    let place = tile as usize;
    if place >= taken.len() {
        return;
    }
    if taken[place].is_none() {
        taken[place] = Some(worker);
    }
}

/// Posts the tile, unless it is posted or isn't there.
fn post<J: Job>(
    alloc: Global,
    job: &J,
    worker: u32,
    tile: u32,
    board: &mut BoardState,
) -> Result<(), AllocError>
    requires { board.old.tiles ≡ length (J.sheet job.now) }
    ensures { OnOk result ((entries : List Entry) → HasPosts (J.sheet job.now) entries board.old → HasPosts (J.sheet job.now) (entries ++ entry worker tile ∷ []) board.new) }
{
    if tile >= job.tiles() {
        return Ok(());
    }
    if board.poster(tile).is_some() {
        return Ok(());
    }
    let sum = job.summary(alloc, tile)?;
    match board.post(worker, tile, sum) {
        Ok(()) => Ok(()),
        Err(PostFault::Twice { .. }) => Ok(()),
        Err(PostFault::NoMemory) => Err(AllocError),
    }
}
