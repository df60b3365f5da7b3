//! Tiles that are posted on a board, and events that lead to a core.
ghost use Rattle.std.specs.Prelude.{◌≡◌, ◌<◌, [], replicate};

use crate::jobs::{Bare, has_rows};
use dpl_board::{BoardState, Core, Entry, Event, PostFault, replay};
use dpl_list::Edge;
use dpl_stars::{Joined, stars};
use std::alloc::{AllocError, Global};
use std::test::Fail;

/// Posts a tile, and tells who has posted it before, if anyone has.
fn post(
    board: &mut BoardState,
    worker: u32,
    tile: u32,
    sum: Joined,
) -> Result<Option<u32>, AllocError>
    requires { tile < board.old.tiles }
    ensures { board.new.tiles ≡ board.old.tiles }
{
    match board.post(worker, tile, sum) {
        Ok(()) => Ok(None),
        Err(PostFault::Twice { by }) => Ok(Some(by)),
        Err(PostFault::NoMemory) => Err(AllocError),
    }
}

/// Posts a tile with one edge.
fn post_edge(
    alloc: Global,
    board: &mut BoardState,
    worker: u32,
    tile: u32,
    edge: Edge,
) -> Result<Option<u32>, AllocError>
    requires tile { tile < board.old.tiles }
    requires edge { edge.0 < edge.1 }
    ensures { board.new.tiles ≡ board.old.tiles }
{
    let sum = stars(alloc, &[edge])?;
    post(board, worker, tile, sum)
}

/// Posts tile 1 from worker 4, with a path, and once more from worker 5. Tells who had posted it each time.
fn post_path(alloc: Global, board: &mut BoardState) -> Result<[Option<u32>; 2], AllocError>
    requires { 1 < board.old.tiles }
    ensures { board.new.tiles ≡ board.old.tiles }
{
    let path = stars(alloc, &[(0, 1), (1, 2)])?;
    let first = post(board, 4, 1, path)?;
    let again = post(board, 5, 1, Joined::new(alloc))?;
    Ok([first, again])
}

/// Whether tile 1 is posted by worker 4, and no other.
fn has_one(board: &BoardState) -> bool {
    board.first_missing() == Some(0) && board.history() == [Entry { worker: 4, tile: 1 }].as_slice()
}

/// Whether tile 2 is missing, and the others join the pieces 0 to 3 one after the other.
fn has_two(board: &BoardState) -> bool {
    let rows = [(0, 0, false), (1, 0, true), (2, 0, false), (3, 0, true)];
    board.first_missing() == Some(2) && has_rows(board.joined(), &rows)
}

/// Whether all three tiles are posted, and have an odd cycle.
fn has_all(board: &BoardState) -> bool {
    let posters = [0, 1, 2, 3].map(|tile| board.poster(tile));
    posters == [Some(5), Some(4), Some(4), None]
        && board.first_missing().is_none()
        && board.joined().is_odd()
}

#[test]
fn tiles_are_posted_once_and_joined(rt: HostRuntime) -> Result<(), Fail> {
    let mut board = BoardState::new(rt.alloc(), 3)?;
    assert_eq!(rt; board.first_missing(), Some(0));
    let before = post_path(rt.alloc(), &mut board)?;
    assert!(rt; before == [None, Some(4)] && has_one(&board));
    let before = post_edge(rt.alloc(), &mut board, 5, 0, (2, 3))?;
    assert!(rt; before.is_none() && has_two(&board));
    let before = post_edge(rt.alloc(), &mut board, 4, 2, (0, 2))?;
    assert!(rt; before.is_none() && has_all(&board));
    Ok(())
}

/// What two workers do with two tiles, and with a third that isn't there.
static EVENTS: [Event; 6] = [
    Event::Post { worker: 0, tile: 1 },
    Event::Take { worker: 1, tile: 1 },
    Event::Post { worker: 1, tile: 1 },
    Event::Take { worker: 0, tile: 0 },
    Event::Take { worker: 1, tile: 0 },
    Event::Post { worker: 1, tile: 2 },
];

/// Whether worker 0 has posted tile 1, and tile 0 is missing; worker 0 has taken tile 0, and worker 1 tile 1.
fn is_led_to(core: &Core) -> bool {
    core.board.history() == [Entry { worker: 0, tile: 1 }].as_slice()
        && core.board.first_missing() == Some(0)
        && core.taken.items() == [Some(0), Some(1)].as_slice()
}

#[test]
fn events_lead_to_a_core(rt: HostRuntime) -> Result<(), Fail> {
    let core = replay(rt.alloc(), &Bare { tiles: 2 }, &EVENTS)?;
    assert!(rt; is_led_to(&core));
    Ok(())
}
