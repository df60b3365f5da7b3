//! Blocks of tiles that are posted, folded and put together.
ghost use Rattle.std.specs.Prelude.{◌≡◌, ◌<◌};

use crate::jobs::has_rows;
use dpl_board::{Blocks, BoardState, Entry, PostFault};
use dpl_stars::{Joined, merge, stars};
use std::alloc::{AllocError, Global};
use std::test::Fail;

/// Folds the block that is ready, if there is one.
fn fold_ready(alloc: Global, board: &mut Blocks) -> Result<(), AllocError>
    ensures { board.new.tiles ≡ board.old.tiles }
{
    let Some((k, i)) = board.ready() else {
        return Ok(());
    };
    let (left, right) = board.halves(k, i)?;
    let sum = merge(alloc, &left, &right)?;
    board.fold(k, i, sum);
    Ok(())
}

/// Posts a tile, and tells who has posted it before, if anyone has.
fn post(board: &mut Blocks, worker: u32, tile: u32, sum: Joined) -> Result<Option<u32>, AllocError>
    requires { tile < board.old.tiles }
    ensures { board.new.tiles ≡ board.old.tiles }
{
    match board.post(worker, tile, sum) {
        Ok(()) => Ok(None),
        Err(PostFault::Twice { by }) => Ok(Some(by)),
        Err(PostFault::NoMemory) => Err(AllocError),
    }
}

/// Posts a tile from worker 0, whose edge is from its number to the next.
fn post_edge(alloc: Global, board: &mut Blocks, tile: u32) -> Result<Option<u32>, AllocError>
    requires { tile < board.old.tiles }
    ensures { board.new.tiles ≡ board.old.tiles }
{
    let piece = u64::from(tile);
    let sum = stars(alloc, &[(piece, piece + 1)])?;
    post(board, 0, tile, sum)
}

/// Posts three tiles and folds what is ready behind each, then one of them from worker 1, and the last without edges. Tells who had posted each of them.
fn post_all(alloc: Global, board: &mut Blocks) -> Result<[Option<u32>; 5], AllocError>
    requires { board.old.tiles ≡ 4 }
{
    let first = post_edge(alloc, board, 0)?;
    fold_ready(alloc, board)?;
    let second = post_edge(alloc, board, 1)?;
    fold_ready(alloc, board)?;
    let third = post_edge(alloc, board, 2)?;
    fold_ready(alloc, board)?;
    let again = post(board, 1, 1, Joined::new(alloc))?;
    let last = post(board, 0, 3, Joined::new(alloc))?;
    Ok([first, second, third, again, last])
}

/// The posts that are made.
static POSTS: [Entry; 4] = [
    Entry { worker: 0, tile: 0 },
    Entry { worker: 0, tile: 1 },
    Entry { worker: 0, tile: 2 },
    Entry { worker: 0, tile: 3 },
];

/// Whether the first two tiles are one block, and the others are ready to be.
fn is_half_folded(board: &mut Blocks) -> bool {
    board.kept() == [(1, 0), (0, 2), (0, 3)].as_slice() && board.ready() == Some((1, 1))
}

/// Whether two blocks are ready to be one, of four tiles that worker 0 posted.
fn is_nearly_folded(board: &Blocks) -> bool {
    board.ready() == Some((2, 0))
        && board.poster(2) == Some(0)
        && board.history() == POSTS.as_slice()
}

/// Whether a board has all tiles, and they join the pieces 0 to 3 one after the other.
fn joins_all(state: &BoardState) -> bool {
    let rows = [(0, 0, false), (1, 0, true), (2, 0, false), (3, 0, true)];
    state.first_missing().is_none() && has_rows(state.joined(), &rows)
}

#[test]
fn what_is_ready_is_folded_before_each_post(rt: HostRuntime) -> Result<(), Fail> {
    let mut board = Blocks::new(rt.alloc(), 4)?;
    assert_eq!(rt; board.first_missing(), Some(0));
    let before = post_all(rt.alloc(), &mut board)?;
    assert_eq!(rt; before, [None, None, None, Some(0), None]);
    assert!(rt; is_half_folded(&mut board));
    fold_ready(rt.alloc(), &mut board)?;
    assert!(rt; is_nearly_folded(&board));
    assert!(rt; joins_all(&board.finish()?));
    Ok(())
}

/// Whether the first of two tiles is posted, and nothing is ready to be folded.
fn is_one_half(board: &mut Blocks) -> bool {
    board.kept() == [(0, 0)].as_slice() && board.ready().is_none()
}

#[test]
fn half_a_block_is_not_folded(rt: HostRuntime) -> Result<(), Fail> {
    let mut board = Blocks::new(rt.alloc(), 2)?;
    assert_eq!(rt; post_edge(rt.alloc(), &mut board, 0)?, None);
    let sum = stars(rt.alloc(), &[(0, 1), (1, 2)])?;
    assert!(rt; !board.fold(1, 0, sum));
    assert!(rt; is_one_half(&mut board));
    Ok(())
}
