//! Workers of a pool, held at gates.
ghost use Rattle.std.specs.Prelude.{[], ◌∷◌, ◌<◌, replicate};

use crate::jobs::{Bare, PathAndStar, TwoTiles, has_rows, is_posted, rows_of};
use dpl_board::BoardState;
use dpl_pool::{Gate, OpenGate, run_pool};
use dpl_stars::{Joined, Star};
use dpl_test_gates::Holds;
use dpl_turn::Seat;
use std::alloc::{AllocError, Global};
use std::sync::Wait;
use std::sync::atomic::{AtomicU64, Ordering};
use std::test::*;
use std::thread::{Threads, yield_now};

/// Whether two tiles are posted, of which one is held for the other.
fn meets<R: Threads + Wait + Sync>(
    rt: &R,
    alloc: Global,
    held: u32,
    waits_for_post: bool,
) -> Result<bool, AllocError>
    requires { held < 2 }
{
    let gate = Holds::new(held, 1 - held, waits_for_post);
    let state = run_pool(rt, alloc, 2, &TwoTiles, &gate)?;
    Ok(state.history().len() == 2 && !gate.has_given_up())
}

#[test]
fn two_tiles_meet(rt: HostRuntime) -> Result<(), Fail> {
    for held in 0..2 {
        assert!(rt; meets(&rt, rt.alloc(), held, false)?);
    }
    Ok(())
}

#[test]
fn posted_early(rt: HostRuntime) -> Result<(), Fail> {
    for held in 0..2 {
        assert!(rt; meets(&rt, rt.alloc(), held, true)?);
    }
    Ok(())
}

/// Holds each of two tiles until the other has come, so that two workers are inside at once, and notes whose they are.
#[derive(Drop)]
struct Meeting {
    /// For each tile the number of the worker that came with it and one, or 0 before.
    came: [AtomicU64; 2],
    gave_up: AtomicU64,
}

impl Gate for Meeting {
    fn enter(&self, worker: u32, tile: u32) {
        let mine = (tile % 2) as usize;
        self.came[mine].store(u64::from(worker) + 1, Ordering::SeqCst);
        for _ in 0..100_000_000u32 {
            if self.came[1 - mine].load(Ordering::SeqCst) != 0 {
                return;
            }
            yield_now();
        }
        self.gave_up.store(1, Ordering::SeqCst);
    }

    fn posted(&self, _seat: &Seat, _tile: u32) {}
}

/// One more than the number of the worker that posted a tile, or 0 where none has.
fn poster_and_one(state: &BoardState, tile: u32) -> u64 {
    match state.poster(tile) {
        Some(by) => u64::from(by) + 1,
        None => 0,
    }
}

/// Whether two workers came, each with a tile of its own, and posted it.
fn are_by_comers(state: &BoardState, gate: &Meeting) -> bool {
    let first = gate.came[0].load(Ordering::SeqCst);
    let second = gate.came[1].load(Ordering::SeqCst);
    ((first, second) == (1, 2) || (first, second) == (2, 1))
        && poster_and_one(state, 0) == first
        && poster_and_one(state, 1) == second
}

#[test]
fn workers_come_and_post_under_their_numbers(rt: HostRuntime) -> Result<(), Fail> {
    let gate = Meeting {
        came: [AtomicU64::new(0), AtomicU64::new(0)],
        gave_up: AtomicU64::new(0),
    };
    let state = run_pool(&rt, rt.alloc(), 2, &TwoTiles, &gate)?;
    assert!(rt; gate.gave_up.load(Ordering::SeqCst) == 0);
    assert!(rt; are_by_comers(&state, &gate));
    Ok(())
}

#[test]
fn many_workers_post_few_tiles_once(rt: HostRuntime) -> Result<(), Fail> {
    let state = run_pool(&rt, rt.alloc(), 64, &Bare { tiles: 3 }, &OpenGate)?;
    assert!(rt; is_posted(&state, 3));
    let state = run_pool(&rt, rt.alloc(), 64, &Bare { tiles: 0 }, &OpenGate)?;
    assert!(rt; state.history().is_empty() && has_rows(state.joined(), &[]));
    Ok(())
}

/// Whether rows are those of pieces from 0 on, of which all are odd but 0 and 2.
fn are_around_2(rows: &[Star]) -> bool {
    let mut piece = 0u64;
    for row in rows {
        let odd = piece != 0 && piece != 2;
        if row.piece != piece || row.root != 0 || row.odd != odd {
            return false;
        }
        piece = piece.wrapping_add(1);
    }
    true
}

/// Whether a summary has 259 such rows, and no odd cycle.
fn joins_around_2(joined: &Joined) -> bool {
    match rows_of(joined) {
        Some(rows) => rows.len() == 259 && are_around_2(rows),
        None => false,
    }
}

#[test]
fn a_block_is_folded_before_many_rows_are_posted(rt: HostRuntime) -> Result<(), Fail> {
    let job = PathAndStar::new(rt.alloc(), 256)?;
    let state = run_pool(&rt, rt.alloc(), 1, &job, &OpenGate)?;
    assert!(rt; is_posted(&state, 3));
    assert!(rt; joins_around_2(state.joined()));
    Ok(())
}
