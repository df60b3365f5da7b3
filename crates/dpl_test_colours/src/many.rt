//! Workers of a pool of many jobs, held at gates.
ghost use Rattle.std.specs.Prelude.{[], ◌∷◌, ◌<◌, if◌then◌else◌, replicate};

use crate::jobs::{Bare, is_posted};
use dpl_board::{BoardState, Entry, Job};
use dpl_pool::{Gate, OpenGate, run_many};
use dpl_stars::{Joined, stars};
use dpl_test_gates::Holds;
use dpl_turn::Seat;
use std::alloc::{AllocError, Global};
use std::sync::Wait;
use std::sync::atomic::{AtomicU64, Ordering};
use std::test::*;
use std::thread::Threads;

/// One tile with the edges of a triangle, or of a path.
#[derive(Drop)]
struct OneTile {
    is_odd: bool,
}

impl Job for OneTile {
    ghost sheet = { λ job. (if job.is_odd then (0, 1) ∷ (0, 2) ∷ (1, 2) ∷ [] else (0, 1) ∷ (1, 2) ∷ []) ∷ [] };

    fn tiles(&self) -> u32 {
        1
    }

    fn summary(&self, alloc: Global, _tile: u32) -> Result<Joined, AllocError> {
        if self.is_odd {
            stars(alloc, &[(0, 1), (0, 2), (1, 2)])
        } else {
            stars(alloc, &[(0, 1), (1, 2)])
        }
    }
}

/// Whether a board has one post, and an odd cycle or none.
fn has_one(state: &BoardState, is_odd: bool) -> bool {
    state.history().len() == 1 && state.joined().is_odd() == is_odd
}

/// Whether two workers are inside at once with the tiles of two jobs, of which one is odd.
fn meet<R: Threads + Wait + Sync>(
    rt: &R,
    alloc: Global,
    held: u32,
    odd: bool,
) -> Result<bool, AllocError>
    requires { held < 2 }
{
    let jobs = [OneTile { is_odd: odd }, OneTile { is_odd: !odd }];
    let gate = Holds::new(held, 1 - held, false);
    let states = run_many(rt, alloc, 2, &jobs, &gate)?;
    match states.as_slice() {
        [first, second] => {
            Ok(!gate.has_given_up() && has_one(first, odd) && has_one(second, !odd))
        }
        _ => Ok(false),
    }
}

#[test]
fn tiles_of_two_jobs_meet(rt: HostRuntime) -> Result<(), Fail> {
    for held in 0..2 {
        assert!(rt; meet(&rt, rt.alloc(), held, false)?);
        assert!(rt; meet(&rt, rt.alloc(), held, true)?);
    }
    Ok(())
}

/// Counts how often each number comes.
#[derive(Drop)]
struct Tally {
    entered: [AtomicU64; 5],
    posted: [AtomicU64; 3],
}

impl Gate for Tally {
    fn enter(&self, _worker: u32, tile: u32) {
        if tile < 5 {
            self.entered[tile as usize].fetch_add(1, Ordering::SeqCst);
        }
    }

    fn posted(&self, seat: &Seat, tile: u32) {
        if tile < 3 && seat.seen() > 0 {
            self.posted[tile as usize].fetch_add(1, Ordering::SeqCst);
        }
    }
}

/// Whether each tile of each job is posted once.
fn are_posted(states: &[BoardState], jobs: &[Bare]) -> bool {
    for (state, job) in states.iter().zip(jobs) {
        if !is_posted(state, job.tiles) {
            return false;
        }
    }
    states.len() == jobs.len()
}

/// Whether numbers came so often.
fn came(counts: &[AtomicU64], want: &[u64]) -> bool {
    for (count, want) in counts.iter().zip(want) {
        if count.load(Ordering::SeqCst) != *want {
            return false;
        }
    }
    counts.len() == want.len()
}

/// Whether each of five numbers came once, each of two jobs has posted its first two tiles, and one its third.
fn have_come(gate: &Tally) -> bool {
    came(&gate.entered, &[1, 1, 1, 1, 1]) && came(&gate.posted, &[2, 2, 1])
}

#[test]
fn tiles_are_numbered_over_all_jobs_and_posted_within_each(rt: HostRuntime) -> Result<(), Fail> {
    let gate = Tally {
        entered: [0; 5].map(AtomicU64::new),
        posted: [0; 3].map(AtomicU64::new),
    };
    let jobs = [
        Bare { tiles: 0 },
        Bare { tiles: 2 },
        Bare { tiles: 0 },
        Bare { tiles: 0 },
        Bare { tiles: 3 },
        Bare { tiles: 0 },
    ];
    let states = run_many(&rt, rt.alloc(), 64, &jobs, &gate)?;
    assert!(rt; are_posted(&states, &jobs));
    assert!(rt; have_come(&gate));
    Ok(())
}

#[test]
fn no_jobs_have_no_boards(rt: HostRuntime) -> Result<(), Fail> {
    let none: [Bare; 0] = [];
    let states = run_many(&rt, rt.alloc(), 3, &none, &OpenGate)?;
    assert!(rt; states.is_empty());
    let states = run_many(&rt, rt.alloc(), 3, &[Bare { tiles: 0 }], &OpenGate)?;
    assert!(rt; states.len() == 1);
    Ok(())
}
