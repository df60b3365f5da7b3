//! Gates that hold workers until others have come. Each gives up after a number of turns, and tells that it did.

use dpl_pool::Gate;
use dpl_turn::Seat;
use std::sync::atomic::{AtomicU64, Ordering};
use std::thread::yield_now;

/// Holds one tile until the other has come, or was posted.
#[derive(Drop)]
pub struct Holds {
    held: u32,
    other: u32,
    waits_for_post: bool,
    came: AtomicU64,
    given_up: AtomicU64,
}

impl Holds {
    /// Holds the first tile until the second has come or, as said, was posted.
    pub fn new(held: u32, other: u32, waits_for_post: bool) -> Holds {
        Holds {
            held,
            other,
            waits_for_post,
            came: AtomicU64::new(0),
            given_up: AtomicU64::new(0),
        }
    }

    /// Whether the other tile was waited for in vain.
    pub fn has_given_up(&self) -> bool {
        self.given_up.load(Ordering::SeqCst) != 0
    }
}

impl Gate for Holds {
    fn enter(&self, _worker: u32, tile: u32) {
        if tile == self.other && !self.waits_for_post {
            self.came.store(1, Ordering::SeqCst);
        }
        if tile == self.held {
            for _ in 0..100_000_000u32 {
                if self.came.load(Ordering::SeqCst) == 1 {
                    return;
                }
                yield_now();
            }
            self.given_up.store(1, Ordering::SeqCst);
        }
    }

    fn posted(&self, _seat: &Seat, tile: u32) {
        if tile == self.other && self.waits_for_post {
            self.came.store(1, Ordering::SeqCst);
        }
    }
}

/// Holds each worker until so many are inside at once, so that each of them is there with a tile of its own.
#[derive(Drop)]
pub struct Assembly {
    asked: u64,
    came: AtomicU64,
    given_up: AtomicU64,
}

impl Assembly {
    /// Holds each worker until so many have come.
    pub fn new(asked: u32) -> Assembly {
        Assembly {
            asked: u64::from(asked),
            came: AtomicU64::new(0),
            given_up: AtomicU64::new(0),
        }
    }

    /// Whether some worker waited for the others in vain.
    pub fn has_given_up(&self) -> bool {
        self.given_up.load(Ordering::SeqCst) != 0
    }

    /// Whether nobody is to wait any longer.
    fn is_open(&self) -> bool {
        self.came.load(Ordering::SeqCst) >= self.asked || self.has_given_up()
    }
}

impl Gate for Assembly {
    fn enter(&self, _worker: u32, _tile: u32) {
        self.came.fetch_add(1, Ordering::SeqCst);
        for _ in 0..10_000_000u32 {
            if self.is_open() {
                return;
            }
            yield_now();
        }
        self.given_up.store(1, Ordering::SeqCst);
    }

    fn posted(&self, _seat: &Seat, _tile: u32) {}
}
