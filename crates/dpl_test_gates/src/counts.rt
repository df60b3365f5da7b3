//! Gates that count the workers that come.

use dpl_pool::Gate;
use dpl_turn::Seat;
use std::sync::atomic::{AtomicU64, Ordering};
use std::thread::yield_now;

/// Counts the workers inside, and holds each that comes for a number of turns, so that others can come.
#[derive(Drop)]
pub struct Crowd {
    asked: u64,
    inside: AtomicU64,
    most: AtomicU64,
    strangers: AtomicU64,
}

impl Crowd {
    /// Counts the workers of a pool that was asked for so many.
    pub fn new(asked: u32) -> Crowd {
        Crowd {
            asked: u64::from(asked),
            inside: AtomicU64::new(0),
            most: AtomicU64::new(0),
            strangers: AtomicU64::new(0),
        }
    }

    /// The most that were inside at once.
    pub fn most(&self) -> u64 {
        self.most.load(Ordering::SeqCst)
    }

    /// How many came whose number isn't below the number asked for.
    pub fn strangers(&self) -> u64 {
        self.strangers.load(Ordering::SeqCst)
    }
}

impl Gate for Crowd {
    fn enter(&self, worker: u32, _tile: u32) {
        if u64::from(worker) >= self.asked {
            self.strangers.fetch_add(1, Ordering::SeqCst);
        }
        let before = self.inside.fetch_add(1, Ordering::SeqCst);
        self.most
            .fetch_max(before.saturating_add(1), Ordering::SeqCst);
        for _ in 0..2_000u32 {
            if self.most.load(Ordering::SeqCst) > self.asked {
                return;
            }
            yield_now();
        }
    }

    fn posted(&self, _seat: &Seat, _tile: u32) {
        self.inside.fetch_sub(1, Ordering::SeqCst);
    }
}

/// Counts how often a tile is entered.
#[derive(Drop)]
pub struct Counts {
    entered: AtomicU64,
}

impl Counts {
    /// Nothing is counted yet.
    pub fn new() -> Counts {
        Counts {
            entered: AtomicU64::new(0),
        }
    }

    /// How often a tile was entered.
    pub fn entered(&self) -> u64 {
        self.entered.load(Ordering::SeqCst)
    }
}

impl Gate for Counts {
    fn enter(&self, _worker: u32, _tile: u32) {
        self.entered.fetch_add(1, Ordering::SeqCst);
    }

    fn posted(&self, _seat: &Seat, _tile: u32) {}
}
