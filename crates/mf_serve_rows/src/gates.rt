//! Gates that hold a session until others are over.

use mf_io::{Gate, Place};
use std::sync::Wait;
use std::sync::atomic::{AtomicBool, AtomicU64, Ordering};
use std::thread;

/// How many turns are given away at most.
const TURNS: u32 = 5_000_000;

/// A gate that holds the first session to come until so many are over, and counts those.
#[derive(Drop)]
pub struct HoldsFirst {
    /// How many sessions have written all that they write.
    pub answered: AtomicU64,
    /// Whether someone went on before the others were over, for want of turns.
    pub gave_up: AtomicBool,
    came: AtomicU64,
    until: u64,
}

impl HoldsFirst {
    /// A gate whose first session waits until so many are over.
    pub fn new(until: u64) -> HoldsFirst {
        HoldsFirst {
            answered: AtomicU64::new(0),
            gave_up: AtomicBool::new(false),
            came: AtomicU64::new(0),
            until,
        }
    }

    /// Gives turns away until so many sessions are over.
    pub fn wait_until(&self, answered: u64) {
        for _ in 0..TURNS {
            if self.answered.load(Ordering::SeqCst) >= answered {
                return;
            }
            thread::yield_now();
        }
        self.gave_up.store(true, Ordering::SeqCst);
    }
}

impl Gate for HoldsFirst {
    fn at<R: Wait>(&self, _rt: &R, place: Place) {
        match place {
            Place::BeforePin => {
                if self.came.fetch_add(1, Ordering::SeqCst) == 0 {
                    self.wait_until(self.until);
                }
            }
            Place::BeforeCompile => {}
            Place::AfterCompile => {
                self.answered.fetch_add(1, Ordering::SeqCst);
            }
        }
    }
}
