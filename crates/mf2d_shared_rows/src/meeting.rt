//! A gate at which the first caller waits for the second.
use crossbeam_utils::Backoff;
use mf_io::{Gate, Place};
use std::sync::Wait;
use std::sync::atomic::{AtomicBool, AtomicU64, Ordering};

/// How often the first caller looks whether the second has come.
const MOST_TURNS: u64 = 100_000_000;

/// The first caller that is about to pin waits for the second, at most so many turns.
#[derive(Drop)]
pub struct Meeting {
    arrivals: AtomicU64,
    met: AtomicBool,
}

impl Meeting {
    pub fn new() -> Meeting {
        Meeting {
            arrivals: AtomicU64::new(0),
            met: AtomicBool::new(false),
        }
    }

    /// Whether the second came while the first waited.
    pub fn has_met(&self) -> bool {
        self.met.load(Ordering::SeqCst)
    }
}

impl Gate for Meeting {
    fn at<R: Wait>(&self, _rt: &R, place: Place) {
        if place != Place::BeforePin || self.arrivals.fetch_add(1, Ordering::SeqCst) != 0 {
            return;
        }
        let backoff = Backoff::new();
        for _ in 0..MOST_TURNS {
            if self.arrivals.load(Ordering::SeqCst) != 1 {
                self.met.store(true, Ordering::SeqCst);
                return;
            }
            backoff.snooze();
        }
    }
}
