//! A gate that holds a caller.
use crossbeam_utils::Backoff;
use mf_io::{Gate, Place};
use std::sync::Wait;
use std::sync::atomic::{AtomicBool, AtomicU64, Ordering};

/// How often a wait looks again, at most, so that it ends where nobody comes.
const LOOKS: u64 = 10_000_000;

/// A gate that holds whoever is the second to come before its pin, until it is opened.
#[derive(Drop)]
pub struct SecondPin {
    arrivals: AtomicU64,
    is_open: AtomicBool,
}

impl SecondPin {
    /// A gate at which nobody was.
    pub fn new() -> SecondPin {
        SecondPin {
            arrivals: AtomicU64::new(0),
            is_open: AtomicBool::new(false),
        }
    }

    /// Waits until somebody is held.
    pub fn await_holding(&self) {
        let backoff = Backoff::new();
        for _ in 0..LOOKS {
            if self.arrivals.load(Ordering::SeqCst) >= 2 {
                return;
            }
            backoff.snooze();
        }
    }

    /// Lets go whoever is held.
    pub fn open(&self) {
        self.is_open.store(true, Ordering::SeqCst);
    }

    /// Waits until the gate is opened.
    fn await_open(&self) {
        let backoff = Backoff::new();
        for _ in 0..LOOKS {
            if self.is_open.load(Ordering::SeqCst) {
                return;
            }
            backoff.snooze();
        }
    }
}

impl Gate for SecondPin {
    fn at<R: Wait>(&self, _rt: &R, place: Place) {
        if place == Place::BeforePin && self.arrivals.fetch_add(1, Ordering::SeqCst) == 1 {
            self.await_open();
        }
    }
}
