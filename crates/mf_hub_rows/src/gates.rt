//! Gates that hold callers, or count them.
use crossbeam_utils::Backoff;
use mf_io::{Gate, Place};
use std::cell::Cell;
use std::sync::Wait;
use std::sync::atomic::{AtomicBool, AtomicU64, Ordering};

/// A gate that holds who comes to one place until it is opened, but no longer than so many turns.
#[derive(Drop)]
pub struct Hold {
    place: Place,
    turns: u64,
    before_pin: AtomicU64,
    before_compile: AtomicU64,
    after_compile: AtomicU64,
    open: AtomicBool,
    left: AtomicBool,
}

impl Hold {
    /// A gate that is shut at a place.
    pub fn new(place: Place, turns: u64) -> Hold {
        Hold {
            place,
            turns,
            before_pin: AtomicU64::new(0),
            before_compile: AtomicU64::new(0),
            after_compile: AtomicU64::new(0),
            open: AtomicBool::new(false),
            left: AtomicBool::new(false),
        }
    }

    /// Lets go on who is held, and whoever comes later.
    pub fn open(&self) {
        self.open.store(true, Ordering::SeqCst);
    }

    /// Whether somebody went on because its turns were over.
    pub fn was_left(&self) -> bool {
        self.left.load(Ordering::SeqCst)
    }

    /// How often somebody has come to a place.
    pub fn come(&self, place: Place) -> u64 {
        self.count(place).load(Ordering::SeqCst)
    }

    /// Waits until somebody has come to a place so often, but no longer than the gate's turns, and
    /// says whether that is so.
    pub fn await_at(&self, place: Place, times: u64) -> bool {
        let backoff = Backoff::new();
        for _ in 0..self.turns {
            if self.come(place) >= times {
                return true;
            }
            backoff.snooze();
        }
        false
    }

    fn count(&self, place: Place) -> &AtomicU64 {
        match place {
            Place::BeforePin => &self.before_pin,
            Place::BeforeCompile => &self.before_compile,
            Place::AfterCompile => &self.after_compile,
        }
    }

    /// Waits until the gate is opened, but no longer than its turns.
    fn stay(&self) {
        let backoff = Backoff::new();
        for _ in 0..self.turns {
            if self.open.load(Ordering::SeqCst) {
                return;
            }
            backoff.snooze();
        }
        self.left.store(true, Ordering::SeqCst);
    }
}

impl Gate for Hold {
    fn at<R: Wait>(&self, _rt: &R, place: Place) {
        self.count(place).fetch_add(1, Ordering::SeqCst);
        if place == self.place {
            self.stay();
        }
    }
}

/// A gate that holds nobody, and counts how often its caller has compiled.
#[derive(Drop)]
pub struct Compilations {
    count: Cell<u64>,
}

impl Compilations {
    /// A gate at which nobody has compiled.
    pub fn new() -> Compilations {
        Compilations {
            count: Cell::new(0),
        }
    }

    /// How often its caller has compiled.
    pub fn count(&self) -> u64 {
        self.count.get()
    }
}

impl Gate for Compilations {
    fn at<R: Wait>(&self, _rt: &R, place: Place) {
        if place == Place::AfterCompile {
            self.count.set(self.count.get().saturating_add(1));
        }
    }
}
