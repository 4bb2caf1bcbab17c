ghost use Rattle.std.specs.Prelude.{◌≡◌, ◌≤◌, [], nat_lt, IfErr, IfOk, IsSome, OnOk, OnErr};
ghost use Rattle.std.specs.Option.{option_copied};
ghost use Rattle.mf_flight.specs.Sheets.{kept, outcome_of, slot_in, PutsIn};
ghost use Rattle.mf_flight.specs.declared.slot.State.TheVariants.{Claimed, Idle};
ghost use Rattle.mf_flight.specs.Slots.{asked, done, most_quits, quit, starts_of};
ghost use Rattle.mf_flight.specs.Sums.{IsSum};

use crate::slot::{Slot, State};
use std::alloc::{AllocError, Global};
use std::collections::BTreeMap;
use std::marker::Model;

/// The last value of quits.
const MOST_QUITS: u64 = 2_147_483_647;

/// The entries of one edition by their indices, with their totals.
#[derive(Debug, Drop)]
pub(crate) struct Sheet<P> {
    slots: BTreeMap<u32, Slot<P>>,
    starts: u64,
    quits: u64,
}

impl<P> Model for Sheet<P> {
    ghost use Rattle.std.specs.Prelude.{ℕ, List as Listed};
    ghost use Rattle.mf_flight.specs.declared.slot.Slot.{Slot as Kept};

    ghost Value = { Listed (ℕ × Kept P) };

    ghost use Rattle.mf_flight.specs.Sheets.{IsCounted};

    ghost view = { λ s. s.slots.entries };

    ghost invariant = { λ s. IsCounted s.slots.entries s.starts s.quits };
}

/// What became of a question for an entry.
#[derive(Clone, Copy, Debug, Drop)]
pub(crate) enum Outcome {
    Ready,
    Busy,
    Claimed,
}

impl<P: Drop> Sheet<P> {
    /// No entries.
    pub(crate) fn new(alloc: Global) -> Sheet<P>
        ensures { result ≡ [] }
    {
        Sheet {
            slots: BTreeMap::new(alloc),
            starts: 0,
            quits: 0,
        }
    }

    /// The entry of an index, if something is kept of it.
    pub(crate) fn get(&self, index: u32) -> Option<&Slot<P>>
        ensures { option_copied result ≡ kept self.now index }
    {
        self.slots.get(&index)
    }

    /// The starts and the quits of an entry.
    pub(crate) fn counts(&self, index: u32) -> (u64, u64)
        ensures starts { result.0 ≡ starts_of (slot_in self.now index) }
        ensures quits { result.1 ≡ (slot_in self.now index).quits }
    {
        match self.slots.get(&index) {
            None => (0, 0),
            Some(slot) => (slot.quits + slot.state.taken(), slot.quits),
        }
    }

    /// The sums of the starts and of the quits.
    pub(crate) fn totals(&self) -> (u64, u64)
        ensures starts { IsSum (λ i. starts_of (slot_in self.now i)) result.0 }
        ensures quits { IsSum (λ i. (slot_in self.now i).quits) result.1 }
    {
        (self.starts, self.quits)
    }

    /// Claims an entry that is idle.
    pub(crate) fn ask(&mut self, index: u32) -> Result<Outcome, AllocError>
        ensures outcome { IfOk result (λ outcome. outcome ≡ outcome_of
            (slot_in self.old index).state) }
        ensures ok { OnOk result (PutsIn self.old self.new index (asked (slot_in self.old index))) }
        ensures err { OnErr result (self.new ≡ self.old) }
    {
        let quits = match idle_quits(&self.slots, index) {
            Ok(quits) => quits,
            Err(outcome) => return Ok(outcome),
        };
        claim(&mut self.slots, index, quits)?;
        self.starts += 1;
        Ok(Outcome::Claimed)
    }

    /// Makes a claimed entry ready.
    pub(crate) fn finish(&mut self, index: u32, plan: P)
        requires { (slot_in self.old index).state ≡ Claimed }
        ensures { PutsIn self.old self.new index (done (slot_in self.old index) plan) }
    {
        set_state(&mut self.slots, index, State::Ready(plan));
    }

    /// Makes a claimed entry idle, with one more quit.
    pub(crate) fn give_back(&mut self, index: u32)
        requires { (slot_in self.old index).state ≡ Claimed }
        ensures { PutsIn self.old self.new index (quit (slot_in self.old index)) }
    {
        if raise_quits(&mut self.slots, index) {
            self.quits += 1;
        } else {
            self.starts -= 1;
        }
    }
}

/// The quits of an entry that is idle, or what comes of a question for it where it isn't.
fn idle_quits<P: Drop>(slots: &BTreeMap<u32, Slot<P>>, index: u32) -> Result<u64, Outcome>
    ensures idle { IfOk result (λ quits. slot_in slots.now.entries index
        ≡ record { state = Idle; quits = quits }) }
    ensures outcome { IfErr result (λ outcome. outcome ≡ outcome_of
        (slot_in slots.now.entries index).state) }
    ensures taken { IfErr result (λ _. asked (slot_in slots.now.entries index)
        ≡ slot_in slots.now.entries index) }
{
    let Some(slot) = slots.get(&index) else {
        return Ok(0);
    };
    match slot.state {
        State::Idle => Ok(slot.quits),
        State::Claimed => Err(Outcome::Busy),
        State::Ready(_) => Err(Outcome::Ready),
    }
}

/// Claims an entry that has so many quits.
fn claim<P: Drop>(
    slots: &mut BTreeMap<u32, Slot<P>>,
    index: u32,
    quits: u64,
) -> Result<(), AllocError>
    ensures ok { OnOk result (PutsIn slots.old.entries slots.new.entries index
        (record { state = Claimed; quits = quits })) }
    ensures err { OnErr result (slots.new.entries ≡ slots.old.entries) }
{
    let state = State::Claimed;
    slots.insert(index, Slot { state, quits })?;
    Ok(())
}

/// Gives an entry another state.
fn set_state<P: Drop>(slots: &mut BTreeMap<u32, Slot<P>>, index: u32, state: State<P>)
    requires { IsSome (kept slots.old.entries index) }
    ensures { PutsIn slots.old.entries slots.new.entries index
        (record (slot_in slots.old.entries index) { state = state }) }
{
    if let Some(slot) = slots.get_mut(&index) {
        slot.state = state;
    }
}

/// Makes an entry idle, with one more quit unless it has as many as it may. Whether it has got one.
fn raise_quits<P: Drop>(slots: &mut BTreeMap<u32, Slot<P>>, index: u32) -> bool
    requires there { IsSome (kept slots.old.entries index) }
    requires small { (slot_in slots.old.entries index).quits ≤ most_quits }
    ensures puts { PutsIn slots.old.entries slots.new.entries index
        (quit (slot_in slots.old.entries index)) }
    ensures raised { result ≡ nat_lt (slot_in slots.old.entries index).quits most_quits }
{
    match slots.get_mut(&index) {
        None => false,
        Some(slot) => {
            slot.state = State::Idle;
            let raised = slot.quits < MOST_QUITS;
            slot.quits = (slot.quits + 1).min(MOST_QUITS);
            raised
        }
    }
}
