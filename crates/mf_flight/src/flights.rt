ghost use Rattle.std.specs.Prelude.{◌≡◌, ◌≢◌, ℕ, None, IfOk, OnOk, OnErr};
ghost use Rattle.std.specs.Option.{option_copied};
ghost use Rattle.mf_flight.specs.Flights.{answer_to, slot_of, IsSame, Puts, Retires};
ghost use Rattle.mf_flight.specs.Sheets.{kept, outcome_of, slot_at, IsSameAt, PutsAt};
ghost use Rattle.mf_flight.specs.Slots.{asked, done, fresh, plan_of, quit, starts_of};
ghost use Rattle.mf_flight.specs.Sums.{IsSum};
ghost use Rattle.mf_flight.specs.declared.slot.State.TheVariants.{Claimed};

use crate::sheet::{Outcome, Sheet};
use crate::slot::State;
use crate::ticket::{Spent, Ticket};
use std::alloc::{AllocError, Global};
use std::collections::BTreeMap;

/// The compilations of the messages of all editions: an entry for each edition and index, which is
/// idle, or claimed by whoever holds its ticket, or ready with what was made of it.
#[derive(Debug, Drop)]
pub struct Flights<P> {
    alloc: Global,
    sheets: BTreeMap<u64, Sheet<P>>,
}

/// The answer to who asks for an entry.
#[derive(Debug)]
pub enum Asked {
    /// It is ready.
    Ready,
    /// It is claimed.
    Busy,
    /// It was idle, and who asked has claimed it and holds its ticket.
    Claimed(Ticket),
}

impl<P: Drop> Flights<P> {
    /// No entries, which take no memory.
    pub fn new(alloc: Global) -> Flights<P>
        ensures { (e i : ℕ) → slot_of result e i ≡ fresh }
    {
        Flights {
            alloc,
            sheets: BTreeMap::new(alloc),
        }
    }

    /// Claims an entry that is idle.
    pub fn ask(&mut self, edition: u64, index: u32) -> Result<Asked, AllocError>
        ensures answer { IfOk result (λ a. a ≡ answer_to
            (slot_of self.old edition index).state edition index) }
        ensures ok { OnOk result (Puts self.old self.new edition index
            (asked (slot_of self.old edition index))) }
        ensures err { OnErr result (IsSame self.old self.new) }
    {
        let outcome = ask_among(self.alloc, &mut self.sheets, edition, index)?;
        Ok(match outcome {
            Outcome::Ready => Asked::Ready,
            Outcome::Busy => Asked::Busy,
            Outcome::Claimed => Asked::Claimed(Ticket::new(edition, index)),
        })
    }

    /// What an entry is ready with, if it is ready.
    pub fn get(&self, edition: u64, index: u32) -> Option<&P>
        ensures { option_copied result ≡ plan_of (slot_of self.now edition index).state }
    {
        let sheet = self.sheets.get(&edition)?;
        let slot = sheet.get(index)?;
        match &slot.state {
            State::Idle | State::Claimed => None,
            State::Ready(plan) => Some(plan),
        }
    }

    /// How often an entry was claimed and how often its ticket was given back, the latter up to
    /// 2^31 - 1: its starts are its quits, and one more where it is claimed or ready.
    pub fn counts(&self, edition: u64, index: u32) -> (u64, u64)
        ensures starts { result.0 ≡ starts_of (slot_of self.now edition index) }
        ensures quits { result.1 ≡ (slot_of self.now edition index).quits }
    {
        match self.sheets.get(&edition) {
            None => (0, 0),
            Some(sheet) => sheet.counts(index),
        }
    }

    /// The sums of the starts and of the quits of an edition's entries.
    pub fn totals(&self, edition: u64) -> (u64, u64)
        ensures starts { IsSum (λ i. starts_of (slot_of self.now edition i)) result.0 }
        ensures quits { IsSum (λ i. (slot_of self.now edition i).quits) result.1 }
    {
        match self.sheets.get(&edition) {
            None => (0, 0),
            Some(sheet) => sheet.totals(),
        }
    }

    /// Makes a claimed entry ready.
    pub fn done(&mut self, spent: Spent, plan: P)
        requires { (slot_of self.old spent.0 spent.1).state ≡ Claimed }
        ensures { Puts self.old self.new spent.0 spent.1
            (done (slot_of self.old spent.0 spent.1) plan) }
    {
        finish_among(&mut self.sheets, spent.edition(), spent.index(), plan);
    }

    /// Takes a ticket back: its entry is idle again, and has one more quit unless it has 2^31 - 1.
    pub fn quit(&mut self, ticket: Ticket)
        requires { (slot_of self.old ticket.0 ticket.1).state ≡ Claimed }
        ensures { Puts self.old self.new ticket.0 ticket.1
            (quit (slot_of self.old ticket.0 ticket.1)) }
    {
        let spent = ticket.spend();
        give_back_among(&mut self.sheets, spent.edition(), spent.index());
    }

    /// Drops the entries of an edition.
    pub fn retire(&mut self, edition: u64)
        requires { (i : ℕ) → (slot_of self.old edition i).state ≢ Claimed }
        ensures { Retires self.old self.new edition }
    {
        self.sheets.remove(&edition);
    }
}

/// Claims an entry that is idle.
fn ask_among<P: Drop>(
    alloc: Global,
    sheets: &mut BTreeMap<u64, Sheet<P>>,
    edition: u64,
    index: u32,
) -> Result<Outcome, AllocError>
    ensures outcome { IfOk result (λ o. o ≡ outcome_of
        (slot_at sheets.old.entries edition index).state) }
    ensures ok { OnOk result (PutsAt sheets.old.entries sheets.new.entries edition index
        (asked (slot_at sheets.old.entries edition index))) }
    ensures err { OnErr result (IsSameAt sheets.old.entries sheets.new.entries) }
{
    if let Some(sheet) = sheets.get_mut(&edition) {
        return sheet.ask(index);
    }
    ask_first(alloc, sheets, edition, index)
}

/// Claims the first entry of an edition.
fn ask_first<P: Drop>(
    alloc: Global,
    sheets: &mut BTreeMap<u64, Sheet<P>>,
    edition: u64,
    index: u32,
) -> Result<Outcome, AllocError>
    requires { kept sheets.old.entries edition ≡ None }
    ensures outcome { IfOk result (λ o. o ≡ outcome_of
        (slot_at sheets.old.entries edition index).state) }
    ensures ok { OnOk result (PutsAt sheets.old.entries sheets.new.entries edition index
        (asked (slot_at sheets.old.entries edition index))) }
    ensures err { OnErr result (IsSameAt sheets.old.entries sheets.new.entries) }
{
    let mut sheet = Sheet::new(alloc);
    let outcome = sheet.ask(index)?;
    sheets.insert(edition, sheet)?;
    Ok(outcome)
}

/// Makes a claimed entry ready.
fn finish_among<P: Drop>(sheets: &mut BTreeMap<u64, Sheet<P>>, edition: u64, index: u32, plan: P)
    requires { (slot_at sheets.old.entries edition index).state ≡ Claimed }
    ensures { PutsAt sheets.old.entries sheets.new.entries edition index
        (done (slot_at sheets.old.entries edition index) plan) }
{
    if let Some(sheet) = sheets.get_mut(&edition) {
        sheet.finish(index, plan);
    }
}

/// Makes a claimed entry idle, with one more quit.
fn give_back_among<P: Drop>(sheets: &mut BTreeMap<u64, Sheet<P>>, edition: u64, index: u32)
    requires { (slot_at sheets.old.entries edition index).state ≡ Claimed }
    ensures { PutsAt sheets.old.entries sheets.new.entries edition index
        (quit (slot_at sheets.old.entries edition index)) }
{
    if let Some(sheet) = sheets.get_mut(&edition) {
        sheet.give_back(index);
    }
}
