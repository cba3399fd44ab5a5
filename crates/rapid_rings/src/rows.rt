// The processes that a table names, and a row for each.

ghost use Rattle.std.specs.Prelude.{◌≡◌, ◌<◌, ℕ, true, false, Some, length, slice_get, IfOk, IfSome, OnOk, OnErr};
ghost use Rattle.std.specs.Option.{option_map, option_and_then};
ghost use Rattle.std.specs.FinSet as set;
ghost use Rattle.std.specs.FinMap as finmap;
ghost use Rattle.rapid_model.specs.Limits.{most_rings};
ghost use Rattle.rapid_model.specs.Process.{Process as ModelProcess, is_in};
ghost use Rattle.rapid_rings.specs.Rows.{AreRows, SaySame, AddsJoiner, AddsEdge, no_rows, place_in, is_unobserved_in, is_counted_in, joiners_of, edges_of};

use crate::maybe_place::MaybePlace;
use crate::row::Row;
use rapid_endpoint::{KeptProcess, ProcessRef};
use rapid_roster::Roster;
use std::alloc::{AllocError, Global};
use std::marker::Model;

/// The processes that a table names, each once, and a row for each, at the same place.
#[derive(Debug, Drop)]
pub(crate) struct Rows {
    named: Roster,
    rows: Vec<Row>,
    alloc: Global,
}

impl Model for Rows {
    ghost use Rattle.rapid_rings.specs.Rows.{Rows as ModelRows, AreRows};

    ghost Value = { ModelRows };

    ghost view = { λ x. record { names = x.named; rows = x.rows.items } };

    ghost invariant = { λ x. AreRows (record { names = x.named; rows = x.rows.items }) };
}

impl Rows {
    /// Nobody is named.
    pub(crate) fn new(alloc: Global) -> Rows
        ensures { result ≡ no_rows }
    {
        Rows {
            named: Roster::new(alloc),
            rows: Vec::new(alloc),
            alloc,
        }
    }

    /// The place of a process, if it is named.
    pub(crate) fn find(&self, process: &ProcessRef<'_>) -> Option<usize>
        ensures { result ≡ place_in self.now process.now }
    {
        self.named.find(process)
    }

    /// The place of a process, if it is named. It is searched for only if it is not at the guessed
    /// place.
    pub(crate) fn find_near(&self, guess: usize, process: &ProcessRef<'_>) -> Option<usize>
        ensures { result ≡ place_in self.now process.now }
    {
        if self.is_at(guess, process) {
            Some(guess)
        } else {
            self.named.find(process)
        }
    }

    // Whether a process is at this place. False says nothing.
    fn is_at(&self, place: usize, process: &ProcessRef<'_>) -> bool
        ensures { result ≡ true → place_in self.now process.now ≡ Some place }
    {
        match self.named.as_slice().get(place) {
            Some(named) => named.is(process),
            None => false,
        }
    }

    // The row at a place.
    fn row(&self, place: Option<usize>) -> Option<&Row>
        ensures row { option_map (λ row. row.now) result ≡ option_and_then (slice_get self.now.rows) place }
        ensures rules { AreRows self.now }
    {
        self.rows.get(place?)
    }

    /// Whether the process with this place is a joiner.
    pub(crate) fn is_joiner(&self, place: Option<usize>) -> bool
        ensures { (process : ModelProcess) → place ≡ place_in self.now process → result ≡ set.contains (joiners_of self.now) process }
    {
        match self.row(place) {
            Some(row) => row.is_joiner,
            None => false,
        }
    }

    /// Whether the process with this place is a member without an observer.
    pub(crate) fn is_unobserved_member(&self, place: Option<usize>) -> bool
        ensures { (process : ModelProcess) → place ≡ place_in self.now process → result ≡ is_unobserved_in self.now process }
    {
        match self.row(place) {
            Some(row) => row.is_unobserved_member(),
            None => true,
        }
    }

    /// The observer on a ring of the process with this place.
    pub(crate) fn observer(&self, place: Option<usize>, ring: u8) -> Option<ProcessRef<'_>>
        ensures { (process : ModelProcess) → place ≡ place_in self.now process → result ≡ finmap.get (edges_of self.now) (process, ring) }
    {
        let observer = self.row(place)?.observer(ring)?;
        Some(self.named.as_slice().get(observer)?.as_ref())
    }

    /// Makes a process a joiner; whether it was a member with an observer. If out of memory the same
    /// is said of all as before.
    pub(crate) fn add_joiner(&mut self, process: &ProcessRef<'_>) -> Result<bool, AllocError>
        ensures added { OnOk result (AddsJoiner self.old self.new process.now) }
        ensures counted { IfOk result (λ counted. counted ≡ is_counted_in self.old process.now) }
        ensures unchanged { OnErr result (SaySame self.old self.new) }
    {
        let found = self.named.find(process);
        let place = self.place_for(found, process)?;
        self.tell();
        Ok(self.make_joiner(place))
    }

    /// Sets the observer on a ring of the subject, which has this place if it is named; whether it
    /// is a member that had no observer. If out of memory the same is said of all as before.
    pub(crate) fn add_edge(
        &mut self,
        ring: u8,
        observer: &ProcessRef<'_>,
        subject: &ProcessRef<'_>,
        place: Option<usize>,
    ) -> Result<bool, AllocError>
        requires ring { ring < most_rings }
        requires place { place ≡ place_in self.old subject.now }
        ensures added { OnOk result (AddsEdge self.old self.new ring observer.now subject.now) }
        ensures counts { IfOk result (λ counts. counts ≡ is_unobserved_in self.old subject.now) }
        ensures unchanged { OnErr result (SaySame self.old self.new) }
    {
        let place = self.place_for(place, subject)?;
        let found = self.named.find(observer);
        let by = self.place_for(found, observer)?;
        self.tell();
        Ok(self.set_observer(place, ring, MaybePlace::of(by)?))
    }

    // Makes the process at a place a joiner; whether it was a member with an observer.
    fn make_joiner(&mut self, place: usize) -> bool
        requires { place < length self.old.rows }
        ensures added { (p : ModelProcess) → place_in self.old p ≡ Some place → AddsJoiner self.old self.new p }
        ensures counted { (p : ModelProcess) → place_in self.old p ≡ Some place → result ≡ is_counted_in self.old p }
    {
        let row = &mut self.rows[place];
        let counted = row.is_observed_member();
        row.is_joiner = true;
        counted
    }

    // Sets the observer on a ring of the process at a place; whether it is a member that had none.
    fn set_observer(&mut self, place: usize, ring: u8, observer: MaybePlace) -> bool
        requires place { place < length self.old.rows }
        requires ring { ring < most_rings }
        requires observer { IfSome observer (λ o. o < length self.old.names) }
        ensures added { (by : ℕ) (o s : ModelProcess) → observer ≡ Some by → place_in self.old s ≡ Some place → place_in self.old o ≡ Some by → AddsEdge self.old self.new ring o s }
        ensures counts { (s : ModelProcess) → place_in self.old s ≡ Some place → result ≡ is_unobserved_in self.old s }
    {
        let row = &mut self.rows[place];
        let counts = row.is_unobserved_member();
        row.is_observed = true;
        row.observers[usize::from(ring)] = observer;
        counts
    }

    // The place of a process, which is named from now on. It was found at this place, if it was named.
    fn place_for(
        &mut self,
        found: Option<usize>,
        process: &ProcessRef<'_>,
    ) -> Result<usize, AllocError>
        requires { found ≡ place_in self.old process.now }
        ensures place { IfOk result (λ place. place_in self.new process.now ≡ Some place) }
        ensures same { SaySame self.old self.new }
    {
        match found {
            Some(place) => Ok(place),
            None => self.push(process),
        }
    }

    // Names a process; its place.
    fn push(&mut self, process: &ProcessRef<'_>) -> Result<usize, AllocError>
        requires { is_in self.old.names process.now ≡ false }
        ensures place { IfOk result (λ place. place_in self.new process.now ≡ Some place) }
        ensures same { SaySame self.old self.new }
    {
        let place = self.named.len();
        self.rows.reserve(1)?;
        self.named.push(KeptProcess::new(self.alloc, process)?)?;
        self.named.tell();
        self.rows.push_reserved(Row::BLANK);
        Ok(place)
    }

    // What holds of all rows. It does nothing: what it ensures is for proofs.
    fn tell(&self)
        ensures { AreRows self.now }
    {
        let _ = &self.rows;
    }
}
