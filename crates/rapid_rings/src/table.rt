// Tables of explicit edges.

ghost use Rattle.std.specs.Prelude.{◌≡◌, None, not, ◌&&◌, OnOk, OnErr, IfErr, nat_lt, if◌then◌else◌};
ghost use Rattle.std.specs.FinMap as finmap;
ghost use Rattle.rapid_model.specs.Limits.{most_members};
ghost use Rattle.rapid_model.specs.Process.{Process as ModelProcess};
ghost use Rattle.rapid_model.specs.Table.{empty_table, add_fault, after_add, after_joiner, table_observers};
ghost use Rattle.rapid_rings.specs.Faults.{Reports, ReportsIfAny};
ghost use Rattle.rapid_rings.specs.Rows.{Holds, table_of, place_in, edges_of, is_unobserved_in};

use crate::rows::Rows;
use crate::{ObserverTable, TableError};
use rapid_config::{ConfigId, Configuration, Params};
use rapid_endpoint::{Process, ProcessRef};
use std::alloc::{AllocError, Global};
use std::marker::Model;

/// A table of explicit edges. A process that was not declared a joiner is a member.
#[derive(Debug, Drop)]
pub struct Table {
    params: Params,
    rows: Rows,
    // how many members have an observer
    observed: usize,
}

impl Model for Table {
    ghost use Rattle.rapid_model.specs.Table.{Table as ModelTable, table_code};
    ghost use Rattle.rapid_rings.specs.Rows.{Holds, table_of};

    ghost Value = { ModelTable };

    ghost coded = { table_code };

    ghost view = { λ t. table_of t.params t.rows };

    ghost invariant = { λ t. Holds t.params t.rows t.observed };
}

impl Table {
    /// A table with no joiners and no edges.
    pub fn new(alloc: Global, params: Params) -> Table
        ensures { result ≡ empty_table params }
    {
        let _ = params.k();
        Table {
            params,
            rows: Rows::new(alloc),
            observed: 0,
        }
    }

    /// Declares a joiner: from now on the process is no member. If out of memory the table is as it
    /// was.
    pub fn joiner(&mut self, process: Process) -> Result<(), AllocError>
        ensures ok { OnOk result (self.new ≡ after_joiner self.old process) }
        ensures unchanged { OnErr result (self.new ≡ self.old) }
    {
        if self.rows.add_joiner(&process.as_ref())? {
            self.observed -= 1;
        }
        Ok(())
    }

    /// Adds an edge: `observer` observes `subject` on a ring from 0. The first of these that holds
    /// is the error. `TooMany` if the subject is a member without an observer and 1,024 members
    /// have one. `RingRange` if the ring is not below K. `EdgeTwice` if the subject has an observer
    /// on this ring. After each error, `OutOfMemory` too, the table is as it was.
    pub fn add(&mut self, ring: u8, observer: Process, subject: Process) -> Result<(), TableError>
        ensures ok { OnOk result (self.new ≡ after_add self.old ring observer subject) }
        ensures allowed { OnOk result (add_fault self.old ring subject ≡ None) }
        ensures refused { IfErr result (Reports (add_fault self.old ring subject)) }
        ensures unchanged { OnErr result (self.new ≡ self.old) }
    {
        let subject = subject.as_ref();
        let place = self.rows.find(&subject);
        if let Some(error) = fault(self.params, &self.rows, self.observed, ring, place) {
            return Err(error);
        }
        if self
            .rows
            .add_edge(ring, &observer.as_ref(), &subject, place)?
        {
            self.observed += 1;
        }
        Ok(())
    }
}

// Whether one more edge of the subject with this place would be that of a 1,025th member.
fn is_full(rows: &Rows, observed: usize, place: Option<usize>) -> bool
    ensures { (subject : ModelProcess) → place ≡ place_in rows.now subject → result ≡ (is_unobserved_in rows.now subject && not (nat_lt observed most_members)) }
{
    rows.is_unobserved_member(place) && observed >= Configuration::MOST
}

// Why an edge is refused of which the subject has this place, if it is named.
fn fault(
    params: Params,
    rows: &Rows,
    observed: usize,
    ring: u8,
    place: Option<usize>,
) -> Option<TableError>
    ensures { (subject : ModelProcess) → Holds params rows.now observed → place ≡ place_in rows.now subject → ReportsIfAny (add_fault (table_of params rows.now) ring subject) result }
{
    if is_full(rows, observed, place) {
        Some(TableError::TooMany)
    } else if ring >= params.k() {
        Some(TableError::RingRange)
    } else if rows.observer(place, ring).is_some() {
        Some(TableError::EdgeTwice)
    } else {
        None
    }
}

// The observer on a ring of the process with this place; none if the ring is not below K.
fn observer_at<'a>(
    params: Params,
    rows: &'a Rows,
    place: Option<usize>,
    ring: u8,
) -> Option<ProcessRef<'a>>
    ensures { (process : ModelProcess) → place ≡ place_in rows.now process → result ≡ (if nat_lt ring params.k then finmap.get (edges_of rows.now) (process, ring) else None) }
{
    if ring < params.k() {
        rows.observer(place, ring)
    } else {
        None
    }
}

// The process as a value.
fn to_process(process: Option<ProcessRef<'_>>) -> Option<Process>
    ensures { result ≡ process.entry }
{
    match process {
        Some(process) => Some(process.to_process()),
        None => None,
    }
}

#[tactic(auto, unfolding(rapid_model::specs::Table::table_observers))]
impl ObserverTable for Table {
    ghost observers = { table_observers };

    fn params(&self) -> Params {
        self.params
    }

    fn id(&self) -> ConfigId {
        ConfigId::zero()
    }

    fn is_member(&self, process: &Process) -> bool {
        !self.rows.is_joiner(self.rows.find(&process.as_ref()))
    }

    fn observer(&self, ring: u8, subject: &Process) -> Option<Process> {
        let place = self.rows.find(&subject.as_ref());
        to_process(observer_at(self.params, &self.rows, place, ring))
    }

    fn member_and_observer(&self, ring: u8, subject: &Process) -> (bool, Option<Process>) {
        self.member_and_observer_near(ring, subject, &mut usize::MAX)
    }

    fn member_and_observer_near(
        &self,
        ring: u8,
        subject: &Process,
        place: &mut usize,
    ) -> (bool, Option<Process>) {
        let found = self.rows.find_near(*place, &subject.as_ref());
        *place = found.unwrap_or(*place);
        let observer = observer_at(self.params, &self.rows, found, ring);
        (!self.rows.is_joiner(found), to_process(observer))
    }

    fn member_and_observes_near(
        &self,
        observer: &ProcessRef<'_>,
        ring: u8,
        subject: &ProcessRef<'_>,
        place: &mut usize,
    ) -> (bool, bool) {
        let found = self.rows.find_near(*place, subject);
        *place = found.unwrap_or(*place);
        let observes = match observer_at(self.params, &self.rows, found, ring) {
            Some(process) => process.is(observer),
            None => false,
        };
        (!self.rows.is_joiner(found), observes)
    }
}
