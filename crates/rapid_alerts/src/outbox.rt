// The outbox of one observer.

ghost use Rattle.std.specs.Prelude.{◌≡◌, ◌≤◌, ◌+◌, length, take, drop, map, vec_len, OnOk, OnErr, IfOk, IfErr, IfSome};
ghost use Rattle.rapid_model.specs.Outbox as model;
ghost use Rattle.rapid_model.specs.Alert.{kind_fits as fits};
ghost use Rattle.rapid_model.specs.Batch.{batch_of};
ghost use Rattle.rapid_alerts.specs.Alerts.{alert_of, alerts_in};
ghost use Rattle.rapid_alerts.specs.Outboxes.{AreRaised, index_of, refusal, verdict};
ghost use Rattle.rapid_alerts.specs.Marks.{IsOn, answer_on};
ghost use Rattle.rapid_alerts.specs.Refusals.{Refuses, RefusesIfAny, answer_of};

use crate::index::Index;
use crate::mark::Marks;
use crate::{Alert, AlertList, Batch, Kind, RaiseError};
use rapid_endpoint::{Process, SharedProcess};
use rapid_rings::ObserverTable;
use std::alloc::{AllocError, Global};
use std::marker::Model;

/// What became of an alert that was not refused.
#[derive(Clone, Copy, Debug, PartialEq, Eq)]
pub enum Raising {
    /// It is raised now.
    Raised,
    /// It was raised here before; nothing changed.
    Already,
}

/// Why an alert is not raised, whatever was raised before.
fn refusal_of<T: ObserverTable>(table: &T, owner: &Process, alert: &Alert) -> Option<RaiseError>
    ensures { RefusesIfAny (refusal (T.observers table.now) owner.now (alert_of alert.now)) result }
{
    if alert.config != table.id() {
        return Some(RaiseError::OldConfiguration);
    }
    let (is_own, kind_fits) = check(table, owner, alert);
    if !is_own {
        Some(RaiseError::WrongObserver)
    } else if !kind_fits {
        Some(RaiseError::WrongKind)
    } else {
        None
    }
}

/// Whether the owner is the alert's observer, and the one that the table has. And whether the kind
/// is Remove exactly if the subject is a member. The subject is searched for once.
fn check<T: ObserverTable>(table: &T, owner: &Process, alert: &Alert) -> (bool, bool)
    ensures own { result.0 ≡ model.is_own (T.observers table.now) owner.now (alert_of alert.now) }
    ensures kind { result.1 ≡ fits (T.observers table.now) (alert_of alert.now) }
{
    // any place will do: it is a guess
    let mut place = 0;
    let (member, observes) = table.member_and_observes_near(
        &owner.as_ref(),
        alert.ring,
        &alert.subject.as_ref(),
        &mut place,
    );
    let is_own = alert.observer == *owner && alert.ring < table.params().k() && observes;
    let kind_fits = match alert.kind {
        Kind::Remove => member,
        Kind::Join => !member,
    };
    (is_own, kind_fits)
}

/// What is answered to an alert after those of an index: the marks of its subject if it is to be
/// raised, and none if it was raised before.
fn verdict_of<T: ObserverTable>(
    table: &T,
    owner: &Process,
    index: &Index,
    alert: &Alert,
) -> Result<Option<Marks>, RaiseError>
    ensures answer { IfOk result (λ found. verdict (T.observers table.now) owner.now index.now (alert_of alert.now) ≡ answer_on found) }
    ensures marks { IfOk result (λ found. IfSome found (IsOn index.now alert.now.subject)) }
    ensures refused { IfErr result (Refuses (verdict (T.observers table.now) owner.now index.now (alert_of alert.now))) }
{
    match refusal_of(table, owner, alert) {
        Some(error) => Err(error),
        None => {
            let marks = index.on(&alert.subject);
            if index.has(alert, marks) {
                Ok(None)
            } else if index.has_room(alert, marks) {
                Ok(Some(marks))
            } else {
                Err(RaiseError::TooManyJoiners)
            }
        }
    }
}

/// The outbox of one observer in one configuration: the alerts that it raised, in order, and how
/// many of them went out.
///
/// An alert is raised once and never withdrawn. It goes out in a batch, and again after each
/// [`Outbox::resend`].
#[derive(Debug, Drop)]
pub struct Outbox<T: ObserverTable> {
    table: T,
    // its observer is the owner
    raised: AlertList,
    index: Index,
    flushed: usize,
    alloc: Global,
}

impl<T: ObserverTable> Model for Outbox<T> {
    ghost use Rattle.std.specs.Prelude.{◌≡◌};
    ghost use Rattle.rapid_alerts.specs.Alerts.{alerts_in};
    ghost use Rattle.rapid_alerts.specs.Outboxes.{OwnedOutbox, owned_code, IsOutbox};

    ghost Value = { OwnedOutbox T };

    ghost coded = { owned_code T.code };

    ghost view = { λ o. record { table = o.table; owner = o.raised.observer; outbox = record { raised = alerts_in o.raised; flushed = o.flushed } } };

    ghost invariant = { λ o. IsOutbox (T.observers o.table) o.raised.observer (record { raised = alerts_in o.raised; flushed = o.flushed }) o.index × (o.raised.config ≡ (T.observers o.table).id) };
}

impl<T: ObserverTable> Outbox<T> {
    /// The outbox of an observer in the configuration of this table; nothing is raised.
    pub fn new(alloc: Global, table: T, owner: SharedProcess) -> Outbox<T>
        ensures table { result.table ≡ table }
        ensures owner { result.owner ≡ owner }
        ensures empty { result.outbox ≡ model.empty_outbox }
    {
        let raised = AlertList::new(alloc, owner, table.id());
        Outbox {
            table,
            raised,
            index: Index::new(alloc),
            flushed: 0,
            alloc,
        }
    }

    /// Raises an alert, unless it was raised here before.
    ///
    /// # Errors
    ///
    /// The first that holds. `OldConfiguration` if the alert is of another configuration than the
    /// table's. `WrongObserver` if the owner is not the alert's observer, or not the table's
    /// observer of this subject on this ring. `WrongKind` unless the kind is Remove exactly if the
    /// subject is a member. `TooManyJoiners` if the alert is on a 513th joiner. `OutOfMemory` comes
    /// only for an alert that would be raised. Each leaves the outbox as it was.
    pub fn raise(&mut self, alert: Alert) -> Result<Raising, RaiseError>
        ensures raised { OnOk result (self.new.outbox ≡ model.raise (T.observers self.old.table) self.old.owner self.old.outbox (alert_of alert)) }
        ensures answer { IfOk result (λ raising. model.raising (T.observers self.old.table) self.old.owner self.old.outbox (alert_of alert) ≡ answer_of raising) }
        ensures refused { IfErr result (Refuses (model.raising (T.observers self.old.table) self.old.owner self.old.outbox (alert_of alert))) }
        ensures unchanged { OnErr result (self.new ≡ self.old) }
        ensures table { self.new.table ≡ self.old.table }
        ensures owner { self.new.owner ≡ self.old.owner }
    {
        match self.judge(&alert)? {
            None => Ok(Raising::Already),
            Some(marks) => {
                self.keep(&alert, marks)?;
                Ok(Raising::Raised)
            }
        }
    }

    /// What is answered to an alert if there is memory: the marks of its subject if it is to be
    /// raised, and none if it was raised before.
    fn judge(&self, alert: &Alert) -> Result<Option<Marks>, RaiseError>
        ensures answer { IfOk result (λ found. model.raising (T.observers self.now.table) self.now.owner self.now.outbox (alert_of alert.now) ≡ answer_on found) }
        ensures marks { IfOk result (λ found. IfSome found (IsOn (index_of self.now.outbox.raised) alert.now.subject)) }
        ensures refused { IfErr result (Refuses (model.raising (T.observers self.now.table) self.now.owner self.now.outbox (alert_of alert.now))) }
    {
        verdict_of(&self.table, self.raised.observer(), &self.index, alert)
    }

    /// Keeps an alert that is to be raised, on a subject of these marks. If out of memory the
    /// outbox is as it was.
    fn keep(&mut self, alert: &Alert, marks: Marks) -> Result<(), AllocError>
        requires raised { model.raising (T.observers self.old.table) self.old.owner self.old.outbox (alert_of alert.now) ≡ model.Raised }
        requires marks { IsOn (index_of self.old.outbox.raised) alert.now.subject marks }
        ensures kept { OnOk result (self.new.outbox ≡ model.after_raising model.Raised self.old.outbox (alert_of alert.now)) }
        ensures unchanged { OnErr result (self.new ≡ self.old) }
        ensures table { self.new.table ≡ self.old.table }
        ensures owner { self.new.owner ≡ self.old.owner }
    {
        // where it is told that there are at most sixteen rings
        let _ = self.table.params();
        let at = self.raised.len();
        let place = self
            .raised
            .push_near(marks.place, &alert.subject, alert.ring, alert.kind)?;
        let subject = self.raised.subject(at);
        match self.index.add(alert, marks, place, subject) {
            Ok(()) => Ok(()),
            Err(error) => {
                self.raised.pop();
                Err(error)
            }
        }
    }

    /// The batch of the oldest alerts that are not flushed, at most 2,048, which count as flushed
    /// from now on; none if there is none. If out of memory the outbox is as it was.
    pub fn flush(&mut self) -> Result<Option<Batch>, AllocError>
        ensures flushed { OnOk result (self.new.outbox ≡ model.flush self.old.outbox) }
        ensures batch { IfOk result (λ batch. batch ≡ batch_of (model.unflushed self.old.outbox)) }
        ensures unchanged { OnErr result (self.new ≡ self.old) }
        ensures table { self.new.table ≡ self.old.table }
        ensures owner { self.new.owner ≡ self.old.owner }
    {
        let count = (self.raised.len() - self.flushed).min(Batch::MOST);
        if count == 0 {
            return Ok(None);
        }
        let alerts = self.raised.part(self.alloc, self.flushed, count)?;
        let batch = Batch::of(self.alloc, alerts)?;
        self.flushed += count;
        Ok(Some(batch))
    }

    /// Makes all alerts count as not flushed. It takes no memory.
    pub fn resend(&mut self)
        ensures resent { self.new.outbox ≡ model.resend self.old.outbox }
        ensures table { self.new.table ≡ self.old.table }
        ensures owner { self.new.owner ≡ self.old.owner }
    {
        self.flushed = 0;
    }

    /// The alerts that were raised, in order: each is the owner's and well-formed, and none stands
    /// there twice.
    pub fn raised(&self) -> &AlertList
        ensures value { alerts_in result.now ≡ self.now.outbox.raised }
        ensures sound { AreRaised (T.observers self.now.table) self.now.owner self.now.outbox.raised }
    {
        &self.raised
    }

    /// An equal outbox over a table that says the same, as another share of one table does.
    pub fn try_copy(&self, table: T) -> Result<Outbox<T>, AllocError>
    where
        T: Drop,
        requires { T.observers table ≡ T.observers self.now.table }
        ensures table { IfOk result (λ copy. copy.table ≡ table) }
        ensures owner { IfOk result (λ copy. copy.owner ≡ self.now.owner) }
        ensures state { IfOk result (λ copy. copy.outbox ≡ self.now.outbox) }
    {
        Ok(Outbox {
            table,
            raised: self.raised.try_copy()?,
            index: self.index.try_copy()?,
            flushed: self.flushed,
            alloc: self.alloc,
        })
    }
}
