// Lists of alerts in which each names its subject by a place.

ghost use Rattle.std.specs.Prelude.{◌≡◌, ◌<◌, ◌≤◌, ◌+◌, ◌++◌, ◌∷◌, true, [], None, Some, List, slice_get, is_some, length, map, take, drop, nat_lt, IfOk, IfErr, IfSome, OnOk, OnErr};
ghost use Rattle.std.specs.List.{list_all};
ghost use Rattle.rapid_model.specs.Message.{AlertItem, item_of};
ghost use Rattle.rapid_model.specs.Process.{IsProcess};
ghost use Rattle.rapid_alerts.specs.Alerts.{ArePlaced, alert_of, alert_of_ref, alerts_in, kind_of};
ghost use Rattle.rapid_alerts.specs.Listing.{Grows, IsAgain, IsSpeltIn};
ghost use Rattle.rapid_alerts.specs.Spelt.{Adds, IsBefore, Says};

use crate::{Alert, AlertRef, Kind, SpeltError};
use rapid_config::ConfigId;
use rapid_endpoint::{KeptProcess, Process, ProcessRef, SharedProcess, is_untagged_in_both};
use std::alloc::{AllocError, Global};
use std::marker::Model;

/// The most subjects of a list: as many as its places can tell apart.
const MOST_SUBJECTS: usize = 65_536;

/// How many bytes a process without tags has.
const UNTAGGED: usize = 23;

/// An alert of a list: its subject's place among the list's subjects, its ring and its kind.
#[derive(Clone, Copy, Debug, PartialEq, Eq)]
pub(crate) struct Item {
    pub(crate) place: u16,
    pub(crate) ring: u8,
    pub(crate) kind: Kind,
}

/// Alerts of one observer and one configuration, in order.
///
/// Observer and configuration stand once, and so does a subject of alerts that follow each other.
/// An alert more takes 4 bytes, and a subject more takes a block of its own only if it has tags. Whoever
/// takes these processes from it shares them.
#[derive(Debug, Drop)]
pub struct AlertList {
    observer: SharedProcess,
    config: ConfigId,
    subjects: Vec<KeptProcess>,
    items: Vec<Item>,
    alloc: Global,
}

impl Model for AlertList {
    ghost use Rattle.std.specs.Prelude.{map};
    ghost use Rattle.rapid_alerts.specs.Alerts.{ArePlaced, ListedAlerts, item_in, listed_code};

    ghost Value = { ListedAlerts };

    ghost coded = { listed_code };

    ghost view = { λ l. record { observer = l.observer; config = l.config; items = map (item_in l.subjects.items) l.items.items } };

    ghost invariant = { λ l. ArePlaced l.subjects.items l.items.items };
}

/// Whether this process stands at the place.
fn is_at(subjects: &[KeptProcess], place: u16, subject: &ProcessRef<'_>) -> bool
    ensures { result ≡ true → slice_get subjects.now place ≡ Some subject.now }
{
    match subjects.get(usize::from(place)) {
        Some(found) => found.is(subject),
        None => false,
    }
}

/// The place behind this one; behind the last one stands the first.
fn next_place(subjects: &[KeptProcess], near: u16) -> u16 {
    if usize::from(near) + 1 < subjects.len() {
        near.saturating_add(1)
    } else {
        0
    }
}

/// The place of a subject, if it is this place or the next one.
fn place_near(subjects: &[KeptProcess], near: u16, subject: &ProcessRef<'_>) -> Option<u16>
    ensures { IfSome result (λ place. slice_get subjects.now place ≡ Some subject.now) }
{
    let next = next_place(subjects, near);
    if is_at(subjects, near, subject) {
        Some(near)
    } else if is_at(subjects, next, subject) {
        Some(next)
    } else {
        None
    }
}

/// How many bytes the process at this place takes, if it is the one in front of the bytes.
fn length_spelt(subjects: &[KeptProcess], place: u16, bytes: &[u8]) -> Option<usize>
    ensures { IfSome result (IsSpeltIn subjects.now place bytes.now) }
{
    let subject = subjects.get(usize::from(place))?.as_ref();
    if subject.is_spelt_at(bytes) {
        Some(subject.length())
    } else {
        None
    }
}

/// The place of the process in front of the bytes and how many of them it takes, if that is this
/// place or the next one.
fn place_spelt(subjects: &[KeptProcess], near: u16, bytes: &[u8]) -> Option<(u16, usize)>
    ensures { IfSome result (λ r. IsSpeltIn subjects.now r.0 bytes.now r.1) }
{
    if let Some(length) = length_spelt(subjects, near, bytes) {
        return Some((near, length));
    }
    let next = next_place(subjects, near);
    match length_spelt(subjects, next, bytes) {
        Some(length) => Some((next, length)),
        None => None,
    }
}

/// The place of the last alert's subject, if the same process without tags is in front of both.
#[inline(always)]
fn place_again(items: &[Item], bytes: &[u8], before: &[u8]) -> Option<u16>
    ensures { IfSome result (IsAgain items.now bytes.now before.now) }
{
    let last = items.last()?;
    if is_untagged_in_both(bytes, before) {
        Some(last.place)
    } else {
        None
    }
}

/// Whether the alert is on a subject before the last of this many.
fn stands_before(item: &Item, count: usize) -> bool
    ensures { result ≡ nat_lt (item.now.place + 1) count }
{
    usize::from(item.place) + 1 < count
}

/// Whether each of these alerts is on a subject before the last of this many.
fn all_stand_before(items: &[Item], count: usize) -> bool
    ensures { result ≡ list_all (λ item. nat_lt (item.place + 1) count) items.now }
{
    items.iter().all(|item| stands_before(item, count))
}

/// Takes the last subject out if no alert is on it. It takes no memory.
fn trim(subjects: &mut Vec<KeptProcess>, items: &[Item])
    requires { ArePlaced subjects.old.items items.now }
    ensures placed { ArePlaced subjects.new.items items.now }
    ensures grows { Grows subjects.new.items subjects.old.items }
{
    if all_stand_before(items, subjects.len()) {
        let _ = subjects.pop();
    }
}

impl AlertList {
    /// No alerts of this observer and this configuration.
    pub fn new(alloc: Global, observer: SharedProcess, config: ConfigId) -> AlertList
        ensures { result ≡ record { observer = observer; config = config; items = [] } }
    {
        AlertList {
            observer,
            config,
            subjects: Vec::new(alloc),
            items: Vec::new(alloc),
            alloc,
        }
    }

    /// The place of the last alert's subject.
    fn last_place(&self) -> u16 {
        match self.items.last() {
            Some(item) => item.place,
            None => 0,
        }
    }

    /// Adds an alert on this subject at the end. It is refused if there is no memory, or no place
    /// for a 65,537th subject; then the list is as it was.
    pub fn push(&mut self, subject: &Process, ring: u8, kind: Kind) -> Result<(), AllocError>
        ensures pushed { OnOk result (self.new ≡ record self.old { items = self.old.items ++ (record { ring = ring; kind = kind_of kind; subject = subject.now }) ∷ [] }) }
        ensures unchanged { OnErr result (self.new ≡ self.old) }
    {
        self.push_near(self.last_place(), subject, ring, kind)?;
        Ok(())
    }

    /// Adds an alert at the end, and says at which place its subject stands: at this place or the
    /// next one, or else behind all others. If it is refused the list is as it was.
    pub(crate) fn push_near(
        &mut self,
        near: u16,
        subject: &Process,
        ring: u8,
        kind: Kind,
    ) -> Result<u16, AllocError>
        ensures pushed { OnOk result (self.new ≡ record self.old { items = self.old.items ++ (record { ring = ring; kind = kind_of kind; subject = subject.now }) ∷ [] }) }
        ensures unchanged { OnErr result (self.new ≡ self.old) }
    {
        let subject = subject.as_ref();
        match self.push_if_near(near, &subject, ring, kind)? {
            Some(place) => Ok(place),
            None => {
                let subject = KeptProcess::new(self.alloc, &subject)?;
                self.push_behind(subject, ring, kind)
            }
        }
    }

    /// Adds an alert at the end on a subject that is kept, as [`AlertList::push`] does.
    fn push_kept(&mut self, subject: &KeptProcess, ring: u8, kind: Kind) -> Result<(), AllocError>
        ensures pushed { OnOk result (self.new ≡ record self.old { items = self.old.items ++ (record { ring = ring; kind = kind_of kind; subject = subject.now }) ∷ [] }) }
        ensures unchanged { OnErr result (self.new ≡ self.old) }
    {
        let near = self.last_place();
        let found = self.push_if_near(near, &subject.as_ref(), ring, kind)?;
        if found.is_none() {
            self.push_behind(subject.try_copy()?, ring, kind)?;
        }
        Ok(())
    }

    /// Adds an alert at the end if its subject stands at this place or the next one, and says at
    /// which. If it does not, or the alert is refused, the list is as it was.
    fn push_if_near(
        &mut self,
        near: u16,
        subject: &ProcessRef<'_>,
        ring: u8,
        kind: Kind,
    ) -> Result<Option<u16>, AllocError>
        ensures pushed { IfOk result (λ found. is_some found ≡ true → self.new ≡ record self.old { items = self.old.items ++ (record { ring = ring; kind = kind_of kind; subject = subject.now }) ∷ [] }) }
        ensures none { IfOk result (λ found. found ≡ None → self.new ≡ self.old) }
        ensures unchanged { OnErr result (self.new ≡ self.old) }
    {
        let Some(place) = place_near(&self.subjects, near, subject) else {
            return Ok(None);
        };
        self.items.push(Item { place, ring, kind })?;
        Ok(Some(place))
    }

    /// Adds an alert at the end on a subject that is put behind all others, and says at which place
    /// that is. If it is refused the list is as it was.
    fn push_behind(&mut self, subject: KeptProcess, ring: u8, kind: Kind) -> Result<u16, AllocError>
        ensures pushed { OnOk result (self.new ≡ record self.old { items = self.old.items ++ (record { ring = ring; kind = kind_of kind; subject = subject }) ∷ [] }) }
        ensures unchanged { OnErr result (self.new ≡ self.old) }
    {
        let place = self.subjects.len();
        if place >= MOST_SUBJECTS {
            return Err(AllocError);
        }
        self.items.reserve(1)?;
        self.subjects.push(subject)?;
        let place = place as u16;
        self.items.push_reserved(Item { place, ring, kind });
        Ok(place)
    }

    /// Adds an alert at the end on the process in front of the bytes, and says how many bytes that
    /// process takes. If it is the subject at the place of the last alert's or at the next one, it
    /// is only compared, and no process is made of the bytes. `NoProcess` if no process is there,
    /// with what is met first. `OutOfMemory` comes only if one is: if there is no memory, or no
    /// place for a 65,537th subject. On an error the list is as it was.
    pub fn push_spelt(&mut self, ring: u8, kind: Kind, bytes: &[u8]) -> Result<usize, SpeltError>
        ensures added { IfOk result (Adds self.old self.new ring (kind_of kind) bytes.now) }
        ensures within { IfOk result (λ n. n ≤ length bytes.now) }
        ensures refused { IfErr result (Says bytes.now) }
        ensures unchanged { OnErr result (self.new ≡ self.old) }
    {
        let Some((place, length)) = place_spelt(&self.subjects, self.last_place(), bytes) else {
            return self.push_read(ring, kind, bytes);
        };
        let item = Item { place, ring, kind };
        let Ok(()) = self.items.push(item) else {
            return Err(SpeltError::OutOfMemory);
        };
        Ok(length)
    }

    /// The same, where the subject of the last alert is in front of other bytes. If both begin with
    /// the same process without tags, they are only compared with each other.
    #[inline(always)]
    pub fn push_spelt_after(
        &mut self,
        before: &[u8],
        ring: u8,
        kind: Kind,
        bytes: &[u8],
    ) -> Result<usize, SpeltError>
        requires { IsBefore self.old before.now }
        ensures added { IfOk result (Adds self.old self.new ring (kind_of kind) bytes.now) }
        ensures within { IfOk result (λ n. n ≤ length bytes.now) }
        ensures refused { IfErr result (Says bytes.now) }
        ensures unchanged { OnErr result (self.new ≡ self.old) }
    {
        let Some(place) = place_again(&self.items, bytes, before) else {
            return self.push_spelt(ring, kind, bytes);
        };
        let Ok(()) = self.items.push(Item { place, ring, kind }) else {
            return Err(SpeltError::OutOfMemory);
        };
        Ok(UNTAGGED)
    }

    /// The same, where the process is made of the bytes. It stands alone, since this is needed once a
    /// subject.
    #[inline(never)]
    fn push_read(&mut self, ring: u8, kind: Kind, bytes: &[u8]) -> Result<usize, SpeltError>
        ensures added { IfOk result (Adds self.old self.new ring (kind_of kind) bytes.now) }
        ensures within { IfOk result (λ n. n ≤ length bytes.now) }
        ensures refused { IfErr result (Says bytes.now) }
        ensures unchanged { OnErr result (self.new ≡ self.old) }
    {
        let length = match Process::length_at(bytes) {
            Ok(length) => length,
            Err(error) => return Err(SpeltError::NoProcess(error)),
        };
        match self.push_made(ring, kind, &bytes[..length]) {
            Ok(()) => Ok(length),
            Err(_refused) => Err(SpeltError::OutOfMemory),
        }
    }

    /// Adds an alert at the end on the process of these bytes, which is put behind all other
    /// subjects. If it is refused the list is as it was.
    fn push_made(&mut self, ring: u8, kind: Kind, bytes: &[u8]) -> Result<(), AllocError>
        requires { IsProcess bytes.now }
        ensures pushed { OnOk result (self.new ≡ record self.old { items = self.old.items ++ (record { ring = ring; kind = kind_of kind; subject = bytes.now }) ∷ [] }) }
        ensures unchanged { OnErr result (self.new ≡ self.old) }
    {
        let subject = KeptProcess::spelt(self.alloc, bytes)?;
        self.push_behind(subject, ring, kind)?;
        Ok(())
    }

    /// Takes the last subject out if no alert is on it.
    fn forget_unused(&mut self)
        ensures { self.new ≡ self.old }
    {
        trim(&mut self.subjects, self.items.as_slice());
    }

    /// Takes the last alert back.
    pub(crate) fn pop(&mut self)
        ensures { (xs : List AlertItem) (x : AlertItem) → self.old.items ≡ xs ++ x ∷ [] → self.new ≡ record self.old { items = xs } }
    {
        let _ = self.items.pop();
        self.forget_unused();
    }

    /// How many alerts there are.
    #[inline(always)]
    pub fn len(&self) -> usize
        ensures items { result ≡ length self.now.items }
        ensures alerts { result ≡ length (alerts_in self.now) }
    {
        self.items.len()
    }

    /// An alert, by its place in the list from 0.
    #[inline(always)]
    pub fn alert(&self, at: usize) -> Alert
        requires { at < length (alerts_in self.now) }
        ensures value { slice_get (alerts_in self.now) at ≡ Some (alert_of result) }
        ensures item { slice_get self.now.items at ≡ Some (item_of (alert_of result)) }
    {
        let item = self.items[at];
        Alert {
            observer: *self.observer.get(),
            subject: self.subjects[usize::from(item.place)].to_process(),
            ring: item.ring,
            kind: item.kind,
            config: self.config,
        }
    }

    /// An alert, by its place in the list from 0. Nothing is copied.
    #[inline(always)]
    pub fn alert_ref(&self, at: usize) -> AlertRef<'_>
        requires { at < length (alerts_in self.now) }
        ensures { slice_get (alerts_in self.now) at ≡ Some (alert_of_ref result) }
    {
        let item = &self.items[at];
        AlertRef {
            observer: self.observer.get().as_ref(),
            subject: self.subjects[usize::from(item.place)].as_ref(),
            ring: item.ring,
            kind: item.kind,
            config: &self.config,
        }
    }

    /// The subject of an alert, by its place in the list from 0. To copy it takes no memory.
    #[inline(always)]
    pub fn subject(&self, at: usize) -> &KeptProcess
        requires { at < length (alerts_in self.now) }
        ensures { slice_get (map (λ a. a.subject) (alerts_in self.now)) at ≡ Some result.now }
    {
        let kept = &self.items[at];
        &self.subjects[usize::from(kept.place)]
    }

    /// The observer of all alerts.
    pub(crate) fn observer(&self) -> &Process
        ensures { result.now ≡ self.now.observer }
    {
        self.observer.get()
    }

    /// The identifier of the configuration of all alerts.
    pub(crate) fn config(&self) -> ConfigId
        ensures { result ≡ self.now.config }
    {
        self.config
    }

    /// Whether both keep the same, place by place.
    fn is_kept_as(&self, other: &AlertList) -> bool
        ensures { result ≡ true → self.now ≡ other.now }
    {
        if self.config != other.config {
            return false;
        }
        if self.observer != other.observer {
            return false;
        }
        if self.items != other.items {
            return false;
        }
        self.subjects == other.subjects
    }

    /// Whether two lists have the same alerts, in the same order.
    pub fn says_same(&self, other: &AlertList) -> bool
        ensures same { result ≡ true → alerts_in self.now ≡ alerts_in other.now }
        ensures told { alerts_in self.now ≡ alerts_in other.now → result ≡ true }
    {
        if self.len() != other.len() {
            return false;
        }
        if self.is_kept_as(other) {
            return true;
        }
        for at in 0..self.len() {
            if self.alert_ref(at) != other.alert_ref(at) {
                return false;
            }
        }
        true
    }

    /// This many alerts from a place on, in a list of their own, which shares their processes.
    pub(crate) fn part(
        &self,
        alloc: Global,
        from: usize,
        count: usize,
    ) -> Result<AlertList, AllocError>
        requires { from + count ≤ length self.now.items }
        ensures { IfOk result (λ part. part ≡ record self.now { items = take count (drop from self.now.items) }) }
    {
        let mut part = AlertList::new(alloc, self.observer.share()?, self.config);
        for done in 0..count {
            let at = from + done;
            let alert = self.alert_ref(at);
            part.push_kept(self.subject(at), alert.ring, alert.kind)?;
        }
        Ok(part)
    }

    /// An equal list, which shares the processes.
    pub(crate) fn try_copy(&self) -> Result<AlertList, AllocError>
        ensures { IfOk result (λ copy. copy ≡ self.now) }
    {
        Ok(AlertList {
            observer: self.observer.share()?,
            config: self.config,
            subjects: self.subjects.clone()?,
            items: self.items.clone()?,
            alloc: self.alloc,
        })
    }
}
