// The coordinator of classic recovery at one member.
ghost use Rattle.std.specs.Prelude.{◌≡◌, ◌≤◌, ◌<◌, IfOk, OnOk, OnErr, IfErr, IfSome, Some, None, false, nat_le};
ghost use Rattle.std.specs.List.{find};
ghost use Rattle.std.specs.Option.{option_map};
ghost use Rattle.std.specs.FinSet as set;
ghost use Rattle.rapid_model.specs.Coordinator as model;
ghost use Rattle.rapid_model.specs.Limits.{most_members};
ghost use Rattle.rapid_paxos.specs.Reported.{last_of};

use crate::{Ballot, Promise, classic_size};
use rapid_config::Cut;
use rapid_fast::{CutCounts, PositionSet, fast_size};
use std::alloc::{AllocError, Global};
use std::marker::Model;
use thiserror::Error;

/// A request to vote for a cut at a ballot.
#[derive(Debug, Drop)]
pub struct Accept {
    pub ballot: Ballot,
    pub cut: Cut,
}

/// The next ballot would have a round above 250.
#[derive(Clone, Copy, Debug, PartialEq, Eq, Error)]
#[error("the rounds are used")]
pub struct RoundsUsed;

impl RoundsUsed {
    /// The number of the refusal.
    pub fn code(&self) -> u8
        ensures { result ≡ 3 }
    {
        match self {
            RoundsUsed => 3,
        }
    }
}

/// The coordinator of one member. It keeps the ballot that it began last, who promised it, and how
/// many reported each cut at the highest ballot of a vote.
///
/// It asks only for what the rule of Fast Paxos lets it ask for, and once a ballot, if what it is
/// given is as it should be: the contract of `rapid_agreement::coordinators_ask_lawfully` names the
/// conditions.
#[derive(Debug, Drop)]
pub struct Coordinator {
    size: usize,
    position: usize,
    ballot: Option<Ballot>,
    heard: PositionSet,
    top: Option<Ballot>,
    counts: CutCounts,
    alloc: Global,
}

impl Model for Coordinator {
    ghost use Rattle.rapid_model.specs.Coordinator.{Coordinator as ModelCoordinator};
    ghost use Rattle.rapid_paxos.specs.Codes.{coordinator_code};
    ghost use Rattle.rapid_paxos.specs.Invariants.{IsCoordinator};

    ghost Value = { ModelCoordinator };

    ghost coded = { coordinator_code };

    ghost view = { λ c. record { size = c.size; position = c.position; ballot = c.ballot; heard = c.heard; top = c.top; counts = c.counts } };

    ghost invariant = { λ c. IsCoordinator (record { size = c.size; position = c.position; ballot = c.ballot; heard = c.heard; top = c.top; counts = c.counts }) };
}

/// The round of a ballot, 0 before any.
fn last_round(ballot: Option<Ballot>) -> u8
    ensures { result ≡ model.last_round ballot }
{
    ballot.map_or(0, |ballot| ballot.round())
}

/// The request to vote for a cut, if there is one.
fn request(ballot: Ballot, cut: Option<Cut>) -> Option<Accept>
    ensures cut { option_map (λ x. x.cut) result ≡ cut }
    ensures ballot { IfSome result (λ x. x.ballot ≡ ballot) }
{
    match cut {
        Some(cut) => Some(Accept { ballot, cut }),
        None => None,
    }
}

/// The first cut that at least this many reported.
fn reported_by(entries: &[(Cut, usize)], enough: usize) -> Option<&Cut>
    ensures { option_map (λ v. v.now) result ≡ option_map (λ e. e.0) (find (λ e. nat_le enough e.1) entries.now) }
{
    entries
        .iter()
        .find(|entry| enough <= entry.1)
        .map(|entry| &entry.0)
}

impl Coordinator {
    /// The coordinator at `position` among `size` members, at most 1,024; it has begun no ballot.
    pub fn new(alloc: Global, size: usize, position: usize) -> Coordinator
        requires few { size ≤ most_members }
        requires member { position < size }
        ensures { result ≡ model.fresh_coordinator size position }
    {
        Coordinator {
            size,
            position,
            ballot: None,
            heard: PositionSet::new(),
            top: None,
            counts: CutCounts::new(alloc),
            alloc,
        }
    }

    /// Begins a ballot: its round is one above both that of `above` and that of the last begun
    /// here, and at least 2.
    ///
    /// # Errors
    ///
    /// `RoundsUsed` if that round is above 250; the coordinator is as it was.
    #[tactic(auto, unfolding(rapid_model::specs::Coordinator::next_ballot))]
    pub fn begin(&mut self, above: Ballot) -> Result<Ballot, RoundsUsed>
        ensures ballot { IfOk result (λ b. model.next_ballot self.old above ≡ Some b) }
        ensures begun { IfOk result (λ b. self.new ≡ model.begun self.old b) }
        ensures used { OnErr result (model.next_ballot self.old above ≡ None) }
        ensures unchanged { OnErr result (self.new ≡ self.old) }
        ensures size { self.new.size ≡ self.old.size }
        ensures position { self.new.position ≡ self.old.position }
    {
        // round 1 is that of the fast ballot
        let round = (above.round().max(last_round(self.ballot)) + 1).max(2);
        let Some(ballot) = Ballot::classic(round, self.position) else {
            return Err(RoundsUsed);
        };
        self.ballot = Some(ballot);
        self.heard = PositionSet::new();
        self.top = None;
        self.counts = CutCounts::new(self.alloc);
        Ok(ballot)
    }

    /// Hears the promise of the member at a position. The promise that completes a classic quorum
    /// is answered with the request to be sent. There is one if the promises heard and the own
    /// proposal give a cut to ask for. A promise of another ballot than that begun last, or of a
    /// position heard already, is ignored. If out of memory the coordinator is as it was.
    ///
    /// The cut is the one that the rule of Fast Paxos allows (Lamport, 2006). It is the own
    /// proposal if no vote was reported, else the only cut reported at the highest ballot. If
    /// several are reported there, it is the one that a fast quorum may have chosen, by the number
    /// of its reports. If there is none such, it is the least of those by its bytes.
    pub fn hear_promise(
        &mut self,
        position: usize,
        promise: &Promise,
        own: Option<&Cut>,
    ) -> Result<Option<Accept>, AllocError>
        requires { position < self.old.size }
        ensures heard { OnOk result (self.new ≡ model.after_report self.old position promise.now.ballot (last_of promise.now.vote)) }
        ensures cut { IfOk result (λ a. option_map (λ x. x.cut) a ≡ model.accept_cut self.old position promise.now.ballot (last_of promise.now.vote) (option_map (λ v. v.now) own.entry)) }
        ensures ballot { IfOk result (λ a. IfSome a (λ x. x.ballot ≡ promise.now.ballot)) }
        ensures unchanged { OnErr result (self.new ≡ self.old) }
        ensures size { self.new.size ≡ self.old.size }
        ensures position { self.new.position ≡ self.old.position }
    {
        if !self.counts_promise(position, promise.ballot) {
            return Ok(None);
        }
        // one that comes after the quorum still counts, and asks for nothing
        if self.heard.len() + 1 != classic_size(self.size) {
            self.report(position, &promise.vote)?;
            return Ok(None);
        }
        // what is asked for may be refused its memory: the promise is counted only once it is there
        let mut next = self.try_copy()?;
        next.report(position, &promise.vote)?;
        let cut = next.value(own)?;
        *self = next;
        Ok(request(promise.ballot, cut))
    }

    /// Whether a promise is of the ballot begun last, and the first of its position.
    fn counts_promise(&self, position: usize, ballot: Ballot) -> bool
        requires { position < self.now.size }
        ensures { result ≡ model.counts_promise self.now position ballot }
    {
        self.ballot == Some(ballot) && !self.heard.contains(position)
    }

    /// Takes a promise of a position that was not heard.
    fn report(&mut self, position: usize, vote: &Option<(Ballot, Cut)>) -> Result<(), AllocError>
        requires member { position < self.old.size }
        requires new { set.contains self.old.heard position ≡ false }
        requires few { set.len self.old.heard ≤ most_members }
        ensures ok { OnOk result (self.new ≡ model.with_report (record self.old { heard = set.insert self.old.heard position }) (last_of vote.now)) }
        ensures unchanged { OnErr result (self.new ≡ self.old) }
        ensures size { self.new.size ≡ self.old.size }
        ensures position { self.new.position ≡ self.old.position }
    {
        if let Some((ballot, cut)) = vote {
            if self.top == Some(*ballot) {
                self.counts.add(cut)?;
            } else if self.top < Some(*ballot) {
                // only votes at the highest ballot reported count, so counting begins anew
                let mut counts = CutCounts::new(self.alloc);
                counts.add(cut)?;
                self.counts = counts;
                self.top = Some(*ballot);
            }
        }
        self.heard.insert(position);
        Ok(())
    }

    /// The cut that the promises heard allow.
    fn value(&self, own: Option<&Cut>) -> Result<Option<Cut>, AllocError>
        ensures { IfOk result (λ v. v ≡ model.value_of self.now (option_map (λ v. v.now) own.entry)) }
    {
        match self.counts.entries() {
            [] => match own {
                Some(cut) => Ok(Some(cut.try_copy(self.alloc)?)),
                None => Ok(None),
            },
            [(only, _)] => Ok(Some(only.try_copy(self.alloc)?)),
            entries @ [(least, _), ..] => {
                // A fast quorum has at most `size - promised` members that did not promise. So a
                // cut that one chose was reported this often, and no two cuts can be: fast and
                // classic quorums overlap.
                let promised = self.heard.len();
                let enough = (fast_size(self.size) + promised).saturating_sub(self.size);
                let chosen = reported_by(entries, enough).unwrap_or(least);
                Ok(Some(chosen.try_copy(self.alloc)?))
            }
        }
    }

    /// An equal coordinator.
    pub fn try_copy(&self) -> Result<Coordinator, AllocError>
        ensures { IfOk result (λ c. c ≡ self.now) }
    {
        Ok(Coordinator {
            size: self.size,
            position: self.position,
            ballot: self.ballot,
            heard: self.heard.try_copy()?,
            top: self.top,
            counts: self.counts.try_copy()?,
            alloc: self.alloc,
        })
    }
}
