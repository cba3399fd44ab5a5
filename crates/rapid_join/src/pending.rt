// The joiners that wait at a host.

ghost use Rattle.std.specs.Prelude.{◌≡◌, map, IfOk, OnOk, OnErr};
ghost use Rattle.std.specs.FinSet as set;
ghost use Rattle.rapid_model.specs.Host.{confirms};
ghost use Rattle.rapid_join.specs.Answers.{answered_of, host_answer_of, answer_after};

use crate::{HostAnswer, Reply};
use rapid_config::Configuration;
use rapid_endpoint::Process;
use std::alloc::{AllocError, Global};
use std::collections::BTreeSet;
use std::marker::Model;

/// The joiners that wait at a host, as a set.
#[derive(Debug, Drop)]
pub(crate) struct PendingSet {
    joiners: BTreeSet<Process>,
    alloc: Global,
}

impl Model for PendingSet {
    ghost use Rattle.std.specs.FinSet as set;
    ghost use Rattle.rapid_model.specs.Process.{ProcessSet};
    ghost use Rattle.rapid_model.specs.Codes.{processes_code};

    ghost Value = { ProcessSet };

    ghost coded = { processes_code };

    ghost view = { λ s. set.from_list s.joiners.keys };
}

impl PendingSet {
    /// No joiner.
    pub(crate) fn new(alloc: Global) -> PendingSet
        ensures { result ≡ set.empty }
    {
        PendingSet {
            joiners: BTreeSet::new(alloc),
            alloc,
        }
    }

    /// How many joiners wait.
    pub(crate) fn len(&self) -> usize
        ensures { result ≡ set.len self.now }
    {
        self.joiners.len()
    }

    /// Whether the joiner waits.
    pub(crate) fn contains(&self, joiner: &Process) -> bool
        ensures { result ≡ set.contains self.now joiner.now }
    {
        self.joiners.contains(joiner)
    }

    /// Adds a joiner. If out of memory the set is as it was.
    pub(crate) fn insert(&mut self, joiner: Process) -> Result<(), AllocError>
        ensures ok { OnOk result (self.new ≡ set.insert self.old joiner) }
        ensures unchanged { OnErr result (self.new ≡ self.old) }
    {
        self.joiners.insert(joiner)?;
        Ok(())
    }

    /// Takes all joiners out.
    pub(crate) fn clear(&mut self)
        ensures { self.new ≡ set.empty }
    {
        self.joiners.clear();
    }

    /// An equal set.
    pub(crate) fn try_copy(&self) -> Result<PendingSet, AllocError>
        ensures { IfOk result (λ copy. copy ≡ self.now) }
    {
        Ok(PendingSet {
            joiners: self.joiners.clone()?,
            alloc: self.alloc,
        })
    }

    /// What each joiner gets after a change to the configuration, ascending.
    pub(crate) fn confirms(
        &self,
        next: &Configuration,
    ) -> Result<Vec<(Process, HostAnswer)>, AllocError>
        ensures { IfOk result (λ answers. map answered_of answers.items ≡ confirms next.now self.now) }
    {
        let mut answers = Vec::with_capacity(self.alloc, self.joiners.len())?;
        for joiner in self.joiners.iter() {
            answers.push((*joiner, answer_after(self.alloc, next, joiner)?))?;
        }
        Ok(answers)
    }
}

/// What a joiner that waited gets after a change to the configuration.
fn answer_after(
    alloc: Global,
    next: &Configuration,
    joiner: &Process,
) -> Result<HostAnswer, AllocError>
    ensures { IfOk result (λ answer. host_answer_of answer ≡ answer_after next.now joiner.now) }
{
    if next.is_member(joiner) {
        Ok(HostAnswer::Confirm(next.try_copy(alloc)?))
    } else {
        Ok(HostAnswer::Reply(Reply::ConfigurationChanged))
    }
}
