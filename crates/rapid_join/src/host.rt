// The side of a member in a join.

ghost use Rattle.std.specs.Prelude.{◌≡◌, ◌≤◌, true, false, map, IsTrue, IfOk, OnOk, OnErr};
ghost use Rattle.std.specs.List.{list_any};
ghost use Rattle.std.specs.FinSet as set;
ghost use Rattle.rapid_model.specs.Apply as apply;
ghost use Rattle.rapid_model.specs.Host as model;
ghost use Rattle.rapid_model.specs.Configuration.{identifiers_ascend, is_member};
ghost use Rattle.rapid_model.specs.Process.{same_identifier};
ghost use Rattle.rapid_model.specs.Ring.{observers_of, observes};
ghost use Rattle.rapid_model.specs.Limits.{most_joiners};
ghost use Rattle.rapid_join.specs.Answers.{host_answer_of, answered_of, safe_for, AnswersObservers};
ghost use Rattle.rapid_join.specs.Hosts.{fresh_host};

use crate::pending::PendingSet;
use crate::{HostAnswer, HostTables, Reply, RingObservers};
use rapid_config::{ConfigId, Configuration, Cut};
use rapid_endpoint::{Process, SharedProcess};
use rapid_rings::ObserverTable;
use std::alloc::{AllocError, Global};
use std::marker::Model;

/// The side of a member in its configuration: it answers joiners, and keeps those that asked it as
/// an observer until the next change. At most 512 are pending.
#[derive(Debug, Drop)]
pub struct Host {
    configuration: Configuration,
    tables: HostTables,
    me: SharedProcess,
    pending: PendingSet,
    alloc: Global,
}

impl Model for Host {
    ghost use Rattle.std.specs.Prelude.{◌≡◌, ◌≤◌};
    ghost use Rattle.std.specs.FinSet as set;
    ghost use Rattle.rapid_model.specs.JoinSides.{HostSide};
    ghost use Rattle.rapid_model.specs.Limits.{most_joiners};
    ghost use Rattle.rapid_join.specs.Hosts.{host_code};

    ghost Value = { HostSide };

    ghost coded = { host_code };

    ghost view = { λ h. record { config = h.configuration; me = h.me; pending = h.pending } };

    ghost invariant = { λ h. (h.tables ≡ h.configuration) × (set.len h.pending ≤ most_joiners) };
}

impl Host {
    /// The most joiners that can be pending.
    pub const MOST: usize = Cut::MOST_JOINERS;

    /// The host of a member in a configuration, at which nobody is pending. It computes the tables
    /// of the configuration.
    pub fn new(
        alloc: Global,
        configuration: &Configuration,
        process: &Process,
    ) -> Result<Host, AllocError>
        ensures { IfOk result (λ host. host ≡ fresh_host configuration.now process.now) }
    {
        let tables = HostTables::new(alloc, configuration)?;
        let me = SharedProcess::new(alloc, process)?;
        Host::with_tables(alloc, configuration, &tables, &me)
    }

    /// The host of a member in the configuration of these tables. It shares the tables and the
    /// process; nobody is pending.
    pub fn with_tables(
        alloc: Global,
        configuration: &Configuration,
        tables: &HostTables,
        me: &SharedProcess,
    ) -> Result<Host, AllocError>
        requires { tables.now ≡ configuration.now }
        ensures { IfOk result (λ host. host ≡ fresh_host configuration.now me.now) }
    {
        Ok(Host {
            configuration: configuration.try_copy(alloc)?,
            tables: tables.try_copy()?,
            me: me.share()?,
            pending: PendingSet::new(alloc),
            alloc,
        })
    }

    /// A joiner's first question. The answer is the first of these that holds. `Confirm` of the
    /// configuration if the joiner is a member. `EndpointInUse` if a member has its identifier or
    /// its endpoint. `TooManyJoiners` if 512 others are pending here. Else `Safe` with its
    /// observers by ring, of whom there is at least one if the host is a member's.
    #[tactic(auto, unfolding(rapid_model::specs::Host::pre_join))]
    pub fn pre_join(&self, joiner: &Process) -> Result<HostAnswer, AllocError>
        ensures answer { IfOk result (λ answer. host_answer_of answer ≡ model.pre_join self.now.config self.now.pending joiner.now) }
        ensures observers { is_member self.now.config self.now.me ≡ true → IfOk result AnswersObservers }
    {
        if self.configuration.is_member(joiner) {
            return self.confirm();
        }
        if self.collides(joiner) {
            return Ok(HostAnswer::Reply(Reply::EndpointInUse));
        }
        if self.is_full_for(joiner) {
            return Ok(HostAnswer::Reply(Reply::TooManyJoiners));
        }
        self.safe(joiner)
    }

    /// A joiner's request to its observer on a ring, in the configuration with the identifier. The
    /// answer is the first of these that holds. `Confirm` of the configuration if the joiner is a
    /// member. `ConfigurationChanged` if the identifier is another. `EndpointInUse` if a member has
    /// the joiner's identifier or endpoint. `Nothing` if this member does not observe it on the
    /// ring. `TooManyJoiners` if 512 others are pending here. Else `Raise`, and the joiner is
    /// pending. If out of memory the host is as it was.
    #[tactic(auto, unfolding(rapid_model::specs::Host::join_request))]
    pub fn join_request(
        &mut self,
        joiner: &Process,
        id: ConfigId,
        ring: u8,
    ) -> Result<HostAnswer, AllocError>
        ensures answer { IfOk result (λ answer. host_answer_of answer ≡ model.join_request self.old.config self.old.me self.old.pending joiner.now id ring) }
        ensures pending { OnOk result (self.new ≡ record self.old {
          pending = model.pending_after (model.join_request self.old.config self.old.me self.old.pending joiner.now id ring) self.old.pending joiner.now;
        }) }
        ensures unchanged { OnErr result (self.new ≡ self.old) }
        ensures few { set.len self.new.pending ≤ most_joiners }
    {
        if self.configuration.is_member(joiner) {
            self.confirm()
        } else if id != self.configuration.id() {
            Ok(HostAnswer::Reply(Reply::ConfigurationChanged))
        } else if self.collides(joiner) {
            Ok(HostAnswer::Reply(Reply::EndpointInUse))
        } else if !self.observes(joiner, ring) {
            Ok(HostAnswer::Nothing)
        } else if self.is_full_for(joiner) {
            Ok(HostAnswer::Reply(Reply::TooManyJoiners))
        } else {
            self.pending.insert(*joiner)?;
            Ok(HostAnswer::Raise)
        }
    }

    /// What each pending joiner gets after a change to the next configuration, by ascending
    /// process. It is `Confirm` of that if the joiner is a member there, else
    /// `ConfigurationChanged`. None is pending afterwards. If out of memory the host is as it was.
    pub fn confirms(
        &mut self,
        next: &Configuration,
    ) -> Result<Vec<(Process, HostAnswer)>, AllocError>
        ensures answers { IfOk result (λ answers. map answered_of answers.items ≡ model.confirms next.now self.old.pending) }
        ensures none { OnOk result (self.new ≡ record self.old { pending = set.empty }) }
        ensures unchanged { OnErr result (self.new ≡ self.old) }
    {
        let answers = self.pending.confirms(next)?;
        self.pending.clear();
        Ok(answers)
    }

    /// An equal host, which shares the configuration's members and the tables.
    pub fn try_copy(&self) -> Result<Host, AllocError>
        ensures { IfOk result (λ host. host ≡ self.now) }
    {
        Ok(Host {
            configuration: self.configuration.try_copy(self.alloc)?,
            tables: self.tables.try_copy()?,
            me: self.me.share()?,
            pending: self.pending.try_copy()?,
            alloc: self.alloc,
        })
    }

    /// The own configuration, as confirmation.
    fn confirm(&self) -> Result<HostAnswer, AllocError>
        ensures { IfOk result (λ answer. host_answer_of answer ≡ model.Confirms self.now.config) }
    {
        Ok(HostAnswer::Confirm(self.configuration.try_copy(self.alloc)?))
    }

    /// The own identifier and the joiner's observers.
    fn safe(&self, joiner: &Process) -> Result<HostAnswer, AllocError>
        requires { is_member self.now.config joiner.now ≡ false }
        ensures answer { IfOk result (λ answer. host_answer_of answer ≡ safe_for self.now.config joiner.now) }
        ensures observers { is_member self.now.config self.now.me ≡ true → IfOk result AnswersObservers }
    {
        self.configuration.tell();
        let observers = RingObservers::of(self.alloc, self.tables.rings(), joiner)?;
        Ok(HostAnswer::Reply(Reply::Safe(self.configuration.id(), observers)))
    }

    /// Whether a member has the joiner's identifier or its endpoint. It costs two binary searches.
    fn collides(&self, joiner: &Process) -> bool
        ensures { result ≡ apply.collides self.now.config.members joiner.now }
    {
        has_identifier(self.configuration.members(), joiner) || self.tables.has(&joiner.endpoint())
    }

    /// Whether this member observes the joiner on a ring.
    fn observes(&self, joiner: &Process, ring: u8) -> bool
        ensures { result ≡ observes (observers_of self.now.config) self.now.me ring joiner.now }
    {
        let mut anywhere = usize::MAX;
        let rings = self.tables.rings();
        let (_, observes) = rings.member_and_observes_near(
            &self.me.get().as_ref(),
            ring,
            &joiner.as_ref(),
            &mut anywhere,
        );
        observes
    }

    /// Whether 512 joiners are pending, and this one is not among them.
    fn is_full_for(&self, joiner: &Process) -> bool
        ensures { result ≡ model.is_full_for self.now.pending joiner.now }
    {
        !self.pending.contains(joiner) && self.pending.len() >= Host::MOST
    }
}

/// Whether a member has the joiner's identifier.
fn has_identifier(members: &[Process], joiner: &Process) -> bool
    requires { IsTrue (identifiers_ascend members.now) }
    ensures { result ≡ list_any (same_identifier joiner.now) members.now }
{
    match members.binary_search_by_key(&joiner.id(), |member| member.id()) {
        Ok(_place) => true,
        Err(_next) => false,
    }
}
