// The parts of a member, which its copies share until one of them changes a part. They are shared on
// two levels: the context, the fast votes, the detector, and the rest, which shares its three parts in
// turn. So a vote on a copy copies the fast votes alone, a batch the detector, and a tick at which
// nothing is due copies nothing.

ghost use Rattle.std.specs.Prelude.{◌≡◌, ◌<◌, ◌≤◌, [], false, None, All, IfOk, IfSome, IfNone, Ok, Err, OnOk, OnErr, length};
ghost use Rattle.std.specs.Arc.{arc_value};
ghost use Rattle.rapid_model.specs.Acceptor as acceptor;
ghost use Rattle.rapid_model.specs.Acceptor.{fresh_acceptor};
ghost use Rattle.rapid_model.specs.Batch.{batch_of};
ghost use Rattle.rapid_model.specs.Configuration.{configuration_id};
ghost use Rattle.rapid_model.specs.Coordinator.{fresh_coordinator};
ghost use Rattle.rapid_model.specs.Detector.{empty_detector};
ghost use Rattle.rapid_model.specs.Learner.{fresh_learner};
ghost use Rattle.rapid_model.specs.Outbox as outbox;
ghost use Rattle.rapid_model.specs.Ring.{observers_of};
ghost use Rattle.rapid_model.specs.Limits.{most_members};
ghost use Rattle.rapid_alerts.specs.Alerts.{alert_of};
ghost use Rattle.rapid_join.specs.Hosts.{fresh_host};
ghost use Rattle.rapid_message.specs.Bodies.{IsFrom};
ghost use Rattle.rapid_member.specs.Parts.{IsContext};
ghost use Rattle.rapid_paxos.specs.Reported.{last_of};
ghost use Rattle.std.specs.FinMap as map;

use crate::ages::Ages;
use crate::shared_rings::SharedRings;
use rapid_alerts::{Alert, Batch, Outbox, RaiseError};
use rapid_config::{Configuration, Cut};
use rapid_cut::Detector;
use rapid_endpoint::SharedProcess;
use rapid_fast::FastRound;
use rapid_join::{Host, HostTables};
use rapid_paxos::{Acceptor, Ballot, Coordinator, Learner, Promise, PromiseError};
use std::alloc::{AllocError, Global};
use std::marker::Model;
use std::sync::Arc;

/// What never changes in a configuration.
#[derive(Debug, Drop)]
pub(crate) struct Context {
    pub(crate) configuration: Configuration,
    pub(crate) rings: SharedRings,
    pub(crate) me: SharedProcess,
    // the own position
    pub(crate) place: usize,
}

/// The fast votes heard.
#[derive(Debug, Drop)]
pub(crate) struct Votes {
    pub(crate) round: FastRound,
}

impl Clone for Votes {
    ghost is_clone = { λ a b. b ≡ a };

    fn clone(&self) -> Result<Votes, AllocError> {
        let round = self.round.try_copy()?;
        Ok(Votes { round })
    }
}

/// What is kept for ballots.
#[derive(Debug, Drop)]
pub(crate) struct Ballots {
    pub(crate) acceptor: Acceptor,
    pub(crate) coordinator: Coordinator,
    pub(crate) learner: Learner,
    // the first cut that it got
    pub(crate) proposal: Option<Cut>,
    alloc: Global,
}

impl Ballots {
    /// Nothing was said, heard or proposed by the member at this place among this many.
    pub(crate) fn new(alloc: Global, size: usize, place: usize) -> Ballots
        requires size { size ≤ most_members }
        requires place { place < size }
        ensures { result ≡ record { acceptor = fresh_acceptor; coordinator = fresh_coordinator size place; learner = fresh_learner size; proposal = None; alloc = alloc } }
    {
        Ballots {
            acceptor: Acceptor::new(alloc),
            coordinator: Coordinator::new(alloc, size, place),
            learner: Learner::new(alloc, size),
            proposal: None,
            alloc,
        }
    }
}

impl Ballots {
    /// Asks the acceptor for a promise at a ballot; none if it has promised one that is as high.
    #[tactic(auto, using(crate::proofs::Ballots::refused_for))]
    pub(crate) fn promise(&mut self, ballot: Ballot) -> Result<Option<Promise>, AllocError>
        ensures state { IfOk result (λ p. IfSome p (λ _. self.new ≡ record self.old { acceptor = acceptor.after_promise self.old.acceptor ballot })) }
        ensures ballot { IfOk result (λ p. IfSome p (λ x. x.ballot ≡ ballot)) }
        ensures vote { IfOk result (λ p. IfSome p (λ x. acceptor.promise_answer self.old.acceptor ballot ≡ Ok (last_of x.vote))) }
        ensures refused { IfOk result (λ p. IfNone p (acceptor.promise_answer self.old.acceptor ballot ≡ Err (acceptor.Promised self.old.acceptor.rnd))) }
        ensures unchanged { IfOk result (λ p. IfNone p (self.new ≡ self.old)) }
        ensures coordinator { self.new.coordinator ≡ self.old.coordinator }
        ensures learner { self.new.learner ≡ self.old.learner }
    {
        match self.acceptor.promise(ballot) {
            Ok(promise) => Ok(Some(promise)),
            Err(PromiseError::Promised(_)) => Ok(None),
            Err(PromiseError::OutOfMemory) => Err(AllocError),
        }
    }
}

impl Clone for Ballots {
    ghost is_clone = { λ a b. b ≡ a };

    fn clone(&self) -> Result<Ballots, AllocError> {
        let acceptor = self.acceptor.try_copy()?;
        let coordinator = self.coordinator.try_copy()?;
        let learner = self.learner.try_copy()?;
        let proposal = copy_cut(self.alloc, &self.proposal)?;
        Ok(Ballots {
            acceptor,
            coordinator,
            learner,
            proposal,
            alloc: self.alloc,
        })
    }
}

/// An equal cut, if there is one.
fn copy_cut(alloc: Global, cut: &Option<Cut>) -> Result<Option<Cut>, AllocError>
    ensures { IfOk result (λ copy. copy ≡ cut.now) }
{
    match cut {
        Some(cut) => Ok(Some(cut.try_copy(alloc)?)),
        None => Ok(None),
    }
}

/// The alerts that the member raised, and whether some may wait to be sent.
#[derive(Debug, Drop)]
pub(crate) struct Raised {
    outbox: Outbox<SharedRings>,
    rings: SharedRings,
    waits: bool,
}

impl Model for Raised {
    ghost use Rattle.std.specs.Prelude.{◌≡◌, [], false};
    ghost use Rattle.rapid_model.specs.Configuration.{Configuration as ModelConfiguration};
    ghost use Rattle.rapid_model.specs.Outbox.{unflushed};
    ghost use Rattle.rapid_alerts.specs.Outboxes.{OwnedOutbox, owned_code};
    ghost use Rattle.rapid_join.specs.Hosts.{configuration_code};

    ghost Value = { OwnedOutbox ModelConfiguration };

    ghost coded = { owned_code configuration_code };

    ghost view = { λ r. r.outbox };

    ghost invariant = { λ r. (r.rings ≡ r.outbox.table) × (r.waits ≡ false → unflushed r.outbox.outbox ≡ []) };
}

impl Raised {
    /// Nothing was raised by this member.
    pub(crate) fn new(
        alloc: Global,
        rings: &SharedRings,
        me: SharedProcess,
    ) -> Result<Raised, AllocError>
        ensures { IfOk result (λ r. r ≡ record { table = rings.now; owner = me; outbox = outbox.empty_outbox }) }
    {
        let own = rings.try_copy()?;
        let outbox = Outbox::new(alloc, rings.try_copy()?, me);
        Ok(Raised {
            outbox,
            rings: own,
            waits: false,
        })
    }

    /// Raises an alert as [`Outbox::raise`] does; a refused one is ignored. If out of memory nothing
    /// changes.
    pub(crate) fn raise(&mut self, alert: &Alert) -> Result<(), AllocError>
        ensures raised { OnOk result (self.new.outbox ≡ outbox.raise (observers_of self.old.table) self.old.owner self.old.outbox (alert_of alert.now)) }
        ensures unchanged { OnErr result (self.new ≡ self.old) }
        ensures table { self.new.table ≡ self.old.table }
        ensures owner { self.new.owner ≡ self.old.owner }
    {
        self.waits = true;
        match self.outbox.raise(*alert) {
            Ok(_) => Ok(()),
            Err(RaiseError::OutOfMemory) => Err(AllocError),
            Err(RaiseError::WrongObserver) => Ok(()),
            Err(RaiseError::WrongKind) => Ok(()),
            Err(RaiseError::OldConfiguration) => Ok(()),
            Err(RaiseError::TooManyJoiners) => Ok(()),
        }
    }

    /// Whether some alerts may wait to be flushed. If none does, a flush gives no batch and changes
    /// nothing.
    #[tactic(auto, using(crate::proofs::Waiting::still_flushed, crate::proofs::Waiting::none_flushed))]
    pub(crate) fn waits(&self) -> bool
        ensures none { result ≡ false → batch_of (outbox.unflushed self.now.outbox) ≡ None }
        ensures still { result ≡ false → outbox.flush self.now.outbox ≡ self.now.outbox }
        ensures flushed { result ≡ false → outbox.unflushed self.now.outbox ≡ [] }
    {
        self.waits
    }

    /// The batch of those that were not flushed, as [`Outbox::flush`] gives it.
    #[tactic(auto, using(crate::proofs::Waiting::all_flushed))]
    pub(crate) fn flush(&mut self) -> Result<Option<Batch>, AllocError>
        ensures flushed { OnOk result (self.new.outbox ≡ outbox.flush self.old.outbox) }
        ensures batch { IfOk result (λ batch. batch ≡ batch_of (outbox.unflushed self.old.outbox)) }
        ensures own { IfOk result (λ batch. IfSome batch (λ xs. All (IsFrom self.old.owner (configuration_id self.old.table)) xs)) }
        ensures unchanged { OnErr result (self.new ≡ self.old) }
        ensures table { self.new.table ≡ self.old.table }
        ensures owner { self.new.owner ≡ self.old.owner }
    {
        let _ = self.outbox.raised();
        let batch = self.outbox.flush()?;
        self.waits = batch.is_some();
        Ok(batch)
    }

    /// Makes all alerts count as not flushed. It takes no memory.
    pub(crate) fn resend(&mut self)
        ensures resent { self.new.outbox ≡ outbox.resend self.old.outbox }
        ensures table { self.new.table ≡ self.old.table }
        ensures owner { self.new.owner ≡ self.old.owner }
    {
        self.waits = true;
        self.outbox.resend();
    }
}

impl Clone for Raised {
    ghost is_clone = { λ a b. b ≡ a };

    fn clone(&self) -> Result<Raised, AllocError> {
        let rings = self.rings.try_copy()?;
        let outbox = self.outbox.try_copy(self.rings.try_copy()?)?;
        Ok(Raised {
            outbox,
            rings,
            waits: self.waits,
        })
    }
}

/// The cut detector.
#[derive(Debug, Drop)]
pub(crate) struct Detection {
    pub(crate) detector: Detector<SharedRings>,
}

impl Model for Detection {
    ghost use Rattle.rapid_model.specs.Configuration.{Configuration as ModelConfiguration};
    ghost use Rattle.rapid_cut.specs.Watching.{Watching, watching_code};
    ghost use Rattle.rapid_join.specs.Hosts.{configuration_code};

    ghost Value = { Watching ModelConfiguration };

    ghost coded = { watching_code configuration_code };

    ghost view = { λ w. w.detector };
}

impl Detection {
    /// Nothing was reported.
    pub(crate) fn new(alloc: Global, rings: &SharedRings) -> Result<Detection, AllocError>
        ensures { IfOk result (λ w. w ≡ record { table = rings.now; detector = empty_detector }) }
    {
        let detector = Detector::new(alloc, rings.try_copy()?);
        Ok(Detection { detector })
    }
}

impl Clone for Detection {
    ghost is_clone = { λ a b. b ≡ a };

    fn clone(&self) -> Result<Detection, AllocError> {
        let rings = self.detector.table().try_copy()?;
        let detector = self.detector.try_copy(rings)?;
        Ok(Detection { detector })
    }
}

/// What waits: joiners for an answer, and unstable processes for an echo.
#[derive(Debug, Drop)]
pub(crate) struct Waiting {
    pub(crate) host: Host,
    pub(crate) ages: Ages,
}

impl Waiting {
    /// Nobody waits.
    fn new(alloc: Global, context: &Context, tables: &HostTables) -> Result<Waiting, AllocError>
        requires context { IsContext context.now }
        requires tables { tables.now ≡ context.now.configuration }
        ensures { IfOk result (λ w. w ≡ record { host = fresh_host context.now.configuration context.now.me; ages = map.empty }) }
    {
        let host = Host::with_tables(alloc, &context.configuration, tables, &context.me)?;
        let ages = Ages::new(alloc);
        Ok(Waiting { host, ages })
    }
}

impl Clone for Waiting {
    ghost is_clone = { λ a b. b ≡ a };

    fn clone(&self) -> Result<Waiting, AllocError> {
        let host = self.host.try_copy()?;
        let ages = self.ages.try_copy()?;
        Ok(Waiting { host, ages })
    }
}

/// What neither a tick nor a fast vote changes by itself.
#[derive(Debug, Drop)]
pub(crate) struct Rest {
    pub(crate) ballots: Arc<Ballots, Global>,
    pub(crate) raised: Arc<Raised, Global>,
    pub(crate) waiting: Arc<Waiting, Global>,
}

impl Rest {
    /// What a member begins with in its configuration.
    pub(crate) fn new(
        alloc: Global,
        context: &Context,
        tables: &HostTables,
    ) -> Result<Rest, AllocError>
        requires context { IsContext context.now }
        requires tables { tables.now ≡ context.now.configuration }
        ensures ballots { IfOk result (λ r. arc_value r.ballots ≡ record { acceptor = fresh_acceptor; coordinator = fresh_coordinator (length context.now.configuration.members) context.now.place; learner = fresh_learner (length context.now.configuration.members); proposal = None; alloc = alloc }) }
        ensures raised { IfOk result (λ r. arc_value r.raised ≡ record { table = context.now.rings; owner = context.now.me; outbox = outbox.empty_outbox }) }
        ensures waiting { IfOk result (λ r. arc_value r.waiting ≡ record { host = fresh_host context.now.configuration context.now.me; ages = map.empty }) }
    {
        let size = context.configuration.members().len();
        let ballots = Arc::new(alloc, Ballots::new(alloc, size, context.place))?;
        let me = context.me.share()?;
        let raised = Arc::new(alloc, Raised::new(alloc, &context.rings, me)?)?;
        let waiting = Arc::new(alloc, Waiting::new(alloc, context, tables)?)?;
        Ok(Rest {
            ballots,
            raised,
            waiting,
        })
    }
}

impl Clone for Rest {
    ghost use Rattle.std.specs.Prelude.{◌≡◌};
    ghost use Rattle.rapid_member.specs.Parts.{AreSameParts};

    ghost is_clone = { λ a b. AreSameParts a b };

    fn clone(&self) -> Result<Rest, AllocError> {
        let ballots = Arc::try_clone(&self.ballots)?;
        let raised = Arc::try_clone(&self.raised)?;
        let waiting = Arc::try_clone(&self.waiting)?;
        Ok(Rest {
            ballots,
            raised,
            waiting,
        })
    }
}
