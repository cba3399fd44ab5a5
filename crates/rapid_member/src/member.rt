// A member in its configuration.

ghost use Rattle.std.specs.Prelude.{◌≡◌, ◌<◌, ◌≤◌, true, All, length, map, IfOk, OnOk, OnErr};
ghost use Rattle.std.specs.FinSet as set;
ghost use Rattle.rapid_model.specs.Configuration.{is_member};
ghost use Rattle.rapid_model.specs.Host.{confirms};
ghost use Rattle.rapid_model.specs.Node as node;
ghost use Rattle.rapid_model.specs.Limits.{most_members};
ghost use Rattle.rapid_join.specs.Answers.{answered_of};
ghost use Rattle.rapid_join.specs.Answers.{AnswersObservers};

mod changing;
mod leaving;
mod parts;
mod quiet;
mod receiving;
mod ticking;
mod voting;

use crate::shared_rings::SharedRings;
use parts::{Context, Detection, Rest, Votes};
use rapid_config::Configuration;
use rapid_endpoint::{Process, SharedProcess};
use rapid_fast::FastRound;
use rapid_join::{HostAnswer, HostTables};
use rapid_rings::Rings;
use std::alloc::{AllocError, Global};
use std::marker::Model;
use std::sync::Arc;

/// What a member keeps in a configuration. Its parts are shared with all copies until one of them
/// changes a part.
#[derive(Debug)]
pub struct MemberState {
    context: Arc<Context, Global>,
    votes: Arc<Votes, Global>,
    detection: Arc<Detection, Global>,
    rest: Arc<Rest, Global>,
    // it has cast a fast vote
    voted: bool,
    // how many ticks it had here
    tick: u64,
    // the tick of the first vote sent or heard
    first_vote: Option<u64>,
    alloc: Global,
}

// By hand: it is proved here that all parts can be dropped, and no crate above has to prove it again.
impl Drop for MemberState {
    fn drop(self) {
        let MemberState {
            context: _,
            votes: _,
            detection: _,
            rest: _,
            voted: _,
            tick: _,
            first_vote: _,
            alloc: _,
        } = self;
    }
}

impl Model for MemberState {
    ghost use Rattle.std.specs.Arc.{arc_value};
    ghost use Rattle.rapid_model.specs.Node.{MemberState as ModelMember};
    ghost use Rattle.rapid_member.specs.Codes.{member_code};
    ghost use Rattle.rapid_member.specs.Parts.{IsContext, AreParts, member_of};

    ghost Value = { ModelMember };

    ghost coded = { member_code };

    ghost view = { λ s. member_of (arc_value s.context) (arc_value s.votes) (arc_value s.detection) (arc_value s.rest) s.voted s.tick s.first_vote };

    ghost invariant = { λ s. IsContext (arc_value s.context) × AreParts (arc_value s.context) (arc_value s.votes) (arc_value s.detection) (arc_value s.rest) };
}

impl MemberState {
    /// A member that enters the configuration of these tables, which it shares.
    #[tactic(auto, using(crate::proofs::Places::has_place), unfolding(rapid_model::specs::Node::fresh_member))]
    pub fn new(
        alloc: Global,
        configuration: &Configuration,
        tables: &HostTables,
        me: SharedProcess,
    ) -> Result<MemberState, AllocError>
        requires member { is_member configuration.now me ≡ true }
        requires tables { tables.now ≡ configuration.now }
        ensures { IfOk result (λ s. s ≡ node.fresh_member configuration.now me) }
    {
        let Some(place) = configuration.position(me.get()) else {
            unreachable!()
        };
        let size = configuration.members().len();
        let context = Context {
            configuration: configuration.try_copy(alloc)?,
            rings: SharedRings::new(Arc::try_clone(tables.rings())?),
            me,
            place,
        };
        let detection = Arc::new(alloc, Detection::new(alloc, &context.rings)?)?;
        let rest = Arc::new(alloc, Rest::new(alloc, &context, tables)?)?;
        let round = FastRound::new(alloc, size, place);
        Ok(MemberState {
            context: Arc::new(alloc, context)?,
            votes: Arc::new(alloc, Votes { round })?,
            detection,
            rest,
            voted: false,
            tick: 0,
            first_vote: None,
            alloc,
        })
    }

    /// The configuration.
    pub fn configuration(&self) -> &Configuration
        ensures { result.now ≡ self.now.config }
    {
        &self.context.configuration
    }

    /// What memory is taken from. A method that reads no other field asks for it here, so that a
    /// proof need not take the member apart.
    #[inline(always)]
    fn alloc(&self) -> Global {
        self.alloc
    }

    /// The process.
    fn me(&self) -> &Process
        ensures { result.now ≡ self.now.me }
    {
        self.context.me.get()
    }

    /// The process, to be shared with what it says.
    fn shared_me(&self) -> &SharedProcess
        ensures { result.now ≡ self.now.me }
    {
        &self.context.me
    }

    /// The own position.
    fn place(&self) -> usize
        ensures value { result ≡ node.place self.now.config self.now.me }
        ensures member { result < length self.now.config.members }
        ensures few { length self.now.config.members ≤ most_members }
    {
        self.context.place
    }

    /// The rings of the configuration.
    pub fn rings(&self) -> &Arc<Rings, Global>
        ensures { result.now.value ≡ self.now.config }
    {
        self.context.rings.get()
    }

    /// What each pending joiner gets after a change to the next configuration. None is pending
    /// afterwards.
    #[tactic(auto, using(crate::proofs::Hosts::confirms_give))]
    pub(crate) fn confirms(
        &mut self,
        next: &Configuration,
    ) -> Result<Vec<(Process, HostAnswer)>, AllocError>
        ensures answers { IfOk result (λ answers. map answered_of answers.items ≡ confirms next.now self.old.pending) }
        ensures given { IfOk result (λ answers. All (λ x. AnswersObservers x.1) answers.items) }
        ensures state { OnOk result (self.new ≡ record self.old { pending = set.empty }) }
        ensures unchanged { OnErr result (self.new ≡ self.old) }
    {
        let rest = Arc::make_mut(&mut self.rest)?;
        let waiting = Arc::make_mut(&mut rest.waiting)?;
        waiting.host.confirms(next)
    }

    /// An equal member, which shares its parts.
    pub fn try_copy(&self) -> Result<MemberState, AllocError>
        ensures { IfOk result (λ s. s ≡ self.now) }
    {
        let context = Arc::try_clone(&self.context)?;
        let votes = Arc::try_clone(&self.votes)?;
        let detection = Arc::try_clone(&self.detection)?;
        let rest = Arc::try_clone(&self.rest)?;
        Ok(MemberState {
            context,
            votes,
            detection,
            rest,
            voted: self.voted,
            tick: self.tick,
            first_vote: self.first_vote,
            alloc: self.alloc,
        })
    }
}
