// One node.

ghost use Rattle.std.specs.Prelude.{◌≡◌, ◌<◌, ◌-◌, ◌^◌, ◌++◌, ◌∷◌, [], false, true, length, map, flat_map, IfOk, OnOk, IfErr, OnErr, IfSome, IsTrue, Some, None, Err};
ghost use Rattle.std.specs.Arc.{arc_value};
ghost use Rattle.std.specs.Option.{option_map};
ghost use Rattle.rapid_model.specs.Apply.{apply};
ghost use Rattle.rapid_model.specs.Configuration.{configuration_id, is_member, stamp};
ghost use Rattle.rapid_model.specs.Host.{confirms};
ghost use Rattle.rapid_model.specs.Joiner.{after_tick, asks_at_tick};
ghost use Rattle.rapid_model.specs.Message as message;
ghost use Rattle.rapid_model.specs.Message.{caught_up_by};
ghost use Rattle.rapid_model.specs.Node as model;
ghost use Rattle.rapid_model.specs.NodeStep as step;
ghost use Rattle.rapid_model.specs.Tick.{on_tick};
ghost use Rattle.rapid_model.specs.Receive as receive;
ghost use Rattle.rapid_model.specs.World.{observed_in};
ghost use Rattle.rapid_join.specs.Answers.{answer_of};
ghost use Rattle.rapid_member.specs.Members.{IsSameMember};
ghost use Rattle.rapid_node.specs.Phases.{phase_of, name_of, IsState};
ghost use Rattle.rapid_node.specs.Quiet.{IsQuiet};
ghost use Rattle.rapid_node.specs.Steps.{event_of, in_phase, Continues, HasOutcome, Stops, IsFault};
ghost use Rattle.rapid_node.specs.declared.fault.NodeFault.TheVariants as fault;

use crate::installed::Installed;
use crate::past::Past;
use crate::phase::State;
use crate::shown::Shown;
use crate::views::{ViewWithTables, Views};
use crate::{Event, NodeFault, Phase};
use rapid_alerts::{Alert, Kind};
use rapid_config::{ConfigId, Configuration, Cut, Stamp};
use rapid_endpoint::{Endpoint, Process, SharedProcess};
use rapid_join::{Joiner, Reply};
use rapid_member::{Decisions, MemberState, confirm_pending, send_joining};
use rapid_message::{Body, Message, Output, Outputs};
use rapid_rings::Rings;
use std::alloc::{AllocError, Global};
use std::marker::Model;
use std::mem;
use std::sync::Arc;

/// One node of the service: a process that joins, is a member, was removed or has halted. It does
/// no input or output: it takes events, one [`Node::step`] each, and answers what is to be sent.
#[derive(Debug)]
pub struct Node {
    me: SharedProcess,
    state: State,
    past: Arc<Past, Global>,
    alloc: Global,
}

// By hand: it is proved here that all parts can be dropped, and no crate above has to prove it again.
impl Drop for Node {
    fn drop(self) {
        let Node {
            me: _,
            state: _,
            past: _,
            alloc: _,
        } = self;
    }
}

impl Model for Node {
    ghost use Rattle.std.specs.Arc.{arc_value};
    ghost use Rattle.rapid_model.specs.Node.{Node as ModelNode};
    ghost use Rattle.rapid_node.specs.Codes.{node_code};

    ghost Value = { ModelNode };

    ghost coded = { node_code };

    ghost use Rattle.rapid_node.specs.Phases.{phase_of, IsState};

    ghost view = { λ n. record { me = n.me; phase = phase_of (arc_value n.past).shown n.state; installed = (arc_value n.past).installed; decisions = (arc_value n.past).decisions } };

    ghost invariant = { λ n. IsState n.me (arc_value n.past).shown n.state };
}

/// The member that a member observes on a ring.
fn subject_on(rings: &Rings, me: &Process, ring: u8) -> Option<Process>
    ensures { result ≡ option_map (λ x. x.1) (observed_in (Some rings.now) me.now ring) }
{
    rings.subject_on(ring, me)
}

impl Node {
    /// How many views a node installs at most.
    pub const MOST_VIEWS: usize = 65_536;

    /// The node of these parts.
    fn of(alloc: Global, me: SharedProcess, state: State, past: Past) -> Result<Node, AllocError>
        requires { IsState me past.shown state }
        ensures { IfOk result (λ node. node ≡ record { me = me; phase = phase_of past.shown state; installed = past.installed; decisions = past.decisions }) }
    {
        let past = Arc::new(alloc, past)?;
        Ok(Node {
            me,
            state,
            past,
            alloc,
        })
    }

    /// The node of a founder: a member of this configuration, which has the height 0. The caller
    /// ensures that the process is a member.
    pub fn seed(
        alloc: Global,
        configuration: &Configuration,
        process: Process,
    ) -> Result<Node, AllocError>
        requires { is_member configuration.now process ≡ true }
        ensures { IfOk result (λ node. node ≡ model.seed_node configuration.now process) }
    {
        let mut views = Views::new(alloc, 0);
        Node::seed_in(alloc, &mut views, configuration, process)
    }

    /// The node of a founder, as [`Node::seed`] makes it, by views that nodes share.
    pub fn seed_in(
        alloc: Global,
        views: &mut Views,
        configuration: &Configuration,
        process: Process,
    ) -> Result<Node, AllocError>
        requires { is_member configuration.now process ≡ true }
        ensures { IfOk result (λ node. node ≡ model.seed_node configuration.now process) }
    {
        let view = views.of(configuration)?;
        let shown = Shown::share_of(view.configuration())?;
        let mut installed = Installed::new(alloc)?;
        installed.push(configuration.stamp())?;
        let past = Past {
            shown,
            installed,
            decisions: Decisions::new(alloc)?,
        };
        let me = SharedProcess::new(alloc, &process)?;
        let state = State::found(alloc, &view, &me)?;
        Node::of(alloc, me, state, past)
    }

    /// The node of a process that joins by the seed at this endpoint.
    pub fn joiner(alloc: Global, process: Process, seed: Endpoint) -> Result<Node, AllocError>
        ensures { IfOk result (λ node. node ≡ model.joiner_node process seed) }
    {
        let past = Past {
            shown: Shown::nothing(),
            installed: Installed::new(alloc)?,
            decisions: Decisions::new(alloc)?,
        };
        let me = SharedProcess::new(alloc, &process)?;
        let state = State::Joining(Box::new(alloc, Joiner::new(process, seed))?);
        Node::of(alloc, me, state, past)
    }

    /// The process.
    pub fn process(&self) -> &Process
        ensures { result.now ≡ self.now.me }
    {
        self.me.get()
    }

    /// The process, as it is shared with what the node says.
    pub fn shared_process(&self) -> &SharedProcess
        ensures { result.now ≡ self.now.me }
    {
        &self.me
    }

    /// The stamps of all configurations that it installed, in order.
    pub fn installed(&self) -> &[Stamp]
        ensures { result.now ≡ self.now.installed }
    {
        self.past.installed.as_slice()
    }

    /// Its configuration: the current one, or the last one if it was removed or has halted; none
    /// before the first.
    #[tactic(auto, using(crate::proofs::Showing::shows))]
    pub fn configuration(&self) -> Option<&Configuration>
        ensures { option_map (λ c. c.now) result ≡ model.configuration_of self.now }
    {
        self.past.shown.get()
    }

    /// The configuration that [`Node::configuration`] gives, shared with the node. It fails only if
    /// there are too many owners.
    #[tactic(auto, using(crate::proofs::Showing::shows))]
    pub fn shared_configuration(&self) -> Result<Option<Arc<Configuration, Global>>, AllocError>
        ensures { IfOk result (λ shared. option_map (λ c. arc_value c) shared ≡ model.configuration_of self.now) }
    {
        self.past.shown.share()
    }

    /// The rings of the configuration that it is a member in; none if it is no member.
    pub fn rings(&self) -> Option<&Rings>
        ensures { option_map (λ rings. rings.now) result ≡ model.member_in self.now }
    {
        match &self.state {
            State::Member(member) => Some(&**member.rings()),
            State::Joining(_) | State::Removed(_) | State::Halted => None,
        }
    }

    /// The member that it observes on a ring, from 0. None if there is no such ring, if it observes
    /// nobody, or if it is no member. It takes no memory, and costs one search for its own process.
    pub fn observed(&self, ring: u8) -> Option<Process>
        ensures { result ≡ option_map (λ x. x.1) (observed_in (model.member_in self.now) self.now.me ring) }
    {
        match self.rings() {
            Some(rings) => subject_on(rings, self.process(), ring),
            None => None,
        }
    }

    /// The decisions of the configurations that it left.
    fn decisions(&self) -> &Decisions
        ensures { result.now ≡ self.now.decisions }
    {
        &self.past.decisions
    }

    /// The phase.
    pub fn phase(&self) -> Phase
        ensures { result ≡ name_of self.now.phase }
    {
        match &self.state {
            State::Joining(_) => Phase::Joining,
            State::Member(_) => Phase::Member,
            State::Removed(_) => Phase::Removed,
            State::Halted => Phase::Halted,
        }
    }

    /// Makes the node halt. Nothing else of it changes.
    #[tactic(auto, using(crate::proofs::Showing::shows))]
    pub fn halt(&mut self)
        ensures { self.new ≡ model.halt self.old }
    {
        self.state = State::Halted;
    }

    /// An equal node. What never changes in a configuration is shared.
    pub fn try_copy(&self) -> Result<Node, AllocError>
        ensures { IfOk result (λ node. node ≡ self.now) }
    {
        let state = self.state.try_copy(self.alloc)?;
        let me = self.me.share()?;
        let past = Arc::try_clone(&self.past)?;
        Ok(Node {
            me,
            state,
            past,
            alloc: self.alloc,
        })
    }

    /// It joins.
    #[tactic(auto, using(crate::proofs::Showing::halted_shows))]
    fn be_joining(&mut self, joiner: Box<Joiner>)
        requires me { joiner.value.process ≡ self.old.me }
        requires shown { self.old.phase ≡ model.Halted None }
        ensures { self.new ≡ record self.old { phase = model.Joining joiner.value.joiner } }
    {
        self.state = State::Joining(joiner);
    }

    /// It is this member.
    #[tactic(auto, using(crate::proofs::Showing::halted_shows))]
    #[inline(always)]
    fn be_member(&mut self, member: Box<MemberState>)
        requires me { member.value.me ≡ self.old.me }
        requires shown { self.old.phase ≡ model.Halted (Some member.value.config) }
        ensures { self.new ≡ record self.old { phase = model.Member member.value } }
    {
        self.state = State::Member(member);
    }

    /// It was removed.
    #[tactic(auto, using(crate::proofs::Showing::halted_shows))]
    fn be_removed(&mut self, configuration: Configuration)
        requires { self.old.phase ≡ model.Halted (Some configuration) }
        ensures { self.new ≡ record self.old { phase = model.Removed configuration } }
    {
        self.state = State::Removed(configuration);
    }

    /// Enters a view from that of a member, by a cut.
    fn enter(
        &mut self,
        before: &MemberState,
        view: &ViewWithTables,
        cut: Cut,
    ) -> Result<(), AllocError>
        ensures me { OnOk result (self.new.me ≡ self.old.me) }
        ensures phase { OnOk result (self.new.phase ≡ step.phase_in view.now self.old.me) }
        ensures installed { OnOk result (self.new.installed ≡ self.old.installed ++ stamp view.now ∷ []) }
        ensures decisions { OnOk result (self.new.decisions ≡ step.last_64 (self.old.decisions ++ (configuration_id before.now.config, cut) ∷ [])) }
        ensures unchanged { OnErr result (self.new ≡ self.old) }
    {
        let id = before.configuration().id();
        let decisions = self.past.decisions.with(self.alloc, id, cut)?;
        let state = State::enter(self.alloc, view, &self.me)?;
        let stamp = view.configuration().stamp();
        let shown = Shown::share_of(view.configuration())?;
        Arc::make_mut(&mut self.past)?.add(stamp, shown, decisions)?;
        self.state = state;
        Ok(())
    }

    /// Installs what a decided cut makes: the pending joiners are answered, and the next
    /// configuration is entered.
    #[tactic(auto, unfolding(rapid_model::specs::NodeStep::install))]
    fn install(
        &mut self,
        views: &mut Views,
        out: &mut Vec<Output>,
        mut member: Box<MemberState>,
        cut: Cut,
    ) -> Result<(), AllocError>
        requires { member.value.config.height < 2 ^ 64 - 1 }
        ensures node { OnOk result (self.new ≡ (step.install self.old member.value cut).node) }
        ensures out { OnOk result (out.new.items ≡ out.old.items ++ model.outputs self.old.me (step.install self.old member.value cut).effects) }
        ensures unchanged { OnErr result (self.new ≡ self.old) }
    {
        let view = views.after(&*member, &cut)?;
        let next = &**view.configuration();
        confirm_pending(self.alloc, out, self.shared_process(), &mut *member, next)?;
        self.enter(&*member, &view, cut)
    }

    /// Whether there is no room for a view after the one that this member is in.
    #[inline(always)]
    fn is_full_for(&self, member: &MemberState) -> bool
        ensures full { result ≡ step.is_history_full self.now.installed member.now.config }
        ensures room { result ≡ false → member.now.config.height < 2 ^ 64 - 1 }
    {
        self.installed().len() >= Node::MOST_VIEWS || member.configuration().height() == u64::MAX
    }

    /// What the node is after its member's work: that member, or what the decided cut makes of it.
    #[tactic(auto, unfolding(rapid_model::specs::NodeStep::settle))]
    #[inline(always)]
    fn settle(
        &mut self,
        views: &mut Views,
        out: &mut Vec<Output>,
        member: Box<MemberState>,
        decided: Option<Cut>,
    ) -> Result<(), NodeFault>
        requires me { member.value.me ≡ self.old.me }
        requires shown { self.old.phase ≡ model.Halted (Some member.value.config) }
        ensures ok { OnOk result (Continues self.old.me (step.settle self.old (record { state = member.value; effects = []; decided = decided })) self.new out.old.items out.new.items) }
        ensures stop { IfErr result (Stops (step.settle self.old (record { state = member.value; effects = []; decided = decided }))) }
        ensures unchanged { OnErr result (self.new ≡ self.old) }
    {
        let Some(cut) = decided else {
            self.be_member(member);
            return Ok(());
        };
        if self.is_full_for(&*member) {
            return Err(NodeFault::HistoryFull);
        }
        self.install(views, out, member, cut)?;
        Ok(())
    }

    /// A tick of a member.
    #[tactic(auto, using(crate::proofs::Settling::settles, crate::proofs::Settling::settles_not))]
    #[inline(always)]
    fn member_tick(
        &mut self,
        views: &mut Views,
        out: &mut Vec<Output>,
        mut member: Box<MemberState>,
    ) -> Result<(), NodeFault>
        requires me { member.value.me ≡ self.old.me }
        requires shown { self.old.phase ≡ model.Halted (Some member.value.config) }
        ensures ok { OnOk result (Continues self.old.me (step.settle (in_phase self.old (model.Member member.value)) (on_tick member.value)) self.new out.old.items out.new.items) }
        ensures stop { IfErr result (Stops (step.settle (in_phase self.old (model.Member member.value)) (on_tick member.value))) }
        ensures unchanged { OnErr result (self.new ≡ self.old) }
    {
        let decided = member.on_tick(out)?;
        self.settle(views, out, member, decided)
    }

    /// A message at a member.
    #[tactic(auto, using(crate::proofs::Settling::settles, crate::proofs::Settling::settles_not))]
    #[inline(always)]
    fn member_receive(
        &mut self,
        views: &mut Views,
        out: &mut Vec<Output>,
        mut member: Box<MemberState>,
        message: &Message,
    ) -> Result<(), NodeFault>
        requires me { member.value.me ≡ self.old.me }
        requires shown { self.old.phase ≡ model.Halted (Some member.value.config) }
        ensures ok { OnOk result (Continues self.old.me (step.settle (in_phase self.old (model.Member member.value)) (receive.receive_as_member self.old.decisions member.value message.now.sender message.now.body)) self.new out.old.items out.new.items) }
        ensures stop { IfErr result (Stops (step.settle (in_phase self.old (model.Member member.value)) (receive.receive_as_member self.old.decisions member.value message.now.sender message.now.body))) }
        ensures unchanged { OnErr result (self.new ≡ self.old) }
    {
        let decided = member.receive(out, self.decisions(), message)?;
        self.settle(views, out, member, decided)
    }

    /// An edge of a member that went down.
    #[tactic(auto, unfolding(rapid_model::specs::NodeStep::settle))]
    fn member_edge_down(
        &mut self,
        mut member: Box<MemberState>,
        config: ConfigId,
        ring: u8,
        subject: &Process,
    ) -> Result<(), AllocError>
        requires me { member.value.me ≡ self.old.me }
        requires shown { self.old.phase ≡ model.Halted (Some member.value.config) }
        ensures ok { OnOk result (Continues self.old.me (step.step_edge_down (in_phase self.old (model.Member member.value)) (model.Member member.value) config ring subject.now) self.new [] []) }
        ensures unchanged { OnErr result (self.new ≡ self.old) }
    {
        member.raise(Alert {
            observer: *self.process(),
            subject: *subject,
            ring,
            kind: Kind::Remove,
            config,
        })?;
        self.be_member(member);
        Ok(())
    }

    /// A member that is to leave.
    #[tactic(auto, unfolding(rapid_model::specs::NodeStep::settle))]
    fn member_leave(
        &mut self,
        out: &mut Vec<Output>,
        member: Box<MemberState>,
    ) -> Result<(), AllocError>
        requires me { member.value.me ≡ self.old.me }
        requires shown { self.old.phase ≡ model.Halted (Some member.value.config) }
        ensures ok { OnOk result (Continues self.old.me (step.step_leave (in_phase self.old (model.Member member.value)) (model.Member member.value)) self.new out.old.items out.new.items) }
        ensures unchanged { OnErr result (self.new ≡ self.old) }
    {
        member.leave(out)?;
        self.be_member(member);
        Ok(())
    }

    /// A tick while it joins.
    #[tactic(auto, using(crate::proofs::Asking::asked))]
    fn joiner_tick(
        &mut self,
        out: &mut Vec<Output>,
        mut joiner: Box<Joiner>,
    ) -> Result<(), AllocError>
        requires me { joiner.value.process ≡ self.old.me }
        requires shown { self.old.phase ≡ model.Halted None }
        ensures ok { OnOk result (Continues self.old.me (step.step_tick self.old (model.Joining joiner.value.joiner)) self.new out.old.items out.new.items) }
        ensures unchanged { OnErr result (self.new ≡ self.old) }
    {
        let question = joiner.on_tick();
        send_joining(self.alloc, out, self.shared_process(), &question)?;
        self.be_joining(joiner);
        Ok(())
    }

    /// A reply while it joins.
    #[tactic(auto, using(crate::proofs::Asking::replied))]
    fn joiner_reply(
        &mut self,
        out: &mut Vec<Output>,
        joiner: Box<Joiner>,
        process: &Process,
        reply: &Reply,
    ) -> Result<(), AllocError>
        requires me { joiner.value.process ≡ self.old.me }
        requires shown { self.old.phase ≡ model.Halted None }
        ensures ok { OnOk result (Continues self.old.me (Some (receive.joins_on (in_phase self.old (model.Joining joiner.value.joiner)) joiner.value.joiner (receive.replied self.old joiner.value.joiner process.now (answer_of reply.now)))) self.new out.old.items out.new.items) }
        ensures unchanged { OnErr result (self.new ≡ self.old) }
    {
        let answer = joiner.on_reply(self.alloc, process, reply)?;
        send_joining(self.alloc, out, self.shared_process(), &answer)?;
        self.be_joining(joiner);
        Ok(())
    }

    /// A Confirm while it joins: one that contains it makes it a member.
    #[tactic(auto, unfolding(rapid_model::specs::Receive::receive_as_joiner))]
    fn joiner_confirm(
        &mut self,
        views: &mut Views,
        joiner: Box<Joiner>,
        configuration: &Configuration,
    ) -> Result<(), AllocError>
        requires me { joiner.value.process ≡ self.old.me }
        requires shown { self.old.phase ≡ model.Halted None }
        ensures ok { OnOk result (Continues self.old.me (Some (receive.receive_as_joiner (in_phase self.old (model.Joining joiner.value.joiner)) joiner.value.joiner (message.Confirm configuration.now))) self.new [] []) }
        ensures unchanged { OnErr result (self.new ≡ self.old) }
    {
        if !configuration.is_member(self.process()) {
            self.be_joining(joiner);
            return Ok(());
        }
        let node = Node::seed_in(self.alloc, views, configuration, *self.process())?;
        *self = node;
        Ok(())
    }

    /// A message while it joins.
    #[tactic(auto, using(crate::proofs::Settling::said_nothing), unfolding(rapid_model::specs::Receive::receive_as_joiner))]
    fn joiner_receive(
        &mut self,
        views: &mut Views,
        out: &mut Vec<Output>,
        joiner: Box<Joiner>,
        message: &Message,
    ) -> Result<(), AllocError>
        requires me { joiner.value.process ≡ self.old.me }
        requires shown { self.old.phase ≡ model.Halted None }
        ensures ok { OnOk result (Continues self.old.me (step.step_receive (in_phase self.old (model.Joining joiner.value.joiner)) (model.Joining joiner.value.joiner) message.now) self.new out.old.items out.new.items) }
        ensures unchanged { OnErr result (self.new ≡ self.old) }
    {
        match message.body() {
            Body::Reply(process, reply) => self.joiner_reply(out, joiner, process.get(), reply),
            Body::Confirm(configuration) => self.joiner_confirm(views, joiner, configuration),
            Body::Batch(..)
            | Body::FastVote(..)
            | Body::Prepare(..)
            | Body::Promise(..)
            | Body::Accept(..)
            | Body::Accepted(..)
            | Body::Decision(..)
            | Body::PreJoin
            | Body::JoinRequest(..)
            | Body::Probe(_)
            | Body::ProbeAck(_)
            | Body::Leave(..) => {
                self.be_joining(joiner);
                Ok(())
            }
        }
    }

    /// Answers a message about a configuration that was left with the cut decided there.
    fn catch_up(&self, out: &mut Vec<Output>, message: &Message) -> Result<(), AllocError>
        ensures { OnOk result (out.new.items ≡ out.old.items ++ model.outputs self.now.me (receive.catch_up self.now.decisions message.now.sender (caught_up_by message.now.body))) }
    {
        match message.body().caught_up_by() {
            Some(id) => {
                let from = message.sender();
                self.past
                    .decisions
                    .catch_up(self.alloc, out, self.shared_process(), from, id)
            }
            None => Ok(()),
        }
    }

    /// A message after its removal.
    fn removed_receive(
        &mut self,
        out: &mut Vec<Output>,
        configuration: Configuration,
        message: &Message,
    ) -> Result<(), AllocError>
        requires shown { self.old.phase ≡ model.Halted (Some configuration) }
        ensures ok { OnOk result (Continues self.old.me (Some (record { node = record self.old { phase = model.Removed configuration }; effects = receive.catch_up self.old.decisions message.now.sender (caught_up_by message.now.body) })) self.new out.old.items out.new.items) }
        ensures unchanged { OnErr result (self.new ≡ self.old) }
    {
        self.catch_up(out, message)?;
        self.be_removed(configuration);
        Ok(())
    }

    /// One step, after which what goes out stands after what stood there before.
    #[tactic(auto, using(crate::proofs::Settling::said_nothing, crate::proofs::Showing::shows), unfolding(rapid_model::specs::NodeStep::node_step))]
    #[inline(always)]
    fn step_into(
        &mut self,
        views: &mut Views,
        out: &mut Vec<Output>,
        event: &Event,
    ) -> Result<(), NodeFault>
        ensures step { OnOk result (Continues self.old.me (step.node_step self.old (event_of event.now)) self.new out.old.items out.new.items) }
        ensures fault { IfErr result (IsFault self.old (event_of event.now) self.new) }
        ensures running { OnOk result (model.is_halted self.old ≡ false) }
    {
        match mem::replace(&mut self.state, State::Halted) {
            State::Halted => Err(NodeFault::Halted),
            State::Joining(joiner) => match event {
                Event::Tick => Ok(self.joiner_tick(out, joiner)?),
                Event::Receive(message) => Ok(self.joiner_receive(views, out, joiner, message)?),
                Event::EdgeDown(..) | Event::Leave => {
                    self.be_joining(joiner);
                    Ok(())
                }
            },
            State::Member(member) => match event {
                Event::Tick => self.member_tick(views, out, member),
                Event::Receive(message) => self.member_receive(views, out, member, message),
                Event::EdgeDown(config, ring, subject) => {
                    Ok(self.member_edge_down(member, *config, *ring, subject.get())?)
                }
                Event::Leave => Ok(self.member_leave(out, member)?),
            },
            State::Removed(configuration) => match event {
                Event::Receive(message) => Ok(self.removed_receive(out, configuration, message)?),
                Event::Tick | Event::EdgeDown(..) | Event::Leave => {
                    self.be_removed(configuration);
                    Ok(())
                }
            },
        }
    }

    /// Whether its step by the event certainly sends nothing and installs nothing. Such events are
    /// an edge that went down, a fast vote that cannot decide, and a tick of a member at which
    /// nothing is due. If the answer is false, the step may send or install something, or may not.
    /// A driver that has to make room for what a step sends makes none for such a step.
    #[tactic(auto, using(crate::proofs::Quiet::edge_down_is_quiet, crate::proofs::Quiet::tick_is_quiet, crate::proofs::Quiet::removed_is_quiet, crate::proofs::Quiet::halted_is_quiet, crate::proofs::Quiet::message_is_quiet))]
    pub fn is_quiet(&self, event: &Event) -> bool
        ensures { result ≡ true → IsQuiet self.now (event_of event.now) }
    {
        match event {
            Event::EdgeDown(..) => true,
            Event::Leave => false,
            Event::Tick => match &self.state {
                State::Member(member) => member.has_quiet_tick(),
                State::Removed(_) => true,
                State::Halted => true,
                State::Joining(_) => false,
            },
            Event::Receive(message) => match &self.state {
                State::Member(member) => member.is_quiet_at(message),
                State::Joining(_) | State::Removed(_) | State::Halted => false,
            },
        }
    }

    /// One step, and what is to be sent after it, in order. What goes to
    /// [`rapid_message::Destination::Others`] goes to the other members of the configuration in
    /// which the node was a member *before* the step. So a driver asks for [`Node::configuration`]
    /// before it makes the step: a step that installs leaves that configuration.
    ///
    /// # Errors
    ///
    /// `Halted` exactly if the node had halted; nothing changes. `HistoryFull` if a decided cut
    /// cannot be installed, because 65,536 views are installed or the height is the last. After
    /// this and after `OutOfMemory` the node has halted, sends nothing of this step and keeps its
    /// configuration.
    pub fn step(&mut self, event: &Event) -> Result<Outputs, NodeFault>
        ensures step { IfOk result (λ sent. HasOutcome self.old.me (step.node_step self.old (event_of event.now)) self.new sent.items) }
        ensures fault { IfErr result (IsFault self.old (event_of event.now) self.new) }
        ensures running { OnOk result (model.is_halted self.old ≡ false) }
    {
        // a store without room: it finds nothing and takes no memory
        let mut views = Views::new(self.alloc, 0);
        self.step_in(&mut views, event)
    }

    /// One step, as [`Node::step`] makes it, by views that nodes share. What the node enters is
    /// looked up there, and kept there if it was not found.
    ///
    /// # Errors
    ///
    /// Those of [`Node::step`].
    #[inline(always)]
    pub fn step_in(&mut self, views: &mut Views, event: &Event) -> Result<Outputs, NodeFault>
        ensures step { IfOk result (λ sent. HasOutcome self.old.me (step.node_step self.old (event_of event.now)) self.new sent.items) }
        ensures fault { IfErr result (IsFault self.old (event_of event.now) self.new) }
        ensures running { OnOk result (model.is_halted self.old ≡ false) }
    {
        let mut out = Vec::new(self.alloc);
        self.step_into(views, &mut out, event)?;
        Ok(out)
    }
}
