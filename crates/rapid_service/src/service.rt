// One node at its desk, with its probes.

ghost use Rattle.std.specs.Prelude.{◌≡◌, Option, List, ◌==◌, IfNone, ℕ, ◌+◌, ◌%◌, ◌<◌, ◌≤◌, ◌++◌, [], ◌∷◌, ◌↔◌, ◌⊎◌, map, true, false, Ok, Some, None, length, option_to_list, vec_len, IfOk, IfErr, IfSome, IsSome, IsSomeAnd, OnOk, OnErr};
ghost use Rattle.std.specs.Option.{option_map};
ghost use Rattle.std.proofs.Props.{props};
ghost use Rattle.rapid_desk.specs.Desks.{NotSubscribed, seed_state, joiner_state, shown_height};
ghost use Rattle.rapid_node.specs.Phases.{name_of};
ghost use Rattle.rapid_model.specs.Configuration.{founding};
ghost use Rattle.rapid_model.specs.Frame.{frame};
ghost use Rattle.rapid_model.specs.Message.{Probe};
ghost use Rattle.rapid_model.specs.Node as model;
ghost use Rattle.rapid_model.specs.Packets.{other_members};
ghost use Rattle.rapid_model.specs.Ring.{subjects_of};
ghost use Rattle.rapid_model.specs.Limits.{most_notes, most_subscriptions, most_waiting_views, probe_period};
ghost use Rattle.rapid_node.specs.Steps.{event_of};
ghost use Rattle.rapid_lines.specs.ViewText.{view_text};
ghost use Rattle.rapid_lines.specs.declared.note.Answer.TheVariants.{Nothing};
ghost use Rattle.rapid_repeats.specs.Remembering.{IsRepeatFor};
ghost use Rattle.rapid_rounds.specs.Edges.{SameBoard, place_of, down_of, told_of, all_blank, seats_of, all_dealt};
ghost use Rattle.rapid_signals.specs.declared.fault.RunningFault.TheVariants.{OutOfMemory};
ghost use Rattle.rapid_service.specs.Entering.{after_entering, installed_by, shown_since, view_in, views_of};
ghost use Rattle.rapid_service.specs.Filters.{IsFresh, StaysOrFresh, TickedOrFresh, HeardOrFresh, TickedIn, HeardIn, filter_of};
ghost use Rattle.rapid_service.specs.HandingOn.{down_on, downs_from};
ghost use Rattle.rapid_service.specs.Noting.{NotesRemoval, NotesRemovalAt, AddsRemovals, NotesQuestion, AskedOnce, AsksOrNone, asking_after, heard};
ghost use Rattle.rapid_lines.specs.declared.asking.Asking.{Asking};
ghost use Rattle.rapid_lines.specs.declared.note.Note.{Note};
ghost use Rattle.rapid_service.specs.Posting.{postings, to_each, all_but, present_in, stands, PostsSome, SaysAt, SaysSome, SaysAll, SaysFirst};
ghost use Rattle.rapid_service.specs.Presents.{edges_in, ShowsDown, SameBoards};
ghost use Rattle.rapid_service.specs.Seats.{had_seats};
ghost use Rattle.rapid_service.specs.Stepping.{HasStepped, HasRefused, HasRefusedEdge, Steps, StepsAll, Fails, FailsAmong, FailsIn, Tells, AllInTurn, OneFails};
ghost use Rattle.rapid_service.specs.Subscribing.{StillServes};
ghost use Rattle.rapid_service.specs.declared.received.Received.TheVariants as fate;

use crate::fault::fault_of;
use crate::frames::{frame_of, probe_of};
use crate::journal::shorten;
use crate::post::Post;
use crate::present::Present;
use crate::received::Received;
use bytes::Bytes;
use rapid_config::{ConfigId, Configuration, Params};
use rapid_desk::{Desk, DeskError, Subscription};
use rapid_endpoint::{Endpoint, Process, SharedProcess};
use rapid_lines::{Asking, Note, Notes, write_view};
use rapid_message::{Body, Destination, Message, Output, Outputs};
use rapid_node::{Event, Phase};
use rapid_repeats::Repeats;
use rapid_rounds::{EdgeState, MOST_RINGS, ObservedEdges, Part, PartRound, Rounds};
use rapid_signals::RunningFault;
use rapid_view::{View, ViewSeat};
use std::alloc::{AllocError, Global};
use std::mem;
use std::sync::Wait;

/// How many seats there are at the published view.
const SEATS: usize = 8;

/// A node at its desk, with the probes of those whom it observes in its current view. It is kept
/// under a lock, and whoever holds the lock gives it ticks and messages. It enters each view that
/// its node installs in a step: the line of the view waits behind those that wait. Only
/// `take_lines` takes lines away.
pub struct Service<R: Wait + Copy + Drop, P: Post + Drop> {
    rt: R,
    alloc: Global,
    me: SharedProcess,
    desk: Desk<R>,
    /// Its questions while it has no view.
    asking: Option<Asking>,
    present: Option<Present>,
    /// The seats that were not taken, from when there is a view.
    seats: Vec<ViewSeat>,
    rounds: Rounds,
    /// The lines of the views that were entered since they were last taken.
    lines: Vec<u8>,
    notes: Notes,
    post: P,
    ghost mine: { IfSome present (λ p. p.watch.me ≡ me) } by { Prim.hlevel props },
}

/// Sends a frame to each member but one.
fn broadcast<R: Wait, P: Post>(
    rt: &R,
    post: &mut P,
    members: &[Process],
    me: &Process,
    frame: &Bytes,
) -> Result<(), AllocError>
    ensures posts { OnOk result (P.has_posted post.old (to_each frame.now (all_but me.now members.now)) post.new) }
    ensures some { OnErr result (PostsSome P.has_posted post.old (to_each frame.now (all_but me.now members.now)) post.new) }
{
    for member in members {
        if *member != *me {
            post.post(rt, member.endpoint(), frame.clone()?);
        }
    }
    Ok(())
}

/// Sends the frame of a probe to each of these.
fn probe_all<R: Wait, P: Post>(
    rt: &R,
    post: &mut P,
    subjects: &[Option<Process>; MOST_RINGS],
    frame: &Bytes,
) -> Result<(), AllocError>
    ensures posts { OnOk result (P.has_posted post.old (to_each frame.now (present_in subjects.now)) post.new) }
    ensures some { OnErr result (PostsSome P.has_posted post.old (to_each frame.now (present_in subjects.now)) post.new) }
{
    for subject in subjects {
        if let Some(subject) = subject {
            post.post(rt, subject.endpoint(), frame.clone()?);
        }
    }
    Ok(())
}

/// Notes that a node of this phase is no member from this height on, if it was removed. Without
/// memory it notes nothing.
fn note_removal(notes: &mut Notes, phase: Phase, height: u64)
    ensures { NotesRemovalAt phase height notes.old.waiting.items notes.new.waiting.items }
{
    if phase == Phase::Removed {
        let _ = notes.add(Note::Removed(height));
    }
}

// By hand: it is proved here that all parts can be dropped, and no crate above has to prove it again.
impl<R: Wait + Copy + Drop, P: Post + Drop> Drop for Service<R, P> {
    fn drop(self) {
        let Service {
            rt: _,
            alloc: _,
            me: _,
            desk: _,
            asking: _,
            present: _,
            seats: _,
            rounds: _,
            lines: _,
            notes: _,
            post: _,
        } = self;
    }
}

impl<R: Wait + Copy + Drop, P: Post + Drop> Service<R, P> {
    /// The service at a desk.
    fn at(rt: R, alloc: Global, me: SharedProcess, desk: Desk<R>, post: P) -> Service<R, P>
        ensures desk { (result.desk ≡ desk) × (result.me ≡ me) }
        ensures blank { (result.present ≡ None) × (result.asking ≡ None) × (result.lines.items ≡ []) × (result.notes.waiting.items ≡ []) × (result.rounds ≡ 0) }
        ensures seats { vec_len result.seats ≡ 0 }
        ensures post { result.post ≡ post }
    {
        Service {
            rt,
            alloc,
            me,
            desk,
            asking: None,
            present: None,
            seats: Vec::new(alloc),
            rounds: Rounds::new(),
            lines: Vec::new(alloc),
            notes: Notes::new(alloc),
            post,
        }
    }

    /// The service of a process that founds a cluster, in which it is alone. Its first view is
    /// entered at once.
    pub fn found(
        rt: R,
        alloc: Global,
        params: Params,
        me: Process,
        post: P,
    ) -> Result<Service<R, P>, RunningFault>
        ensures desk { IfOk result (λ s. (s.desk.state ≡ seed_state (founding params (me ∷ [])) me) × (s.me ≡ me)) }
        ensures entered { IfOk result (λ s. IsSomeAnd s.present (λ present. present.view ≡ founding params (me ∷ []))) }
        ensures line { IfOk result (λ s. s.lines.items ≡ view_text (founding params (me ∷ []))) }
        ensures served { IfOk result (λ s. s.desk.subscriptions ≡ []) }
        ensures seats { IfOk result (λ s. (vec_len s.seats ≡ 8) × (s.desk.count ≡ 8)) }
        ensures filter { IfOk result (λ s. IsSomeAnd s.present IsFresh) }
        ensures quiet { IfOk result (λ s. (s.asking ≡ None) × (s.notes.waiting.items ≡ [])) }
        ensures post { IfOk result (λ s. s.post ≡ post) }
        ensures rounds { IfOk result (λ s. s.rounds ≡ 0) }
        ensures fault { IfErr result (λ e. e ≡ OutOfMemory) }
    {
        let Ok(configuration) = Configuration::seed(alloc, params, &[me]) else {
            return Err(RunningFault::OutOfMemory);
        };
        if !configuration.is_member(&me) {
            return Err(RunningFault::Halted);
        }
        // The only reason why a first view is not published is that there is no memory for it.
        let Ok(desk) = Desk::seed(rt, alloc, &configuration, me, SEATS) else {
            return Err(RunningFault::OutOfMemory);
        };
        let me = SharedProcess::new(alloc, &me)?;
        let mut service = Service::at(rt, alloc, me, desk, post);
        service.enter(View::new(configuration))?;
        Ok(service)
    }

    /// The service of a process that joins a cluster by the seed at this endpoint.
    pub fn join(
        rt: R,
        alloc: Global,
        me: Process,
        seed: Endpoint,
        post: P,
    ) -> Result<Service<R, P>, RunningFault>
        ensures desk { IfOk result (λ s. (s.desk.state ≡ joiner_state me seed) × (s.me ≡ me)) }
        ensures asks { IfOk result (λ s. s.asking ≡ Some (record { seed = seed; ticks = 0; answer = Nothing })) }
        ensures blank { IfOk result (λ s. (s.present ≡ None) × (s.lines.items ≡ [])) }
        ensures quiet { IfOk result (λ s. s.notes.waiting.items ≡ []) }
        ensures post { IfOk result (λ s. s.post ≡ post) }
        ensures served { IfOk result (λ s. s.desk.subscriptions ≡ []) }
        ensures seats { IfOk result (λ s. (vec_len s.seats ≡ 0) × (s.desk.count ≡ 8)) }
        ensures rounds { IfOk result (λ s. s.rounds ≡ 0) }
        ensures fault { IfErr result (λ e. e ≡ OutOfMemory) }
    {
        // The desk of a joiner is refused for want of memory alone.
        let Ok(desk) = Desk::joiner(rt, alloc, me, seed, SEATS) else {
            return Err(RunningFault::OutOfMemory);
        };
        let me = SharedProcess::new(alloc, &me)?;
        let mut service = Service::at(rt, alloc, me, desk, post);
        service.asking = Some(Asking::new(seed));
        Ok(service)
    }

    /// A tick of the node; whether a round of probes is due after it, as after every tenth.
    pub fn tick(&mut self) -> Result<bool, RunningFault>
        ensures step { OnOk result (Steps self.old.desk model.Tick self.new.desk) }
        ensures due { (n : ℕ) → self.old.rounds ≡ n % probe_period → IfOk result (λ due. due ≡ ((n + 1) % probe_period == 0)) }
        ensures counted { (n : ℕ) → self.old.rounds ≡ n % probe_period → OnOk result (self.new.rounds ≡ (n + 1) % probe_period) }
        ensures views { OnOk result (views_of self.new.lines.items self.new.present ≡ after_entering (views_of self.old.lines.items self.old.present) (installed_by self.old.desk.state.node self.new.desk.state.node)) }
        ensures filter { OnOk result (TickedOrFresh self.old.lines.items self.old.present self.new.lines.items self.new.present) }
        ensures fault { IfErr result (Fails self.old.desk model.Tick self.new.desk) }
        ensures seats { OnOk result ((self.new.seats ≡ self.old.seats) ⊎ (vec_len self.new.seats ≡ self.old.desk.count)) }
        ensures given { OnOk result ((self.new.lines.items ≡ self.old.lines.items) ⊎ (self.new.desk.seats ≡ false)) }
        ensures all { OnOk result (had_seats self.old.desk self.new.desk ≡ true → self.new.desk.seats ≡ false → vec_len self.new.seats ≡ self.old.desk.count) }
        ensures rest { (self.new.me ≡ self.old.me) × (self.new.desk.count ≡ self.old.desk.count) }
        ensures kept { had_seats self.old.desk self.new.desk ≡ false → self.new.seats ≡ self.old.seats }
        ensures failed { OnErr result ((self.new.present ≡ self.old.present) × (self.new.asking ≡ self.old.asking) × (self.new.seats ≡ self.old.seats) × (self.new.rounds ≡ self.old.rounds)) }
        ensures notes { (between : List Note) × NotesRemoval (name_of self.new.desk.state.node.phase) self.new.present self.old.notes.waiting.items between × NotesQuestion (asking_after (installed_by self.old.desk.state.node self.new.desk.state.node) self.old.asking) between self.new.notes.waiting.items }
        ensures says { OnOk result (SaysAt P.has_posted self.old.me (stands self.old.desk self.old.lines.items self.old.present self.old.post) model.Tick (stands self.new.desk self.new.lines.items self.new.present self.new.post)) }
        ensures unsaid { OnErr result (SaysSome P.has_posted self.old.me (stands self.old.desk self.old.lines.items self.old.present self.old.post) model.Tick (stands self.new.desk self.new.lines.items self.new.present self.new.post)) }
        ensures asked { OnOk result (AskedOnce (asking_after (installed_by self.old.desk.state.node self.new.desk.state.node) self.old.asking) self.new.asking) }
    {
        self.step(Event::Tick)?;
        self.count_tick();
        self.note_question();
        Ok(self.rounds.tick())
    }

    /// The parts of the probes in the current view, as many as are asked for: once for each view,
    /// after it was entered. They are of those whom the process observes in it.
    pub fn take_parts(&mut self, parts: u8) -> Result<Option<Vec<Part>>, RunningFault>
        ensures none { self.old.present ≡ None → IfOk result (λ r. r ≡ None) }
        ensures once { IfSome self.old.present (λ present. IfOk result (λ r. IfSome r (λ _. (present.watch.parted ≡ false) × (0 < parts)))) }
        ensures spent { IfSome self.old.present (λ present. IfOk result (λ r. IfNone r ((present.watch.parted ≡ true) ⊎ (parts ≡ 0)))) }
        ensures parts { IfSome self.old.present (λ present. IfOk result (λ r. IfSome r (λ all. map told_of all.items ≡ all_blank present.view (subjects_of present.view self.old.me) parts parts))) }
        ensures seats { IfSome self.old.present (λ present. IfOk result (λ r. IfSome r (λ all. map seats_of all.items ≡ all_dealt present.watch.edges.items present.watch.seats.items parts parts))) }
        ensures given { IfOk result (λ r. IfSome r (λ _. IfSome self.new.present (λ present. present.watch.parted ≡ true))) }
        ensures board { SameBoards self.old.present self.new.present }
        ensures lost { IfSome self.new.present (λ present. OnErr result (present.watch.parted ≡ true)) }
        ensures kept { IfSome self.old.present (λ before. IfSome self.new.present (λ after. IfOk result (λ r. IfNone r ((after.watch.parted ≡ before.watch.parted) × (after.watch.seats.items ≡ before.watch.seats.items))))) }
        ensures desk { self.new.desk ≡ self.old.desk }
        ensures views { views_of self.new.lines.items self.new.present ≡ views_of self.old.lines.items self.old.present }
        ensures rest { (self.new.me ≡ self.old.me) × (self.new.rounds ≡ self.old.rounds) × (self.new.notes ≡ self.old.notes) × (self.new.seats ≡ self.old.seats) }
        ensures filter { filter_of self.new.present ≡ filter_of self.old.present }
        ensures silent { (self.new.asking ≡ self.old.asking) × (self.new.post ≡ self.old.post) }
        ensures fault { IfErr result (λ e. e ≡ OutOfMemory) }
    {
        match &mut self.present {
            Some(present) => Ok(present.watch.take_parts(parts)?),
            None => Ok(None),
        }
    }

    /// A round of a part was made: its edges that went down are given to the node, and its probes
    /// go out. Each edge is a step, so several views may be entered, in order.
    pub fn hand_on(&mut self, round: &PartRound) -> Result<(), RunningFault>
        ensures steps { OnOk result (StepsAll self.old.desk (downs_from round.now.id 0 round.now.downs) self.new.desk) }
        ensures filter { OnOk result (StaysOrFresh self.old.lines.items self.old.present self.new.lines.items self.new.present) }
        ensures fault { IfErr result (FailsIn self.old.desk (downs_from round.now.id 0 round.now.downs) self.new.desk) }
        ensures seats { OnOk result ((self.new.seats ≡ self.old.seats) ⊎ (vec_len self.new.seats ≡ self.old.desk.count)) }
        ensures rest { (self.new.rounds ≡ self.old.rounds) × (self.new.me ≡ self.old.me) × (self.new.desk.count ≡ self.old.desk.count) }
        ensures all { OnOk result (had_seats self.old.desk self.new.desk ≡ true → self.new.desk.seats ≡ false → vec_len self.new.seats ≡ self.old.desk.count) }
        ensures notes { AddsRemovals self.old.notes.waiting.items self.new.notes.waiting.items }
        ensures says { OnOk result (SaysAll P.has_posted self.old.me (stands self.old.desk self.old.lines.items self.old.present self.old.post) (downs_from round.now.id 0 round.now.downs) (to_each (frame (record { sender = self.old.me; body = Probe round.now.id })) (present_in round.now.probes)) (stands self.new.desk self.new.lines.items self.new.present self.new.post)) }
        ensures unsaid { OnErr result (SaysFirst P.has_posted self.old.me (stands self.old.desk self.old.lines.items self.old.present self.old.post) (downs_from round.now.id 0 round.now.downs) (to_each (frame (record { sender = self.old.me; body = Probe round.now.id })) (present_in round.now.probes)) (stands self.new.desk self.new.lines.items self.new.present self.new.post)) }
        ensures asked { OnOk result (AsksOrNone self.old.lines.items self.old.asking self.new.lines.items self.new.asking) }
    {
        self.hand_down(round.id, &round.downs)?;
        let probe = probe_of(self.me.share()?, round.id);
        let frame = frame_of(self.alloc, &probe)?;
        probe_all(&self.rt, &mut self.post, &round.probes, &frame)?;
        Ok(())
    }

    /// The observed edges by ring, and whether each is down; none before the first view.
    pub fn edges(&mut self) -> Result<Vec<EdgeState>, AllocError>
        ensures edges { IfOk result (λ states. map place_of states.items ≡ edges_in self.old.me self.old.present) }
        ensures down { IfOk result (λ states. ShowsDown self.old.present self.new.present (map down_of states.items)) }
        ensures board { IfSome self.old.present (λ before. IfSome self.new.present (λ after. SameBoard before.watch.board after.watch.board)) }
        ensures parts { IfSome self.old.present (λ before. IfSome self.new.present (λ after. (after.watch.parted ≡ before.watch.parted) × (after.watch.seats.items ≡ before.watch.seats.items))) }
        ensures desk { self.new.desk ≡ self.old.desk }
        ensures views { views_of self.new.lines.items self.new.present ≡ views_of self.old.lines.items self.old.present }
        ensures rest { (self.new.me ≡ self.old.me) × (self.new.rounds ≡ self.old.rounds) × (self.new.notes ≡ self.old.notes) × (self.new.seats ≡ self.old.seats) }
        ensures filter { filter_of self.new.present ≡ filter_of self.old.present }
        ensures silent { (self.new.asking ≡ self.old.asking) × (self.new.post ≡ self.old.post) }
    {
        match &mut self.present {
            Some(present) => present.watch.states(),
            None => Ok(Vec::new(self.alloc)),
        }
    }

    /// A message has come. It is dropped if it repeats one that came before in the current view,
    /// and changes nothing. A step would only take room in the journal of the desk, which stays as
    /// it is then.
    pub fn receive(&mut self, message: Message) -> Result<Received, RunningFault>
        ensures repeats { IfOk result (λ received. received ≡ fate.Dropped → IsSomeAnd self.old.present (λ present. IsRepeatFor present.repeats message)) }
        ensures drops { IsSomeAnd self.old.present (λ present. IsRepeatFor present.repeats message) → result ≡ Ok fate.Dropped }
        ensures desk { IfOk result (λ received. received ≡ fate.Dropped → self.new.desk ≡ self.old.desk) }
        ensures taken { IfOk result (λ received. received ≡ fate.Taken → Steps self.old.desk (model.Receive message) self.new.desk) }
        ensures views { IfOk result (λ received. received ≡ fate.Taken → views_of self.new.lines.items self.new.present ≡ after_entering (views_of self.old.lines.items self.old.present) (installed_by self.old.desk.state.node self.new.desk.state.node)) }
        ensures undisturbed { IfOk result (λ received. received ≡ fate.Dropped → views_of self.new.lines.items self.new.present ≡ views_of self.old.lines.items self.old.present) }
        ensures filter { IfOk result (λ received. received ≡ fate.Taken → HeardOrFresh message self.old.lines.items self.old.present self.new.lines.items self.new.present) }
        ensures unheard { IfOk result (λ received. received ≡ fate.Dropped → HeardIn false message self.old.present self.new.present) }
        ensures fault { IfErr result (Fails self.old.desk (model.Receive message) self.new.desk) }
        ensures seats { OnOk result ((self.new.seats ≡ self.old.seats) ⊎ (vec_len self.new.seats ≡ self.old.desk.count)) }
        ensures given { OnOk result ((self.new.lines.items ≡ self.old.lines.items) ⊎ (self.new.desk.seats ≡ false)) }
        ensures all { IfOk result (λ received. received ≡ fate.Taken → had_seats self.old.desk self.new.desk ≡ true → self.new.desk.seats ≡ false → vec_len self.new.seats ≡ self.old.desk.count) }
        ensures rest { (self.new.rounds ≡ self.old.rounds) × (self.new.me ≡ self.old.me) × (self.new.desk.count ≡ self.old.desk.count) }
        ensures kept { had_seats self.old.desk self.new.desk ≡ false → self.new.seats ≡ self.old.seats }
        ensures failed { OnErr result (HeardIn true message self.old.present self.new.present × (self.new.asking ≡ heard self.old.me message self.old.asking) × (self.new.seats ≡ self.old.seats)) }
        ensures notes { NotesRemoval (name_of self.new.desk.state.node.phase) self.new.present self.old.notes.waiting.items self.new.notes.waiting.items }
        ensures says { IfOk result (λ received. received ≡ fate.Taken → SaysAt P.has_posted self.old.me (stands self.old.desk self.old.lines.items self.old.present self.old.post) (model.Receive message) (stands self.new.desk self.new.lines.items self.new.present self.new.post)) }
        ensures unsaid { OnErr result (SaysSome P.has_posted self.old.me (stands self.old.desk self.old.lines.items self.old.present self.old.post) (model.Receive message) (stands self.new.desk self.new.lines.items self.new.present self.new.post)) }
        ensures silent { IfOk result (λ received. received ≡ fate.Dropped → self.new.post ≡ self.old.post) }
        ensures asked { IfOk result (λ received. received ≡ fate.Taken → self.new.asking ≡ asking_after (installed_by self.old.desk.state.node self.new.desk.state.node) (heard self.old.me message self.old.asking)) }
        ensures told { IfOk result (λ received. received ≡ fate.Dropped → self.new.asking ≡ heard self.old.me message self.old.asking) }
    {
        self.hear(&message);
        if !self.admits(&message) {
            return Ok(Received::Dropped);
        }
        self.step(Event::Receive(message))?;
        Ok(Received::Taken)
    }

    /// The node is to leave: a member asks those that observe it to have it removed. It goes on as
    /// before until a view comes without it. One that still has it makes it a member that stays,
    /// unless it is asked again; nothing else than a member leaves.
    pub fn leave(&mut self) -> Result<(), RunningFault>
        ensures step { OnOk result (Steps self.old.desk model.Leave self.new.desk) }
        ensures views { OnOk result (views_of self.new.lines.items self.new.present ≡ after_entering (views_of self.old.lines.items self.old.present) (installed_by self.old.desk.state.node self.new.desk.state.node)) }
        ensures filter { OnOk result (StaysOrFresh self.old.lines.items self.old.present self.new.lines.items self.new.present) }
        ensures fault { IfErr result (Fails self.old.desk model.Leave self.new.desk) }
        ensures seats { OnOk result ((self.new.seats ≡ self.old.seats) ⊎ (vec_len self.new.seats ≡ self.old.desk.count)) }
        ensures given { OnOk result ((self.new.lines.items ≡ self.old.lines.items) ⊎ (self.new.desk.seats ≡ false)) }
        ensures all { OnOk result (had_seats self.old.desk self.new.desk ≡ true → self.new.desk.seats ≡ false → vec_len self.new.seats ≡ self.old.desk.count) }
        ensures rest { (self.new.rounds ≡ self.old.rounds) × (self.new.me ≡ self.old.me) × (self.new.desk.count ≡ self.old.desk.count) }
        ensures kept { had_seats self.old.desk self.new.desk ≡ false → self.new.seats ≡ self.old.seats }
        ensures failed { OnErr result ((self.new.present ≡ self.old.present) × (self.new.asking ≡ self.old.asking) × (self.new.seats ≡ self.old.seats)) }
        ensures notes { NotesRemoval (name_of self.new.desk.state.node.phase) self.new.present self.old.notes.waiting.items self.new.notes.waiting.items }
        ensures says { OnOk result (SaysAt P.has_posted self.old.me (stands self.old.desk self.old.lines.items self.old.present self.old.post) model.Leave (stands self.new.desk self.new.lines.items self.new.present self.new.post)) }
        ensures unsaid { OnErr result (SaysSome P.has_posted self.old.me (stands self.old.desk self.old.lines.items self.old.present self.old.post) model.Leave (stands self.new.desk self.new.lines.items self.new.present self.new.post)) }
        ensures asked { OnOk result (self.new.asking ≡ asking_after (installed_by self.old.desk.state.node self.new.desk.state.node) self.old.asking) }
    {
        self.step(Event::Leave)
    }

    /// Whether a message is handed to the desk: before the first view each is.
    fn admits(&mut self, message: &Message) -> bool
        ensures repeats { result ≡ false → IsSomeAnd self.old.present (λ present. IsRepeatFor present.repeats message.now) }
        ensures drops { IsSomeAnd self.old.present (λ present. IsRepeatFor present.repeats message.now) → result ≡ false }
        ensures heard { HeardIn result message.now self.old.present self.new.present }
        ensures desk { self.new.desk ≡ self.old.desk }
        ensures views { views_of self.new.lines.items self.new.present ≡ views_of self.old.lines.items self.old.present }
        ensures rest { (self.new.rounds ≡ self.old.rounds) × (self.new.me ≡ self.old.me) × (self.new.asking ≡ self.old.asking) × (self.new.seats ≡ self.old.seats) }
        ensures notes { self.new.notes.waiting.items ≡ self.old.notes.waiting.items }
        ensures post { self.new.post ≡ self.old.post }
    {
        match &mut self.present {
            Some(present) => present.repeats.admits(message),
            None => true,
        }
    }

    /// A tick was made in the current view.
    fn count_tick(&mut self)
        ensures ticked { TickedIn self.old.present self.new.present }
        ensures desk { self.new.desk ≡ self.old.desk }
        ensures views { views_of self.new.lines.items self.new.present ≡ views_of self.old.lines.items self.old.present }
        ensures rest { (self.new.rounds ≡ self.old.rounds) × (self.new.me ≡ self.old.me) × (self.new.asking ≡ self.old.asking) × (self.new.seats ≡ self.old.seats) }
        ensures notes { self.new.notes.waiting.items ≡ self.old.notes.waiting.items }
        ensures post { self.new.post ≡ self.old.post }
    {
        if let Some(present) = &mut self.present {
            present.repeats.tick();
        }
    }

    /// A tick was made at which the node may have asked to be let in: what is to be reported of its
    /// questions is noted.
    fn note_question(&mut self)
        ensures desk { self.new.desk ≡ self.old.desk }
        ensures views { views_of self.new.lines.items self.new.present ≡ views_of self.old.lines.items self.old.present }
        ensures rest { (self.new.rounds ≡ self.old.rounds) × (self.new.me ≡ self.old.me) × (self.new.seats ≡ self.old.seats) × (self.new.present ≡ self.old.present) }
        ensures notes { NotesQuestion self.old.asking self.old.notes.waiting.items self.new.notes.waiting.items }
        ensures post { self.new.post ≡ self.old.post }
        ensures asked { AskedOnce self.old.asking self.new.asking }
    {
        if let Some(asking) = &mut self.asking
            && let Some(note) = asking.tick()
        {
            // without memory it is not reported
            let _ = self.notes.add(note);
        }
    }

    /// A message has come. If it is a reply to this process, it is the answer to its last question.
    fn hear(&mut self, message: &Message)
        ensures present { self.new.present ≡ self.old.present }
        ensures desk { self.new.desk ≡ self.old.desk }
        ensures views { views_of self.new.lines.items self.new.present ≡ views_of self.old.lines.items self.old.present }
        ensures rest { (self.new.rounds ≡ self.old.rounds) × (self.new.me ≡ self.old.me) × (self.new.seats ≡ self.old.seats) }
        ensures notes { self.new.notes.waiting.items ≡ self.old.notes.waiting.items }
        ensures post { self.new.post ≡ self.old.post }
        ensures heard { self.new.asking ≡ heard self.old.me message.now self.old.asking }
    {
        if let Some(asking) = &mut self.asking
            && let Body::Reply(joiner, reply) = message.body()
            && self.me.is(joiner.get())
        {
            asking.hear(reply);
        }
    }

    /// A seat at the published view: one of eight, from when there is a view.
    pub fn take_seat(&mut self) -> Option<ViewSeat>
        ensures seat { self.old.seats.items ≡ self.new.seats.items ++ option_to_list result }
        ensures some { IsSome result ↔ (0 < vec_len self.old.seats) }
        ensures same { (self.new.desk ≡ self.old.desk) × (self.new.me ≡ self.old.me) × (self.new.rounds ≡ self.old.rounds) × (self.new.notes ≡ self.old.notes) × (self.new.present ≡ self.old.present) }
        ensures views { views_of self.new.lines.items self.new.present ≡ views_of self.old.lines.items self.old.present }
        ensures silent { (self.new.asking ≡ self.old.asking) × (self.new.post ≡ self.old.post) }
    {
        self.seats.pop()
    }

    /// The process that the node is.
    pub fn process(&self) -> Process
        ensures { result ≡ self.now.me }
    {
        *self.me.get()
    }

    /// The phase of the node.
    pub fn phase(&self) -> Phase
        ensures { result ≡ name_of self.now.desk.state.node.phase }
    {
        self.desk.phase()
    }

    /// A subscription to the views that come after the current one, with room for `capacity` of them
    /// to wait, and the current one. The desk serves it behind those that it served.
    ///
    /// # Errors
    ///
    /// Those of `Desk::subscribe`. After `OutOfMemory` a subscription more may count, after the others
    /// none does.
    pub fn subscribe(&mut self, capacity: usize) -> Result<(Subscription, Option<View>), DeskError>
        ensures state { (self.new.desk.state ≡ self.old.desk.state) × (self.new.me ≡ self.old.me) }
        ensures ok { OnOk result ((0 < capacity) × (capacity ≤ most_waiting_views) × (length self.old.desk.subscriptions < most_subscriptions)) }
        ensures untaken { IfOk result (λ r. r.0.taken ≡ []) }
        ensures room { IfOk result (λ r. r.0.room ≡ capacity + 1) }
        ensures served { IfOk result (λ r. self.new.desk.subscriptions ≡ self.old.desk.subscriptions ++ record { queue = r.0.queue; since = shown_height self.old.desk.state.published; capacity = capacity; put = []; known = [] } ∷ []) }
        ensures current { IfOk result (λ r. r.1 ≡ option_map (λ present. present.view) self.old.present) }
        ensures refused { IfErr result (NotSubscribed capacity (length self.old.desk.subscriptions)) }
        ensures unserved { IfErr result (λ e. StillServes self.old.desk capacity e self.new.desk.subscriptions) }
        ensures views { views_of self.new.lines.items self.new.present ≡ views_of self.old.lines.items self.old.present }
        ensures rest { (self.new.desk.count ≡ self.old.desk.count) × (self.new.rounds ≡ self.old.rounds) × (self.new.notes ≡ self.old.notes) × (self.new.seats ≡ self.old.seats) × (self.new.present ≡ self.old.present) }
        ensures silent { (self.new.asking ≡ self.old.asking) × (self.new.post ≡ self.old.post) }
    {
        let subscription = self.desk.subscribe(capacity)?;
        match &self.present {
            Some(present) => match present.view.try_copy(self.alloc) {
                Ok(view) => Ok((subscription, Some(view))),
                Err(_) => Err(DeskError::OutOfMemory),
            },
            None => Ok((subscription, None)),
        }
    }

    /// Ends the subscriptions made so far.
    pub fn close(&mut self)
        ensures closed { self.new.desk ≡ record self.old.desk { subscriptions = [] } }
        ensures views { views_of self.new.lines.items self.new.present ≡ views_of self.old.lines.items self.old.present }
        ensures rest { (self.new.me ≡ self.old.me) × (self.new.rounds ≡ self.old.rounds) × (self.new.notes ≡ self.old.notes) × (self.new.seats ≡ self.old.seats) × (self.new.present ≡ self.old.present) }
        ensures silent { (self.new.asking ≡ self.old.asking) × (self.new.post ≡ self.old.post) }
    {
        // nobody compares what was taken with what was put
        drop(self.desk.close());
    }

    /// The lines of the views that were entered since this was last asked.
    pub fn take_lines(&mut self) -> Vec<u8>
        ensures taken { result.items ≡ self.old.lines.items }
        ensures none { self.new.lines.items ≡ [] }
        ensures same { (self.new.desk ≡ self.old.desk) × (self.new.me ≡ self.old.me) × (self.new.present ≡ self.old.present) }
        ensures rest { (self.new.rounds ≡ self.old.rounds) × (self.new.notes ≡ self.old.notes) × (self.new.seats ≡ self.old.seats) }
        ensures silent { (self.new.asking ≡ self.old.asking) × (self.new.post ≡ self.old.post) }
    {
        mem::replace(&mut self.lines, Vec::new(self.alloc))
    }

    /// What is to be reported since this was last asked, from the oldest on: at most 64 notes wait.
    pub fn take_notes(&mut self) -> Vec<Note>
        ensures taken { result.items ≡ self.old.notes.waiting.items }
        ensures few { vec_len result ≤ most_notes }
        ensures none { self.new.notes.waiting.items ≡ [] }
        ensures same { (self.new.desk ≡ self.old.desk) × (self.new.me ≡ self.old.me) × (self.new.rounds ≡ self.old.rounds) × (self.new.seats ≡ self.old.seats) × (self.new.present ≡ self.old.present) }
        ensures views { views_of self.new.lines.items self.new.present ≡ views_of self.old.lines.items self.old.present }
        ensures silent { (self.new.asking ≡ self.old.asking) × (self.new.post ≡ self.old.post) }
    {
        self.notes.take()
    }

    /// What takes the frames that it sends.
    pub fn post(&self) -> &P
        ensures { result.now ≡ self.now.post }
    {
        &self.post
    }

    /// One event at the desk: what is sent goes out, and a new view is entered.
    fn step(&mut self, event: Event) -> Result<(), RunningFault>
        ensures step { OnOk result (Steps self.old.desk (event_of event) self.new.desk) }
        ensures views { OnOk result (views_of self.new.lines.items self.new.present ≡ after_entering (views_of self.old.lines.items self.old.present) (installed_by self.old.desk.state.node self.new.desk.state.node)) }
        ensures filter { OnOk result (StaysOrFresh self.old.lines.items self.old.present self.new.lines.items self.new.present) }
        ensures fault { IfErr result (Fails self.old.desk (event_of event) self.new.desk) }
        ensures seats { OnOk result ((self.new.seats ≡ self.old.seats) ⊎ (vec_len self.new.seats ≡ self.old.desk.count)) }
        ensures given { OnOk result ((self.new.lines.items ≡ self.old.lines.items) ⊎ (self.new.desk.seats ≡ false)) }
        ensures all { OnOk result (had_seats self.old.desk self.new.desk ≡ true → self.new.desk.seats ≡ false → vec_len self.new.seats ≡ self.old.desk.count) }
        ensures rest { (self.new.rounds ≡ self.old.rounds) × (self.new.me ≡ self.old.me) × (self.new.desk.count ≡ self.old.desk.count) }
        ensures kept { had_seats self.old.desk self.new.desk ≡ false → self.new.seats ≡ self.old.seats }
        ensures failed { OnErr result ((self.new.present ≡ self.old.present) × (self.new.asking ≡ self.old.asking) × (self.new.seats ≡ self.old.seats)) }
        ensures notes { NotesRemoval (name_of self.new.desk.state.node.phase) self.new.present self.old.notes.waiting.items self.new.notes.waiting.items }
        ensures says { OnOk result (SaysAt P.has_posted self.old.me (stands self.old.desk self.old.lines.items self.old.present self.old.post) (event_of event) (stands self.new.desk self.new.lines.items self.new.present self.new.post)) }
        ensures unsaid { OnErr result (SaysSome P.has_posted self.old.me (stands self.old.desk self.old.lines.items self.old.present self.old.post) (event_of event) (stands self.new.desk self.new.lines.items self.new.present self.new.post)) }
        ensures asked { OnOk result (self.new.asking ≡ asking_after (installed_by self.old.desk.state.node self.new.desk.state.node) self.old.asking) }
    {
        let before = self.desk.node().installed().len();
        let sent = self.at_desk(event)?;
        // before a new view is entered: the other members are those of the view of the step
        self.send_all(sent.as_slice())?;
        self.follow(before)
    }

    /// One event at the desk, whose journal is begun anew before if it is long. If the desk does not
    /// go on its subscribers are told: they get what was put for them, and then that it is closed.
    fn at_desk(&mut self, event: Event) -> Result<Outputs, RunningFault>
        ensures stepped { IfOk result (λ sent. HasStepped self.old.desk.state (event_of event) self.new.desk.state sent.items) }
        ensures told { OnOk result (Tells self.old.desk self.new.desk) }
        ensures seats { OnOk result (self.new.desk.seats ≡ had_seats self.old.desk self.new.desk) }
        ensures refused { IfErr result (HasRefused self.old.desk.state (event_of event) self.new.desk.state) }
        ensures closed { OnErr result (self.new.desk.subscriptions ≡ []) }
        ensures views { views_of self.new.lines.items self.new.present ≡ views_of self.old.lines.items self.old.present }
        ensures rest { (self.new.rounds ≡ self.old.rounds) × (self.new.me ≡ self.old.me) × (self.new.asking ≡ self.old.asking) × (self.new.seats ≡ self.old.seats) × (self.new.present ≡ self.old.present) × (self.new.desk.count ≡ self.old.desk.count) }
        ensures notes { self.new.notes.waiting.items ≡ self.old.notes.waiting.items }
        ensures post { self.new.post ≡ self.old.post }
    {
        // a journal for which there is no memory now grows on, and the next step tries again
        let _ = shorten(&mut self.desk);
        match self.desk.step(event) {
            Ok(sent) => Ok(sent),
            Err(error) => {
                self.desk.close();
                Err(fault_of(error))
            }
        }
    }

    /// Sends the messages of a step to their recipients, in order.
    fn send_all(&mut self, sent: &[Output]) -> Result<(), AllocError>
        ensures desk { self.new.desk ≡ self.old.desk }
        ensures views { views_of self.new.lines.items self.new.present ≡ views_of self.old.lines.items self.old.present }
        ensures rest { (self.new.rounds ≡ self.old.rounds) × (self.new.me ≡ self.old.me) × (self.new.asking ≡ self.old.asking) × (self.new.seats ≡ self.old.seats) × (self.new.present ≡ self.old.present) }
        ensures notes { self.new.notes.waiting.items ≡ self.old.notes.waiting.items }
        ensures posts { OnOk result (P.has_posted self.old.post (postings (view_in self.old.present) self.old.me sent.now) self.new.post) }
        ensures some { OnErr result (PostsSome P.has_posted self.old.post (postings (view_in self.old.present) self.old.me sent.now) self.new.post) }
    {
        for output in sent {
            self.send(output)?;
        }
        Ok(())
    }

    /// Sends a message to its recipients: the other members are those of the view before the step.
    fn send(&mut self, output: &Output) -> Result<(), AllocError>
        ensures desk { self.new.desk ≡ self.old.desk }
        ensures views { views_of self.new.lines.items self.new.present ≡ views_of self.old.lines.items self.old.present }
        ensures rest { (self.new.rounds ≡ self.old.rounds) × (self.new.me ≡ self.old.me) × (self.new.asking ≡ self.old.asking) × (self.new.seats ≡ self.old.seats) × (self.new.present ≡ self.old.present) }
        ensures notes { self.new.notes.waiting.items ≡ self.old.notes.waiting.items }
        ensures posts { OnOk result (P.has_posted self.old.post (postings (view_in self.old.present) self.old.me (output.now ∷ [])) self.new.post) }
        ensures some { OnErr result (PostsSome P.has_posted self.old.post (postings (view_in self.old.present) self.old.me (output.now ∷ [])) self.new.post) }
    {
        let frame = frame_of(self.alloc, output.message())?;
        match output.to() {
            Destination::To(endpoint) => {
                self.post.post(&self.rt, endpoint, frame);
                Ok(())
            }
            Destination::Others => self.send_others(&frame),
        }
    }

    /// Sends a frame to the other members.
    fn send_others(&mut self, frame: &Bytes) -> Result<(), AllocError>
        ensures desk { self.new.desk ≡ self.old.desk }
        ensures views { views_of self.new.lines.items self.new.present ≡ views_of self.old.lines.items self.old.present }
        ensures rest { (self.new.rounds ≡ self.old.rounds) × (self.new.me ≡ self.old.me) × (self.new.asking ≡ self.old.asking) × (self.new.seats ≡ self.old.seats) × (self.new.present ≡ self.old.present) }
        ensures notes { self.new.notes.waiting.items ≡ self.old.notes.waiting.items }
        ensures posts { OnOk result (P.has_posted self.old.post (to_each frame.now (other_members (view_in self.old.present) self.old.me)) self.new.post) }
        ensures some { OnErr result (PostsSome P.has_posted self.old.post (to_each frame.now (other_members (view_in self.old.present) self.old.me)) self.new.post) }
    {
        match &self.present {
            Some(present) => broadcast(
                &self.rt,
                &mut self.post,
                present.view.configuration().members(),
                self.me.get(),
                frame,
            ),
            None => Ok(()),
        }
    }

    /// Enters the view that the node installed in its last step, if it did: it had installed so many
    /// before.
    fn follow(&mut self, before: usize) -> Result<(), RunningFault>
        ensures desk { (self.new.desk.state ≡ self.old.desk.state) × (self.new.desk.subscriptions ≡ self.old.desk.subscriptions) }
        ensures views { OnOk result (views_of self.new.lines.items self.new.present ≡ after_entering (views_of self.old.lines.items self.old.present) (shown_since before self.old.desk.state.node)) }
        ensures filter { OnOk result (StaysOrFresh self.old.lines.items self.old.present self.new.lines.items self.new.present) }
        ensures fault { IfErr result (λ e. e ≡ OutOfMemory) }
        ensures seats { OnOk result ((self.new.seats ≡ self.old.seats) ⊎ (vec_len self.new.seats ≡ self.old.desk.count)) }
        ensures given { OnOk result ((self.new.lines.items ≡ self.old.lines.items) ⊎ (self.new.desk.seats ≡ false)) }
        ensures all { OnOk result (self.old.desk.seats ≡ true → self.new.desk.seats ≡ false → vec_len self.new.seats ≡ self.old.desk.count) }
        ensures rest { (self.new.rounds ≡ self.old.rounds) × (self.new.me ≡ self.old.me) × (self.new.desk.count ≡ self.old.desk.count) }
        ensures kept { self.old.desk.seats ≡ false → self.new.seats ≡ self.old.seats }
        ensures failed { OnErr result ((self.new.present ≡ self.old.present) × (self.new.asking ≡ self.old.asking) × (self.new.seats ≡ self.old.seats)) }
        ensures notes { NotesRemoval (name_of self.new.desk.state.node.phase) self.new.present self.old.notes.waiting.items self.new.notes.waiting.items }
        ensures post { self.new.post ≡ self.old.post }
        ensures asked { OnOk result (self.new.asking ≡ asking_after (shown_since before self.old.desk.state.node) self.old.asking) }
    {
        let node = self.desk.node();
        if node.installed().len() <= before {
            return Ok(());
        }
        match node.configuration() {
            Some(configuration) => {
                let view = View::new(configuration.try_copy(self.alloc)?);
                self.enter(view)
            }
            None => Ok(()),
        }
    }

    /// Enters a view: its line is printed, and probes begin anew. A view without the node is its
    /// last.
    fn enter(&mut self, view: View) -> Result<(), RunningFault>
        ensures desk { (self.new.desk.state ≡ self.old.desk.state) × (self.new.desk.subscriptions ≡ self.old.desk.subscriptions) }
        ensures line { OnOk result (self.new.lines.items ≡ self.old.lines.items ++ view_text view) }
        ensures view { OnOk result (IsSomeAnd self.new.present (λ present. present.view ≡ view)) }
        ensures fresh { OnOk result (IsSomeAnd self.new.present IsFresh) }
        ensures asks { OnOk result (self.new.asking ≡ None) }
        ensures post { self.new.post ≡ self.old.post }
        ensures seats { OnOk result ((self.new.seats ≡ self.old.seats) ⊎ (vec_len self.new.seats ≡ self.old.desk.count)) }
        ensures given { OnOk result (self.new.desk.seats ≡ false) }
        ensures all { OnOk result (self.old.desk.seats ≡ true → vec_len self.new.seats ≡ self.old.desk.count) }
        ensures fault { IfErr result (λ e. e ≡ OutOfMemory) }
        ensures rest { (self.new.rounds ≡ self.old.rounds) × (self.new.me ≡ self.old.me) × (self.new.desk.count ≡ self.old.desk.count) }
        ensures kept { self.old.desk.seats ≡ false → self.new.seats ≡ self.old.seats }
        ensures failed { OnErr result ((self.new.present ≡ self.old.present) × (self.new.asking ≡ self.old.asking) × (self.new.seats ≡ self.old.seats)) }
        ensures notes { NotesRemoval (name_of self.new.desk.state.node.phase) self.new.present self.old.notes.waiting.items self.new.notes.waiting.items }
    {
        write_view(view.configuration(), &mut self.lines)?;
        let watch = self.watch(view.configuration())?;
        let repeats = Repeats::new(self.alloc, view.configuration())?;
        let height = view.configuration().height();
        note_removal(&mut self.notes, self.desk.phase(), height);
        self.asking = None;
        self.present = Some(Present {
            view,
            watch,
            repeats,
        });
        if let Some(seats) = self.desk.take_seats() {
            self.seats = seats;
        }
        Ok(())
    }

    /// The probes of the members that are observed in a view. The rings are made of those of the
    /// view before: keys are computed of newcomers only.
    fn watch(&self, configuration: &Configuration) -> Result<ObservedEdges, AllocError>
        ensures edges { IfOk result (λ w. w.edges.items ≡ subjects_of configuration.now self.now.me) }
        ensures me { IfOk result (λ w. w.me ≡ self.now.me) }
        ensures rings { IfOk result (λ w. w.rings ≡ configuration.now) }
    {
        match &self.present {
            Some(present) => present.watch.next(configuration),
            None => ObservedEdges::new(self.alloc, configuration, self.me.get()),
        }
    }

    /// Gives the edges that went down in a configuration to the node, by ring.
    fn hand_down(
        &mut self,
        id: ConfigId,
        downs: &[Option<Process>; MOST_RINGS],
    ) -> Result<(), RunningFault>
        ensures steps { OnOk result (StepsAll self.old.desk (downs_from id 0 downs.now) self.new.desk) }
        ensures filter { OnOk result (StaysOrFresh self.old.lines.items self.old.present self.new.lines.items self.new.present) }
        ensures fault { IfErr result (FailsAmong self.old.desk (downs_from id 0 downs.now) self.new.desk) }
        ensures seats { OnOk result ((self.new.seats ≡ self.old.seats) ⊎ (vec_len self.new.seats ≡ self.old.desk.count)) }
        ensures rest { (self.new.rounds ≡ self.old.rounds) × (self.new.me ≡ self.old.me) × (self.new.desk.count ≡ self.old.desk.count) }
        ensures all { OnOk result (had_seats self.old.desk self.new.desk ≡ true → self.new.desk.seats ≡ false → vec_len self.new.seats ≡ self.old.desk.count) }
        ensures notes { AddsRemovals self.old.notes.waiting.items self.new.notes.waiting.items }
        ensures says { OnOk result (AllInTurn (SaysAt P.has_posted self.old.me) (stands self.old.desk self.old.lines.items self.old.present self.old.post) (downs_from id 0 downs.now) (stands self.new.desk self.new.lines.items self.new.present self.new.post)) }
        ensures unsaid { OnErr result (OneFails (SaysAt P.has_posted self.old.me) (SaysSome P.has_posted self.old.me) (stands self.old.desk self.old.lines.items self.old.present self.old.post) (downs_from id 0 downs.now) (stands self.new.desk self.new.lines.items self.new.present self.new.post)) }
        ensures asked { OnOk result (AsksOrNone self.old.lines.items self.old.asking self.new.lines.items self.new.asking) }
    {
        for ring in 0..MOST_RINGS {
            self.hand_edge(id, ring as u8, downs[ring])?;
        }
        Ok(())
    }

    /// Gives the edge on a ring to the node, if it went down.
    fn hand_edge(
        &mut self,
        id: ConfigId,
        ring: u8,
        down: Option<Process>,
    ) -> Result<(), RunningFault>
        ensures steps { OnOk result (StepsAll self.old.desk (down_on id ring down) self.new.desk) }
        ensures filter { OnOk result (StaysOrFresh self.old.lines.items self.old.present self.new.lines.items self.new.present) }
        ensures fault { IfErr result (FailsAmong self.old.desk (down_on id ring down) self.new.desk) }
        ensures seats { OnOk result ((self.new.seats ≡ self.old.seats) ⊎ (vec_len self.new.seats ≡ self.old.desk.count)) }
        ensures rest { (self.new.rounds ≡ self.old.rounds) × (self.new.me ≡ self.old.me) × (self.new.desk.count ≡ self.old.desk.count) }
        ensures all { OnOk result (had_seats self.old.desk self.new.desk ≡ true → self.new.desk.seats ≡ false → vec_len self.new.seats ≡ self.old.desk.count) }
        ensures notes { AddsRemovals self.old.notes.waiting.items self.new.notes.waiting.items }
        ensures says { OnOk result (AllInTurn (SaysAt P.has_posted self.old.me) (stands self.old.desk self.old.lines.items self.old.present self.old.post) (down_on id ring down) (stands self.new.desk self.new.lines.items self.new.present self.new.post)) }
        ensures unsaid { OnErr result (OneFails (SaysAt P.has_posted self.old.me) (SaysSome P.has_posted self.old.me) (stands self.old.desk self.old.lines.items self.old.present self.old.post) (down_on id ring down) (stands self.new.desk self.new.lines.items self.new.present self.new.post)) }
        ensures asked { OnOk result (AsksOrNone self.old.lines.items self.old.asking self.new.lines.items self.new.asking) }
    {
        match down {
            Some(subject) => match SharedProcess::new(self.alloc, &subject) {
                Ok(subject) => self.step(Event::EdgeDown(id, ring, subject)),
                Err(_) => Err(self.refuse_edge()),
            },
            None => Ok(()),
        }
    }

    /// There is no memory for the event of an edge that went down: the desk refuses it, and its
    /// subscribers are told as at any refusal.
    fn refuse_edge(&mut self) -> RunningFault
        ensures refused { HasRefusedEdge self.old.desk.state self.new.desk.state result }
        ensures closed { self.new.desk.subscriptions ≡ [] }
        ensures rest { (self.new.rounds ≡ self.old.rounds) × (self.new.me ≡ self.old.me) × (self.new.desk.count ≡ self.old.desk.count) }
        ensures notes { self.new.notes.waiting.items ≡ self.old.notes.waiting.items }
        ensures post { self.new.post ≡ self.old.post }
    {
        let error = self.desk.refuse_edge();
        self.desk.close();
        fault_of(error)
    }
}
