// What the threads of a node share.

ghost use Rattle.std.specs.Prelude.{◌≡◌, ◌+◌, ◌<◌, ◌≤◌, ◌++◌, [], ℕ, List, false, min, max, vec_len, IfOk, IfErr, OnOk, OnErr};
ghost use Rattle.rapid_model.specs.Limits.{most_notes, most_probers, most_waiting_views};
ghost use Rattle.rapid_desk.specs.Desks.{NotSubscribed};
ghost use Rattle.rapid_lines.specs.EdgeText.{edges_text};
ghost use Rattle.rapid_rounds.specs.declared.edge_state.EdgeState.{EdgeState};
ghost use Rattle.rapid_signals.specs.declared.fault.RunningFault.TheVariants.{OutOfMemory};

use crate::post::Post;
use crate::service::Service;
use rapid_config::Params;
use rapid_desk::{DeskError, Subscription};
use rapid_endpoint::Process;
use rapid_lines::{Note, write_edges};
use rapid_message::{Body, Message};
use rapid_node::Phase;
use rapid_rounds::{Part, PartRound};
use rapid_signals::{Bell, Console, Dealer, Ending, RunningFault};
use rapid_view::{View, ViewSeat};
use std::alloc::{AllocError, Global};
use std::sync::{Mutex, Wait};

/// In how many parts the observed members are probed at most: a member observes on at most as many
/// rings.
const MOST_PROBERS: u8 = Params::MOST_RINGS;

/// What the threads of a node share. This is its service under a lock, and each part of its probes
/// under a lock of its own. It is also what is printed, and whether it goes on. The lock of a part
/// is taken alone or under that of the service, and none is taken under it.
#[derive(Drop)]
pub struct Shared<R: Wait + Copy + Drop, P: Post + Drop> {
    alloc: Global,
    service: Mutex<Service<R, P>>,
    parts: Vec<Mutex<Option<Part>>>,
    probers: u8,
    dealer: Dealer,
    console: Console,
    ending: Ending,
    bell: Bell,
    ghost dealt: { (vec_len parts ≡ probers) × (dealer.parts ≡ probers) },
}

/// Places for so many parts of the probes, without the parts.
fn places(alloc: Global, parts: u8) -> Result<Vec<Mutex<Option<Part>>>, AllocError>
    ensures { IfOk result (λ places. vec_len places ≡ parts) }
{
    let mut places = Vec::with_capacity(alloc, usize::from(parts))?;
    for _ in 0..parts {
        places.push(Mutex::new(None))?;
    }
    Ok(places)
}

/// Ends the subscriptions of a service, and puts another in its place.
fn replace<R: Wait + Copy + Drop, P: Post + Drop>(service: &mut Service<R, P>, next: Service<R, P>)
    ensures { service.new ≡ next }
{
    service.close();
    *service = next;
}

impl<R: Wait + Copy + Drop, P: Post + Drop> Shared<R, P> {
    /// The node of a service, which goes on. The members that it observes are probed in this many
    /// parts, 1 to 16. This is done by the thread that ticks it, and by those that run
    /// `run_prober`.
    pub fn new(
        alloc: Global,
        service: Service<R, P>,
        probers: u8,
    ) -> Result<Shared<R, P>, AllocError>
        ensures { IfOk result (λ shared. shared.probers ≡ max 1 (min probers most_probers)) }
    {
        let probers = probers.clamp(1, MOST_PROBERS);
        let parts = places(alloc, probers)?;
        Ok(Shared {
            alloc,
            service: Mutex::new(service),
            parts,
            probers,
            dealer: Dealer::new(usize::from(probers)),
            console: Console::new(alloc),
            ending: Ending::new(),
            bell: Bell::new(),
        })
    }

    /// What is printed.
    pub fn console(&self) -> &Console
        ensures { result.now ≡ self.now.console }
    {
        &self.console
    }

    /// Whether the node goes on.
    pub fn ending(&self) -> &Ending
        ensures { result.now ≡ self.now.ending }
    {
        &self.ending
    }

    /// What wakes those who wait for views: it rings when one was entered, and when none comes any
    /// more.
    pub fn bell(&self) -> &Bell
        ensures { result.now ≡ self.now.bell }
    {
        &self.bell
    }

    /// What deals the parts of rounds of probes.
    pub fn dealer(&self) -> &Dealer
        ensures { result.now ≡ self.now.dealer }
    {
        &self.dealer
    }

    /// Prints the views that the service has entered, while its lock is held: views are printed in
    /// the order in which they were entered. Those that wait for them are woken, and probes begin
    /// anew in the last of them.
    fn show<W: Wait>(&self, rt: &W, service: &mut Service<R, P>) -> Result<(), RunningFault> {
        let lines = service.take_lines();
        if !lines.is_empty() {
            self.bell.ring(rt);
        }
        self.console.add(rt, lines.as_slice())?;
        if let Some(parts) = service.take_parts(self.probers)? {
            self.begin_parts(rt, parts);
        }
        Ok(())
    }

    /// Puts each part of the probes of a new view in its place.
    fn begin_parts<W: Wait>(&self, rt: &W, parts: Vec<Part>) {
        let mut slots = self.parts.iter();
        for part in parts {
            if let Some(slot) = slots.next() {
                let mut slot = slot.lock(rt);
                *slot = Some(part);
            }
        }
    }

    /// Prints the views that were entered so far.
    pub fn begin<W: Wait>(&self, rt: &W) -> Result<(), RunningFault> {
        let mut service = self.service.lock(rt);
        self.show(rt, &mut service)?;
        Ok(())
    }

    /// A tick of the node. After every tenth the observed members are probed, and edges of which
    /// too many probes were not acknowledged are given to the node. It returns when the round is
    /// made.
    pub fn tick<W: Wait>(&self, rt: &W) -> Result<(), RunningFault> {
        if self.step(rt)? {
            // no lock is held here, so messages are taken while the round is made
            self.dealer.begin(rt);
            self.probe_parts(rt);
            self.dealer.finish(rt);
        }
        Ok(())
    }

    /// A tick of the node, without the round of probes that may be due after it; whether it is.
    fn step<W: Wait>(&self, rt: &W) -> Result<bool, RunningFault> {
        let mut service = self.service.lock(rt);
        let done = service.tick();
        self.show(rt, &mut service)?;
        done
    }

    /// A round of a part of the probes, if there is a view.
    fn round_of<W: Wait>(&self, rt: &W, part: usize) -> Result<Option<PartRound>, RunningFault> {
        let Some(slot) = self.parts.get(part) else {
            return Ok(None);
        };
        let mut slot = slot.lock(rt);
        match &mut *slot {
            Some(part) => Ok(Some(part.round(self.alloc)?)),
            None => Ok(None),
        }
    }

    /// A round of a part of the probes. What it asks for is sent when its lock is free again.
    fn probe<W: Wait>(&self, rt: &W, part: usize) -> Result<(), RunningFault> {
        let Some(round) = self.round_of(rt, part)? else {
            return Ok(());
        };
        let mut service = self.service.lock(rt);
        let done = service.hand_on(&round);
        self.show(rt, &mut service)?;
        done
    }

    /// Makes parts of the current round of probes while there is one that no thread has taken.
    pub fn probe_parts<W: Wait>(&self, rt: &W) {
        for _ in 0..self.parts.len() {
            let Some(part) = self.dealer.take(rt) else {
                return;
            };
            self.probe_or_end(rt, part);
            self.dealer.made(rt);
        }
    }

    /// A round of a part of the probes, whose fault ends the node.
    fn probe_or_end<W: Wait>(&self, rt: &W, part: usize) {
        let done = self.probe(rt, part);
        self.goes_on(rt, done);
    }

    /// A process has acknowledged a probe.
    fn ack<W: Wait>(&self, rt: &W, process: &Process) {
        for slot in &self.parts {
            let mut slot = slot.lock(rt);
            if let Some(part) = &mut *slot {
                part.ack(process);
            }
        }
    }

    /// A message has come.
    pub fn receive<W: Wait>(&self, rt: &W, message: Message) -> Result<(), RunningFault> {
        if let Body::ProbeAck(_) = message.body() {
            // before the lock of the service, so that a long step does not make a peer seem silent
            self.ack(rt, message.sender());
        }
        let mut service = self.service.lock(rt);
        let done = service.receive(message);
        self.show(rt, &mut service)?;
        done?;
        Ok(())
    }

    /// The node is to leave its cluster.
    pub fn leave<W: Wait>(&self, rt: &W) -> Result<(), RunningFault> {
        let mut service = self.service.lock(rt);
        let done = service.leave();
        self.show(rt, &mut service)?;
        done
    }

    /// Writes the lines of the observed edges: those of one view, each up or down as it is now.
    pub fn write_edges<W: Wait>(&self, rt: &W, output: &mut Vec<u8>) -> Result<(), RunningFault>
        ensures lines { OnOk result ((edges : List EdgeState) × (output.new.items ≡ output.old.items ++ edges_text edges)) }
        ensures fault { IfErr result (λ e. e ≡ OutOfMemory) }
    {
        let mut service = self.service.lock(rt);
        let edges = service.edges()?;
        drop(service);
        write_edges(edges.as_slice(), output)?;
        Ok(())
    }

    /// A seat at the published view: one of eight, from when there is a view.
    pub fn take_seat<W: Wait>(&self, rt: &W) -> Option<ViewSeat> {
        let mut service = self.service.lock(rt);
        service.take_seat()
    }

    /// The process that the node is.
    pub fn process<W: Wait>(&self, rt: &W) -> Process {
        let service = self.service.lock(rt);
        service.process()
    }

    /// The phase of the node.
    pub fn phase<W: Wait>(&self, rt: &W) -> Phase {
        let service = self.service.lock(rt);
        service.phase()
    }

    /// A subscription to the views that come after the current one, and the current one.
    ///
    /// # Errors
    ///
    /// Those of `Service::subscribe`: `BadCapacity` exactly if the capacity is not 1 to 1,024, else
    /// `TooManySubscribers` or `OutOfMemory`.
    pub fn subscribe<W: Wait>(
        &self,
        rt: &W,
        capacity: usize,
    ) -> Result<(Subscription, Option<View>), DeskError>
        ensures room { OnOk result ((0 < capacity) × (capacity ≤ most_waiting_views)) }
        ensures untaken { IfOk result (λ r. r.0.taken ≡ []) }
        ensures places { IfOk result (λ r. r.0.room ≡ capacity + 1) }
        ensures refused { IfErr result (λ e. (served : ℕ) × NotSubscribed capacity served e) }
    {
        let mut service = self.service.lock(rt);
        service.subscribe(capacity)
    }

    /// Ends all subscriptions, and wakes who waits for views: none comes any more.
    pub fn close<W: Wait>(&self, rt: &W) {
        let mut service = self.service.lock(rt);
        service.close();
        drop(service);
        self.bell.ring(rt);
    }

    /// The node goes on with another service in place of its own, whose subscriptions end. What was
    /// probed for it is forgotten.
    pub fn begin_anew<W: Wait>(&self, rt: &W, next: Service<R, P>) {
        let mut service = self.service.lock(rt);
        replace(&mut service, next);
        self.forget_parts(rt);
        drop(service);
        self.bell.ring(rt);
    }

    /// Takes all parts of the probes out of their places.
    fn forget_parts<W: Wait>(&self, rt: &W) {
        for slot in &self.parts {
            let mut slot = slot.lock(rt);
            *slot = None;
        }
    }

    /// What is to be reported since this was last asked.
    pub fn take_notes<W: Wait>(&self, rt: &W) -> Vec<Note>
        ensures { vec_len result ≤ most_notes }
    {
        let mut service = self.service.lock(rt);
        service.take_notes()
    }

    /// Ends the node if a step of it has failed; the answer is whether it goes on.
    pub fn goes_on<W: Wait>(&self, rt: &W, done: Result<(), RunningFault>) -> bool
        ensures { OnErr done (result ≡ false) }
    {
        match done {
            Ok(()) => !self.ending.has_come(rt),
            Err(fault) => {
                self.ending.end(rt, Some(fault));
                false
            }
        }
    }
}
