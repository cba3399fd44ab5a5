// A desk: a node, its journal and its published views.

ghost use Rattle.std.specs.Prelude.{◌≡◌, ◌⊎◌, ◌+◌, ◌<◌, ◌≤◌, true, ◌++◌, ◌∷◌, ◌||◌, ◌&&◌, not, [], false, All, length, vec_len, slice_get, slice_set, Some, None, is_some, IsSome, IsSomeAnd, IfOk, IfErr, IfSome, OnOk, OnErr};
ghost use Rattle.std.specs.List.{AllZip};
ghost use Rattle.atomic_table.specs.Seated.{TableId};
ghost use Rattle.rapid_line.specs.Line.{StartsWith};
ghost use Rattle.rapid_model.specs.Node.{configuration_of, has_installed};
ghost use Rattle.rapid_model.specs.NodeStep.{node_step};
ghost use Rattle.rapid_node.specs.Phases.{name_of};
ghost use Rattle.rapid_node.specs.Steps.{event_of, HasOutcome};
ghost use Rattle.rapid_model.specs.Configuration.{is_member};
ghost use Rattle.rapid_model.specs.PublishedList.{IsBeginning};
ghost use Rattle.rapid_model.specs.Limits.{most_seats, most_subscriptions, most_waiting_views};
ghost use Rattle.rapid_desk.specs.declared.error.DeskError.TheVariants.{OutOfMemory, Unpublished};
ghost use Rattle.rapid_desk.specs.Notices.{Offered, Ended};
ghost use Rattle.rapid_desk.specs.States.{IsDesk, at_checkpoint};
ghost use Rattle.rapid_desk.specs.Desks.{no_installs_in, shown_height, Announced, seed_state, joiner_state, is_blank, state_with, Await, AreMarked, Shown, Grown, Keeps, Tried, NotEntered, Advances, Refused, RefusesEdge, NotSubscribed, NoCheckpoint, queues_of, with_known};

use crate::DeskError;
use crate::board::Board;
use crate::held::Held;
use crate::outlet::{Outlet, subscribe};
use crate::subscription::Subscription;
use rapid_config::Configuration;
use rapid_endpoint::{Endpoint, Process};
use rapid_message::Outputs;
use rapid_node::{Event, Node, Phase};
use rapid_view::{View, ViewError, ViewSeat};
use std::alloc::Global;
use std::marker::Model;
use std::mem;
use std::sync::Wait;

/// How many subscriptions a desk serves at most.
const MOST_SUBSCRIBERS: usize = 64;

/// How many changes wait for a subscriber at most.
const MOST_CAPACITY: usize = 1_024;

/// A node at a desk: the node, the journal of what happened since it entered its configuration, or
/// since a checkpoint after that, and the views that it has published. Contracts see what is held,
/// and whether the seats at the published view are still to be taken.
pub struct Desk<R: Wait + Copy + Drop> {
    rt: R,
    alloc: Global,
    held: Held,
    board: Board<R>,
    outlets: Vec<Outlet>,
}

// By hand: it is proved here that all parts can be dropped, and no crate above has to prove it again.
impl<R: Wait + Copy + Drop> Drop for Desk<R> {
    fn drop(self) {
        let Desk {
            rt: _,
            alloc: _,
            held: _,
            board: _,
            outlets: _,
        } = self;
    }
}

impl<R: Wait + Copy + Drop> Model for Desk<R> {
    ghost use Rattle.std.specs.Coded.{codes};
    ghost use Rattle.rapid_node.specs.Codes.{node_code};
    ghost use Rattle.rapid_desk.specs.Desks.{DeskValue, Follow, Keeps, shown_height, state_with};

    ghost Value = { DeskValue };

    ghost coded = { Prim.hlevel (codes, node_code) };

    ghost view = { λ d. record { state = state_with d.held d.board.published; seats = d.board.seats; count = d.board.count; cell = d.board.cell; subscriptions = d.outlets.items } };

    ghost invariant = { λ d. Keeps (state_with d.held d.board.published) × Follow (shown_height d.board.published) d.outlets.items };
}

/// Publishes the node's view.
fn publish_shown<R: Wait + Copy + Drop>(
    board: &mut Board<R>,
    alloc: Global,
    node: &Node,
) -> Result<(), ViewError>
    requires { IsSome (configuration_of node.now) }
    ensures published { IfOk result (λ _. Grown (configuration_of node.now) board.old.published board.new.published) }
    ensures seats { IfOk result (λ _. (board.new.seats ≡ (board.old.seats || is_blank board.old.published)) × (board.new.count ≡ board.old.count)) }
    ensures cell { IsSome board.old.cell → board.new.cell ≡ board.old.cell }
    ensures unchanged { IfErr result (λ _. board.new ≡ board.old) }
{
    let Some(configuration) = node.configuration() else {
        unreachable!()
    };
    board.publish(View::new(configuration.try_copy(alloc)?))
}

/// Takes in the node that the step made, which has installed a configuration: that is published,
/// and the journal begins anew.
fn adopt_installed<R: Wait + Copy + Drop>(
    held: &mut Held,
    board: &mut Board<R>,
    alloc: Global,
) -> Result<(), DeskError>
    requires { IsSome (configuration_of held.old.next) }
    ensures count { board.new.count ≡ board.old.count }
    ensures held { OnOk result ((held.new.entry ≡ held.old.next) × (held.new.journal ≡ []) × (held.new.full ≡ held.old.full) × (held.new.node ≡ held.old.next)) }
    ensures published { OnOk result (Grown (configuration_of held.old.next) board.old.published board.new.published) }
    ensures seats { OnOk result (board.new.seats ≡ (board.old.seats || is_blank board.old.published)) }
    ensures cell { IsSome board.old.cell → board.new.cell ≡ board.old.cell }
    ensures refused { IfErr result (NotEntered held.old held.new) }
    ensures unchanged { OnErr result (board.new ≡ board.old) }
{
    // asked for first: a view that is published cannot be taken back
    let entry = held.copy_next()?;
    if publish_shown(board, alloc, held.next()).is_err() {
        held.halt();
        return Err(DeskError::Unpublished);
    }
    held.begin(entry);
    Ok(())
}

/// Takes in the node that the step made.
fn adopt_next<R: Wait + Copy + Drop>(
    held: &mut Held,
    board: &mut Board<R>,
    alloc: Global,
    event: Event,
) -> Result<(), DeskError>
    requires tried { Tried held.old (event_of event) }
    requires keeps { Keeps (state_with held.old board.old.published) }
    ensures keeps { Keeps (state_with held.new board.new.published) }
    ensures advances { OnOk result (Advances (state_with held.old board.old.published) (event_of event) (state_with held.new board.new.published) × (held.new.node ≡ held.old.next)) }
    ensures seats { OnOk result (board.new.seats ≡ (board.old.seats || (is_blank board.old.published && not (is_blank board.new.published)))) }
    ensures refused { IfErr result (Refused (state_with held.old board.old.published) (event_of event) (state_with held.new board.new.published)) }
    ensures shown { OnOk result (Shown (has_installed held.old.node held.old.next) (configuration_of held.old.next) board.old.published board.new.published) }
    ensures unchanged { OnErr result (board.new ≡ board.old) }
    ensures count { board.new.count ≡ board.old.count }
    ensures cell { IsSome board.old.cell → board.new.cell ≡ board.old.cell }
{
    if held.installs() {
        return adopt_installed(held, board, alloc);
    }
    held.keep(event)?;
    Ok(())
}

/// Puts the view of the configuration for each subscriber.
fn offer_all<R: Wait>(
    outlets: &mut Vec<Outlet>,
    rt: &R,
    alloc: Global,
    configuration: &Configuration,
)
    requires { Await configuration.now.height outlets.old.items }
    ensures { AllZip (Offered configuration.now) outlets.old.items outlets.new.items }
{
    for outlet in outlets.iter_mut() {
        outlet.offer(rt, alloc, configuration);
    }
}

/// Puts the node's view for each subscriber, if something was installed.
fn announce<R: Wait>(outlets: &mut Vec<Outlet>, rt: &R, alloc: Global, node: &Node, installed: bool)
    requires { installed ≡ true → IfSome (configuration_of node.now) (λ c. Await c.height outlets.old.items) }
    ensures { Announced installed (configuration_of node.now) outlets.old.items outlets.new.items }
{
    if !installed {
        return;
    }
    if let Some(configuration) = node.configuration() {
        offer_all(outlets, rt, alloc, configuration);
    }
}

/// Puts the end for each subscriber.
fn end_all<R: Wait>(outlets: &mut Vec<Outlet>, rt: &R)
    ensures { AllZip Ended outlets.old.items outlets.new.items }
{
    for outlet in outlets.iter_mut() {
        outlet.close(rt);
    }
}

impl<R: Wait + Copy + Drop> Desk<R> {
    /// The desk of a founder: a member of this configuration, which has the height 0 and is
    /// published at once. The caller ensures that the process is a member, and asks for 1 to 64
    /// seats.
    ///
    /// # Errors
    ///
    /// `OutOfMemory`, and `Unpublished` if the view could not be published. There is no desk then.
    #[tactic(auto, using(crate::proofs::Keeping::keeps_seed_held, crate::proofs::Keeping::seed_is))]
    pub fn seed(
        rt: R,
        alloc: Global,
        configuration: &Configuration,
        process: Process,
        seats: usize,
    ) -> Result<Desk<R>, DeskError>
        requires member { is_member configuration.now process ≡ true }
        requires seats { (0 < seats) × (seats ≤ most_seats) }
        ensures state { IfOk result (λ desk. desk.state ≡ seed_state configuration.now process) }
        ensures seats { IfOk result (λ desk. (desk.seats ≡ true) × (desk.count ≡ seats) × (desk.subscriptions ≡ [])) }
        ensures refused { IfErr result (λ e. (e ≡ OutOfMemory) ⊎ (e ≡ Unpublished)) }
    {
        let node = Node::seed(alloc, configuration, process)?;
        let held = Held::new(alloc, node)?;
        let mut board = Board::new(rt, alloc, seats);
        let view = View::new(configuration.try_copy(alloc)?);
        let Ok(()) = board.publish(view) else {
            return Err(DeskError::Unpublished);
        };
        Ok(Desk {
            rt,
            alloc,
            held,
            board,
            outlets: Vec::new(alloc),
        })
    }

    /// The desk of a process that joins by the seed at this endpoint. It publishes nothing until it
    /// is in a configuration. The caller asks for 1 to 64 seats. `OutOfMemory` if there was none.
    pub fn joiner(
        rt: R,
        alloc: Global,
        process: Process,
        seed: Endpoint,
        seats: usize,
    ) -> Result<Desk<R>, DeskError>
        requires { (0 < seats) × (seats ≤ most_seats) }
        ensures state { IfOk result (λ desk. desk.state ≡ joiner_state process seed) }
        ensures seats { IfOk result (λ desk. (desk.seats ≡ false) × (desk.count ≡ seats) × (desk.subscriptions ≡ [])) }
        ensures cell { IfOk result (λ desk. desk.cell ≡ None) }
        ensures refused { IfErr result (λ e. e ≡ OutOfMemory) }
    {
        Ok(Desk {
            rt,
            alloc,
            held: Held::new(alloc, Node::joiner(alloc, process, seed)?)?,
            board: Board::new(rt, alloc, seats),
            outlets: Vec::new(alloc),
        })
    }

    /// The node is the replay of the journal from its entry, and what it installed is published; or
    /// it has halted. While it joins nothing is published. What is published has a cell, from the
    /// first view on. It does nothing: what it ensures is for proofs.
    #[inline(always)]
    pub fn tell(&self)
        ensures desk { IsDesk self.now.state }
        ensures joining { no_installs_in self.now.state.node.phase self.now.state.published }
        ensures cell { is_some self.now.cell ≡ not (is_blank self.now.state.published) }
    {
        self.board.tell();
    }

    /// The node, as it is after the last step.
    pub fn node(&self) -> &Node
        ensures { result.now ≡ self.now.state.node }
    {
        self.held.node()
    }

    /// The phase of the node.
    pub fn phase(&self) -> Phase
        ensures { result ≡ name_of self.now.state.node.phase }
    {
        self.node().phase()
    }

    /// How many records the journal has, at most 65,536.
    pub fn journal_len(&self) -> usize
        ensures { result ≡ length self.now.state.journal }
    {
        self.held.journal_len()
    }

    /// Begins the journal anew: its entry becomes a copy of the node, and it has no record. The
    /// node, what is published and who is subscribed stay. A desk that is asked for a checkpoint
    /// often enough never answers `JournalFull`, even if its configuration stays for long.
    ///
    /// # Errors
    ///
    /// Checked first: `JournalFull` if an event was refused so before. `OutOfMemory` if there was
    /// no memory for the copy. Both change nothing.
    pub fn checkpoint(&mut self) -> Result<(), DeskError>
        ensures ok { OnOk result ((self.old.state.full ≡ false) × (self.new.state ≡ at_checkpoint self.old.state)) }
        ensures desk { IsDesk self.new.state }
        ensures same { (self.new.seats ≡ self.old.seats) × (self.new.count ≡ self.old.count) × (self.new.subscriptions ≡ self.old.subscriptions) }
        ensures cell { self.new.cell ≡ self.old.cell }
        ensures refused { IfErr result (NoCheckpoint self.old.state.full) }
        ensures unchanged { OnErr result (self.new ≡ self.old) }
    {
        self.held.checkpoint()
    }

    /// One event at the node, and what is to be sent after it, in order. Afterwards the journal has
    /// the event. If a configuration was entered, the journal begins anew, and the view is
    /// published and put for each subscriber.
    ///
    /// # Errors
    ///
    /// Checked first: `JournalFull` if 65,536 records are kept and the event needs another, and
    /// from then on. `OutOfMemory` if there was none for what the desk keeps. Both leave node,
    /// journal and published list. `Node` if the node has halted, or does in this step: it sends
    /// nothing of the step. `Unpublished` if the new view could not be published. The node halts
    /// then and sends nothing of the step, and its installed list is one longer than the published
    /// one.
    pub fn step(&mut self, event: Event) -> Result<Outputs, DeskError>
        ensures outputs { IfOk result (λ sent. HasOutcome self.old.state.node.me (node_step self.old.state.node (event_of event)) self.new.state.node sent.items) }
        ensures advances { OnOk result (Advances self.old.state (event_of event) self.new.state) }
        ensures seats { OnOk result (self.new.seats ≡ (self.old.seats || (is_blank self.old.state.published && not (is_blank self.new.state.published)))) }
        ensures refused { IfErr result (Refused self.old.state (event_of event) self.new.state) }
        ensures same_seats { OnErr result (self.new.seats ≡ self.old.seats) }
        ensures announced { OnOk result (Announced (has_installed self.old.state.node self.new.state.node) (configuration_of self.new.state.node) self.old.subscriptions self.new.subscriptions) }
        ensures unannounced { OnErr result (self.new.subscriptions ≡ self.old.subscriptions) }
        ensures queues { queues_of self.new.subscriptions ≡ queues_of self.old.subscriptions }
        ensures count { self.new.count ≡ self.old.count }
        ensures cell { IsSome self.old.cell → self.new.cell ≡ self.old.cell }
    {
        match self.held.prepare(&event) {
            Ok(sent) => {
                // asked before the two nodes change places
                let installed = self.held.installs();
                adopt_next(&mut self.held, &mut self.board, self.alloc, event)?;
                // last, so that whoever takes a change finds its view at a seat
                let node = self.held.node();
                announce(&mut self.outlets, &self.rt, self.alloc, node, installed);
                Ok(sent)
            }
            Err(error) => {
                drop(event);
                Err(error)
            }
        }
    }

    /// Refuses an edge that went down, for whose event there is no memory: the error is the one that
    /// [`Desk::step`] answers if it has none for what it keeps of the event. So whoever makes the
    /// event need not ask whether the journal is full.
    ///
    /// It is `JournalFull` if 65,536 records are kept, and from then on, else `OutOfMemory`. Both
    /// leave node, journal and published list.
    pub fn refuse_edge(&mut self) -> DeskError
        ensures refused { RefusesEdge self.old.state self.new.state result }
        ensures same { (self.new.seats ≡ self.old.seats) × (self.new.count ≡ self.old.count) × (self.new.subscriptions ≡ self.old.subscriptions) }
        ensures cell { self.new.cell ≡ self.old.cell }
    {
        self.held.refuse_edge()
    }

    /// The seats at the published view, once, from when a view is published. They are of the cell
    /// to which the desk publishes.
    pub fn take_seats(&mut self) -> Option<Vec<ViewSeat>>
        ensures some { is_some result ≡ self.old.seats }
        ensures rest { self.new ≡ record self.old { seats = false } }
        ensures all { IfSome result (λ all. vec_len all ≡ self.old.count) }
        ensures one_cell { IfSome result (λ all. (cell : TableId) × (self.old.cell ≡ Some cell) × All (λ s. s.cell ≡ cell) all.items) }
    {
        self.board.take_seats()
    }

    /// What a seat has seen is a beginning of what the desk has published. The seat is one of those
    /// that this desk gave.
    pub fn compare_seat(&mut self, seat: &mut ViewSeat)
        requires { self.old.cell ≡ Some seat.old.cell }
        ensures same { (self.new ≡ self.old) × (seat.new ≡ seat.old) }
        ensures order { IsBeginning seat.old.seen self.old.state.published }
    {
        self.board.compare_seat(seat);
    }

    /// A subscription to the views that come after the one that is published last, with room for
    /// `capacity` of them to wait.
    ///
    /// # Errors
    ///
    /// `BadCapacity` if the capacity is not 1 to 1,024, else `TooManySubscribers` if the desk
    /// serves 64, else `OutOfMemory`.
    pub fn subscribe(&mut self, capacity: usize) -> Result<Subscription, DeskError>
        ensures same { (self.new.state ≡ self.old.state) × (self.new.seats ≡ self.old.seats) × (self.new.count ≡ self.old.count) }
        ensures cell { self.new.cell ≡ self.old.cell }
        ensures ok { OnOk result ((0 < capacity) × (capacity ≤ most_waiting_views) × (length self.old.subscriptions < most_subscriptions)) }
        ensures served { IfOk result (λ subscription. self.new.subscriptions ≡ self.old.subscriptions ++ record { queue = subscription.queue; since = shown_height self.old.state.published; capacity = capacity; put = []; known = [] } ∷ []) }
        ensures untaken { IfOk result (λ subscription. subscription.taken ≡ []) }
        ensures room { IfOk result (λ subscription. subscription.room ≡ capacity + 1) }
        ensures refused { IfErr result (NotSubscribed capacity (length self.old.subscriptions)) }
        ensures unchanged { OnErr result (self.new.subscriptions ≡ self.old.subscriptions) }
    {
        if capacity == 0 || capacity > MOST_CAPACITY {
            return Err(DeskError::BadCapacity);
        }
        if self.outlets.len() >= MOST_SUBSCRIBERS {
            return Err(DeskError::TooManySubscribers);
        }
        // what is published, not the node's view: they differ after `Unpublished`
        let since = self.board.height();
        let (outlet, subscription) = subscribe(self.alloc, capacity, since)?;
        match self.outlets.push(outlet) {
            Ok(()) => Ok(subscription),
            Err(_) => Err(DeskError::OutOfMemory),
        }
    }

    /// Ends the subscriptions made so far, which count no more; what waits in them can still be
    /// taken. Whoever owns a desk whose node has halted closes it, else its subscribers wait for
    /// ever.
    ///
    /// The answer is the desk's ends of them, by age. Each compares what its subscriber takes, now
    /// and later, with what was put for it. Whoever compares nothing drops them.
    pub fn close(&mut self) -> Vec<Outlet>
        ensures rest { self.new ≡ record self.old { subscriptions = [] } }
        ensures ended { AllZip Ended self.old.subscriptions result.items }
        ensures marked { AreMarked result.items }
        ensures queues { queues_of result.items ≡ queues_of self.old.subscriptions }
    {
        end_all(&mut self.outlets, &self.rt);
        mem::replace(&mut self.outlets, Vec::new(self.alloc))
    }

    /// What a subscriber has taken is a beginning of what was put for it, in order, each change
    /// once. It is known to be taken from then on. The number is that of its subscription among
    /// those that the desk serves, by age.
    pub fn compare(&mut self, number: usize, subscription: &mut Subscription)
        requires served { IsSomeAnd (slice_get self.old.subscriptions number) (λ s. s.queue ≡ subscription.old.queue) }
        ensures same { (self.new ≡ record self.old { subscriptions = self.new.subscriptions }) × (subscription.new ≡ subscription.old) }
        ensures known { IfSome (slice_get self.old.subscriptions number) (λ s. self.new.subscriptions ≡ slice_set self.old.subscriptions number (with_known subscription.old.taken s)) }
        ensures order { IfSome (slice_get self.old.subscriptions number) (λ s. StartsWith s.put subscription.old.taken) }
    {
        self.outlets[number].compare(subscription);
    }
}
