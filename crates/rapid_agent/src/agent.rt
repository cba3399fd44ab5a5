// A member in one's own program.

ghost use Rattle.std.specs.Prelude.{◌≡◌, ◌+◌, ◌<◌, ◌≤◌, ◌++◌, [], ℕ, max, min, None, Ok, IfOk, IfErr, IfSome, OnOk};
ghost use Rattle.std.specs.Thread.{IsSync};
ghost use Rattle.rapid_model.specs.Limits.{most_probers, most_waiting_views};
ghost use Rattle.rapid_model.specs.Process.{endpoint, tags_bytes_of};
ghost use Rattle.rapid_desk.specs.Desks.{NotSubscribed, joiner_state};
ghost use Rattle.rapid_signals.specs.declared.fault.RunningFault.TheVariants.{NoIdentifier};
ghost use Rattle.rapid_agent.specs.Opening.{IsOpenedBy, opening_state};

use crate::arrivals::Arrivals;
use crate::posts::Posts;
use rapid_config::Params;
use rapid_desk::DeskError;
use rapid_endpoint::{Endpoint, Process, ProcessId, Tags};
use rapid_node::Phase;
use rapid_options::NodeOptions;
use rapid_service::{RunningFault, Service, Shared, identify, run_prober, run_ticker};
use rapid_subscriber::Subscriber;
use rapid_transport::{Counters, ListenError, Peers, SenderEnd};
use rapid_view::ViewSeat;
use std::alloc::{AllocError, Global};
use std::net::{Net, TcpListener, TcpStream};
use std::random::RandomSource;
use std::sync::{Arc, Mutex, Wait};
use std::thread::{self, Threads};
use std::time::{Clock, Duration};

/// The most threads that probe the observed members.
const MOST_PROBERS: u8 = Params::MOST_RINGS;

/// A member of a cluster in one's own program: its node, its listener and what its threads share.
/// Threads share it by reference. It does nothing by itself until `run` or `run_while`.
pub struct Agent<'a, W: Wait> {
    rt: &'a W,
    alloc: Global,
    endpoint: Endpoint,
    period: Duration,
    probers: u8,
    peers: Arc<Peers>,
    /// The ends of the senders' queues, until it runs.
    ends: Mutex<Option<Vec<SenderEnd>>>,
    shared: Shared<&'a W, Posts>,
}

// By hand: it is proved here that all parts can be dropped, and no crate above has to prove it again.
impl<W: Wait> Drop for Agent<'_, W> {
    fn drop(self) {
        let Agent {
            rt: _,
            alloc: _,
            endpoint: _,
            period: _,
            probers: _,
            peers: _,
            ends: _,
            shared: _,
        } = self;
    }
}

/// Listens at an endpoint.
fn listen<R>(
    rt: &R,
    alloc: Global,
    at: Endpoint,
) -> Result<(Arc<Peers>, Vec<SenderEnd>), RunningFault>
where
    R: Net<Listener = TcpListener, Stream = TcpStream>,
{
    match Peers::listen(rt, alloc, at) {
        Ok((peers, ends)) => Ok((Arc::new(alloc, peers)?, ends)),
        Err(ListenError::NoPort) => Err(RunningFault::NoPort),
        Err(ListenError::OutOfMemory) => Err(RunningFault::OutOfMemory),
    }
}

/// What gives frames to the senders of these peers.
fn posts(peers: &Arc<Peers>) -> Result<Posts, AllocError> {
    Ok(Posts {
        peers: Arc::try_clone(peers)?,
    })
}

/// The process of these tags at this endpoint, with the identifier that is given, or else with one
/// that is drawn.
fn process_at<S: RandomSource>(
    at: Endpoint,
    given: Option<ProcessId>,
    tags: Tags,
    source: &S,
) -> Result<Process, RunningFault>
    ensures there { IfOk result (λ me. endpoint me ≡ at) }
    ensures tagged { IfOk result (λ me. tags_bytes_of me ≡ tags) }
    ensures given { IfSome given (λ id. result ≡ Ok (id ++ at ++ tags)) }
    ensures fault { IfErr result (λ e. e ≡ NoIdentifier) }
{
    let id = identify(given, source)?;
    let me = Process::of(id, at, tags);
    // how long these are tells where the endpoint begins
    id.tell();
    at.tell();
    Ok(me)
}

/// The service of a process that founds a cluster or joins one, as the options say.
fn open_service<'a, W: Wait>(
    rt: &'a W,
    alloc: Global,
    options: &NodeOptions,
    me: Process,
    posts: Posts,
) -> Result<Service<&'a W, Posts>, RunningFault>
    ensures { IfOk result (λ s. (s.desk.state ≡ opening_state options.now.params options.now.join me) × (s.me ≡ me)) }
{
    match options.join {
        None => Service::found(rt, alloc, options.params, me, posts),
        Some(seed) => Service::join(rt, alloc, me, seed, posts),
    }
}

/// What the threads of such a process share. The line of its first view waits at the console, if it
/// has a view.
fn open_shared<'a, W: Wait>(
    rt: &'a W,
    alloc: Global,
    options: &NodeOptions,
    me: Process,
    posts: Posts,
    probers: u8,
) -> Result<Shared<&'a W, Posts>, RunningFault>
    ensures { IfOk result (λ shared. shared.probers ≡ max 1 (min probers most_probers)) }
{
    let service = open_service(rt, alloc, options, me, posts)?;
    let shared = Shared::new(alloc, service, probers)?;
    shared.begin(rt)?;
    Ok(shared)
}

impl<'a, W: Wait> Agent<'a, W> {
    /// A member that founds a cluster or joins one, as its options say. It listens at its endpoint
    /// from now on. Without an identifier in its options it draws one from the source.
    ///
    /// # Errors
    ///
    /// `NoPort` if the port could not be bound, `NoIdentifier` if the source failed, and
    /// `OutOfMemory`.
    pub fn open<S>(
        rt: &'a W,
        alloc: Global,
        options: &NodeOptions,
        source: &S,
    ) -> Result<Agent<'a, W>, RunningFault>
    where
        W: Net<Listener = TcpListener, Stream = TcpStream>,
        S: RandomSource,
        ensures { IfOk result (λ agent. IsOpenedBy options.now agent.endpoint agent.period agent.probers agent.shared.probers) }
    {
        let agent = Agent::open_printing(rt, alloc, options, source)?;
        // nobody prints its views
        agent.shared.console().close(rt);
        Ok(agent)
    }

    /// As `open`, for a program that prints the views at the console of what is shared. It has to
    /// print there, since a node whose console is full ends.
    ///
    /// # Errors
    ///
    /// Those of `open`.
    pub fn open_printing<S>(
        rt: &'a W,
        alloc: Global,
        options: &NodeOptions,
        source: &S,
    ) -> Result<Agent<'a, W>, RunningFault>
    where
        W: Net<Listener = TcpListener, Stream = TcpStream>,
        S: RandomSource,
        ensures { IfOk result (λ agent. IsOpenedBy options.now agent.endpoint agent.period agent.probers agent.shared.probers) }
    {
        let me = process_at(options.listen, options.id, options.tags, source)?;
        let (peers, ends) = listen(rt, alloc, options.listen)?;
        let probers = options.probers.min(MOST_PROBERS);
        let shared = open_shared(rt, alloc, options, me, posts(&peers)?, probers)?;
        Ok(Agent {
            rt,
            alloc,
            endpoint: options.listen,
            period: Duration::from_millis(u64::from(options.tick_ms)),
            probers,
            peers,
            ends: Mutex::new(Some(ends)),
            shared,
        })
    }

    /// What the threads of the node share.
    pub fn shared(&self) -> &Shared<&'a W, Posts>
        ensures { result.now ≡ self.now.shared }
    {
        &self.shared
    }

    /// The process that this is: its identifier, its endpoint and its tags.
    pub fn process(&self) -> Process {
        self.shared.process(self.rt)
    }

    /// Whether it joins, is a member, was removed, or has halted.
    pub fn phase(&self) -> Phase {
        self.shared.phase(self.rt)
    }

    /// A seat at the published view: one of eight, from when there is a view. By it one thread
    /// reads the last stamp without a lock, and the last view.
    pub fn seat(&self) -> Option<ViewSeat> {
        self.shared.take_seat(self.rt)
    }

    /// A subscriber to the views that come after the current one, with room for `capacity` of them
    /// to wait. It has the current view, if there is one.
    ///
    /// # Errors
    ///
    /// `BadCapacity` if the capacity is not 1 to 1,024, else `TooManySubscribers` if 64 were
    /// subscribed before, also those that are dropped, else `OutOfMemory`.
    pub fn subscribe(&self, capacity: usize) -> Result<Subscriber<'_, W>, DeskError>
        ensures room { OnOk result ((0 < capacity) × (capacity ≤ most_waiting_views)) }
        ensures untold { IfOk result (λ subscriber. (subscriber.subscription.taken ≡ []) × (subscriber.come ≡ None)) }
        ensures places { IfOk result (λ subscriber. subscriber.subscription.room ≡ capacity + 1) }
        ensures refused { IfErr result (λ e. (served : ℕ) × NotSubscribed capacity served e) }
    {
        let (subscription, current) = self.shared.subscribe(self.rt, capacity)?;
        // one that ends afterwards is closed by whoever ends it
        if self.shared.ending().has_come(self.rt) {
            self.shared.close(self.rt);
        }
        let bell = self.shared.bell();
        Ok(Subscriber::new(self.rt, self.alloc, bell, subscription, current))
    }

    /// The member is to leave: it asks those that observe it to have it removed. It goes on until a
    /// view comes without it, and is in phase `Removed` then. In a view that still has it, it has to
    /// be told again.
    ///
    /// # Errors
    ///
    /// Those of the node, by which the agent ends.
    pub fn leave(&self) -> Result<(), RunningFault> {
        let done = self.shared.leave(self.rt);
        self.shared.goes_on(self.rt, done);
        done
    }

    /// What its peers have done so far, in numbers.
    pub fn counters(&self) -> Counters {
        self.peers.counters(self.rt)
    }

    /// Ends it: `run` returns soon after. The other members notice it as a crash, unless it left
    /// before.
    pub fn stop(&self) {
        self.shared.ending().end(self.rt, None);
    }

    /// A member that was removed asks the one at this endpoint to let it in as another process. The
    /// new process is behind the same listener and has the same tags, and its identifier is drawn
    /// from the source. Its subscriptions have ended, and its seats are at the views before. The
    /// answer is whether it asks: it does not if it was not removed, or has ended.
    ///
    /// # Errors
    ///
    /// `NoIdentifier` if the source failed, and `OutOfMemory`. Both change nothing.
    pub fn rejoin<S: RandomSource>(
        &self,
        seed: Endpoint,
        source: &S,
    ) -> Result<bool, RunningFault> {
        if self.phase() != Phase::Removed || self.shared.ending().has_come(self.rt) {
            return Ok(false);
        }
        let next = self.join_anew(seed, source)?;
        self.shared.begin_anew(self.rt, next);
        Ok(true)
    }

    /// The service of another process behind the same listener, which joins by the seed.
    fn join_anew<S: RandomSource>(
        &self,
        seed: Endpoint,
        source: &S,
    ) -> Result<Service<&'a W, Posts>, RunningFault>
        ensures { IfOk result (λ s. (s.desk.state ≡ joiner_state s.me seed) × (endpoint s.me ≡ self.now.endpoint)) }
    {
        let tags = *self.process().tags();
        let me = process_at(self.endpoint, None, tags, source)?;
        Service::join(self.rt, self.alloc, me, seed, posts(&self.peers)?)
    }

    /// The senders' ends: once.
    fn take_ends(&self) -> Option<Vec<SenderEnd>> {
        let mut ends = self.ends.lock(self.rt);
        ends.take()
    }

    /// Waits until it ends, ends its subscriptions, and stops its peers.
    fn stop_at_the_end(&self) {
        self.shared.ending().await_it(self.rt);
        self.shared.close(self.rt);
        self.peers.stop(self.rt);
    }

    /// Ends it because a thread of it could not be started.
    fn give_up(&self) {
        self.shared
            .ending()
            .end(self.rt, Some(RunningFault::OutOfMemory));
        self.shared.close(self.rt);
    }

    /// Lets it take ticks and messages until it ends. It returns when the threads for that have
    /// ended; the caller's thread accepts connections.
    fn work(&self, ends: Vec<SenderEnd>)
    where
        W: Net<Listener = TcpListener, Stream = TcpStream> + Threads + Clock + Sync,
    {
        let (rt, shared, period) = (self.rt, &self.shared, self.period);
        thread::scope(
            thread::scope_env(),
            rt,
            |scope|
                requires { IsSync W.row }
            {
                // first: without the thread that stops the peers nothing would end the acceptor below
                if scope.spawn(move || self.stop_at_the_end()).is_err() {
                    return self.give_up();
                }
                if !period.is_zero()
                    && scope.spawn(move || run_ticker(rt, shared, period)).is_err()
                {
                    return self.give_up();
                }
                // whoever ticks the node makes the parts for which no thread could be started
                for _ in 1..self.probers {
                    let _ = scope.spawn(move || run_prober(rt, shared));
                }
                if self
                    .peers
                    .run(rt, self.alloc, ends, &Arrivals { shared })
                    .is_err()
                {
                    self.give_up();
                }
            },
        );
    }

    /// Runs it until it ends: by `stop`, or by a fault. It ticks, probes, accepts connections, reads
    /// and sends in threads of its own, all of which have ended when it returns. It runs once: a
    /// later call answers at once why it ended, or that it has not.
    ///
    /// # Errors
    ///
    /// The fault by which it ended: `JournalFull` and `Halted` by the node itself, and
    /// `OutOfMemory`, also if a thread could not be started.
    pub fn run(&self) -> Result<(), RunningFault>
    where
        W: Net<Listener = TcpListener, Stream = TcpStream> + Threads + Clock + Sync,
    {
        if let Some(ends) = self.take_ends() {
            self.work(ends);
        }
        self.shared.ending().outcome(self.rt)
    }

    /// Runs it in threads of its own while `work` runs in the caller's, and stops it when that
    /// returns. It answers what `work` did.
    pub fn run_while<T, F>(&self, work: F) -> T
    where
        W: Net<Listener = TcpListener, Stream = TcpStream> + Threads + Clock + Sync,
        F: FnOnce() -> T,
        requires { F.IsAlwaysCallable work }
        ensures { F.post work result }
    {
        let rt = self.rt;
        thread::scope(
            thread::scope_env(),
            rt,
            |scope|
                requires { IsSync W.row × F.IsAlwaysCallable work }
                ensures { F.post work result }
            {
                if scope.spawn(move || self.run()).is_err() {
                    self.give_up();
                }
                let done = work();
                self.stop();
                done
            },
        )
    }
}
