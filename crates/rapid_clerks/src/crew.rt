// Clerks in threads of their own.

ghost use Rattle.std.specs.Prelude.{◌≡◌, ℕ, ◌+◌, ◌<◌, ◌≤◌, [], All, sum, vec_len, vec_capacity, length, IfOk, OnErr};

use crate::{Clerk, DoJob, Gate, TurnJob};
use std::alloc::{AllocError, Global};
use std::marker::{Brand, PhantomData};
use std::sync::ledger::{Ledger, Share};
use std::sync::{Mutex, Wait};
use std::thread;
use std::thread::Threads;

/// How many jobs each clerk is given. The number is known only when clerks are started, but the
/// type of what a thread returns has to name it. So a type stands for it.
trait TurnCount {
    ghost given: { ℕ };
}

impl TurnCount for Brand {
    ghost given = { 0 };
}

/// A clerk's place while the threads run: the clerk, with one part of the ledger, and how many jobs
/// it did.
#[derive(Drop)]
struct Place<L: Ledger, N: TurnCount> {
    clerk: Clerk<L>,
    done: u64,
    of: PhantomData<N>,
    ghost one_part: { clerk.share.parts ≡ 1 },
    ghost counted: { clerk.share.amount ≡ done },
    ghost most: { done ≤ N.given },
}

impl<L: Ledger, N: TurnCount> Place<L, N> {
    /// The place of a clerk that did nothing yet.
    fn new(worker: usize, share: Share<L>) -> Place<L, N>
        requires { (share.parts ≡ 1) × (share.amount ≡ 0) }
    {
        Place {
            clerk: Clerk::new(worker, share),
            done: 0,
            of: PhantomData,
        }
    }

    /// Does the jobs, if none was done yet.
    fn work<B: DoJob<L, TurnJob>, G: Gate, R: Wait>(
        &mut self,
        rt: &R,
        book: &Mutex<B>,
        gate: &G,
        jobs: &[TurnJob],
    )
        requires { length jobs.now ≡ N.given }
    {
        let Place { clerk, done, of: _ } = self;
        if *done == 0 {
            *done = clerk.run(rt, book, gate, jobs);
        }
    }
}

/// Does the jobs at a place.
fn work<L: Ledger, N: TurnCount, B: DoJob<L, TurnJob>, G: Gate, R: Wait>(
    rt: &R,
    book: &Mutex<B>,
    gate: &G,
    place: &Mutex<Place<L, N>>,
    jobs: &[TurnJob],
)
    requires { length jobs.now ≡ N.given }
{
    place.lock(rt).work(rt, book, gate, jobs);
}

/// Starts a thread for each place, and returns once all have ended. If a thread cannot be started,
/// nothing is done at its place.
fn start_all<
    L: Ledger + Send + Sync,
    N: TurnCount + Send + Sync,
    B: DoJob<L, TurnJob> + Send,
    G: Gate + Sync,
    R: Threads + Wait + Sync,
>(rt: &R, book: &Mutex<B>, gate: &G, places: &[Mutex<Place<L, N>>], jobs: &[TurnJob])
    requires { length jobs.now ≡ N.given }
{
    thread::scope(
        thread::scope_env(),
        rt,
        |scope|
            requires { length jobs.now ≡ N.given }
        {
            for place in places {
                let _ = scope.spawn(
                    move ||
                        requires { length jobs.now ≡ N.given }
                    { work(rt, book, gate, place, jobs) },
                );
            }
        },
    );
}

/// How many clerks are started, and how many turns each takes.
#[derive(Clone, Copy)]
struct Crew {
    workers: usize,
    turns: usize,
}

/// The places of this many clerks, numbered from 0. Each clerk has one part of the share.
fn make_places<L: Ledger, N: TurnCount>(
    alloc: Global,
    share: &mut Share<L>,
    workers: usize,
) -> Result<Vec<Mutex<Place<L, N>>>, AllocError>
    requires { workers < share.old.parts }
    ensures each { IfOk result (λ places. vec_len places ≡ workers) }
    ensures parts { IfOk result (λ places. share.new.parts + vec_len places ≡ share.old.parts) }
    ensures amount { share.new.amount ≡ share.old.amount }
    ensures kept { OnErr result (share.new.parts ≡ share.old.parts) }
{
    let mut places = Vec::with_capacity(alloc, workers)?;
    for worker in 0..workers {
        let mine = share.split_off(1, 0);
        places.push_reserved(Mutex::new(Place::<L, N>::new(worker, mine)));
    }
    Ok(places)
}

/// Takes back the parts of all clerks, and how many jobs each of them did.
fn gather<L: Ledger, N: TurnCount>(
    share: &mut Share<L>,
    places: Vec<Mutex<Place<L, N>>>,
    counts: &mut Vec<u64>,
)
    requires none { counts.old.items ≡ [] }
    requires room { vec_len places ≤ vec_capacity counts.old }
    ensures each { vec_len counts.new ≡ vec_len places }
    ensures most { All (λ count. count ≤ N.given) counts.new.items }
    ensures parts { share.new.parts ≡ share.old.parts + vec_len places }
    ensures raised { share.new.amount ≡ share.old.amount + sum counts.new.items }
{
    for place in places {
        let Place { clerk, done, of: _ } = place.into_inner();
        let Clerk {
            worker: _,
            share: mine,
            passed: _,
            ended: _,
        } = clerk;
        share.merge(mine);
        counts.push_reserved(done);
    }
}

/// Starts clerks, each of which takes the number of turns for which the type stands.
fn run_given<
    L: Ledger + Send + Sync,
    N: TurnCount + Send + Sync,
    B: DoJob<L, TurnJob> + Send,
    G: Gate + Sync,
    R: Threads + Wait + Sync,
>(
    rt: &R,
    alloc: Global,
    book: &Mutex<B>,
    gate: &G,
    share: &mut Share<L>,
    crew: Crew,
) -> Result<Vec<u64>, AllocError>
    requires given { crew.turns ≡ N.given }
    requires every { share.old.parts ≡ L.parts }
    requires more { crew.workers < share.old.parts }
    ensures every { share.new.parts ≡ L.parts }
    ensures each { IfOk result (λ counts. vec_len counts ≡ crew.workers) }
    ensures most { IfOk result (λ counts. All (λ count. count ≤ crew.turns) counts.items) }
    ensures raised { IfOk result (λ counts. share.new.amount ≡ share.old.amount + sum counts.items) }
    ensures kept { OnErr result (share.new.amount ≡ share.old.amount) }
{
    let Crew { workers, turns } = crew;
    let jobs = vec![in alloc; TurnJob; turns]?;
    let mut counts = Vec::with_capacity(alloc, workers)?;
    let places = make_places::<L, N>(alloc, share, workers)?;
    start_all(rt, book, gate, places.as_slice(), jobs.as_slice());
    gather(share, places, &mut counts);
    Ok(counts)
}

/// Starts this many clerks, numbered from 0, each in a thread of its own with this many turns to
/// take. The result is how many turns each took: 0 if its thread could not be started. All memory
/// is allocated before the first one starts. The caller ensures that the share is one of the book's
/// ledger. It has every part of that, and more parts than there are workers. Afterwards it has
/// every part again. Its amount is raised by the number of turns that were taken, which is the
/// number of events that were stored.
///
/// # Errors
///
/// `OutOfMemory`: no clerk was started, and the share is as it was.
pub fn run_clerks<
    L: Ledger + Send + Sync,
    B: DoJob<L, TurnJob> + Send,
    G: Gate + Sync,
    R: Threads + Wait + Sync,
>(
    rt: &R,
    alloc: Global,
    book: &Mutex<B>,
    gate: &G,
    share: &mut Share<L>,
    workers: usize,
    turns: usize,
) -> Result<Vec<u64>, AllocError>
    requires every { share.old.parts ≡ L.parts }
    requires more { workers < share.old.parts }
    ensures every { share.new.parts ≡ L.parts }
    ensures each { IfOk result (λ counts. vec_len counts ≡ workers) }
    ensures most { IfOk result (λ counts. All (λ count. count ≤ turns) counts.items) }
    ensures raised { IfOk result (λ counts. share.new.amount ≡ share.old.amount + sum counts.items) }
    ensures kept { OnErr result (share.new.amount ≡ share.old.amount) }
{
    let crew = Crew { workers, turns };
    run_given::<L, Brand, B, G, R>(rt, alloc, book, gate, share, crew)
}
