// A cluster that threads drive.

ghost use Rattle.std.specs.Prelude.{◌≡◌, ◌≤◌, ◌<◌, ◌+◌, ◌-◌, ◌*◌, List, ℕ, map, IfOk, IfErr, OnOk, OnErr};
ghost use Rattle.std.specs.Io.KnownBytes.{Appends};
ghost use Rattle.rapid_model.specs.Configuration.{Params as ModelParams};
ghost use Rattle.rapid_model.specs.Run.{WorldReport};
ghost use Rattle.rapid_model.specs.Limits.{most_clerks};
ghost use Rattle.rapid_world.specs.Events.{report_of};
ghost use Rattle.rapid_clerks.specs.Clusters.{DoesJob, RefusesJob};
ghost use Rattle.rapid_clerks.specs.declared.job.Job.TheVariants as job;
ghost use Rattle.rapid_clerks.specs.Jobs.{DoesJobs};
ghost use Rattle.rapid_cluster.specs.ClusterText.{IsReport};
ghost use Rattle.rapid_cluster.specs.Driven.{HasTaken, IsUnderway, start_of, starts_of};
ghost use Rattle.rapid_cluster.specs.Written.{Ended};

use crate::report::report;
use rapid_clerks::{ClusterBook, DoJob, Gate, Job, TurnJob, run_clerks};
use rapid_config::Params;
use rapid_text::{RunFault, numbered, write_text};
use rapid_world::{Report, WorldError, WorldEvent};
use std::alloc::{AllocError, Global};
use std::io::Write;
use std::marker::{Brand, Model, PhantomData};
use std::mem;
use std::sync::ledger::{Blank, Ledger, Share};
use std::sync::{Mutex, Wait};
use std::thread::Threads;

/// Into how many parts the ledger is cut: one for each of 32 clerks, and one for the thread that
/// starts them.
const PARTS: u64 = 33;

/// A gate that lets all in.
#[derive(Clone, Copy, Debug)]
struct Open;

impl Gate for Open {
    ghost has_shut = { ⊥ };

    fn enter(&self, _worker: usize, _turn: u64) -> bool {
        true
    }

    fn left(&self, _worker: usize, _turn: u64) {}
}

/// What a cluster is asked to be. This is known only when the cluster is driven, but the type of
/// what threads share has to name it. So a type stands for it.
trait Asked {
    ghost params: { ModelParams };

    ghost nodes: { ℕ };
}

impl Asked for Brand {
    ghost params = { record { k = 0; h = 0; l = 0 } };

    ghost nodes = { 0 };
}

/// A cluster that was founded and started as it was asked for, and in which turns alone were taken
/// since.
#[derive(Drop)]
struct Driven<L: Ledger, A: Asked> {
    book: ClusterBook<L>,
    of: PhantomData<A>,
}

impl<L: Ledger, A: Asked> Model for Driven<L, A> {
    ghost use Rattle.rapid_clerks.specs.Clusters.{ClusterState, cluster_code};
    ghost use Rattle.rapid_cluster.specs.Driven.{IsUnderway};

    ghost Value = { ClusterState };

    ghost coded = { cluster_code };

    ghost view = { λ d. d.book };

    ghost invariant = { λ d. IsUnderway A.params A.nodes d.book };
}

impl<L: Ledger, A: Asked> Driven<L, A> {
    /// A cluster in which no turn was taken yet.
    fn new(book: ClusterBook<L>) -> Driven<L, A>
        requires { HasTaken A.params A.nodes 0 book }
        ensures { result ≡ book }
    {
        Driven {
            book,
            of: PhantomData,
        }
    }

    /// Takes the next turn. It is refused only if the world is full, no node runs, or it is out of
    /// memory.
    fn turn(&mut self, share: &mut Share<L>) -> Result<Vec<Report>, WorldError>
        requires { 0 < share.old.parts }
        ensures done { IfOk result (λ reports. DoesJob job.Turn self.old self.new (map report_of reports.items)) }
        ensures refused { IfErr result (RefusesJob job.Turn self.old) }
        ensures unchanged { OnErr result (self.new ≡ self.old) }
        ensures raised { OnOk result (share.new.amount ≡ share.old.amount + 1) }
        ensures kept { OnErr result (share.new.amount ≡ share.old.amount) }
        ensures parts { share.new.parts ≡ share.old.parts }
    {
        self.book.step(share, &Job::Turn)
    }

    /// The cluster, once no more turns are taken.
    fn into_book(self) -> ClusterBook<L>
        ensures { IsUnderway A.params A.nodes result }
    {
        let Driven { book, of: _ } = self;
        book
    }
}

impl<L: Ledger, A: Asked> DoJob<L, TurnJob> for Driven<L, A> {
    fn do_job(&mut self, share: &mut Share<L>, _job: &TurnJob) -> Result<Vec<Report>, WorldError>
        requires { 0 < share.old.parts }
        ensures done { IfOk result (λ reports. DoesJob job.Turn self.old self.new (map report_of reports.items)) }
        ensures refused { IfErr result (RefusesJob job.Turn self.old) }
        ensures unchanged { OnErr result (self.new ≡ self.old) }
        ensures raised { OnOk result (share.new.amount ≡ share.old.amount + 1) }
        ensures kept { OnErr result (share.new.amount ≡ share.old.amount) }
        ensures parts { share.new.parts ≡ share.old.parts }
    {
        self.turn(share)
    }
}

/// Starts the process of a number, which asks process 1 to let it in. Only a number that was
/// started before would be refused, so the error is that memory ran out.
fn start<L: Ledger>(
    book: &mut ClusterBook<L>,
    share: &mut Share<L>,
    number: u16,
) -> Result<(), AllocError>
    requires { 0 < share.old.parts }
    ensures done { OnOk result ((reports : List WorldReport) × DoesJob (start_of number) book.old book.new reports) }
    ensures counted { OnOk result (share.new.amount ≡ share.old.amount + 1) }
    ensures parts { share.new.parts ≡ share.old.parts }
{
    let seed = numbered(1).endpoint();
    let job = Job::Event(WorldEvent::Start(numbered(number), seed));
    match book.step(share, &job) {
        Ok(reports) => {
            mem::drop(reports);
            Ok(())
        }
        Err(_) => Err(AllocError),
    }
}

/// Starts the processes from 2 to this one, which ask process 1 to let them in.
fn start_others<L: Ledger>(
    book: &mut ClusterBook<L>,
    share: &mut Share<L>,
    nodes: u16,
) -> Result<(), AllocError>
    requires { 0 < share.old.parts }
    ensures done { OnOk result (DoesJobs book.old (starts_of (nodes - 1)) book.new) }
    ensures counted { OnOk result (share.new.amount ≡ share.old.amount + (nodes - 1)) }
    ensures parts { share.new.parts ≡ share.old.parts }
{
    let others = nodes.saturating_sub(1);
    for before in 0..others {
        start(book, share, before + 2)?;
    }
    Ok(())
}

/// A cluster of `nodes` nodes that process 1 founded with these parameters, after the starts of the
/// others. The share has every part of the cluster's ledger, and counts the starts.
#[tactic(auto, using(crate::proofs::Founding::one_founder))]
fn found<L: Ledger>(
    alloc: Global,
    blank: Blank,
    params: Params,
    nodes: u16,
) -> Result<(ClusterBook<L>, Share<L>), AllocError>
    requires name { blank.name ≡ L.name }
    requires parts { blank.parts ≡ L.parts }
    requires room { 33 ≤ blank.parts }
    ensures started { IfOk result (λ made. HasTaken params nodes 0 made.0) }
    ensures share { IfOk result (λ made. (made.1.parts ≡ L.parts) × (made.1.amount ≡ nodes - 1) × (33 ≤ made.1.parts)) }
{
    let founders = [numbered(1)];
    let (mut book, mut share) = ClusterBook::<L>::new(alloc, params, &founders, blank)?;
    start_others(&mut book, &mut share, nodes)?;
    Ok((book, share))
}

/// How many clerks are started, and how many turns each takes at most.
#[derive(Clone, Copy, Debug)]
pub struct Crew {
    /// How many clerks, 32 at most.
    pub workers: usize,
    /// How many turns each takes at most.
    pub turns: usize,
}

/// Lets clerks take turns in a cluster of nodes; the result is what is printed of it. A type stands
/// for what is asked for.
fn drive<L: Ledger + Send + Sync, A: Asked + Send + Sync, R: Threads + Wait + Sync>(
    rt: &R,
    alloc: Global,
    blank: Blank,
    params: Params,
    nodes: u16,
    crew: Crew,
) -> Result<Vec<u8>, AllocError>
    requires name { blank.name ≡ L.name }
    requires parts { blank.parts ≡ L.parts }
    requires room { 33 ≤ blank.parts }
    requires params { params ≡ A.params }
    requires nodes { nodes ≡ A.nodes }
    requires few { crew.workers ≤ most_clerks }
    ensures { IfOk result (λ text. IsReport params nodes (crew.workers * crew.turns) text.items) }
{
    let Crew { workers, turns } = crew;
    let (book, mut share) = found::<L>(alloc, blank, params, nodes)?;
    let driven = Mutex::new(Driven::<L, A>::new(book));
    let _counts = run_clerks(rt, alloc, &driven, &Open, &mut share, workers, turns)?;
    let mut book = driven.into_inner().into_book();
    let _stored = book.stored(&mut share);
    report(alloc, book.world(), nodes)
}

/// Starts a cluster of `nodes` nodes, of which process 1 is the founder and the others ask it to
/// let them in. Each of `crew.workers` clerks takes at most `crew.turns` turns in it, in a thread of
/// its own. Then writes how many events are stored, the view of each member, and whether two nodes
/// hold different identifiers at one height. The stored events are the starts, and then the turns
/// that were taken. The world is their run, so if no two different configurations share an
/// identifier, all that holds of runs holds of it. The caller ensures that there are at most 32
/// clerks.
///
/// # Errors
///
/// `Write` if the output could not be written; a beginning of the report was. `OutOfMemory` if
/// there was no memory to start, or for the report; nothing was written.
pub fn run_cluster<R: Threads + Wait + Sync, W: Write>(
    rt: &R,
    alloc: Global,
    writer: &mut W,
    params: Params,
    nodes: u16,
    crew: Crew,
) -> Result<(), RunFault>
    requires { crew.workers ≤ most_clerks }
    ensures written { OnOk result ((text : List ℕ) × IsReport params nodes (crew.workers * crew.turns) text × Appends (W.contents writer.old) (W.contents writer.new) text) }
    ensures ended { IfErr result (Ended params nodes (crew.workers * crew.turns) (W.contents writer.old) (W.contents writer.new)) }
{
    let blank = Blank::new(PARTS);
    match drive::<Brand, Brand, R>(rt, alloc, blank, params, nodes, crew) {
        Ok(text) => write_text(writer, text.as_slice()),
        Err(AllocError) => Err(RunFault::OutOfMemory),
    }
}
