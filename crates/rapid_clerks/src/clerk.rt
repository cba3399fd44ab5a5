// A clerk.

ghost use Rattle.std.specs.Prelude.{◌≡◌, ◌≢◌, ◌⊎◌, ℕ, ◌+◌, ◌<◌, ◌≤◌, All, length, take};
ghost use Rattle.rapid_world.specs.declared.error.WorldError.TheVariants.{EventsFull, OutOfMemory};
ghost use Rattle.rapid_clerks.specs.Jobs.{HandedIn, IsPast};
ghost use Rattle.rapid_clerks.specs.declared.verdict.Ended.TheVariants as ended;

use crate::verdict::{Verdict, judge};
use crate::{DoJob, Ended, Gate};
use std::sync::ledger::{Ledger, Share};
use std::sync::{Mutex, Wait};

/// A clerk: it does jobs, with a share of the ledger that counts them. It also keeps what became of
/// the jobs that it was given last.
#[derive(Drop)]
pub struct Clerk<L: Ledger> {
    /// The number by which the gate knows it.
    pub worker: usize,
    /// Its share: each event that it stores raises the amount by one.
    pub share: Share<L>,
    /// How many jobs were refused and skipped.
    pub passed: u64,
    /// Why it ended.
    pub ended: Ended,
}

impl<L: Ledger> Clerk<L> {
    /// A clerk with this number and this share, that was given no job yet.
    pub fn new(worker: usize, share: Share<L>) -> Clerk<L>
        ensures made { (result.worker ≡ worker) × (result.share ≡ share) }
        ensures fresh { (result.passed ≡ 0) × (result.ended ≡ ended.Through) }
    {
        Clerk {
            worker,
            share,
            passed: 0,
            ended: Ended::Through,
        }
    }

    /// Does these jobs in order, each under the lock, and says how many were done. Each job is
    /// handed in with the share as the job before it has left it. A refused job is not counted. The
    /// clerk stops if no further event is accepted, or if out of memory. Before each job and after it
    /// the clerk calls the gate, while it holds no lock. It stops if the gate does not let it in.
    /// Afterwards `passed` and `ended` say what became of the jobs that were not done.
    pub fn run<J, B: DoJob<L, J>, G: Gate, R: Wait>(
        &mut self,
        rt: &R,
        book: &Mutex<B>,
        gate: &G,
        jobs: &[J],
    ) -> u64
        requires { 0 < self.old.share.parts }
        ensures done { self.new.share.amount ≡ self.old.share.amount + result }
        ensures most { result + self.new.passed ≤ length jobs.now }
        ensures through { self.new.ended ≡ ended.Through → result + self.new.passed ≡ length jobs.now }
        ensures early { self.new.ended ≢ ended.Through → result + self.new.passed < length jobs.now }
        ensures order { HandedIn B.handed self.old.share.amount (take (result + self.new.passed) jobs.now) self.new.share.amount }
        ensures each { All (IsPast B.answered) (take (result + self.new.passed) jobs.now) }
        ensures asked { (turn : ℕ) → 0 < turn → turn ≤ result + self.new.passed → G.has_let_in self.old.worker turn × G.was_told self.old.worker turn }
        ensures ends { (self.new.ended ≡ ended.Full) ⊎ (self.new.ended ≡ ended.OutOfMemory) → G.has_let_in self.old.worker (result + self.new.passed + 1) × G.was_told self.old.worker (result + self.new.passed + 1) }
        ensures shut { self.new.ended ≡ ended.Shut → G.has_shut }
        ensures full { self.new.ended ≡ ended.Full → B.refused_by EventsFull }
        ensures memory { self.new.ended ≡ ended.OutOfMemory → B.refused_by OutOfMemory }
        ensures parts { self.new.share.parts ≡ self.old.share.parts }
        ensures worker { self.new.worker ≡ self.old.worker }
    {
        let mut done = 0;
        let mut turn = 0;
        self.passed = 0;
        self.ended = Ended::Through;
        for job in jobs {
            turn += 1;
            if !gate.enter(self.worker, turn) {
                self.ended = Ended::Shut;
                return done;
            }
            let answer = book.lock(rt).do_job(&mut self.share, job);
            gate.left(self.worker, turn);
            match judge(answer) {
                Verdict::Done => done += 1,
                Verdict::Passed => self.passed += 1,
                Verdict::Ends(ended) => {
                    self.ended = ended;
                    return done;
                }
            }
        }
        done
    }
}
