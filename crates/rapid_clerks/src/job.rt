// What clerks are given to do.

ghost use Rattle.std.specs.Prelude.{◌≡◌, ℕ, ◌+◌, ◌<◌, None, Some, OnOk, OnErr, IfErr, MatchResult};

use rapid_world::{Report, WorldError, WorldEvent};
use std::sync::ledger::{Ledger, Share};

/// What a clerk is given to do.
#[derive(Clone, Copy, Debug)]
pub enum Job {
    /// This event of the world.
    Event(WorldEvent),
    /// A turn. It delivers the least packet above all that earlier turns have delivered or skipped,
    /// at whose endpoint a node runs. Those below it are skipped for good. If there is none, it is
    /// a tick of the next running node, by identifier, going round from the least.
    Turn,
}

/// A job that is a turn. By its type, who is given such jobs takes turns and does nothing else.
#[derive(Clone, Copy, Debug)]
pub struct TurnJob;

/// What clerks work on: it does jobs of this type, and counts them in a ledger.
pub trait DoJob<L: Ledger, J> {
    ghost use Rattle.std.specs.Prelude.{ℕ, Option};
    ghost use Rattle.rapid_world.specs.declared.error.WorldError.{WorldError};

    // With a share of the first amount this job was handed in; its answer left the second.
    ghost handed: { ℕ → J → ℕ → Type 0 } = { λ _ _ _. Unit {0} };

    // This job was handed in and answered: it was done, or refused by this error.
    ghost answered: { J → Option WorldError → Type 0 } = { λ _ _. Unit {0} };

    // A job was refused by this error.
    ghost refused_by: { WorldError → Type 0 } = { λ _. Unit {0} };

    /// Does a job. If it was done the share is raised by one, else it is as it was.
    ///
    /// # Errors
    ///
    /// Why the job was refused.
    fn do_job(&mut self, share: &mut Share<L>, job: &J) -> Result<Vec<Report>, WorldError>
        requires { 0 < share.old.parts }
        ensures raised { OnOk result (share.new.amount ≡ share.old.amount + 1) }
        ensures kept { OnErr result (share.new.amount ≡ share.old.amount) }
        ensures parts { share.new.parts ≡ share.old.parts }
        ensures handed { handed share.old.amount job.now share.new.amount }
        ensures answered { MatchResult result (λ _. answered job.now None) (λ e. answered job.now (Some e)) }
        ensures told { IfErr result refused_by };
}
