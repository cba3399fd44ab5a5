// What becomes of a clerk once a job was answered.

ghost use Rattle.std.specs.Prelude.{◌≡◌, IfErr, OnOk};
ghost use Rattle.rapid_clerks.specs.Verdicts.{verdict_on};
ghost use Rattle.rapid_clerks.specs.declared.verdict.Verdict.TheVariants as verdict;

use rapid_world::WorldError;

/// Why a clerk ended.
#[derive(Clone, Copy, Debug, PartialEq, Eq)]
pub enum Ended {
    /// It came to the end of its jobs.
    Through,
    /// The gate did not let it in.
    Shut,
    /// No further event is accepted.
    Full,
    /// There was no memory.
    OutOfMemory,
}

/// What becomes of a clerk once a job was answered.
#[derive(Clone, Copy, Debug)]
pub(crate) enum Verdict {
    /// The job was done.
    Done,
    /// The job was refused, and the clerk goes on to the next one.
    Passed,
    /// The job was refused, and the clerk ends: no later job can be done.
    Ends(Ended),
}

/// What becomes of a clerk after this answer. It ends if no further event is accepted, or if out of
/// memory. It goes on after any other refusal.
pub(crate) fn judge<T: Drop>(answer: Result<T, WorldError>) -> Verdict
    ensures done { OnOk answer (result ≡ verdict.Done) }
    ensures refused { IfErr answer (λ error. result ≡ verdict_on error) }
{
    match answer {
        Ok(_) => Verdict::Done,
        Err(WorldError::EventsFull) => Verdict::Ends(Ended::Full),
        Err(WorldError::OutOfMemory) => Verdict::Ends(Ended::OutOfMemory),
        Err(_) => Verdict::Passed,
    }
}
