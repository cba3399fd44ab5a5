// The fault by which a node ends.

ghost use Rattle.std.specs.Prelude.{◌≡◌};
ghost use Rattle.rapid_signals.specs.declared.fault.RunningFault.TheVariants.{OutOfMemory};
ghost use Rattle.rapid_signals.specs.Statuses.{status_of};

use std::alloc::{AllocError, AllocFailed};
use thiserror::Error;

/// The fault by which a node ends.
#[derive(Clone, Copy, Debug, PartialEq, Eq, Error)]
pub enum RunningFault {
    /// The lines could not be read.
    #[error("the input could not be read")]
    Read,
    /// What is printed could not be written.
    #[error("the output could not be written")]
    Write,
    /// The port could not be bound.
    #[error("the port cannot be bound")]
    NoPort,
    /// No identifier could be drawn.
    #[error("no identifier could be drawn")]
    NoIdentifier,
    /// There is no memory left, or a thread could not be started.
    #[error("out of memory")]
    OutOfMemory,
    /// The journal of the desk is full.
    #[error("the journal of the node is full")]
    JournalFull,
    /// The node has halted.
    #[error("the node has halted")]
    Halted,
}

impl RunningFault {
    /// The status that the program ends with: 1 for `Read`, `Write` and `NoPort`, else 3.
    pub fn status(&self) -> u8
        ensures { result ≡ status_of self.now }
    {
        match self {
            RunningFault::Read | RunningFault::Write | RunningFault::NoPort => 1,
            RunningFault::NoIdentifier
            | RunningFault::OutOfMemory
            | RunningFault::JournalFull
            | RunningFault::Halted => 3,
        }
    }
}

impl From<AllocError> for RunningFault {
    ghost from_gives = { λ _ e. e ≡ OutOfMemory };

    fn from(_error: AllocError) -> RunningFault {
        RunningFault::OutOfMemory
    }
}

impl<T: Drop> From<AllocFailed<T>> for RunningFault {
    ghost from_gives = { λ _ e. e ≡ OutOfMemory };

    fn from(_error: AllocFailed<T>) -> RunningFault {
        RunningFault::OutOfMemory
    }
}
