// Why alerts are no batch, why an alert is not raised, and why one is not added that is spelt.

ghost use Rattle.std.specs.Prelude.{◌≡◌};
ghost use Rattle.rapid_alerts.specs.Refusals.{batch_code, raise_code};
ghost use Rattle.rapid_alerts.specs.declared.errors.BatchError.TheVariants.{OutOfMemory as BatchMemory};
ghost use Rattle.rapid_alerts.specs.declared.errors.RaiseError.TheVariants.{OutOfMemory as RaiseMemory};

use rapid_endpoint::ReadError;
use std::alloc::{AllocError, AllocFailed};
use thiserror::Error;

/// Why alerts are no batch.
#[derive(Clone, Copy, Debug, PartialEq, Eq, Error)]
pub enum BatchError {
    /// There is no alert.
    #[error("a batch has an alert")]
    EmptyBatch,
    /// There are more than 2,048 alerts.
    #[error("a batch has at most 2,048 alerts")]
    TooManyAlerts,
    /// The alerts are of several observers or of several configurations.
    #[error("the alerts of a batch are of one observer and one configuration")]
    MixedAlerts,
    /// There was no memory.
    #[error("out of memory")]
    OutOfMemory,
}

impl BatchError {
    /// The number of the error.
    pub fn code(&self) -> u8
        ensures { result ≡ batch_code self.now }
    {
        match self {
            BatchError::EmptyBatch => 1,
            BatchError::TooManyAlerts => 2,
            BatchError::MixedAlerts => 3,
            BatchError::OutOfMemory => 99,
        }
    }
}

impl From<AllocError> for BatchError {
    ghost from_gives = { λ _ e. e ≡ BatchMemory };

    fn from(_error: AllocError) -> BatchError {
        BatchError::OutOfMemory
    }
}

/// Why an alert is not raised.
#[derive(Clone, Copy, Debug, PartialEq, Eq, Error)]
pub enum RaiseError {
    /// The outbox's owner is not the alert's observer, or not the ring's observer of the subject.
    #[error("the owner is not the observer of this subject on this ring")]
    WrongObserver,
    /// A member is to be let in, or a joiner removed.
    #[error("a member can only be removed, a joiner only let in")]
    WrongKind,
    /// The alert is of another configuration.
    #[error("the alert is of another configuration")]
    OldConfiguration,
    /// Alerts on 512 other joiners were raised.
    #[error("alerts on 512 other joiners were raised")]
    TooManyJoiners,
    /// There was no memory.
    #[error("out of memory")]
    OutOfMemory,
}

impl RaiseError {
    /// The number of the error.
    pub fn code(&self) -> u8
        ensures { result ≡ raise_code self.now }
    {
        match self {
            RaiseError::WrongObserver => 1,
            RaiseError::WrongKind => 2,
            RaiseError::OldConfiguration => 3,
            RaiseError::TooManyJoiners => 4,
            RaiseError::OutOfMemory => 99,
        }
    }
}

impl From<AllocError> for RaiseError {
    ghost from_gives = { λ _ e. e ≡ RaiseMemory };

    fn from(_error: AllocError) -> RaiseError {
        RaiseError::OutOfMemory
    }
}

/// Why an alert is not added on the process in front of some bytes.
#[derive(Clone, Copy, Debug, PartialEq, Eq, Error)]
pub enum SpeltError {
    /// No process is there. What is met first says why.
    #[error("no process stands in front of the bytes: {0}")]
    NoProcess(ReadError),
    /// There was no memory, or no place for a subject more.
    #[error("out of memory")]
    OutOfMemory,
}
