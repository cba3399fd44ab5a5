// Why a desk refused.

ghost use Rattle.std.specs.Prelude.{◌≡◌};
ghost use Rattle.rapid_desk.specs.declared.error.DeskError.TheVariants.{OutOfMemory};

use rapid_node::NodeFault;
use std::alloc::AllocError;
use thiserror::Error;

/// Why a desk refused an event or a subscription.
#[derive(Clone, Copy, Debug, Error)]
pub enum DeskError {
    /// The journal has 65,536 records and the event needs another, or was refused so before.
    #[error("the journal is full")]
    JournalFull,
    /// There was no memory for what the desk keeps.
    #[error("out of memory")]
    OutOfMemory,
    /// The node has halted, or did so in this step.
    #[error("{0}")]
    Node(NodeFault),
    /// The desk has 64 subscribers.
    #[error("the desk has no room for another subscriber")]
    TooManySubscribers,
    /// The capacity is not 1 to 1,024.
    #[error("the capacity of a subscription is 1 to 1,024")]
    BadCapacity,
    /// A new view could not be published; the node has halted.
    #[error("the new view could not be published")]
    Unpublished,
}

impl DeskError {
    ghost use Rattle.rapid_desk.specs.Desks.{code_of};

    /// The number of the error.
    pub fn code(&self) -> u8
        ensures { result ≡ code_of self.now }
    {
        match self {
            DeskError::JournalFull => 1,
            DeskError::OutOfMemory => 2,
            DeskError::Node(_) => 3,
            DeskError::TooManySubscribers => 4,
            DeskError::BadCapacity => 5,
            DeskError::Unpublished => 6,
        }
    }
}

impl From<AllocError> for DeskError {
    ghost from_gives = { λ _ e. e ≡ OutOfMemory };

    fn from(_error: AllocError) -> DeskError {
        DeskError::OutOfMemory
    }
}
