// Why a world refuses an event.

ghost use Rattle.std.specs.Prelude.{◌≡◌};
ghost use Rattle.rapid_world.specs.Events.{code_of};
ghost use Rattle.rapid_world.specs.declared.error.WorldError.TheVariants.{OutOfMemory as WantOfMemory};

use std::alloc::AllocError;
use thiserror::Error;

/// Why a world refuses an event.
#[derive(Clone, Copy, Debug, PartialEq, Eq, Error)]
pub enum WorldError {
    /// A process starts under an identifier that was used before.
    #[error("the identifier was used before")]
    IdentifierUsed,
    /// A process starts at an endpoint at which a node runs.
    #[error("a node runs at the endpoint")]
    EndpointBusy,
    /// No node runs under the identifier, or at the packet's endpoint.
    #[error("no such node runs")]
    NoSuchNode,
    /// No packet with this number was sent.
    #[error("no such packet was sent")]
    NoSuchPacket,
    /// The node observes no member on the ring.
    #[error("the node observes nobody on the ring")]
    NotObserved,
    /// 1,000,000 events were accepted.
    #[error("there is no room for a further event")]
    EventsFull,
    /// The world itself has no memory for the event.
    #[error("out of memory")]
    OutOfMemory,
}

impl WorldError {
    /// The number of the error.
    pub fn code(&self) -> u8
        ensures { result ≡ code_of self.now }
    {
        match self {
            WorldError::IdentifierUsed => 1,
            WorldError::EndpointBusy => 2,
            WorldError::NoSuchNode => 3,
            WorldError::NoSuchPacket => 4,
            WorldError::NotObserved => 5,
            WorldError::EventsFull => 6,
            WorldError::OutOfMemory => 7,
        }
    }
}

impl From<AllocError> for WorldError {
    ghost from_gives = { λ _ e. e ≡ WantOfMemory };

    fn from(_error: AllocError) -> WorldError {
        WorldError::OutOfMemory
    }
}
