// Why a frame was not sent, or no message was received.

ghost use Rattle.std.specs.Prelude.{◌≡◌};
ghost use Rattle.rapid_transport.specs.declared.error.TransportError.TheVariants.{Io, OutOfMemory};
ghost use Rattle.rapid_transport.specs.Errors.{of_fault};

use crate::counted::Failed;
use rapid_wire::WireFault;
use std::alloc::AllocError;
use thiserror::Error;

/// Why a frame was not sent, or no message was received.
#[derive(Clone, Copy, Debug, PartialEq, Eq, Error)]
pub enum TransportError {
    /// The input ended within a frame, or a write took no byte.
    #[error("the peer has closed the connection")]
    PeerClosed,
    /// The device failed.
    #[error("the connection failed")]
    Io,
    /// The bytes are no frames.
    #[error("{0}")]
    Wire(WireFault),
    /// There was no room in the queue: the frame was dropped, and counted as a loss.
    #[error("the queue is full")]
    QueueFull,
    /// There was no memory.
    #[error("out of memory")]
    OutOfMemory,
}

impl TransportError {
    ghost use Rattle.rapid_transport.specs.Errors.{code_of};

    /// The number of the error.
    pub fn code(&self) -> u8
        ensures { result ≡ code_of self.now }
    {
        match self {
            TransportError::PeerClosed => 1,
            TransportError::Io => 2,
            TransportError::Wire(_) => 3,
            TransportError::QueueFull => 4,
            TransportError::OutOfMemory => 99,
        }
    }
}

/// Why there are no peers.
#[derive(Clone, Copy, Debug, PartialEq, Eq, Error)]
pub enum ListenError {
    /// The port could not be bound.
    #[error("the port cannot be bound")]
    NoPort,
    /// There was no memory, or no thread.
    #[error("out of memory")]
    OutOfMemory,
}

impl From<AllocError> for ListenError {
    fn from(_error: AllocError) -> ListenError {
        ListenError::OutOfMemory
    }
}

impl From<AllocError> for TransportError {
    ghost from_gives = { λ _ e. e ≡ OutOfMemory };

    fn from(_error: AllocError) -> TransportError {
        TransportError::OutOfMemory
    }
}

impl From<Failed> for TransportError {
    ghost from_gives = { λ _ e. e ≡ Io };

    fn from(_failed: Failed) -> TransportError {
        TransportError::Io
    }
}

impl From<WireFault> for TransportError {
    ghost from_gives = { λ f e. e ≡ of_fault f };

    fn from(fault: WireFault) -> TransportError {
        match fault {
            WireFault::OutOfMemory => TransportError::OutOfMemory,
            _ => TransportError::Wire(fault),
        }
    }
}
