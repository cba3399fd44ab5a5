// The faults of frames.

ghost use Rattle.std.specs.Prelude.{◌≡◌};
ghost use Rattle.rapid_wire.specs.declared.fault.WireFault.TheVariants.{OutOfMemory};

use std::alloc::{AllocError, AllocFailed};
use thiserror::Error;

/// Why bytes are no frames.
#[derive(Clone, Copy, Debug, PartialEq, Eq, Error)]
pub enum WireFault {
    /// The length of a frame is above 2,097,152.
    #[error("a frame is longer than 2,097,152 bytes")]
    TooLong,
    /// The version of a frame is not the one of this format.
    #[error("a frame is of another version")]
    BadVersion,
    /// There is no such kind of message.
    #[error("a frame is of no known kind")]
    BadKind,
    /// The rest of a frame is not the one spelling of a message.
    #[error("a frame does not spell a message")]
    BadBody,
    /// There was no memory.
    #[error("out of memory")]
    OutOfMemory,
}

impl WireFault {
    ghost use Rattle.rapid_wire.specs.Faults.{code_of};

    /// The number of the fault.
    pub fn code(&self) -> u8
        ensures { result ≡ code_of self.now }
    {
        match self {
            WireFault::TooLong => 1,
            WireFault::BadVersion => 2,
            WireFault::BadKind => 3,
            WireFault::BadBody => 4,
            WireFault::OutOfMemory => 99,
        }
    }
}

impl From<AllocError> for WireFault {
    ghost from_gives = { λ _ e. e ≡ OutOfMemory };

    fn from(_error: AllocError) -> WireFault {
        WireFault::OutOfMemory
    }
}

impl<T: Drop> From<AllocFailed<T>> for WireFault {
    ghost from_gives = { λ _ e. e ≡ OutOfMemory };

    fn from(_error: AllocFailed<T>) -> WireFault {
        WireFault::OutOfMemory
    }
}
