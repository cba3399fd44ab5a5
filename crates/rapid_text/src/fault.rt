// Why a run over an input ends early.

ghost use Rattle.std.specs.Prelude.{◌≡◌};
ghost use Rattle.rapid_text.specs.declared.fault.RunFault.TheVariants.{OutOfMemory};

use std::alloc::AllocError;
use thiserror::Error;

/// Why a run over an input ends before the input does.
#[derive(Clone, Copy, Debug, Drop, PartialEq, Eq, Error)]
pub enum RunFault {
    /// The input could not be read.
    #[error("the input could not be read")]
    Read,
    /// The output could not be written.
    #[error("the output could not be written")]
    Write,
    /// There is no memory left.
    #[error("out of memory")]
    OutOfMemory,
}

impl From<AllocError> for RunFault {
    ghost from_gives = { λ _ e. e ≡ OutOfMemory };

    fn from(_: AllocError) -> RunFault {
        RunFault::OutOfMemory
    }
}
