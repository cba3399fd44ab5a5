// Why there is no board.

ghost use Rattle.std.specs.Prelude.{◌≡◌};
ghost use Rattle.rapid_monitor.specs.declared.board_error.BoardError.TheVariants.{OutOfMemory};

use std::alloc::{AllocError, AllocFailed};
use thiserror::Error;

/// Why there is no board.
#[derive(Clone, Copy, Debug, PartialEq, Eq, Error)]
pub enum BoardError {
    /// The edges are not 1 to 1,024, or the watchers not 1 to 64.
    #[error("a board has 1 to 1,024 edges and 1 to 64 watchers")]
    BadSize,
    /// There was no memory.
    #[error("out of memory")]
    OutOfMemory,
}

impl BoardError {
    ghost use Rattle.rapid_monitor.specs.Boards.{code_of};

    /// The number of the error.
    pub fn code(&self) -> u8
        ensures { result ≡ code_of self.now }
    {
        match self {
            BoardError::BadSize => 1,
            BoardError::OutOfMemory => 99,
        }
    }
}

impl From<AllocError> for BoardError {
    ghost from_gives = { λ _ e. e ≡ OutOfMemory };

    fn from(_error: AllocError) -> BoardError {
        BoardError::OutOfMemory
    }
}

impl<T: Drop> From<AllocFailed<T>> for BoardError {
    ghost from_gives = { λ _ e. e ≡ OutOfMemory };

    fn from(_error: AllocFailed<T>) -> BoardError {
        BoardError::OutOfMemory
    }
}
