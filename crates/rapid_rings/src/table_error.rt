// Why an edge is not added.

ghost use Rattle.std.specs.Prelude.{◌≡◌};
ghost use Rattle.rapid_rings.specs.declared.table_error.TableError.TheVariants.{OutOfMemory};

use std::alloc::{AllocError, AllocFailed};
use thiserror::Error;

/// Why an edge is not added to a table.
#[derive(Clone, Copy, Debug, PartialEq, Eq, Error)]
pub enum TableError {
    /// The subject has an observer on this ring.
    #[error("the subject has an observer on this ring")]
    EdgeTwice,
    /// There is no such ring.
    #[error("there is no such ring")]
    RingRange,
    /// 1,024 other members are observed.
    #[error("1,024 other members are observed")]
    TooMany,
    /// There was no memory.
    #[error("out of memory")]
    OutOfMemory,
}

impl TableError {
    ghost use Rattle.rapid_rings.specs.Faults.{code_of};

    /// The number of the error.
    pub fn code(&self) -> u8
        ensures { result ≡ code_of self.now }
    {
        match self {
            TableError::EdgeTwice => 1,
            TableError::RingRange => 2,
            TableError::TooMany => 3,
            TableError::OutOfMemory => 99,
        }
    }
}

impl From<AllocError> for TableError {
    ghost from_gives = { λ _ e. e ≡ OutOfMemory };

    fn from(_error: AllocError) -> TableError {
        TableError::OutOfMemory
    }
}

impl<T: Drop> From<AllocFailed<T>> for TableError {
    ghost from_gives = { λ _ e. e ≡ OutOfMemory };

    fn from(_error: AllocFailed<T>) -> TableError {
        TableError::OutOfMemory
    }
}
