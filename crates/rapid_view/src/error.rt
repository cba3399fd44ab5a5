// Why a view was not published or not found.

ghost use Rattle.std.specs.Prelude.{◌≡◌};
ghost use Rattle.rapid_view.specs.declared.error.ViewError.TheVariants.{OutOfMemory};

use rapid_config::Stamp;
use std::alloc::{AllocError, AllocFailed};
use thiserror::Error;

/// Why a view was not published or not found, or why there is no cell.
#[derive(Clone, Copy, Debug, Error)]
pub enum ViewError {
    /// The height of the view is not one more than the last.
    #[error("the height of the view is not one more than the last")]
    NotNext,
    /// The list of members is older than this stamp.
    #[error("the list of members is older than the stamp that was seen")]
    Behind(Stamp),
    /// There was no place for a reader of the list of members.
    #[error("there was no place for a reader")]
    NoPlace,
    /// The cell has no room for another view.
    #[error("the cell has no room for another view")]
    CellFull,
    /// There was no memory.
    #[error("out of memory")]
    OutOfMemory,
}

impl ViewError {
    ghost use Rattle.rapid_view.specs.Seen.{code_of};

    /// The number of the error.
    pub fn code(&self) -> u8
        ensures { result ≡ code_of self.now }
    {
        match self {
            ViewError::NotNext => 1,
            ViewError::Behind(_) => 2,
            ViewError::NoPlace => 3,
            ViewError::CellFull => 4,
            ViewError::OutOfMemory => 99,
        }
    }
}

impl From<AllocError> for ViewError {
    ghost from_gives = { λ _ e. e ≡ OutOfMemory };

    fn from(_error: AllocError) -> ViewError {
        ViewError::OutOfMemory
    }
}

impl<T: Drop> From<AllocFailed<T>> for ViewError {
    ghost from_gives = { λ _ e. e ≡ OutOfMemory };

    fn from(_error: AllocFailed<T>) -> ViewError {
        ViewError::OutOfMemory
    }
}
