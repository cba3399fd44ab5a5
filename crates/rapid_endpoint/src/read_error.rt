// Why bytes are refused.

ghost use Rattle.std.specs.Prelude.{◌≡◌};
ghost use Rattle.rapid_endpoint.specs.ReadErrors.{code_of};

use thiserror::Error;

/// Why bytes do not begin with tags, with a process or with a number of processes: what is met
/// first, from the left.
#[derive(Clone, Copy, Debug, PartialEq, Eq, Error)]
pub enum ReadError {
    /// The bytes end before what is read does.
    #[error("the bytes end too early")]
    Truncated,
    /// There are more than 8 tags, or a tag has a length of 0 or above 64, a byte that no tag may
    /// have, or is not above the one before it.
    #[error("the bytes have wrong tags")]
    BadTags,
}

impl ReadError {
    /// The number of the error: 1 `Truncated`, 2 `BadTags`.
    pub fn code(&self) -> u8
        ensures { result ≡ code_of self.now }
    {
        match self {
            ReadError::Truncated => 1,
            ReadError::BadTags => 2,
        }
    }
}
