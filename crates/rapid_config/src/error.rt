// Why parameters, cuts, members or bytes are refused.

ghost use Rattle.std.specs.Prelude.{◌≡◌};
ghost use Rattle.rapid_config.specs.declared.error.ConfigError.TheVariants.{OutOfMemory};
ghost use Rattle.rapid_config.specs.Faults.{error_of_read};

use rapid_endpoint::ReadError;
use std::alloc::{AllocError, AllocFailed};
use thiserror::Error;

/// Why something is no parameters, no cut or no configuration.
#[derive(Clone, Copy, Debug, PartialEq, Eq, Error)]
pub enum ConfigError {
    /// The parameters are not in the order 1 <= L <= H <= K <= 16.
    #[error("the parameters are not in the order 1 <= L <= H <= K <= 16")]
    BadParams,
    /// The bytes end too early.
    #[error("the bytes end too early")]
    Truncated,
    /// Bytes are left over.
    #[error("bytes are left over")]
    Trailing,
    /// The bytes do not begin with the letters of a configuration.
    #[error("the bytes are not those of a configuration")]
    BadMagic,
    /// The processes do not ascend.
    #[error("the processes do not ascend")]
    NotSorted,
    /// Two members have one endpoint.
    #[error("two members have one endpoint")]
    EndpointTwice,
    /// There are more processes than a cut or a configuration may have.
    #[error("there are too many processes")]
    TooMany,
    /// A cut has at least one process.
    #[error("the cut is empty")]
    EmptyCut,
    /// The height has reached its last value.
    #[error("the height has reached its last value")]
    HeightFull,
    /// A member has wrong tags.
    #[error("a member has wrong tags")]
    BadTags,
    /// There was no memory.
    #[error("out of memory")]
    OutOfMemory,
}

impl ConfigError {
    ghost use Rattle.rapid_config.specs.Faults.{code_of};

    /// The number of the error.
    pub fn code(&self) -> u8
        ensures { result ≡ code_of self.now }
    {
        match self {
            ConfigError::BadParams => 1,
            ConfigError::Truncated => 2,
            ConfigError::Trailing => 3,
            ConfigError::BadMagic => 4,
            ConfigError::NotSorted => 5,
            ConfigError::EndpointTwice => 6,
            ConfigError::TooMany => 7,
            ConfigError::EmptyCut => 8,
            ConfigError::HeightFull => 9,
            ConfigError::BadTags => 10,
            ConfigError::OutOfMemory => 99,
        }
    }
}

impl From<AllocError> for ConfigError {
    ghost from_gives = { λ _ e. e ≡ OutOfMemory };

    fn from(_error: AllocError) -> ConfigError {
        ConfigError::OutOfMemory
    }
}

impl<T: Drop> From<AllocFailed<T>> for ConfigError {
    ghost from_gives = { λ _ e. e ≡ OutOfMemory };

    fn from(_error: AllocFailed<T>) -> ConfigError {
        ConfigError::OutOfMemory
    }
}

impl From<ReadError> for ConfigError {
    ghost from_gives = { λ r e. e ≡ error_of_read r };

    fn from(error: ReadError) -> ConfigError {
        match error {
            ReadError::Truncated => ConfigError::Truncated,
            ReadError::BadTags => ConfigError::BadTags,
        }
    }
}
