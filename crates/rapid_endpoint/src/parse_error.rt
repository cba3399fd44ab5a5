// Why texts and tags are refused.

ghost use Rattle.std.specs.Prelude.{◌≡◌};
ghost use Rattle.rapid_endpoint.specs.ParseErrors.{code_of};

use thiserror::Error;

/// Why a text is no endpoint or no identifier, or why a list is not that of the tags of a process.
#[derive(Clone, Copy, Debug, PartialEq, Eq, Error)]
pub enum ParseError {
    /// The host has not exactly four parts between dots.
    #[error("the host has not four parts")]
    NotFourParts,
    /// A part is no number from 0 to 255, without leading zeros.
    #[error("a part of the host is no number from 0 to 255")]
    PartRange,
    /// There is no port, or it is no number from 0 to 65,535, without leading zeros.
    #[error("the port is no number from 0 to 65535")]
    BadPort,
    /// The text is no UUID.
    #[error("the identifier is no UUID")]
    BadIdentifier,
    /// A tag has no byte or more than 64, or one that does not print, a space, a comma or a square
    /// bracket.
    #[error("a tag is not 1 to 64 bytes that print, without spaces, commas and square brackets")]
    BadTag,
    /// There are more than 8 tags.
    #[error("there are more than 8 tags")]
    TooManyTags,
    /// The tags do not strictly ascend.
    #[error("the tags do not strictly ascend")]
    TagsNotSorted,
}

impl ParseError {
    /// The number of the error: 1 `NotFourParts`, 2 `PartRange`, 3 `BadPort`, 4 `BadIdentifier`,
    /// 5 `BadTag`, 6 `TooManyTags`, 7 `TagsNotSorted`.
    pub fn code(&self) -> u8
        ensures { result ≡ code_of self.now }
    {
        match self {
            ParseError::NotFourParts => 1,
            ParseError::PartRange => 2,
            ParseError::BadPort => 3,
            ParseError::BadIdentifier => 4,
            ParseError::BadTag => 5,
            ParseError::TooManyTags => 6,
            ParseError::TagsNotSorted => 7,
        }
    }
}
