// Why a message is refused.

ghost use Rattle.std.specs.Prelude.{◌≡◌};
ghost use Rattle.rapid_message.specs.Bodies.{message_code};

use thiserror::Error;

/// Why a process cannot say something.
#[derive(Clone, Copy, Debug, PartialEq, Eq, Error)]
pub enum MessageError {
    /// A batch has alerts of another observer than its sender.
    #[error("a batch has alerts of its sender alone")]
    OtherObserver,
    /// A batch has alerts for another configuration than the one that it names.
    #[error("a batch has alerts for the configuration that it names alone")]
    OtherConfiguration,
    /// A Prepare, a Promise, an Accept or an Accepted is at the fast ballot.
    #[error("what is asked, promised or accepted is at a classic ballot")]
    FastBallot,
    /// A reply Safe names no observer.
    #[error("a reply Safe names an observer")]
    NoObserver,
}

impl MessageError {
    /// The number of the error.
    pub fn code(&self) -> u8
        ensures { result ≡ message_code self.now }
    {
        match self {
            MessageError::OtherObserver => 1,
            MessageError::OtherConfiguration => 2,
            MessageError::FastBallot => 3,
            MessageError::NoObserver => 4,
        }
    }
}
