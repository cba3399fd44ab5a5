// What a host replies.

ghost use Rattle.std.specs.Prelude.{◌≡◌, IfOk};

use crate::RingObservers;
use rapid_config::ConfigId;
use std::alloc::{AllocError, Global};

/// What a host replies to a joiner.
#[derive(Debug, Drop)]
pub enum Reply {
    /// The joiner may ask its observers, by ring, in the configuration with this identifier.
    Safe(ConfigId, RingObservers),
    /// A member has the joiner's identifier or its endpoint.
    EndpointInUse,
    /// The host is in another configuration than the joiner asked in, or the change left the joiner
    /// out.
    ConfigurationChanged,
    /// 512 other joiners are pending at the host.
    TooManyJoiners,
}

impl Reply {
    ghost use Rattle.rapid_join.specs.Answers.{code_of};

    /// The number of the reply.
    pub fn code(&self) -> u8
        ensures { result ≡ code_of self.now }
    {
        match self {
            Reply::Safe(_, _) => 1,
            Reply::EndpointInUse => 2,
            Reply::ConfigurationChanged => 3,
            Reply::TooManyJoiners => 4,
        }
    }

    /// An equal reply, which shares the list of observers.
    pub fn try_copy(&self, alloc: Global) -> Result<Reply, AllocError>
        ensures { IfOk result (λ reply. reply ≡ self.now) }
    {
        match self {
            Reply::Safe(id, observers) => Ok(Reply::Safe(*id, observers.try_copy(alloc)?)),
            Reply::EndpointInUse => Ok(Reply::EndpointInUse),
            Reply::ConfigurationChanged => Ok(Reply::ConfigurationChanged),
            Reply::TooManyJoiners => Ok(Reply::TooManyJoiners),
        }
    }
}
