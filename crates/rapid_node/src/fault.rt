// What stops a node.

ghost use Rattle.std.specs.Prelude.{◌≡◌};
ghost use Rattle.rapid_node.specs.Steps.{fault_code};
ghost use Rattle.rapid_node.specs.declared.fault.NodeFault.TheVariants.{OutOfMemory as WantOfMemory};

use std::alloc::AllocError;
use thiserror::Error;

/// What stops a node.
#[derive(Clone, Copy, Debug, PartialEq, Eq, Error)]
pub enum NodeFault {
    /// It had halted before.
    #[error("the node has halted")]
    Halted,
    /// There was no memory; the node halts.
    #[error("out of memory")]
    OutOfMemory,
    /// It was to install a view, but 65,536 are installed or the height is the last; the node
    /// halts.
    #[error("there is no room for a further view")]
    HistoryFull,
}

impl NodeFault {
    /// The number of the fault.
    pub fn code(&self) -> u8
        ensures { result ≡ fault_code self.now }
    {
        match self {
            NodeFault::Halted => 1,
            NodeFault::OutOfMemory => 2,
            NodeFault::HistoryFull => 3,
        }
    }
}

impl From<AllocError> for NodeFault {
    ghost from_gives = { λ _ e. e ≡ WantOfMemory };

    fn from(_error: AllocError) -> NodeFault {
        NodeFault::OutOfMemory
    }
}
