// What an error of the desk means to a node.

ghost use Rattle.std.specs.Prelude.{◌≡◌};
ghost use Rattle.rapid_service.specs.Faults.{fault_of};

use rapid_desk::DeskError;
use rapid_node::NodeFault;
use rapid_signals::RunningFault;

/// The fault by which a node ends if its desk answers this.
pub fn fault_of(error: DeskError) -> RunningFault
    ensures { result ≡ fault_of error }
{
    match error {
        DeskError::JournalFull => RunningFault::JournalFull,
        DeskError::OutOfMemory | DeskError::Node(NodeFault::OutOfMemory) => {
            RunningFault::OutOfMemory
        }
        DeskError::Node(_)
        | DeskError::Unpublished
        | DeskError::TooManySubscribers
        | DeskError::BadCapacity => RunningFault::Halted,
    }
}
