//! Who follows the views of a member: it is woken at a new view, and told who joined and who left.
#![tactic(auto)]

ghost use Rattle.rapid_subscriber.specs.Laws.{ChangesAreDifferences};

mod changes;
mod subscriber;

pub use changes::Changes;
pub use subscriber::{Next, Subscriber};

/// `Changes::between` lists the two differences of sets. A process is in such a list exactly if it
/// is a member of the one view and not of the other.
pub fn changes_are_differences()
    ensures { ChangesAreDifferences }
{}
