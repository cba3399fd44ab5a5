// Books to begin with.

ghost use Rattle.std.specs.Prelude.{◌≡◌, ◌≤◌, IfOk};

use crate::numbered::{endpoint, process};
use rapid_clerks::{ClusterBook, Job};
use rapid_config::{Configuration, Params};
use rapid_world::WorldEvent;
use std::alloc::Global;
use std::sync::ledger::{Blank, Ledger, Share};
use std::test::Fail;

/// Process 2 starts to join by process 1.
pub(crate) fn joins() -> Job {
    Job::Event(WorldEvent::Start(process(2), endpoint(1)))
}

/// The book of a world of process 1 alone, and a share with every part of its ledger. There are 3
/// rings, and the marks are 3 and 1.
pub(crate) fn alone<L: Ledger>(
    alloc: Global,
    blank: Blank,
) -> Result<(ClusterBook<L>, Share<L>), Fail>
    requires name { blank.name ≡ L.name }
    requires parts { blank.parts ≡ L.parts }
    requires room { 33 ≤ blank.parts }
    ensures { IfOk result (λ made. (made.1.parts ≡ L.parts) × (33 ≤ made.1.parts)) }
{
    let params = Params::new(3, 3, 1)?;
    let founders = [process(1)];
    let _configuration = Configuration::seed(alloc, params, &founders)?;
    Ok(ClusterBook::<L>::new(alloc, params, &founders, blank)?)
}
