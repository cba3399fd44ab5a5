// Who joined and who left from one view to another.

ghost use Rattle.std.specs.Prelude.{◌≡◌, [], IfOk};
ghost use Rattle.rapid_subscriber.specs.Changing.{members_outside};

use rapid_config::Configuration;
use rapid_endpoint::ProcessList;
use rapid_view::View;
use std::alloc::{AllocError, Global};

/// Who joined and who left from one view to another, in lists of their own, which share no memory
/// with the views. Each has the bytes of its processes, and its copies share them.
#[derive(Debug, Drop)]
pub struct Changes {
    /// Who is in the later view and not in the earlier one, by identifier.
    pub joined: ProcessList,
    /// Who is in the earlier view and not in the later one, by identifier.
    pub left: ProcessList,
}

/// The members of a configuration that are not members of another, in their order.
fn outside(
    alloc: Global,
    configuration: &Configuration,
    other: &Configuration,
) -> Result<ProcessList, AllocError>
    ensures { IfOk result (λ found. found ≡ members_outside configuration.now other.now) }
{
    // most changes are small, so no room is taken in advance
    let mut bytes = Vec::new(alloc);
    let mut count = 0;
    for member in configuration.members() {
        if !other.is_member(member) {
            member.append_to(&mut bytes)?;
            count += 1;
        }
    }
    ProcessList::of_bytes(alloc, count, bytes.as_slice())
}

impl Changes {
    /// Who joined and who left from one view to another.
    pub fn between(alloc: Global, before: &View, after: &View) -> Result<Changes, AllocError>
        ensures joined { IfOk result (λ changes. changes.joined ≡ members_outside after.now before.now) }
        ensures left { IfOk result (λ changes. changes.left ≡ members_outside before.now after.now) }
    {
        let (before, after) = (before.configuration(), after.configuration());
        Ok(Changes {
            joined: outside(alloc, after, before)?,
            left: outside(alloc, before, after)?,
        })
    }

    /// All members of a view joined if none is known before it.
    pub fn first(alloc: Global, view: &View) -> Result<Changes, AllocError>
        ensures joined { IfOk result (λ changes. changes.joined ≡ view.now.members) }
        ensures left { IfOk result (λ changes. changes.left ≡ []) }
    {
        Ok(Changes {
            joined: ProcessList::from_slice(alloc, view.configuration().members())?,
            left: ProcessList::from_slice(alloc, &[])?,
        })
    }
}
