// A fast round alone.

ghost use Rattle.std.specs.Prelude.{◌≤◌};

use anyhow::Result;
use rapid_config::Cut;
use rapid_fast::FastRound;
use std::alloc::Global;

/// The cut that these votes decide among this many members, each vote a member's position and a
/// cut.
pub fn decided(alloc: Global, members: usize, votes: &[(usize, Cut)]) -> Result<Option<Cut>>
    requires { members ≤ 1024 }
{
    let mut round = FastRound::new(alloc, members, 0);
    for (position, cut) in votes {
        if let Some(decided) = round.hear(*position, cut)? {
            return Ok(Some(decided));
        }
    }
    Ok(None)
}
