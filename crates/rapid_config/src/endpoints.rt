// The endpoints of some processes.

ghost use Rattle.std.specs.Prelude.{◌≡◌, IfOk};
ghost use Rattle.rapid_model.specs.Configuration.{endpoints_differ};
ghost use Rattle.rapid_config.specs.Endpoints.{AreEndpointsOf};

use crate::endpoint_key::EndpointKey;
use crate::references::References;
use crate::seen::Seen;
use rapid_endpoint::Process;
use std::alloc::{AllocError, Global};
use std::collections::HashSet;

/// Whether no two processes have one endpoint.
pub(crate) fn endpoints_differ(alloc: Global, processes: &[Process]) -> Result<bool, AllocError>
    ensures { IfOk result (λ differ. differ ≡ endpoints_differ processes.now) }
{
    let mut seen = Seen::with_capacity(alloc, processes.len())?;
    for process in processes {
        if !seen.insert(process.endpoint())? {
            return Ok(false);
        }
    }
    Ok(true)
}

/// The endpoints of the processes, as a set.
pub(crate) fn endpoints_of(
    alloc: Global,
    processes: &References<'_>,
) -> Result<HashSet<EndpointKey>, AllocError>
    ensures { IfOk result (λ set. AreEndpointsOf processes.now set.keys) }
{
    let mut endpoints = HashSet::with_capacity(alloc, processes.len())?;
    for place in 0..processes.len() {
        endpoints.insert(EndpointKey::new(processes.at(place).endpoint()))?;
    }
    Ok(endpoints)
}
