// Worlds to begin with.

use crate::numbered::process;
use rapid_config::{Configuration, Params};
use rapid_endpoint::Process;
use rapid_world::World;
use std::alloc::Global;
use std::test::Fail;

/// A world of these founders, with 3 rings and the marks 3 and 1.
pub fn founded(alloc: Global, founders: &[Process]) -> Result<World, Fail> {
    let params = Params::new(3, 3, 1)?;
    // a world requires of its founders that there is such a configuration
    let _configuration = Configuration::seed(alloc, params, founders)?;
    Ok(World::new(alloc, params, founders)?)
}

/// A world of the process 1 alone.
pub fn alone(alloc: Global) -> Result<World, Fail> {
    founded(alloc, &[process(1)])
}
