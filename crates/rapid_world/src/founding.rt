// The founding of a world.

ghost use Rattle.std.specs.Prelude.{◌≡◌, ◌≤◌, ◌<◌, length, map, true, IfOk, None};
ghost use Rattle.rapid_model.specs.Configuration.{founding, is_member};
ghost use Rattle.rapid_model.specs.Node.{seed_node};
ghost use Rattle.rapid_model.specs.Reading.{members_fault};
ghost use Rattle.rapid_model.specs.StoredWorld.{new_world};
ghost use Rattle.rapid_model.specs.WorldStep.{added};

use crate::World;
use crate::peers::Nodes;
use rapid_config::{ConfigError, Configuration, Params};
use rapid_endpoint::Process;
use std::alloc::{AllocError, Global};

/// The founding configuration of these founders.
fn seed(alloc: Global, params: Params, founders: &[Process]) -> Result<Configuration, AllocError>
    requires some { 1 ≤ length founders.now }
    requires members { members_fault founders.now ≡ None }
    ensures { IfOk result (λ c. c ≡ founding params founders.now) }
{
    match Configuration::seed(alloc, params, founders) {
        Ok(configuration) => Ok(configuration),
        Err(ConfigError::OutOfMemory) => Err(AllocError),
        Err(_) => unreachable!(),
    }
}

/// All members, by identifier.
fn founders_of(
    alloc: Global,
    configuration: &Configuration,
    members: &[Process],
) -> Result<Nodes, AllocError>
    requires { members.now ≡ configuration.now.members }
    ensures { IfOk result (λ peers. peers ≡ map (λ p. added (seed_node configuration.now p)) members.now) }
{
    configuration.tell();
    let mut peers = Nodes::new(alloc);
    for process in members {
        peers.found(configuration, *process)?;
    }
    Ok(peers)
}

impl World {
    #[tactic(auto, using(crate::proofs::Founders::founded_run))]
    /// A world of these founders, in the configuration of height 0 with these parameters. The
    /// caller ensures that they can be founders: at least one, at most 1,024, with ascending
    /// identifiers and no endpoint twice.
    pub fn new(alloc: Global, params: Params, founders: &[Process]) -> Result<World, AllocError>
        requires some { 1 ≤ length founders.now }
        requires members { members_fault founders.now ≡ None }
        ensures { IfOk result (λ world. world ≡ new_world (founding params founders.now)) }
    {
        let configuration = seed(alloc, params, founders)?;
        configuration.tell();
        let peers = founders_of(alloc, &configuration, configuration.members())?;
        Ok(World::of(alloc, configuration, peers))
    }
}
