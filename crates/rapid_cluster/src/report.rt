// What is printed of a world.

ghost use Rattle.std.specs.Prelude.{◌≡◌, ◌++◌, ◌∷◌, [], List, codes, decimal, IfOk, OnOk};
ghost use Rattle.std.specs.Option.{option_map};
ghost use Rattle.rapid_model.specs.Configuration.{Stamp as ModelStamp};
ghost use Rattle.rapid_model.specs.Lines.{line_feed};
ghost use Rattle.rapid_model.specs.Numbered.{numbered_identifier};
ghost use Rattle.rapid_model.specs.Process.{identifier};
ghost use Rattle.rapid_model.specs.SimText.{node_text, numbers_text};
ghost use Rattle.rapid_model.specs.StoredWorld.{world_of, accepted};
ghost use Rattle.rapid_cluster.specs.ClusterText as model;
ghost use Rattle.rapid_cluster.specs.Noting.{Notes};

use crate::agreement::Agreement;
use rapid_config::Configuration;
use rapid_endpoint::ProcessId;
use rapid_node::{Node, Phase};
use rapid_text::{write_members, write_node, write_number};
use rapid_world::World;
use std::alloc::{AllocError, Global};

/// Appends the line of a member with this view.
fn write_view(
    id: &ProcessId,
    configuration: &Configuration,
    output: &mut Vec<u8>,
) -> Result<(), AllocError>
    ensures { OnOk result (output.new.items ≡ output.old.items
        ++ (node_text id.now ++ codes " height " ++ decimal configuration.now.height ++ codes " members" ++ numbers_text configuration.now.members ++ line_feed ∷ [])) }
{
    write_node(id, output)?;
    output.extend_from_slice(b" height ")?;
    write_number(configuration.height(), output)?;
    output.extend_from_slice(b" members")?;
    write_members(configuration.members(), output)?;
    output.push(b'\n')?;
    Ok(())
}

/// Appends the line of a node that has no view.
fn write_joining(id: &ProcessId, output: &mut Vec<u8>) -> Result<(), AllocError>
    ensures { OnOk result (output.new.items ≡ output.old.items ++ (node_text id.now ++ codes " joining" ++ line_feed ∷ [])) }
{
    write_node(id, output)?;
    output.extend_from_slice(b" joining\n")
}

/// Appends the line of a node, if it has one.
#[tactic(auto, using(crate::proofs::Views::member_line, crate::proofs::Views::member_shows, crate::proofs::Views::joining_line, crate::proofs::Views::removed_line, crate::proofs::Views::halted_line))]
fn write_line(node: &Node, output: &mut Vec<u8>) -> Result<(), AllocError>
    ensures { OnOk result (output.new.items ≡ output.old.items ++ model.phase_line (identifier node.now.me) node.now.phase) }
{
    let id = node.process().id();
    match node.phase() {
        Phase::Joining => write_joining(&id, output),
        Phase::Member => match node.configuration() {
            Some(configuration) => write_view(&id, configuration, output),
            None => Ok(()),
        },
        Phase::Removed | Phase::Halted => Ok(()),
    }
}

/// The identifier of a number.
fn id_numbered(number: u16) -> ProcessId
    ensures { result ≡ numbered_identifier number }
{
    ProcessId::new(u128::from(number).to_be_bytes())
}

/// The node of a number, if there is one.
fn node_numbered(world: &World, number: u16) -> Option<&Node>
    ensures { option_map (λ node. node.now) result ≡ model.node_numbered (world_of world.now) number }
{
    world.node(&id_numbered(number))
}

/// Appends the line of the node of a number, if it has one.
fn write_numbered(world: &World, number: u16, output: &mut Vec<u8>) -> Result<(), AllocError>
    ensures { OnOk result (output.new.items ≡ output.old.items ++ model.node_line (model.node_numbered (world_of world.now) number)) }
{
    match node_numbered(world, number) {
        Some(node) => write_line(node, output),
        None => Ok(()),
    }
}

/// Appends the lines of the nodes from 1 to this one.
fn write_nodes(world: &World, nodes: u16, output: &mut Vec<u8>) -> Result<(), AllocError>
    ensures { OnOk result (output.new.items ≡ output.old.items ++ model.nodes_text (world_of world.now) nodes) }
{
    for before in 0..nodes {
        write_numbered(world, before + 1, output)?;
    }
    Ok(())
}

/// Sees all that the node of a number installed, if there is one.
fn see_numbered(world: &World, number: u16, agreement: &mut Agreement) -> Result<(), AllocError>
    ensures { OnOk result ((seen : List ModelStamp) → Notes seen agreement.old.kept.items agreement.old.split
        → Notes (seen ++ model.installed_by (model.node_numbered (world_of world.now) number)) agreement.new.kept.items agreement.new.split) }
{
    match node_numbered(world, number) {
        Some(node) => agreement.see_all(node.installed()),
        None => Ok(()),
    }
}

/// Whether two of the nodes from 1 to this one hold different identifiers at one height.
fn is_split(alloc: Global, world: &World, nodes: u16) -> Result<bool, AllocError>
    ensures { IfOk result (λ split. split ≡ model.is_split (model.all_installed (world_of world.now) nodes)) }
{
    let mut agreement = Agreement::new(alloc);
    for before in 0..nodes {
        see_numbered(world, before + 1, &mut agreement)?;
    }
    Ok(agreement.is_split())
}

/// Appends the number of events.
fn write_events(world: &World, output: &mut Vec<u8>) -> Result<(), AllocError>
    ensures { OnOk result (output.new.items ≡ output.old.items ++ (codes "events " ++ decimal (accepted world.now) ++ line_feed ∷ [])) }
{
    output.extend_from_slice(b"events ")?;
    write_number(world.accepted() as u64, output)?;
    output.push(b'\n')?;
    Ok(())
}

/// The line that says whether nodes agree.
fn agree_line(split: bool) -> &'static [u8]
    ensures { result.now ≡ model.agree_line split }
{
    if split { b"agree no\n" } else { b"agree yes\n" }
}

/// What is printed of a world with the nodes from 1 to this one.
#[tactic(auto, unfolding(crate::specs::ClusterText::cluster_text))]
pub(crate) fn report(alloc: Global, world: &World, nodes: u16) -> Result<Vec<u8>, AllocError>
    ensures { IfOk result (λ text. text.items ≡ model.cluster_text nodes world.now) }
{
    let split = is_split(alloc, world, nodes)?;
    let mut output = Vec::new(alloc);
    write_events(world, &mut output)?;
    write_nodes(world, nodes, &mut output)?;
    output.extend_from_slice(agree_line(split))?;
    Ok(output)
}
