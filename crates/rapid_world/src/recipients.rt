// The recipients of what a node sends to the others.

ghost use Rattle.std.specs.Prelude.{◌≡◌, ◌<◌, ◌^◌, length, slice_get, suc, Some, IfOk};
ghost use Rattle.std.specs.Option.{option_map};
ghost use Rattle.rapid_model.specs.Node.{member_in};
ghost use Rattle.rapid_model.specs.Packets.{other_members};
ghost use Rattle.rapid_world.specs.Recipients.{without};

use rapid_config::Configuration;
use rapid_endpoint::Process;
use rapid_node::{Node, Phase};
use std::alloc::{AllocError, Global};
use std::marker::Model;

/// The recipients of what a node sends to the others: the members of its configuration, which is
/// shared, without the node itself.
#[derive(Debug, Drop)]
pub(crate) struct Recipients {
    // none if the node is no member
    configuration: Option<Configuration>,
    // the place of the node itself
    left_out: Option<usize>,
}

impl Model for Recipients {
    ghost use Rattle.std.specs.Prelude.{List};
    ghost use Rattle.rapid_model.specs.Process.{Process as ModelProcess};
    ghost use Rattle.rapid_world.specs.Recipients.{recipients_in, IsPlaceIn};

    ghost Value = { List ModelProcess };

    ghost view = { λ r. recipients_in r.configuration r.left_out };

    ghost invariant = { λ r. IsPlaceIn r.configuration r.left_out };
}

/// The configuration in which a node is a member.
pub(crate) fn member_configuration(node: &Node) -> Option<&Configuration>
    ensures { option_map (λ c. c.now) result ≡ member_in node.now }
{
    match node.phase() {
        Phase::Member => node.configuration(),
        Phase::Joining | Phase::Removed | Phase::Halted => None,
    }
}

impl Recipients {
    /// The recipients of what this node sends to the others.
    pub(crate) fn of(alloc: Global, node: &Node) -> Result<Recipients, AllocError>
        ensures { IfOk result (λ recipients. recipients ≡ other_members (member_in node.now) node.now.me) }
    {
        match member_configuration(node) {
            Some(configuration) => Recipients::without(alloc, configuration, &node.process()),
            None => Ok(Recipients {
                configuration: None,
                left_out: None,
            }),
        }
    }

    /// The members of a configuration but for a process.
    #[tactic(auto, using(crate::proofs::Others::others_are))]
    fn without(
        alloc: Global,
        configuration: &Configuration,
        process: &Process,
    ) -> Result<Recipients, AllocError>
        ensures { IfOk result (λ recipients. recipients ≡ other_members (Some configuration.now) process.now) }
    {
        configuration.tell();
        let left_out = configuration.position(process);
        let configuration = configuration.try_copy(alloc)?;
        Ok(Recipients {
            configuration: Some(configuration),
            left_out,
        })
    }

    /// How many they are.
    pub(crate) fn len(&self) -> usize
        ensures count { result ≡ length self.now }
        ensures few { result < 2 ^ 63 }
    {
        let Some(configuration) = &self.configuration else {
            return 0;
        };
        let members = configuration.members().len();
        match self.left_out {
            Some(_) => members - 1,
            None => members,
        }
    }

    /// The recipient at a place, by identifier.
    pub(crate) fn get(&self, place: usize) -> Option<&Process>
        ensures { option_map (λ p. p.now) result ≡ slice_get self.now place }
    {
        match &self.configuration {
            Some(configuration) => member_at(configuration.members(), self.left_out, place),
            None => None,
        }
    }
}

/// The member at a place, if the one at another place is left out.
#[tactic(auto, using(crate::proofs::Others::gets_below, crate::proofs::Others::gets_above))]
fn member_at(members: &[Process], left_out: Option<usize>, place: usize) -> Option<&Process>
    ensures { option_map (λ p. p.now) result ≡ slice_get (without members.now left_out) place }
{
    match left_out {
        Some(out) if out <= place => after(members, place),
        Some(_) | None => members.get(place),
    }
}

/// The member next after a place.
fn after(members: &[Process], place: usize) -> Option<&Process>
    ensures { option_map (λ p. p.now) result ≡ slice_get members.now (suc place) }
{
    if place < members.len() {
        members.get(place + 1)
    } else {
        None
    }
}
