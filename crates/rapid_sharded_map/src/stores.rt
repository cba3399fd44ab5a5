// To whom keys are dealt.

ghost use Rattle.std.specs.Prelude.{◌≡◌, ◌↔◌, true, All, filter, map, IfOk};
ghost use Rattle.rapid_dealing.specs.Owners.{owner_in};
ghost use Rattle.rapid_sharded_map.specs.Stores.{store, HasTag, has_store, members_of, IsOwner};

use anyhow::Result;
use rapid_config::Configuration;
use rapid_dealing::owner;
use rapid_endpoint::Process;
use std::alloc::Global;

/// The tag of those members to whom keys are dealt.
pub(crate) const STORE: &[u8] = b"store";

/// Whether a process has the tag.
fn is_store(process: &Process) -> bool
    ensures value { result ≡ has_store process.now }
    ensures tag { (result ≡ true) ↔ HasTag process.now store }
{
    for tag in process.tags().iter() {
        if tag == STORE {
            return true;
        }
    }
    false
}

/// Those members of a configuration that have the tag, in a configuration of their own, so that keys
/// can be dealt to them. None if no member has it.
fn stores(alloc: Global, configuration: &Configuration) -> Result<Option<Configuration>>
    ensures { IfOk result (λ stores. members_of stores ≡ filter has_store configuration.now.members) }
{
    let mut stores = Vec::new(alloc);
    for member in configuration.members() {
        if is_store(member) {
            stores.push(*member)?;
        }
    }
    if stores.is_empty() {
        return Ok(None);
    }
    let stores = Configuration::seed(alloc, configuration.params(), stores.as_slice())?;
    Ok(Some(stores))
}

/// The owner of a key among these members. None if there are none.
fn owner_among(stores: &Option<Configuration>, key: &str) -> Option<Process>
    ensures { result ≡ owner_in key.now (members_of stores.now) }
{
    owner(stores.as_ref()?, key.as_bytes())
}

/// Deals keys to those members of a configuration that have the tag: the owner of each key, in the
/// order of the keys. An owner is a member that has the tag. A key belongs to nobody exactly if no
/// member has it.
pub(crate) fn deal(
    alloc: Global,
    configuration: &Configuration,
    keys: &[&str],
) -> Result<Vec<Option<Process>>>
    ensures owners { IfOk result (λ owners. All (IsOwner configuration.now) owners.items) }
    ensures value { IfOk result (λ owners. owners.items ≡ map (λ key. owner_in key.now (filter has_store configuration.now.members)) keys.now) }
{
    let stores = stores(alloc, configuration)?;
    let mut owners = Vec::with_capacity(alloc, keys.len())?;
    for key in keys {
        owners.push(owner_among(&stores, key))?;
    }
    Ok(owners)
}
