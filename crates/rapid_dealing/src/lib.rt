//! To which member of a configuration a key belongs. All that have the same configuration agree on it.
//! That a change of the members moves no key between two that stay follows from the definition; no law
//! says so.
#![tactic(auto)]

ghost use Rattle.std.specs.Prelude.{◌≡◌, ◌↔◌, true, Some, IfSome};
ghost use Rattle.rapid_model.specs.Configuration.{is_member};
ghost use Rattle.rapid_dealing.specs.Owners.{hashed, weight, pick, owner_of, OwnersAreOne};

use rapid_config::Configuration;
use rapid_endpoint::Process;

/// The hash goes on over these bytes (FNV-1a, 64 bits).
fn hash(before: u64, bytes: &[u8]) -> u64
    ensures { result ≡ hashed before bytes.now }
{
    let mut hash = before;
    for byte in bytes {
        hash = (hash ^ u64::from(*byte)).wrapping_mul(0x0100_0000_01b3);
    }
    hash
}

/// How much a key weighs at a member.
fn weight_at(member: &Process, key: &[u8]) -> u64
    ensures { result ≡ weight key.now member.now }
{
    hash(hash(0xcbf2_9ce4_8422_2325, &member.key_bytes()), key)
}

/// The one of two members at which a key weighs more; the first if it weighs the same.
fn heavier(one: Process, other: Process, key: &[u8]) -> Process
    ensures { result ≡ pick key.now one other }
{
    if weight_at(&one, key) < weight_at(&other, key) {
        other
    } else {
        one
    }
}

/// The member that owns a key: the first of those at which the key weighs most. None if there are no
/// members.
#[tactic(auto, using(crate::proofs::Heaviest::heaviest_more, crate::proofs::Heaviest::owner_first, crate::proofs::Heaviest::in_at))]
pub fn owner(configuration: &Configuration, key: &[u8]) -> Option<Process>
    ensures owner { result ≡ owner_of configuration.now key.now }
    ensures member { IfSome result (λ owner. is_member configuration.now owner ≡ true) }
{
    let members = configuration.members();
    let mut owner = *members.first()?;
    for member in members {
        owner = heavier(owner, *member, key);
    }
    Some(owner)
}

/// Whether this process owns a key in a configuration.
pub fn owns(configuration: &Configuration, process: &Process, key: &[u8]) -> bool
    ensures { (result ≡ true) ↔ (owner_of configuration.now key.now ≡ Some process.now) }
{
    match owner(configuration, key) {
        Some(owner) => owner == *process,
        None => false,
    }
}

/// In one configuration no key has two owners.
pub fn owners_are_one()
    ensures { OwnersAreOne }
{}
