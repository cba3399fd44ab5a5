// Configurations: views of who the members are.

ghost use Rattle.std.specs.Prelude.{◌≡◌, ◌+◌, ◌^◌, ◌<◌, ◌≤◌, ◌↔◌, ◌⊎◌, None, Err, length, map, IfOk, IfErr, OnOk, IfSome};
ghost use Rattle.rapid_model.specs.Apply.{apply};
ghost use Rattle.std.specs.Arc.{arc_slice_items};
ghost use Rattle.rapid_model.specs.Process.{identifier};
ghost use Rattle.rapid_model.specs.Configuration as model;
ghost use Rattle.rapid_model.specs.Configuration.{AreMembers, IsConfiguration, founding, configuration_bytes, configuration_id, position_of};
ghost use Rattle.rapid_model.specs.Reading.{members_fault, bytes_fault, configuration_in};
ghost use Rattle.rapid_config.specs.Faults.{ReportsOfFounders, ReportsOfBytes};

use crate::joining::members_after;
use crate::members::{MOST_MEMBERS, check_members, identifiers_of, place_of};
use crate::reading::{check_head, chunk_at, members_in};
use crate::spelling::spell;
use crate::told::tell_bytes;
use crate::{ConfigError, ConfigId, Cut, Params, Stamp};
use rapid_endpoint::{Process, ProcessId, ProcessRef};
use sha2::{Digest, Sha256};
use std::alloc::{AllocError, Global};
use std::marker::Model;
use std::sync::ArcSlice;

/// A configuration: a view of who the members are. It has a height, the identifier of the one
/// before, the parameters, and at most 1,024 members. These ascend by identifier, and no two have
/// one endpoint. Its identifier is computed once, when it is made, and the members' identifiers are
/// put into a list of their own, in which members are looked for. Copies share both lists.
#[derive(Debug, Drop)]
pub struct Configuration {
    params: Params,
    height: u64,
    previous: ConfigId,
    members: ArcSlice<Process>,
    identifiers: ArcSlice<ProcessId>,
    id: ConfigId,
}

impl Model for Configuration {
    ghost use Rattle.std.specs.Prelude.{◌≡◌, map};
    ghost use Rattle.std.specs.Arc.{arc_slice_items};
    ghost use Rattle.rapid_model.specs.Process.{identifier};
    ghost use Rattle.rapid_model.specs.Configuration.{Configuration as ModelConfiguration, IsConfiguration, configuration_id};

    ghost Value = { ModelConfiguration };

    ghost view = { λ c. record { params = c.params; height = c.height; previous = c.previous; members = arc_slice_items c.members } };

    ghost invariant = { λ c.
        IsConfiguration (record { params = c.params; height = c.height; previous = c.previous; members = arc_slice_items c.members })
        × (c.id ≡ configuration_id (record { params = c.params; height = c.height; previous = c.previous; members = arc_slice_items c.members }))
        × (arc_slice_items c.identifiers ≡ map identifier (arc_slice_items c.members)) };
}

/// The configuration of these parts, whose canonical bytes are these.
fn assemble_spelled(
    params: Params,
    height: u64,
    previous: ConfigId,
    members: ArcSlice<Process>,
    identifiers: ArcSlice<ProcessId>,
    bytes: &[u8],
) -> Configuration
    requires members { AreMembers (arc_slice_items members) }
    requires identifiers { arc_slice_items identifiers ≡ map identifier (arc_slice_items members) }
    requires bytes { bytes.now
        ≡ configuration_bytes (record { params = params; height = height; previous = previous; members = arc_slice_items members }) }
    ensures { result ≡ record { params = params; height = height; previous = previous; members = arc_slice_items members } }
{
    params.tell();
    previous.tell();
    let id = ConfigId::new(Sha256::digest(bytes));
    Configuration {
        params,
        height,
        previous,
        members,
        identifiers,
        id,
    }
}

/// The configuration of these parts.
pub(crate) fn assemble(
    alloc: Global,
    params: Params,
    height: u64,
    previous: ConfigId,
    members: ArcSlice<Process>,
) -> Result<Configuration, AllocError>
    requires { AreMembers (arc_slice_items members) }
    ensures { IfOk result
        (λ c. c ≡ record { params = params; height = height; previous = previous; members = arc_slice_items members }) }
{
    let bytes = spell(alloc, params, height, previous, members.as_slice())?;
    let identifiers = identifiers_of(alloc, members.as_slice())?;
    let bytes = bytes.as_slice();
    Ok(assemble_spelled(params, height, previous, members, identifiers, bytes))
}

impl Configuration {
    /// The most members of a configuration.
    pub const MOST: usize = MOST_MEMBERS;

    /// The founding configuration of these members, of whom there is at least one. The first that
    /// holds: `TooMany` if there are more than 1,024, `NotSorted` if their identifiers do not
    /// strictly ascend, `EndpointTwice` if two have one endpoint. `OutOfMemory` comes only if
    /// neither of the first two holds.
    pub fn seed(
        alloc: Global,
        params: Params,
        founders: &[Process],
    ) -> Result<Configuration, ConfigError>
        requires { 1 ≤ length founders.now }
        ensures value { IfOk result (λ c. c ≡ founding params founders.now) }
        ensures valid { IfOk result IsConfiguration }
        ensures allowed { OnOk result (members_fault founders.now ≡ None) }
        ensures refused { IfErr result (ReportsOfFounders (members_fault founders.now)) }
    {
        check_members(alloc, founders)?;
        let members = ArcSlice::from_slice(alloc, founders)?;
        let configuration = assemble(alloc, params, 0, ConfigId::zero(), members)?;
        configuration.tell();
        Ok(configuration)
    }

    /// The configuration in these bytes. The error is the first that holds. `Truncated` below 4
    /// bytes, `BadMagic` if they do not begin with `RPC2`, `Truncated` below 49 bytes. `BadParams`
    /// if K, H and L are not in order. `TooMany` if they announce more than 1,024 members. Then the
    /// members are read from the left: `Truncated` or `BadTags`, whichever is met first. `Trailing`
    /// if bytes are left over. `NotSorted` if their identifiers do not strictly ascend.
    /// `EndpointTwice` if two have one endpoint. `OutOfMemory` comes only if none of those before
    /// `NotSorted` holds.
    pub fn from_bytes(alloc: Global, bytes: &[u8]) -> Result<Configuration, ConfigError>
        ensures value { IfOk result (λ c. c ≡ configuration_in bytes.now) }
        ensures valid { IfOk result IsConfiguration }
        ensures allowed { OnOk result (bytes_fault bytes.now ≡ None) }
        ensures refused { IfErr result (ReportsOfBytes (bytes_fault bytes.now)) }
    {
        let (params, count) = check_head(bytes)?;
        let (members, identifiers) = members_in(alloc, count, bytes)?;
        let previous = ConfigId::new(chunk_at(bytes, 4));
        let height = u64::from_be_bytes(chunk_at(bytes, 36));
        // these are the canonical bytes: a configuration has one spelling
        tell_bytes(bytes);
        let configuration = assemble_spelled(params, height, previous, members, identifiers, bytes);
        configuration.tell();
        Ok(configuration)
    }

    /// The value is a configuration. It does nothing: what it ensures is for proofs.
    #[inline(always)]
    pub fn tell(&self)
        ensures { IsConfiguration self.now }
    {
        let _ = &self.height;
    }

    /// The parameters.
    pub fn params(&self) -> Params
        ensures { result ≡ self.now.params }
    {
        self.params
    }

    /// The height: how many view changes lie before it.
    pub fn height(&self) -> u64
        ensures { result ≡ self.now.height }
    {
        self.height
    }

    /// The identifier of the configuration before; all zero at a founding.
    pub fn previous(&self) -> ConfigId
        ensures { result ≡ self.now.previous }
    {
        self.previous
    }

    /// The members, ascending by identifier.
    pub fn members(&self) -> &[Process]
        ensures value { result.now ≡ self.now.members }
        ensures valid { AreMembers self.now.members }
    {
        self.members.as_slice()
    }

    /// The identifier: the SHA-256 (FIPS 180-4) of the canonical bytes.
    pub fn id(&self) -> ConfigId
        ensures { result ≡ configuration_id self.now }
    {
        self.id
    }

    /// The place of a member, from 0, by identifier; none for another process.
    pub fn position(&self, process: &Process) -> Option<usize>
        ensures place { result ≡ position_of self.now process.now }
        ensures within { IfSome result (λ place. place < length self.now.members) }
    {
        self.place(&process.as_ref())
    }

    /// What [`Configuration::position`] answers, for a process however it is kept.
    pub fn place(&self, process: &ProcessRef<'_>) -> Option<usize>
        ensures place { result ≡ position_of self.now process.now }
        ensures within { IfSome result (λ place. place < length self.now.members) }
    {
        let (identifiers, members) = (self.identifiers.as_slice(), self.members.as_slice());
        place_of(identifiers, members, process)
    }

    /// Whether the process is a member.
    pub fn is_member(&self, process: &Process) -> bool
        ensures { result ≡ model.is_member self.now process.now }
    {
        self.position(process).is_some()
    }

    /// What stands for this configuration in a list of installed ones.
    pub fn stamp(&self) -> Stamp
        ensures { result ≡ model.stamp self.now }
    {
        Stamp::new(self.height, self.id, self.members.len())
    }

    /// The canonical bytes.
    pub fn to_bytes(&self, alloc: Global) -> Result<Vec<u8>, AllocError>
        ensures { IfOk result (λ bytes. bytes.items ≡ configuration_bytes self.now) }
    {
        let (params, height, previous) = (self.params, self.height, self.previous);
        spell(alloc, params, height, previous, self.members.as_slice())
    }

    /// The configuration after a cut: the members in it are removed, then its other processes join
    /// in ascending order. One is skipped if its identifier or its endpoint is held, or if 1,024
    /// members are there. `HeightFull` exactly if the height is the last that there is.
    #[tactic(auto, unfolding(rapid_model::specs::Apply::apply))]
    pub fn apply(&self, alloc: Global, cut: &Cut) -> Result<Configuration, ConfigError>
        ensures value { IfOk result (λ next. next ≡ apply self.now cut.now) }
        ensures valid { IfOk result IsConfiguration }
        ensures full { result ≡ Err ConfigError.HeightFull ↔ (self.now.height + 1 ≡ 2 ^ 64) }
        ensures refused { IfErr result (λ e. (e ≡ ConfigError.HeightFull) ⊎ (e ≡ ConfigError.OutOfMemory)) }
    {
        let Some(height) = self.height.checked_add(1) else {
            return Err(ConfigError::HeightFull);
        };
        let changed = cut.processes().to_vec(alloc)?;
        let members = members_after(alloc, self.members.as_slice(), changed.as_slice())?;
        let members = ArcSlice::from_vec(members)?;
        let next = assemble(alloc, self.params, height, self.id, members)?;
        next.tell();
        Ok(next)
    }

    /// An equal configuration, which shares the lists.
    pub fn try_copy(&self, _alloc: Global) -> Result<Configuration, AllocError>
        ensures { IfOk result (λ c. c ≡ self.now) }
    {
        let members = self.members.clone()?;
        let identifiers = self.identifiers.clone()?;
        Ok(Configuration {
            params: self.params,
            height: self.height,
            previous: self.previous,
            members,
            identifiers,
            id: self.id,
        })
    }
}
