// The canonical bytes of configurations.

ghost use Rattle.std.specs.Prelude.{◌≡◌, ◌+◌, ◌≤◌, length, IfOk};
ghost use Rattle.std.specs.List.{concat};
ghost use Rattle.rapid_model.specs.Configuration.{configuration_bytes};
ghost use Rattle.rapid_model.specs.Limits.{most_members};

use crate::{ConfigId, Params};
use rapid_endpoint::Process;
use std::alloc::{AllocError, Global};

/// The letters `RPC2`, with which the bytes of a configuration begin.
pub(crate) const MAGIC: [u8; 4] = [0x52, 0x50, 0x43, 0x32];

/// How many bytes stand before those of the members.
pub(crate) const HEAD_BYTES: usize = 49;

/// How many bytes the configuration of these members has.
fn bytes_len(members: &[Process]) -> usize
    requires { length members.now ≤ most_members }
    ensures { result ≡ 49 + length (concat members.now) }
{
    let mut bytes = HEAD_BYTES;
    for member in members {
        bytes += member.length();
    }
    bytes
}

/// The canonical bytes of the configuration of these parts.
pub(crate) fn spell(
    alloc: Global,
    params: Params,
    height: u64,
    previous: ConfigId,
    members: &[Process],
) -> Result<Vec<u8>, AllocError>
    requires { length members.now ≤ most_members }
    ensures { IfOk result
        (λ bytes. bytes.items ≡ configuration_bytes (record { params = params; height = height; previous = previous; members = members.now })) }
{
    let count = members.len() as u16;
    let mut bytes = Vec::with_capacity(alloc, bytes_len(members))?;
    bytes.extend_from_slice(&MAGIC)?;
    bytes.extend_from_slice(&previous.bytes())?;
    bytes.extend_from_slice(&height.to_be_bytes())?;
    bytes.extend_from_slice(&[params.k(), params.h(), params.l()])?;
    bytes.extend_from_slice(&count.to_be_bytes())?;
    for member in members {
        member.append_to(&mut bytes)?;
    }
    Ok(bytes)
}
