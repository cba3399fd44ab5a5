// The processes and small numbers that words name.

ghost use Rattle.std.specs.Prelude.{◌≡◌};
ghost use Rattle.std.specs.Option.{option_map};
ghost use Rattle.rapid_model.specs.Lines.{number_up_to};
ghost use Rattle.rapid_model.specs.Numbered.{numbered, numbered_identifier, local_endpoint, named};

use crate::line::number;
use rapid_endpoint::{Endpoint, Process, ProcessId, ProcessRef};

/// The identifier of a process of this number.
#[inline(always)]
fn identifier(number: u16) -> ProcessId
    ensures { result ≡ numbered_identifier number }
{
    ProcessId::new(u128::from(number).to_be_bytes())
}

/// The endpoint 127.0.0.1 with this port.
#[inline(always)]
fn endpoint(port: u16) -> Endpoint
    ensures { result ≡ local_endpoint port }
{
    Endpoint::new([127, 0, 0, 1], port)
}

/// The process of a number: it has the number as its identifier, the endpoint 127.0.0.1 with the
/// number as its port, and no tags.
pub fn numbered(number: u16) -> Process
    ensures { result ≡ numbered number }
{
    Process::new(identifier(number), endpoint(number))
}

/// The process of a number as [`numbered`] makes it, in less room.
#[inline(always)]
pub fn numbered_ref(number: u16) -> ProcessRef<'static>
    ensures { result ≡ numbered number }
{
    ProcessRef::untagged(identifier(number), endpoint(number))
}

/// The number from 1 to 65,535 by which a word names a process.
pub fn process_number(word: &[u8]) -> Option<u16>
    ensures { option_map numbered result ≡ named word.now }
{
    match number(word, 65535)? {
        0 => None,
        found => Some(found as u16),
    }
}

/// The process that a word names, by a number from 1 to 65,535.
pub fn process(word: &[u8]) -> Option<Process>
    ensures { result ≡ named word.now }
{
    Some(numbered(process_number(word)?))
}

/// The number from 0 to 255 that a word spells.
pub fn byte(word: &[u8]) -> Option<u8>
    ensures { result ≡ number_up_to 255 word.now }
{
    let found = number(word, 255)?;
    Some(found as u8)
}
