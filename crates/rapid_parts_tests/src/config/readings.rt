// The bytes of configurations, and why others are refused.

use crate::config::configurations::founded;
use crate::config::hexadecimal::is_spelt;
use crate::numbered::tagged;
use crate::second::{between, configuration_fault, members_of, process_number};
use rapid_config::{ConfigError, Configuration, Params};
use rapid_endpoint::{ParseError, Process};
use std::alloc::{AllocError, Global};
use std::test::Fail;

/// The founding configuration of the process with the number 1.
const ONE: [u8; 72] = [
    0x52, 0x50, 0x43, 0x32, 0, 0, 0, 0, 0, 0, 0, 0, 0, 0, 0, 0, 0, 0, 0, 0, 0, 0, 0, 0, 0, 0, 0, 0,
    0, 0, 0, 0, 0, 0, 0, 0, 0, 0, 0, 0, 0, 0, 0, 0, 3, 3, 1, 0, 1, 0, 0, 0, 0, 0, 0, 0, 0, 0, 0, 0,
    0, 0, 0, 0, 1, 0x7f, 0, 0, 1, 0, 1, 0,
];

/// The founding configuration of the processes with the numbers 1, with the tag `db`, 2, with `db`
/// and `web`, and 3, without tags.
const THREE: [u8; 128] = [
    0x52, 0x50, 0x43, 0x32, 0, 0, 0, 0, 0, 0, 0, 0, 0, 0, 0, 0, 0, 0, 0, 0, 0, 0, 0, 0, 0, 0, 0, 0,
    0, 0, 0, 0, 0, 0, 0, 0, 0, 0, 0, 0, 0, 0, 0, 0, 3, 3, 1, 0, 3, 0, 0, 0, 0, 0, 0, 0, 0, 0, 0, 0,
    0, 0, 0, 0, 1, 0x7f, 0, 0, 1, 0, 1, 1, 2, b'd', b'b', 0, 0, 0, 0, 0, 0, 0, 0, 0, 0, 0, 0, 0, 0,
    0, 2, 0x7f, 0, 0, 1, 0, 2, 2, 2, b'd', b'b', 3, b'w', b'e', b'b', 0, 0, 0, 0, 0, 0, 0, 0, 0, 0,
    0, 0, 0, 0, 0, 3, 0x7f, 0, 0, 1, 0, 3, 0,
];

/// Whether a configuration has these bytes and is read of them.
fn has_bytes(alloc: Global, configuration: &Configuration, bytes: &[u8]) -> Result<bool, Fail> {
    let written = configuration.to_bytes(alloc)?;
    let again = Configuration::from_bytes(alloc, bytes)?;
    Ok(written.as_slice() == bytes && again.id() == configuration.id())
}

#[test]
fn a_configuration_is_written_and_read(rt: HostRuntime) -> Result<(), Fail> {
    let one = founded(rt.alloc(), (3, 3, 1), 1)?;
    assert!(rt; has_bytes(rt.alloc(), &one, &ONE)?);
    Ok(())
}

/// The processes with the numbers 1, 2 and 3, of which two have tags.
fn three() -> Result<[Process; 3], ParseError> {
    Ok([
        tagged(1, &[b"db"])?,
        tagged(2, &[b"db", b"web"])?,
        tagged(3, &[])?,
    ])
}

/// Their identifier was computed elsewhere.
#[test]
fn members_are_written_and_read_with_their_tags(rt: HostRuntime) -> Result<(), Fail> {
    let members = three()?;
    let configuration = Configuration::seed(rt.alloc(), Params::new(3, 3, 1)?, &members)?;
    assert!(rt; configuration.members() == members.as_slice());
    assert!(rt; has_bytes(rt.alloc(), &configuration, &THREE)?);
    let digits = "06db61d520bb90ac2edd408c5c02d1c0b5d59de153c19ffb9e1069f3cec6cc86";
    assert!(rt; is_spelt(rt.alloc(), configuration.id(), digits)?);
    Ok(())
}

/// Why bytes are no configuration, if they are none.
fn refusal(alloc: Global, bytes: &[u8]) -> Option<ConfigError> {
    Configuration::from_bytes(alloc, bytes).err()
}

/// Whether each beginning of a configuration is too short.
fn are_too_short(alloc: Global, bytes: &[u8]) -> bool {
    for length in 0..bytes.len() {
        if refusal(alloc, between(bytes, 0, length)) != Some(ConfigError::Truncated) {
            return false;
        }
    }
    true
}

#[test]
fn each_beginning_is_too_short(rt: HostRuntime) {
    assert!(rt; are_too_short(rt.alloc(), &ONE));
    assert!(rt; are_too_short(rt.alloc(), &THREE));
}

/// The bytes with some of them changed, cut to a length or filled up with zeros.
pub fn changed(
    alloc: Global,
    bytes: &[u8],
    changes: &[(usize, u8)],
    length: usize,
) -> Result<Vec<u8>, AllocError> {
    let mut copy = Vec::from_slice(alloc, bytes)?;
    for (at, byte) in changes {
        if *at < copy.len() {
            copy[*at] = *byte;
        }
    }
    copy.truncate(length);
    for _ in copy.len()..length {
        copy.push(0)?;
    }
    Ok(copy)
}

/// Bytes that are changed, the length that they are cut to or filled up to with zeros, and why they
/// are refused, if they are.
type Case<'a> = (&'a [(usize, u8)], usize, Option<ConfigError>);

/// The configuration of the processes with the numbers 1 and 2.
const REFUSED: [Case; 24] = [
    (&[], 95, None),
    (&[], 96, Some(ConfigError::Trailing)),
    // the first version
    (&[(3, 0x31)], 95, Some(ConfigError::BadMagic)),
    (&[(3, 0x31)], 48, Some(ConfigError::BadMagic)),
    (&[(46, 4)], 95, Some(ConfigError::BadParams)),
    (&[(44, 17)], 95, Some(ConfigError::BadParams)),
    // 1,025 members
    (&[(47, 4), (48, 1)], 95, Some(ConfigError::TooMany)),
    (&[(48, 3)], 95, Some(ConfigError::Truncated)),
    (&[(48, 1)], 95, Some(ConfigError::Trailing)),
    // the members are 2 and 1
    (&[(64, 2), (87, 1)], 95, Some(ConfigError::NotSorted)),
    // both members have the port 1
    (&[(93, 1)], 95, Some(ConfigError::EndpointTwice)),
    // any identifier before and any height are taken, and no members
    (&[(4, 7), (36, 255)], 95, None),
    (&[(48, 0)], 49, None),
    // nine tags, or one without a byte: what follows is 0
    (&[(71, 9)], 95, Some(ConfigError::BadTags)),
    (&[(94, 9)], 95, Some(ConfigError::BadTags)),
    (&[(71, 1)], 95, Some(ConfigError::BadTags)),
    (&[(94, 1)], 96, Some(ConfigError::BadTags)),
    // the bytes end before a tag does
    (&[(94, 1)], 95, Some(ConfigError::Truncated)),
    // what is met first from the left: wrong tags, or the end
    (&[(48, 3), (94, 9)], 95, Some(ConfigError::BadTags)),
    (&[(71, 9)], 94, Some(ConfigError::BadTags)),
    // tags are judged after the number of members, and before bytes that are left over and the order
    (&[(47, 4), (48, 1), (71, 9)], 95, Some(ConfigError::TooMany)),
    (&[(64, 2), (87, 1), (94, 9)], 96, Some(ConfigError::BadTags)),
    (&[(64, 2), (87, 1)], 96, Some(ConfigError::Trailing)),
    (
        &[(64, 2), (87, 1), (93, 1)],
        95,
        Some(ConfigError::NotSorted),
    ),
];

/// Whether bytes are read, or refused, as they have to be once they are changed.
fn is_answered(
    alloc: Global,
    bytes: &[u8],
    (changes, length, expected): &Case,
) -> Result<bool, AllocError> {
    let bytes = changed(alloc, bytes, changes, *length)?;
    Ok(refusal(alloc, &bytes) == *expected)
}

#[test]
fn bytes_are_refused_by_name(rt: HostRuntime) -> Result<(), Fail> {
    let bytes = founded(rt.alloc(), (3, 3, 1), 2)?.to_bytes(rt.alloc())?;
    for case in &REFUSED {
        assert!(rt; is_answered(rt.alloc(), &bytes, case)?, "at {case:?}");
    }
    Ok(())
}

/// The configuration of three with tags: `db` at 73, `db` at 99 and `web` at 102.
const REFUSED_TAGS: [Case; 15] = [
    (&[], 128, None),
    (&[(73, b'a')], 128, None),
    // a space, a comma, square brackets, and what does not print
    (&[(73, b' ')], 128, Some(ConfigError::BadTags)),
    (&[(74, b',')], 128, Some(ConfigError::BadTags)),
    (&[(100, b'[')], 128, Some(ConfigError::BadTags)),
    (&[(104, b']')], 128, Some(ConfigError::BadTags)),
    (&[(104, 0x7f)], 128, Some(ConfigError::BadTags)),
    // tags that do not ascend: `xb` and `web`
    (&[(99, b'x')], 128, Some(ConfigError::BadTags)),
    // a member fewer
    (&[(48, 2)], 128, Some(ConfigError::Trailing)),
    // the second member has the identifier of the first, or its port, or both, and other tags
    (&[(90, 1)], 128, Some(ConfigError::NotSorted)),
    (&[(96, 1)], 128, Some(ConfigError::EndpointTwice)),
    (&[(90, 1), (96, 1)], 128, Some(ConfigError::NotSorted)),
    // parameters are judged before tags; of tags and the end of the bytes what is met first
    (&[(46, 4), (73, b',')], 128, Some(ConfigError::BadParams)),
    (&[(104, b']')], 105, Some(ConfigError::BadTags)),
    (&[(104, b']')], 104, Some(ConfigError::Truncated)),
];

#[test]
fn wrong_tags_are_refused_by_name(rt: HostRuntime) -> Result<(), Fail> {
    for case in &REFUSED_TAGS {
        assert!(rt; is_answered(rt.alloc(), &THREE, case)?, "at {case:?}");
    }
    Ok(())
}

/// Whether the members of a configuration have the bytes of those in these bytes.
fn has_members(alloc: Global, configuration: &Configuration, bytes: &[u8]) -> Result<bool, Fail> {
    for (number, member) in configuration.members().iter().enumerate() {
        if member.to_bytes(alloc)?.as_slice() != process_number(bytes, 49, number) {
            return Ok(false);
        }
    }
    Ok(configuration.members().len() == members_of(bytes))
}

/// Whether the head of a configuration says what these bytes do.
fn has_head(configuration: &Configuration, bytes: &[u8]) -> bool {
    let params = configuration.params();
    let height = configuration.height().to_be_bytes();
    between(bytes, 4, 36) == configuration.previous().bytes().as_slice()
        && between(bytes, 36, 44) == height.as_slice()
        && between(bytes, 44, 47) == [params.k(), params.h(), params.l()].as_slice()
}

/// Whether bytes are read, or refused, as the second reader does.
fn agrees(alloc: Global, bytes: &[u8]) -> Result<bool, Fail> {
    match (
        Configuration::from_bytes(alloc, bytes),
        configuration_fault(bytes),
    ) {
        (Ok(configuration), None) => Ok(
            has_head(&configuration, bytes)
                && has_members(alloc, &configuration, bytes)?
                && has_bytes(alloc, &configuration, bytes)?,
        ),
        (Err(error), Some(fault)) => Ok(error == fault),
        _ => Ok(false),
    }
}

/// What is done to a byte: a bit is turned.
pub const BITS: [u8; 8] = [1, 2, 4, 8, 16, 32, 64, 128];

/// What comes in its place: what a number of tags, a length or a byte of a tag may just be, or just
/// not.
const OTHERS: [u8; 16] = [
    0, 1, 2, 3, 8, 9, 16, 17, 64, 65, b' ', b',', b'[', b']', 0x7e, 0xff,
];

/// Sees that the configuration of three with another byte at a place is read as the second reader
/// reads it; how often it is refused: once or never.
fn refused_with(alloc: Global, place: usize, byte: u8) -> Result<usize, Fail> {
    let bytes = changed(alloc, &THREE, &[(place, byte)], THREE.len())?;
    if !agrees(alloc, &bytes)? {
        return Err(Fail::new(format_args!("with {byte} at {place}")));
    }
    Ok(usize::from(configuration_fault(&bytes).is_some()))
}

/// With a bit turned anywhere 1,024 configurations are read alike, of which the 320 are no refusals
/// whose bit is of the identifier before or of the height.
#[test]
fn each_change_of_a_bit_is_read_alike(rt: HostRuntime) -> Result<(), Fail> {
    let mut refused = 0usize;
    for (place, byte) in THREE.iter().enumerate() {
        for bit in &BITS {
            refused = refused.saturating_add(refused_with(rt.alloc(), place, *byte ^ *bit)?);
        }
    }
    assert!(rt; 300 < refused && refused <= 704);
    Ok(())
}

/// Where the tags of the three stand, with their numbers and lengths, and ends.
const TAGS: [(usize, usize); 3] = [(71, 75), (97, 105), (127, 128)];

/// How many configurations are refused with another byte from a place to an end; all are read alike.
fn refused_between(alloc: Global, start: usize, end: usize) -> Result<usize, Fail> {
    let mut refused = 0usize;
    for place in start..end {
        for byte in &OTHERS {
            refused = refused.saturating_add(refused_with(alloc, place, *byte)?);
        }
    }
    Ok(refused)
}

#[test]
fn each_change_of_a_byte_of_tags_is_read_alike(rt: HostRuntime) -> Result<(), Fail> {
    for (start, end) in &TAGS {
        assert!(rt;
            refused_between(rt.alloc(), *start, *end)? > 10,
            "at {start}"
        );
    }
    Ok(())
}
