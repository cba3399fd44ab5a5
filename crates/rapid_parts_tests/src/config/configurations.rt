// Founding configurations: who is in them, their identifiers, and why others are refused.

use crate::config::hexadecimal::is_spelt;
use crate::numbered::{are, at, named, process, processes, seeded, tagged};
use rapid_config::{ConfigError, ConfigId, Configuration, Params};
use rapid_endpoint::Process;
use std::alloc::Global;
use std::test::Fail;

/// The founding configuration of the processes from 1 to `n`, at least one, with these parameters.
pub fn founded(
    alloc: Global,
    (k, h, l): (u8, u8, u8),
    n: u16,
) -> Result<Configuration, ConfigError> {
    let params = Params::new(k, h, l)?;
    let founders = processes(alloc, n)?;
    seeded(alloc, params, founders.as_slice())
}

/// Whether a configuration is that which process 1 founds.
fn is_of_one(configuration: &Configuration) -> bool {
    configuration.height() == 0
        && configuration.params().k() == 3
        && configuration.previous() == ConfigId::zero()
        && are(configuration.members(), &[(1, 1)])
}

#[test]
fn a_founding_configuration_has_height_0(rt: HostRuntime) -> Result<(), Fail> {
    let one = founded(rt.alloc(), (3, 3, 1), 1)?;
    assert!(rt; is_of_one(&one));
    Ok(())
}

/// Whether a configuration of 1,024 members has this identifier.
fn is_full(configuration: &Configuration, id: ConfigId) -> bool {
    let stamp = configuration.stamp();
    configuration.id() == id && stamp.id() == id && stamp.height() == 0 && stamp.members() == 1024
}

#[test]
fn a_configuration_has_at_most_1024_members(rt: HostRuntime) -> Result<(), Fail> {
    let most = founded(rt.alloc(), (3, 3, 1), 1024)?;
    assert!(rt; most.position(&process(1024)) == Some(1023));
    let copy = most.try_copy(rt.alloc())?;
    assert!(rt; is_full(&copy, most.id()));
    Ok(())
}

const FOUNDERS: [(&[(u16, u16)], ConfigError); 4] = [
    (&[(2, 2), (1, 1)], ConfigError::NotSorted),
    // the order goes by identifier: two endpoints of one identifier do not ascend
    (&[(1, 1), (1, 2)], ConfigError::NotSorted),
    (&[(1, 1), (2, 2), (3, 1)], ConfigError::EndpointTwice),
    // the order is looked at before the endpoints
    (&[(2, 2), (1, 2)], ConfigError::NotSorted),
];

/// Why the founding configuration of these processes is refused, if it is.
fn refusal(alloc: Global, numbers: &[(u16, u16)]) -> Result<Option<ConfigError>, ConfigError> {
    let params = Params::new(3, 3, 1)?;
    let founders = named(alloc, numbers)?;
    Ok(seeded(alloc, params, founders.as_slice()).err())
}

#[test]
fn founders_are_refused_by_name(rt: HostRuntime) -> Result<(), Fail> {
    for (numbers, expected) in &FOUNDERS {
        assert!(rt;
            refusal(rt.alloc(), numbers)? == Some(*expected),
            "at {numbers:?}"
        );
    }
    assert!(rt; founded(rt.alloc(), (3, 3, 1), 1025).err() == Some(ConfigError::TooMany));
    Ok(())
}

#[test]
fn tags_tell_no_founders_apart(rt: HostRuntime) -> Result<(), Fail> {
    let cases = [
        ([process(1), tagged(1, &[b"db"])?], ConfigError::NotSorted),
        ([tagged(1, &[b"db"])?, at(2, 1)], ConfigError::EndpointTwice),
    ];
    for (founders, expected) in &cases {
        let refused = seeded(rt.alloc(), Params::new(3, 3, 1)?, founders.as_slice()).err();
        assert!(rt; refused == Some(*expected), "at {founders:?}");
    }
    Ok(())
}

/// Whether a process has this place in a configuration, or none.
fn has_place(configuration: &Configuration, member: &Process, place: Option<usize>) -> bool {
    configuration.position(member) == place
        && configuration.place(&member.as_ref()) == place
        && configuration.is_member(member) == place.is_some()
}

const PLACES: [(u16, u16, Option<usize>); 7] = [
    (1, 1, Some(0)),
    (2, 2, Some(1)),
    (5, 5, Some(4)),
    (9, 9, Some(8)),
    (10, 10, None),
    (5, 6, None),
    (0, 1, None),
];

#[test]
fn members_have_their_places(rt: HostRuntime) -> Result<(), Fail> {
    let configuration = founded(rt.alloc(), (10, 9, 3), 9)?;
    for (number, port, place) in &PLACES {
        assert!(rt;
            has_place(&configuration, &at(*number, *port), *place),
            "at {number}, {port}"
        );
    }
    Ok(())
}

#[test]
fn a_process_with_other_tags_is_no_member(rt: HostRuntime) -> Result<(), Fail> {
    let members = [process(1), tagged(2, &[b"db"])?];
    let configuration = Configuration::seed(rt.alloc(), Params::new(3, 3, 1)?, &members)?;
    assert!(rt; has_place(&configuration, &tagged(2, &[b"db"])?, Some(1)));
    assert!(rt; has_place(&configuration, &process(2), None));
    assert!(rt; has_place(&configuration, &tagged(2, &[b"db", b"web"])?, None));
    assert!(rt; has_place(&configuration, &tagged(1, &[b"db"])?, None));
    Ok(())
}

// Parameters, how many founders from 1 on, and the SHA-256 of the founding configuration's bytes,
// computed elsewhere.
const FOUNDINGS: [((u8, u8, u8), u16, &str); 10] = [
    (
        (10, 9, 3),
        1,
        "ef534a3c5be81777609eee175ce6927a5ac7c637af66adb30549d3a196392f8c",
    ),
    (
        (10, 9, 3),
        2,
        "bc488633055b1d7ba95b055a57aaea1903aa1eeda6ffe8d108fb465144adaa97",
    ),
    (
        (10, 9, 3),
        3,
        "7097d0aa0a2da01175ca9946f71526b64e26f6634ef1b05714b3a8dd7bf4c1d1",
    ),
    (
        (10, 9, 3),
        5,
        "fc64e0e548545be8e4f5fd3c0e4aa8bc957375a5b152d7497d644fe7c87dfd08",
    ),
    (
        (10, 9, 3),
        10,
        "7e8e095af3806e54191bb995e297c27f281ce66107cb7720cebd130d7d02e76f",
    ),
    (
        (10, 9, 3),
        100,
        "ebca531c6095e23f0a50022290f464d2bb1c95d3d053c2f14368d3024575c1d0",
    ),
    (
        (10, 9, 3),
        1024,
        "c3f75c4c508408bafd0561fe730f60376c1b4685b7f0342aa59db932c0c3a760",
    ),
    (
        (3, 3, 1),
        1,
        "72422b5de2881334870fccfc9cb6afae195747dbf7ab769cce4b05122a6cf5da",
    ),
    (
        (16, 16, 16),
        1,
        "ac34e5e592543efaccc748a9fdecb3ad7c6c9a308f1056ac278e3f4127f2d3d8",
    ),
    (
        (1, 1, 1),
        2,
        "30ffdb95a8838ecbfc6d6afd964c911df2a253c5a54234bcd3afba1c9aabc731",
    ),
];

/// Whether a founding configuration has this identifier.
fn is_founded(
    alloc: Global,
    (params, n, digits): &((u8, u8, u8), u16, &str),
) -> Result<bool, Fail> {
    let configuration = founded(alloc, *params, *n)?;
    is_spelt(alloc, configuration.id(), digits)
}

#[test]
fn foundings_have_their_identifiers(rt: HostRuntime) -> Result<(), Fail> {
    for founding in &FOUNDINGS {
        assert!(rt; is_founded(rt.alloc(), founding)?, "at {founding:?}");
    }
    Ok(())
}
