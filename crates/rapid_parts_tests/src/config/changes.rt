// What cuts make of configurations.

use crate::config::configurations::founded;
use crate::config::cuts::cut;
use crate::config::hexadecimal::is_spelt;
use crate::config::readings::changed;
use crate::numbered::{are, process, tagged};
use rapid_config::{ConfigError, Configuration, Cut, Params};
use rapid_endpoint::Process;
use std::alloc::Global;
use std::test::Fail;

#[test]
fn two_founders_have_their_identifier(rt: HostRuntime) -> Result<(), Fail> {
    let two = founded(rt.alloc(), (3, 3, 1), 2)?;
    let digits = "e3ddfe8b44b30510d5aa018e69032933ff94bc769afac1c7c91bd78e7bc840d4";
    assert!(rt; is_spelt(rt.alloc(), two.id(), digits)?);
    Ok(())
}

// A cut of the configuration that 1 and 2 founded, the members after it, and the SHA-256 of their
// configuration's bytes, computed elsewhere.
type Change<'a> = (&'a [(u16, u16)], &'a [(u16, u16)], &'a str);

const STAYS: &str = "43d719ae228c316c7d09ec7dda8a0253e195ae453c61b700c7feaa51cb7d99fa";

const CHANGES: [Change; 5] = [
    (
        &[(2, 2), (3, 3)],
        &[(1, 1), (3, 3)],
        "fe17ea9352e5cc68ad3f9f677740f368c6457f6cbc1959c2dc2c014b1226f77b",
    ),
    // a joiner with an endpoint that is held stays out
    (&[(9, 1)], &[(1, 1), (2, 2)], STAYS),
    // the endpoint of a member that leaves is free
    (
        &[(2, 2), (9, 2)],
        &[(1, 1), (9, 2)],
        "07c5f7d0a0fc623688ed6af19bfaf2c484eaddc6ccc638c9b919cab5c4795ced",
    ),
    // a joiner with an identifier that is held stays out
    (&[(1, 7)], &[(1, 1), (2, 2)], STAYS),
    // the last may leave
    (
        &[(1, 1), (2, 2)],
        &[],
        "2056d7cd4e0d0e207495d1d74948fc01ee8d0f54bff557c187ef48cd7699fd22",
    ),
];

/// Whether a configuration is the first after another, with these members.
fn follows(next: &Configuration, last: &Configuration, members: &[(u16, u16)]) -> bool {
    next.height() == 1 && next.previous() == last.id() && are(next.members(), members)
}

/// Whether a cut makes this of a configuration.
fn changes(
    alloc: Global,
    configuration: &Configuration,
    (numbers, members, digits): &Change,
) -> Result<bool, Fail> {
    let next = configuration.apply(alloc, &cut(alloc, numbers)?)?;
    Ok(follows(&next, configuration, members) && is_spelt(alloc, next.id(), digits)?)
}

#[test]
fn cuts_change_the_members(rt: HostRuntime) -> Result<(), Fail> {
    let two = founded(rt.alloc(), (3, 3, 1), 2)?;
    for change in &CHANGES {
        assert!(rt; changes(rt.alloc(), &two, change)?, "at {change:?}");
    }
    Ok(())
}

#[test]
fn a_second_change_stands_on_the_first(rt: HostRuntime) -> Result<(), Fail> {
    let first = cut(rt.alloc(), &[(2, 2), (3, 3)])?;
    let next = founded(rt.alloc(), (3, 3, 1), 2)?.apply(rt.alloc(), &first)?;
    let none = next.apply(rt.alloc(), &cut(rt.alloc(), &[(1, 1), (3, 3)])?)?;
    let digits = "1176a0e214cb21d6c463e61ddd3880e62aea785b10c5640608b36f7ee86a20c4";
    assert!(rt; is_spelt(rt.alloc(), none.id(), digits)?);
    Ok(())
}

/// Whether these are the members after a cut of these processes.
fn leads_to(
    alloc: Global,
    configuration: &Configuration,
    processes: &[Process],
    members: &[Process],
) -> Result<bool, Fail> {
    let cut = Cut::new(Vec::from_slice(alloc, processes)?)?;
    Ok(configuration.apply(alloc, &cut)?.members() == members)
}

/// A member that is given other tags is another process, under an identifier that is held.
#[test]
fn a_process_with_other_tags_comes_only_if_the_member_leaves(rt: HostRuntime) -> Result<(), Fail> {
    let (one, bare, tagged) = (process(1), process(2), tagged(2, &[b"db"])?);
    let two = Configuration::seed(rt.alloc(), Params::new(3, 3, 1)?, &[one, tagged])?;
    assert!(rt; leads_to(rt.alloc(), &two, &[bare], &[one, tagged])?);
    assert!(rt; leads_to(rt.alloc(), &two, &[tagged], &[one])?);
    assert!(rt; leads_to(rt.alloc(), &two, &[bare, tagged], &[one, bare])?);
    Ok(())
}

/// Whether 1,024 members follow on as many by a cut, process 2000 at this place and 2001 nowhere.
fn stays_full(
    alloc: Global,
    full: &Configuration,
    cut: &Cut,
    place: Option<usize>,
) -> Result<bool, ConfigError> {
    let next = full.apply(alloc, cut)?;
    Ok(
        next.members().len() == 1024
            && next.position(&process(2000)) == place
            && !next.is_member(&process(2001)),
    )
}

/// Of 1,024 members none is followed by a joiner; if one leaves, the first of two joiners comes.
#[test]
fn joiners_come_if_there_is_room(rt: HostRuntime) -> Result<(), Fail> {
    let full = founded(rt.alloc(), (10, 9, 3), 1024)?;
    let joins = cut(rt.alloc(), &[(2000, 2000)])?;
    assert!(rt; stays_full(rt.alloc(), &full, &joins, None)?);
    let changes = cut(rt.alloc(), &[(5, 5), (2000, 2000), (2001, 2001)])?;
    assert!(rt; stays_full(rt.alloc(), &full, &changes, Some(1023))?);
    Ok(())
}

/// What the configuration of process 1 alone answers to a joiner, if its height ends with this byte
/// after seven of 255.
fn joined_at(alloc: Global, one: &[u8], last: u8) -> Result<Option<ConfigError>, Fail> {
    let height = [
        (36, 255),
        (37, 255),
        (38, 255),
        (39, 255),
        (40, 255),
        (41, 255),
        (42, 255),
        (43, last),
    ];
    let bytes = changed(alloc, one, &height, one.len())?;
    let configuration = Configuration::from_bytes(alloc, bytes.as_slice())?;
    Ok(configuration.apply(alloc, &cut(alloc, &[(2, 2)])?).err())
}

#[test]
fn the_last_height_has_no_next(rt: HostRuntime) -> Result<(), Fail> {
    let bytes = founded(rt.alloc(), (3, 3, 1), 1)?.to_bytes(rt.alloc())?;
    assert!(rt; joined_at(rt.alloc(), &bytes, 255)? == Some(ConfigError::HeightFull));
    assert!(rt; joined_at(rt.alloc(), &bytes, 254)?.is_none());
    Ok(())
}
