// Parameters, identifiers and cuts.

use crate::numbered::{are, named, process, processes, tagged};
use rapid_config::{ConfigError, ConfigId, Cut, Params};
use rapid_endpoint::Process;
use std::alloc::{AllocError, Global};
use std::test::Fail;

/// Whether parameters are taken, or refused by name.
fn are_taken(k: u8, h: u8, l: u8) -> bool {
    match Params::new(k, h, l) {
        Ok(params) => params.k() == k && params.h() == h && params.l() == l,
        Err(_) => false,
    }
}

const PARAMS: [(u8, u8, u8, bool); 8] = [
    (10, 9, 3, true),
    (16, 16, 16, true),
    (1, 1, 1, true),
    (17, 1, 1, false),
    (3, 4, 1, false),
    (3, 3, 0, false),
    (3, 2, 3, false),
    (0, 0, 0, false),
];

#[test]
fn parameters(rt: HostRuntime) {
    for (k, h, l, is_good) in &PARAMS {
        assert!(rt; are_taken(*k, *h, *l) == *is_good, "at {k}, {h}, {l}");
    }
    assert!(rt; Params::new(17, 1, 1).err() == Some(ConfigError::BadParams));
}

#[test]
fn identifiers(rt: HostRuntime) {
    let one = ConfigId::new([1; 32]);
    assert!(rt; one.bytes() == [1; 32] && ConfigId::zero() < one);
    assert!(rt; ConfigId::zero() == ConfigId::new([0; 32]));
}

/// The cut of the processes of these identifiers and ports.
pub fn cut(alloc: Global, numbers: &[(u16, u16)]) -> Result<Cut, ConfigError> {
    Cut::new(named(alloc, numbers)?)
}

/// Whether a cut and its copy have these processes.
fn has_processes(alloc: Global, cut: &Cut, numbers: &[(u16, u16)]) -> Result<bool, Fail> {
    let copy = cut.try_copy(alloc)?;
    let processes = cut.processes().to_vec(alloc)?;
    Ok(are(processes.as_slice(), numbers) && copy == *cut)
}

#[test]
fn a_cut_has_its_processes(rt: HostRuntime) -> Result<(), Fail> {
    let cut = cut(rt.alloc(), &[(2, 2), (3, 3)])?;
    assert!(rt; has_processes(rt.alloc(), &cut, &[(2, 2), (3, 3)])?);
    Ok(())
}

/// Whether the first of two cuts is below the other.
fn ascend(alloc: Global, low: &[(u16, u16)], high: &[(u16, u16)]) -> Result<bool, ConfigError> {
    Ok(cut(alloc, low)? < cut(alloc, high)?)
}

const ASCENDING: [(&[(u16, u16)], &[(u16, u16)]); 3] = [
    (&[(9, 9)], &[(2, 2), (3, 3)]),
    (&[(2, 2), (3, 3)], &[(2, 2), (4, 4)]),
    (&[(2, 2)], &[(2, 3)]),
];

/// More processes are above fewer; of as many, the first that differs decides.
#[test]
fn cuts_are_in_order(rt: HostRuntime) -> Result<(), Fail> {
    for (low, high) in &ASCENDING {
        assert!(rt; ascend(rt.alloc(), low, high)?, "at {low:?} and {high:?}");
    }
    Ok(())
}

const CUTS: [(&[(u16, u16)], Option<ConfigError>); 4] = [
    (&[], Some(ConfigError::EmptyCut)),
    (&[(2, 2), (2, 2)], Some(ConfigError::NotSorted)),
    (&[(1, 1), (3, 3), (2, 2)], Some(ConfigError::NotSorted)),
    // processes of one identifier go by their endpoints
    (&[(2, 1), (2, 3)], None),
];

#[test]
fn cuts_are_refused_by_name(rt: HostRuntime) {
    for (numbers, expected) in &CUTS {
        assert!(rt;
            cut(rt.alloc(), numbers).err() == *expected,
            "at {numbers:?}"
        );
    }
}

/// The cut of one process, or of two.
fn cut_of(
    alloc: Global,
    first: Process,
    second: Option<Process>,
) -> Result<Result<Cut, ConfigError>, AllocError> {
    let mut processes = Vec::new(alloc);
    processes.push(first)?;
    if let Some(process) = second {
        processes.push(process)?;
    }
    Ok(Cut::new(processes))
}

#[test]
fn processes_of_a_cut_may_differ_in_tags_alone(rt: HostRuntime) -> Result<(), Fail> {
    let (bare, tagged) = (process(2), tagged(2, &[b"db"])?);
    let both = cut_of(rt.alloc(), bare, Some(tagged))??;
    assert!(rt; both.processes().to_vec(rt.alloc())?.as_slice() == [bare, tagged].as_slice());
    let turned = cut_of(rt.alloc(), tagged, Some(bare))?;
    assert!(rt; turned.err() == Some(ConfigError::NotSorted));
    let twice = cut_of(rt.alloc(), tagged, Some(tagged))?;
    assert!(rt; twice.err() == Some(ConfigError::NotSorted));
    Ok(())
}

#[test]
fn cuts_that_differ_in_tags_alone_are_in_order(rt: HostRuntime) -> Result<(), Fail> {
    let low = cut_of(rt.alloc(), process(2), None)??;
    let high = cut_of(rt.alloc(), tagged(2, &[b"db"])?, None)??;
    assert!(rt; low < high && low != high);
    assert!(rt; high < cut_of(rt.alloc(), process(3), None)??);
    Ok(())
}

/// Why the cut of the processes from 1 to `n` is refused, if it is.
fn refusal(alloc: Global, n: u16) -> Result<Option<ConfigError>, Fail> {
    Ok(Cut::new(processes(alloc, n)?).err())
}

#[test]
fn a_cut_has_at_most_1536_processes(rt: HostRuntime) -> Result<(), Fail> {
    assert!(rt; refusal(rt.alloc(), 1536)?.is_none() && Cut::MOST == 1536);
    assert!(rt; refusal(rt.alloc(), 1537)? == Some(ConfigError::TooMany));
    Ok(())
}

const CODES: [(ConfigError, u8); 11] = [
    (ConfigError::BadParams, 1),
    (ConfigError::Truncated, 2),
    (ConfigError::Trailing, 3),
    (ConfigError::BadMagic, 4),
    (ConfigError::NotSorted, 5),
    (ConfigError::EndpointTwice, 6),
    (ConfigError::TooMany, 7),
    (ConfigError::EmptyCut, 8),
    (ConfigError::HeightFull, 9),
    (ConfigError::BadTags, 10),
    (ConfigError::OutOfMemory, 99),
];

#[test]
fn refusals_have_their_numbers(rt: HostRuntime) {
    for (error, code) in &CODES {
        assert!(rt; error.code() == *code, "at {error:?}");
    }
}
