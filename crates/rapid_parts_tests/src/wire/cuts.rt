// Cuts that are read from frames.

use crate::numbered::{process, shared};
use crate::short_lists::{LISTS, list, seven};
use rapid_config::{ConfigId, Cut};
use rapid_endpoint::Process;
use rapid_message::{Body, Message};
use rapid_wire::{encode, read_frame};
use std::alloc::Global;
use std::test::Fail;

/// Whether a cut that is voted for equals the one that is read from the vote's frame.
fn comes_back(alloc: Global, cut: &Cut) -> Result<bool, Fail> {
    let vote = Body::FastVote(ConfigId::zero(), cut.try_copy(alloc)?);
    let frame = encode(alloc, &Message::new(shared(alloc, &process(1))?, vote)?)?;
    let read = read_frame(alloc, None, frame.as_slice())?;
    match read.body() {
        Body::FastVote(_, found) => Ok(*found == *cut && found.cmp(cut).is_eq()),
        _ => Ok(false),
    }
}

/// Whether the cut of these processes comes back; not if they are none.
fn cut_comes_back(alloc: Global, processes: Vec<Process>) -> Result<bool, Fail> {
    match Cut::new(processes) {
        Ok(cut) => comes_back(alloc, &cut),
        Err(_) => Ok(false),
    }
}

/// Of seven processes, with tags and without, there are 7 cuts of one, 21 of two and 35 of three.
#[test]
fn a_cut_that_is_read_equals_the_one_that_was_written(rt: HostRuntime) -> Result<(), Fail> {
    let seven = seven()?;
    let mut came = 0usize;
    for number in 0..LISTS {
        let processes = list(rt.alloc(), &seven, number)?;
        came = came.saturating_add(usize::from(cut_comes_back(rt.alloc(), processes)?));
    }
    assert!(rt; came == 63);
    Ok(())
}
