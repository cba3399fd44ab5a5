// The seats at the published view that a service gives.

use bytes::Bytes;
use rapid_config::{Configuration, Params};
use rapid_endpoint::{Endpoint, Process, ProcessId, SharedProcess};
use rapid_message::{Body, Message};
use rapid_service::{Post, Service};
use std::alloc::{AllocError, Global};
use std::process::Abort;
use std::sync::Wait;
use std::test::Fail;

/// The process of this number.
fn process(number: u8) -> Process {
    let id = [0, 0, 0, 0, 0, 0, 0, 0, 0, 0, 0, 0, 0, 0, 0, number];
    Process::new(
        ProcessId::new(id),
        Endpoint::new([127, 0, 0, 1], 7_600 + u16::from(number)),
    )
}

/// The process of this number, to be shared.
fn shared(alloc: Global, number: u8) -> Result<SharedProcess, AllocError> {
    SharedProcess::new(alloc, &process(number))
}

/// Takes no frames.
#[derive(Drop)]
struct Nowhere;

impl Post for Nowhere {
    ghost has_posted = { λ _ _ _. Unit {0} };

    ghost idle = { λ _. tt };

    ghost later = { λ _ _ _ _ _ _ _. tt };

    fn post<W: Wait>(&mut self, _rt: &W, _to: Endpoint, _frame: Bytes) {}
}

/// How many seats a service gives of ten that are asked for.
fn seats_of<R: Wait + Copy + Drop>(service: &mut Service<R, Nowhere>) -> u32 {
    let mut seats = 0u32;
    for _ in 0..10 {
        if service.take_seat().is_some() {
            seats = seats.wrapping_add(1);
        }
    }
    seats
}

#[test]
fn a_founder_has_eight_seats(rt: HostRuntime) -> Result<(), Fail> {
    let params = Params::new(3, 3, 1)?;
    let mut service = Service::found(&rt, rt.alloc(), params, process(1), Nowhere)?;
    assert_eq!(rt; seats_of(&mut service), 8);
    service.tick()?;
    assert_eq!(rt; seats_of(&mut service), 0);
    Ok(())
}

#[test]
fn a_joiner_has_eight_seats_from_its_first_view_on(rt: HostRuntime) -> Result<(), Fail> {
    let alloc = rt.alloc();
    let seed = process(2).endpoint();
    let mut service = Service::join(&rt, alloc, process(1), seed, Nowhere)?;
    service.tick()?;
    assert_eq!(rt; seats_of(&mut service), 0);
    let members = [process(1), process(2)];
    let both = Configuration::seed(alloc, Params::new(3, 3, 1)?, &members)?;
    service.receive(Message::new(shared(alloc, 2)?, Body::Confirm(both))?)?;
    assert_eq!(rt; seats_of(&mut service), 8);
    Ok(())
}
