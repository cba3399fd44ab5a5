// The frames of a world's packets.

use crate::numbered::{endpoint, id, process, tagged};
use crate::world::worlds::{alone, founded};
use rapid_endpoint::Endpoint;
use rapid_world::World;
use rapid_world::WorldEvent::{Deliver, Probe, Start, Tick};
use std::test::Fail;

/// The frame by which the process 2 asks to join.
const PRE_JOIN: [u8; 29] = [
    0, 0, 0, 0x19, 2, 8, 0, 0, 0, 0, 0, 0, 0, 0, 0, 0, 0, 0, 0, 0, 0, 2, 0x7f, 0, 0, 1, 0, 2, 0,
];

/// The frame by which it asks to join if it has the tag `db`.
const PRE_JOIN_TAGGED: [u8; 32] = [
    0, 0, 0, 0x1c, 2, 8, 0, 0, 0, 0, 0, 0, 0, 0, 0, 0, 0, 0, 0, 0, 0, 2, 0x7f, 0, 0, 1, 0, 2, 1, 2,
    0x64, 0x62,
];

/// Whether this packet goes to this endpoint with these bytes.
fn is_packet(world: &World, number: u64, to: Endpoint, bytes: &[u8]) -> bool {
    match world.frame(number) {
        Some(packet) => packet.0 == to && packet.1 == bytes,
        None => false,
    }
}

/// Whether two packets go to these endpoints with the same bytes.
fn are_one_frame(world: &World, first: (u64, Endpoint), second: (u64, Endpoint)) -> bool {
    match world.frame(first.0) {
        Some(packet) => packet.0 == first.1 && is_packet(world, second.0, second.1, packet.1),
        None => false,
    }
}

#[test]
fn a_packet_is_the_frame_of_its_message(rt: HostRuntime) -> Result<(), Fail> {
    let mut world = alone(rt.alloc())?;
    assert!(&rt; world.frame(1).is_none());
    let accepted = world.run(&[Start(process(2), endpoint(1)), Tick(id(2))]);
    assert_eq!(&rt; accepted, 2);
    assert!(&rt; is_packet(&world, 1, endpoint(1), &PRE_JOIN));
    assert!(&rt; world.frame(0).is_none() && world.frame(2).is_none());
    let delivered = world.run(&[Deliver(1)]);
    assert_eq!(&rt; delivered, 1);
    assert!(&rt; is_packet(&world, 1, endpoint(1), &PRE_JOIN));
    assert!(&rt; world.frame(2).is_some() && world.frame(3).is_none());
    Ok(())
}

#[test]
fn a_packet_has_the_tags_of_its_sender(rt: HostRuntime) -> Result<(), Fail> {
    let mut world = alone(rt.alloc())?;
    let accepted = world.run(&[Start(tagged(2, &[b"db"])?, endpoint(1)), Tick(id(2))]);
    assert_eq!(&rt; accepted, 2);
    assert!(&rt; is_packet(&world, 1, endpoint(1), &PRE_JOIN_TAGGED));
    Ok(())
}

#[test]
fn a_broadcast_is_one_frame(rt: HostRuntime) -> Result<(), Fail> {
    let mut world = founded(rt.alloc(), &[process(1), process(2), process(3)])?;
    let accepted = world.run(&[
        Probe(id(1), 0, false),
        Probe(id(1), 0, false),
        Probe(id(1), 0, false),
        Probe(id(1), 0, false),
        Tick(id(1)),
    ]);
    assert_eq!(&rt; accepted, 5);
    assert_eq!(&rt; world.packets(), 2);
    assert!(&rt; are_one_frame(&world, (1, endpoint(2)), (2, endpoint(3))));
    Ok(())
}
