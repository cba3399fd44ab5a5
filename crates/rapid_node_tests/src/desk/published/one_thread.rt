// What one thread sees.

ghost use Rattle.std.specs.Prelude.{◌≡◌};

use crate::desk::founding::{after, founding};
use crate::desk::published::founding::{first_view, two_of, view_of};
use rapid_config::{ConfigId, Configuration, Stamp};
use rapid_view::{ViewCell, ViewError, ViewSeat, ViewWriter};
use std::alloc::Global;
use std::process::Abort;
use std::sync::Wait;
use std::test::*;

/// Publishes the view of a copy of this configuration.
fn publish<R: Wait + Drop>(
    alloc: Global,
    writer: &mut ViewWriter<R>,
    configuration: &Configuration,
) -> Result<Result<(), ViewError>, Fail>
    ensures { writer.new.cell ≡ writer.old.cell }
{
    Ok(writer.publish(view_of(alloc, configuration)?))
}

/// Publishes the three views after the first one, and gives the configuration of the last.
fn publish_three<R: Wait + Drop>(
    alloc: Global,
    writer: &mut ViewWriter<R>,
) -> Result<Configuration, Fail> {
    let mut configuration = founding(alloc)?;
    for number in 2..5u16 {
        configuration = after(alloc, &configuration, number)?;
        publish(alloc, writer, &configuration)??;
    }
    Ok(configuration)
}

/// Whether the seat finds the view of this stamp and of this configuration.
fn finds<R: Wait>(
    rt: &R,
    seat: &mut ViewSeat,
    stamp: &Stamp,
    configuration: &Configuration,
) -> Result<bool, Fail> {
    let found = seat.members(rt)?;
    Ok(
        found.stamp().id() == stamp.id()
            && found.configuration().members() == configuration.members(),
    )
}

/// The seat, which is not notified, sees each of three views that are published.
fn sees_three<R: Wait + Abort>(
    rt: &R,
    alloc: Global,
    writer: &mut ViewWriter<&R>,
    seat: &mut ViewSeat,
) -> Result<(), Fail> {
    let last = publish_three(alloc, writer)?;
    let stamp = seat.stamp();
    assert_eq!(rt; (stamp.height(), stamp.members()), (3, 4));
    assert!(rt; finds(rt, seat, &stamp, &last)?);
    Ok(())
}

#[test]
fn an_untold_seat_sees_what_is_published(rt: HostRuntime) -> Result<(), Fail> {
    let alloc = rt.alloc();
    let (mut writer, mut seats) = ViewCell::new(&rt, alloc, first_view(alloc)?, 1, 65_536)?;
    let mut seat = seats.pop().expect(&rt, "one seat");
    let stamp = seat.stamp();
    assert_eq!(rt; (stamp.height(), stamp.members()), (0, 1));
    sees_three(&rt, alloc, &mut writer, &mut seat)
}

/// The seat keeps the first view until it asks for the last of three more, and then keeps that.
fn keeps_the_last<R: Wait + Abort>(
    rt: &R,
    alloc: Global,
    writer: &mut ViewWriter<&R>,
    seat: &mut ViewSeat,
) -> Result<(), Fail> {
    let last = publish_three(alloc, writer)?;
    assert!(rt; seat.view().stamp().height() == 0);
    seat.refresh(rt)?;
    assert!(rt; seat.view().configuration().members() == last.members());
    Ok(())
}

#[test]
fn a_seat_keeps_the_view_that_it_found(rt: HostRuntime) -> Result<(), Fail> {
    let alloc = rt.alloc();
    let (mut writer, mut seats) = ViewCell::new(&rt, alloc, first_view(alloc)?, 1, 4)?;
    let mut seat = seats.pop().expect(&rt, "one seat");
    keeps_the_last(&rt, alloc, &mut writer, &mut seat)
}

/// The configuration after cuts of processes 2, 3 and 4.
fn third(alloc: Global) -> Result<Configuration, Fail> {
    let mut configuration = founding(alloc)?;
    for number in 2..5u16 {
        configuration = after(alloc, &configuration, number)?;
    }
    Ok(configuration)
}

/// Of the two views after that of this configuration the writer, which has room for one more, takes
/// the next one alone.
fn takes_the_next_alone<R: Wait + Abort>(
    rt: &R,
    alloc: Global,
    writer: &mut ViewWriter<&R>,
    third: &Configuration,
) -> Result<(), Fail> {
    let fourth = after(alloc, third, 5)?;
    let fifth = after(alloc, &fourth, 6)?;
    let refused = publish(alloc, writer, &fifth)?;
    assert!(rt; matches!(&refused, Err(ViewError::NotNext)));
    publish(alloc, writer, &fourth)??;
    let refused = publish(alloc, writer, &fifth)?;
    assert!(rt; matches!(&refused, Err(ViewError::CellFull)));
    Ok(())
}

#[test]
fn only_the_next_height_is_published(rt: HostRuntime) -> Result<(), Fail> {
    let alloc = rt.alloc();
    let third = third(alloc)?;
    let (mut writer, _seats) = ViewCell::new(&rt, alloc, view_of(alloc, &third)?, 1, 2)?;
    takes_the_next_alone(&rt, alloc, &mut writer, &third)
}

/// A seat that was told has seen as much as the one that told it, which the writer has published.
fn has_seen_as_much<R: Wait + Abort>(
    rt: &R,
    alloc: Global,
    writer: &mut ViewWriter<&R>,
    one: &mut ViewSeat,
    other: &mut ViewSeat,
) -> Result<(), Fail>
    requires { (one.old.cell ≡ writer.old.cell) × (other.old.cell ≡ writer.old.cell) }
{
    publish(alloc, writer, &after(alloc, &founding(alloc)?, 2)?)??;
    let told = one.stamp();
    other.told_by(one);
    assert!(rt; other.stamp().height() >= told.height());
    writer.compare(other);
    Ok(())
}

#[test]
fn a_told_seat_has_seen_as_much(rt: HostRuntime) -> Result<(), Fail> {
    let alloc = rt.alloc();
    let (mut writer, seats) = ViewCell::new(&rt, alloc, first_view(alloc)?, 2, 2)?;
    let (mut one, mut other) = two_of(&writer, seats).expect(&rt, "two seats");
    has_seen_as_much(&rt, alloc, &mut writer, &mut one, &mut other)
}

/// A seat that did not find the second view before the writer was gone finds it no more.
fn finds_no_more<R: Wait + Abort>(
    rt: &R,
    alloc: Global,
    mut writer: ViewWriter<&R>,
    seat: &mut ViewSeat,
) -> Result<(), Fail> {
    publish(alloc, &mut writer, &after(alloc, &founding(alloc)?, 2)?)??;
    drop(writer);
    let found = seat.members(rt);
    assert!(rt; matches!(&found, Err(ViewError::Behind(_))));
    assert!(rt; seat.stamp().height() == 1);
    Ok(())
}

#[test]
fn no_view_is_found_if_the_writer_is_gone(rt: HostRuntime) -> Result<(), Fail> {
    let alloc = rt.alloc();
    let (writer, mut seats) = ViewCell::new(&rt, alloc, first_view(alloc)?, 1, 2)?;
    let mut seat = seats.pop().expect(&rt, "one seat");
    finds_no_more(&rt, alloc, writer, &mut seat)
}

#[test]
fn a_view_that_is_kept_outlives_its_writer(rt: HostRuntime) -> Result<(), Fail> {
    let alloc = rt.alloc();
    let (writer, mut seats) = ViewCell::new(&rt, alloc, first_view(alloc)?, 1, 1)?;
    let mut seat = seats.pop().expect(&rt, "one seat");
    drop(writer);
    assert!(rt; seat.members(&rt)?.stamp().height() == 0);
    Ok(())
}

#[test]
fn errors_have_their_numbers(rt: HostRuntime) {
    let stamp = Stamp::new(1, ConfigId::zero(), Configuration::MOST);
    assert!(rt; ViewError::NotNext.code() == 1);
    assert!(rt; ViewError::Behind(stamp).code() == 2);
    assert!(rt; ViewError::NoPlace.code() == 3);
    assert!(rt; ViewError::CellFull.code() == 4);
    assert!(rt; ViewError::OutOfMemory.code() == 99);
}
