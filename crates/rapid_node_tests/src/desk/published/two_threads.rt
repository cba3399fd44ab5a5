// Two seats in two threads, beside a writer.

ghost use Rattle.std.specs.Prelude.{◌≡◌};

use crate::desk::founding::{after, founding};
use crate::desk::published::founding::{first_view, two_of, view_of};
use rapid_view::{View, ViewCell, ViewSeat, ViewWriter};
use std::alloc::Global;
use std::process::Abort;
use std::sync::Wait;
use std::test::*;
use std::thread::join;

/// How often a seat looks.
const LOOKS: usize = 2_000;

/// What a seat saw: whether the heights never fell, and the last of them.
#[derive(Clone, Copy)]
struct Sighting {
    rose: bool,
    last: u64,
}

/// Looks often.
fn watch(mut seat: ViewSeat) -> (ViewSeat, Sighting)
    ensures { result.0.cell ≡ seat.cell }
{
    let seen = look_often(&mut seat);
    (seat, seen)
}

/// Looks often.
fn look_often(seat: &mut ViewSeat) -> Sighting
    ensures { seat.new.cell ≡ seat.old.cell }
{
    let mut rose = true;
    let mut last = 0;
    for _ in 0..LOOKS {
        let height = seat.stamp().height();
        if height < last {
            rose = false;
        }
        last = height;
    }
    Sighting { rose, last }
}

/// Publishes the views in turn, and says whether all were published.
fn publish_all<R: Wait + Drop>(
    mut writer: ViewWriter<R>,
    views: Vec<View>,
) -> (ViewWriter<R>, bool) {
    let mut all = true;
    for view in views {
        if writer.publish(view).is_err() {
            all = false;
        }
    }
    (writer, all)
}

/// The views of the hundred configurations after the founding one.
fn hundred_views(alloc: Global) -> Result<Vec<View>, Fail> {
    let mut configuration = founding(alloc)?;
    let mut views = Vec::with_capacity(alloc, 100)?;
    for number in 2..102u16 {
        configuration = after(alloc, &configuration, number)?;
        views.push(view_of(alloc, &configuration)?)?;
    }
    Ok(views)
}

/// A seat that is told by another has seen the last height of that one, and finds the hundredth
/// view.
fn sees_the_last<R: Wait + Abort>(
    rt: &R,
    one: &mut ViewSeat,
    other: &mut ViewSeat,
    last: u64,
) -> Result<(), Fail>
    requires { one.old.cell ≡ other.old.cell }
{
    one.told_by(other);
    assert!(rt; one.stamp().height() >= last);
    assert_eq!(rt; one.members(rt)?.stamp().height(), 100);
    Ok(())
}

#[test]
fn two_threads_read_beside_a_writer(rt: HostRuntime) -> Result<(), Fail> {
    let alloc = rt.alloc();
    let views = hundred_views(alloc)?;
    let (writer, seats) = ViewCell::new(&rt, alloc, first_view(alloc)?, 2, 101)?;
    let (one, other) = two_of(&writer, seats).expect(&rt, "two seats");
    let ((first, second), published) = join(
        &rt,
        move || -> ((ViewSeat, Sighting), (ViewSeat, Sighting))
            ensures { (result.0.0.cell ≡ one.cell) × (result.1.0.cell ≡ other.cell) }
        {
            join(
                &rt,
                move || -> (ViewSeat, Sighting)
                    ensures { result.0.cell ≡ one.cell }
                { watch(one) },
                move || -> (ViewSeat, Sighting)
                    ensures { result.0.cell ≡ other.cell }
                { watch(other) },
            )
        },
        move || publish_all(writer, views),
    );
    // The list of members is there as long as its writer is.
    let (_writer, published) = published;
    assert!(rt; published);
    let (mut one, seen) = first;
    let (mut other, told) = second;
    assert!(rt; seen.rose && told.rose);
    sees_the_last(&rt, &mut one, &mut other, told.last)
}
