// The most seats that a desk has.

use crate::desk::founding::{alone, let_three_in};
use rapid_view::ViewSeat;
use std::process::Abort;
use std::sync::Wait;
use std::test::Fail;

/// Checks that each seat sees and finds the view of this height.
fn assert_all_at<R: Wait + Abort>(rt: &R, seats: &mut [ViewSeat], height: u64) -> Result<(), Fail> {
    for seat in seats {
        assert_eq!(rt; seat.stamp().height(), height);
        assert_eq!(rt; seat.members(rt)?.stamp().height(), height);
    }
    Ok(())
}

#[test]
fn each_of_64_seats_finds_the_view(rt: HostRuntime) -> Result<(), Fail> {
    let mut desk = alone(&rt, rt.alloc(), 64)?;
    let mut seats = desk.take_seats().expect(&rt, "the seats");
    assert_eq!(rt; seats.len(), 64);
    assert_all_at(&rt, seats.as_mut_slice(), 0)?;
    let _last = let_three_in(rt.alloc(), &mut *desk)?;
    assert_all_at(&rt, seats.as_mut_slice(), 3)
}
