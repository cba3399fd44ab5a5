// The seats of members on one ring.

ghost use Rattle.std.specs.Prelude.{◌≡◌, [], ◌∷◌, ◌++◌, ◌<◌, All, length, map, IfOk, OnOk};
ghost use Rattle.std.specs.List.Sorted.{IsPermutation};
ghost use Rattle.std.specs.Ordering.{is_lt};
ghost use Rattle.std.specs.Option.{option_map, option_to_list};
ghost use Rattle.rapid_model.specs.Ring as model;
ghost use Rattle.rapid_rings.specs.Seats.{placed, placed_cmp, moved, move_to, PlacedAscend};

use crate::known_keys::KnownKeys;
use rapid_endpoint::Process;
use sha2::{Digest, Sha256};
use std::alloc::{AllocError, Global};

/// Up to this many seats are put in their places one by one: that costs less than a sort of all.
const FEW: usize = 8;

/// The key of a member on a ring, with its place in the configuration. Seats are ordered by key;
/// ties are broken by place, since members ascend.
pub(crate) type Seat = ([u8; 32], u16);

/// The key of a process on a ring: the SHA-256 (FIPS 180-4) of the ring's number, the identifier
/// and the endpoint.
pub(crate) fn ring_key(ring: u8, process: &Process) -> [u8; 32]
    ensures { result ≡ model.ring_key ring process.now }
{
    let mut hasher = Sha256::new();
    hasher.update(&[ring]);
    hasher.update(&process.key_bytes());
    hasher.finalize()
}

/// The seats of the members at these places. Keys that are known are not hashed anew.
pub(crate) fn seats_at(
    alloc: Global,
    ring: u8,
    members: &[Process],
    places: &[u16],
    keys: &KnownKeys,
) -> Result<Vec<Seat>, AllocError>
    requires { All (λ place. place < length members.now) places.now }
    ensures { IfOk result (λ seats. seats.items ≡ map (placed ring members.now) places.now) }
{
    let mut seats = Vec::with_capacity(alloc, places.len())?;
    for place in places {
        let member = &members[usize::from(*place)];
        seats.push((keys.key(ring, member), *place))?;
    }
    Ok(seats)
}

/// The seats of those that have a place in the next configuration, there, with room for more.
pub(crate) fn seats_moved(
    alloc: Global,
    seats: &[Seat],
    places: &[Option<u16>],
    more: usize,
) -> Result<Vec<Seat>, AllocError>
    ensures { IfOk result (λ kept. kept.items ≡ moved places.now seats.now) }
{
    let mut kept = Vec::with_capacity(alloc, seats.len().saturating_add(more))?;
    for seat in seats {
        push_moved(&mut kept, seat, place_after(places, seat.1))?;
    }
    Ok(kept)
}

// The place in the next configuration of the process at a place.
fn place_after(places: &[Option<u16>], place: u16) -> Option<u16>
    ensures { result ≡ move_to places.now place }
{
    match places.get(usize::from(place)) {
        Some(after) => *after,
        None => None,
    }
}

// Adds a seat at its next place, if it has one.
fn push_moved(kept: &mut Vec<Seat>, seat: &Seat, place: Option<u16>) -> Result<(), AllocError>
    ensures { OnOk result (kept.new.items ≡ kept.old.items ++ option_to_list (option_map (λ p. (seat.now.0, p)) place)) }
{
    if let Some(place) = place {
        kept.push((seat.0, place))?;
    }
    Ok(())
}

/// Puts more seats in their places among those that ascend.
pub(crate) fn add_seats(seats: &mut Vec<Seat>, more: &[Seat]) -> Result<(), AllocError>
    requires { PlacedAscend seats.old.items }
    ensures all { OnOk result (IsPermutation (seats.old.items ++ more.now) seats.new.items) }
    ensures ascend { OnOk result (PlacedAscend seats.new.items) }
{
    if more.len() <= FEW {
        insert_each(seats, more)
    } else {
        seats.extend_from_slice(more)?;
        seats.sort()?;
        Ok(())
    }
}

// Puts a few more seats in their places, one by one.
fn insert_each(seats: &mut Vec<Seat>, more: &[Seat]) -> Result<(), AllocError>
    requires { PlacedAscend seats.old.items }
    ensures all { OnOk result (IsPermutation (seats.old.items ++ more.now) seats.new.items) }
    ensures ascend { OnOk result (PlacedAscend seats.new.items) }
{
    for seat in more {
        insert_seat(seats, *seat)?;
    }
    Ok(())
}

// Puts one more seat in its place.
fn insert_seat(seats: &mut Vec<Seat>, seat: Seat) -> Result<(), AllocError>
    requires { PlacedAscend seats.old.items }
    ensures all { OnOk result (IsPermutation (seats.old.items ++ seat ∷ []) seats.new.items) }
    ensures ascend { OnOk result (PlacedAscend seats.new.items) }
{
    let place = seats
        .as_slice()
        .partition_point(|other| is_below(other, &seat));
    seats.insert(place, seat)?;
    Ok(())
}

// Whether a seat is below another.
fn is_below(seat: &Seat, other: &Seat) -> bool
    ensures { result ≡ is_lt (placed_cmp seat.now other.now) }
{
    seat.cmp(other).is_lt()
}
