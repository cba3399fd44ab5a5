// One ring.

ghost use Rattle.std.specs.Prelude.{◌≡◌, ◌≤◌, ◌<◌, ℕ, true, false, All, List, length, map, set, position, slice_get, Some, None, IsTrue, IfOk};
ghost use Rattle.std.specs.List.{range_with_len, find};
ghost use Rattle.std.specs.List.Sorted.{IsPartitionPoint};
ghost use Rattle.std.specs.Option.{option_eq};
ghost use Rattle.rapid_model.specs.Process.{Process as ModelProcess, same_bytes};
ghost use Rattle.rapid_model.specs.Configuration.{identifiers_ascend};
ghost use Rattle.rapid_model.specs.Ring as model;
ghost use Rattle.rapid_rings.specs.Seats.{IsOrder, member_below, place_at, other_at, rank_before, rank_after, member_if_any};
ghost use Rattle.rapid_rings.specs.Following.{places_of_new};

use crate::known_keys::KnownKeys;
use crate::seats::{Seat, add_seats, seats_at, seats_moved};
use rapid_endpoint::{Process, ProcessRef};
use std::alloc::{AllocError, Global};
use std::cmp::Ordering;
use std::marker::Model;

/// The members of the configuration that follows one.
#[derive(Clone, Copy, Debug)]
pub(crate) struct NextMembers<'a> {
    /// All of them.
    pub(crate) members: &'a [Process],
    /// Of each member before: its place among them, if it stays.
    pub(crate) places: &'a [Option<u16>],
    /// The places of those that are new.
    pub(crate) newcomers: &'a [u16],
}

/// The seats of the members on one ring. Members are named by their places in the configuration.
#[derive(Debug, Drop)]
pub(crate) struct Ring {
    // ascending
    seats: Vec<Seat>,
    // of each member, by place: the rank of its seat
    ranks: Vec<usize>,
}

impl Model for Ring {
    ghost use Rattle.std.specs.Prelude.{List};
    ghost use Rattle.rapid_rings.specs.Seats.{Placed, AreRanks};

    ghost Value = { List Placed };

    ghost view = { λ r. r.seats.items };

    ghost invariant = { λ r. AreRanks r.seats.items r.ranks.items };
}

impl Ring {
    /// The ring with this number of members, of whom these are the places.
    pub(crate) fn new(
        alloc: Global,
        number: u8,
        members: &[Process],
        places: &[u16],
    ) -> Result<Ring, AllocError>
        requires all { places.now ≡ range_with_len 0 (length members.now) }
        requires ascend { IsTrue (identifiers_ascend members.now) }
        ensures { IfOk result (λ ring. IsOrder number members.now ring) }
    {
        let mut seats = seats_at(alloc, number, members, places, &KnownKeys::none(alloc))?;
        seats.sort_unstable();
        ranked(alloc, seats, members.len())
    }

    /// The same ring of the members that follow.
    pub(crate) fn next(
        &self,
        alloc: Global,
        number: u8,
        after: NextMembers<'_>,
        keys: &KnownKeys,
    ) -> Result<Ring, AllocError>
        requires ascend { IsTrue (identifiers_ascend after.members.now) }
        requires before { (before : List ModelProcess) × IsOrder number before self.now
            × (after.places.now ≡ map (λ p. position (same_bytes p) after.members.now) before) × (after.newcomers.now ≡ places_of_new before after.members.now) }
        ensures { IfOk result (λ ring. IsOrder number after.entry.members.now ring) }
    {
        let NextMembers {
            members,
            places,
            newcomers,
        } = after;
        let mut seats = seats_moved(alloc, self.seats.as_slice(), places, newcomers.len())?;
        let more = seats_at(alloc, number, members, newcomers, keys)?;
        add_seats(&mut seats, more.as_slice())?;
        ranked(alloc, seats, members.len())
    }

    /// The observer of a process on the ring with this number. If the process is a member, `place`
    /// is its place.
    pub(crate) fn observer(
        &self,
        number: u8,
        members: &[Process],
        place: Option<usize>,
        process: &Process,
        keys: &KnownKeys,
    ) -> Option<Process>
        requires order { IsOrder number members.now self.now }
        requires ascend { IsTrue (identifiers_ascend members.now) }
        requires place { place ≡ position (same_bytes process.now) members.now }
        ensures { result ≡ model.ring_observer members.now number process.now }
    {
        member_at(
            members,
            self.place_of_observer(number, members, place, &process.as_ref(), keys),
        )
    }

    /// The place of the observer of a process on the ring with this number. If the process is a
    /// member, `place` is its place.
    pub(crate) fn place_of_observer(
        &self,
        number: u8,
        members: &[Process],
        place: Option<usize>,
        process: &ProcessRef<'_>,
        keys: &KnownKeys,
    ) -> Option<u16>
        requires order { IsOrder number members.now self.now }
        requires ascend { IsTrue (identifiers_ascend members.now) }
        requires place { place ≡ position (same_bytes process.now) members.now }
        ensures { member_if_any members.now result ≡ model.ring_observer members.now number process.now }
    {
        match place {
            Some(place) => self.place_before(place),
            None => self.place_before_stranger(number, members, process, keys),
        }
    }

    /// The member that the one at this place observes on the ring with this number.
    pub(crate) fn subject(&self, number: u8, members: &[Process], place: usize) -> Option<Process>
        requires order { IsOrder number members.now self.now }
        requires ascend { IsTrue (identifiers_ascend members.now) }
        ensures { (observer : ModelProcess) → slice_get members.now place ≡ Some observer →
            result ≡ find (λ m. option_eq same_bytes (model.ring_observer members.now number m) (Some observer)) members.now }
    {
        member_at(members, self.place_after(place))
    }

    // The place of the observer of a process that is no member. It stands apart: room for a process
    // takes time at each call of the function that has it.
    #[inline(never)]
    fn place_before_stranger(
        &self,
        number: u8,
        members: &[Process],
        process: &ProcessRef<'_>,
        keys: &KnownKeys,
    ) -> Option<u16>
        requires order { IsOrder number members.now self.now }
        requires ascend { IsTrue (identifiers_ascend members.now) }
        requires stranger { position (same_bytes process.now) members.now ≡ None }
        ensures { member_if_any members.now result ≡ model.ring_observer members.now number process.now }
    {
        let process = process.to_process();
        let below = self.count_below(members, &keys.key(number, &process), &process);
        self.place(previous(below, self.count()))
    }

    // How many seats are below that of a process with this key.
    fn count_below(&self, members: &[Process], key: &[u8; 32], process: &Process) -> usize
        requires order { (number : ℕ) × IsOrder number members.now self.now }
        requires ascend { IsTrue (identifiers_ascend members.now) }
        ensures bound { result ≤ length self.now }
        ensures point { IsPartitionPoint (λ x. member_below members.now (key.now, process.now) x ≡ true) (λ x. member_below members.now (key.now, process.now) x ≡ false) self.now result }
    {
        let seats = self.seats.as_slice();
        seats.partition_point(|other| is_below(members, other, key, process))
    }

    // The place of the member in the seat before that of the member at this place, going round;
    // none if it is alone.
    fn place_before(&self, place: usize) -> Option<u16>
        ensures { (i : ℕ) → place_at self.now i ≡ Some place →
            (rank : ℕ) × (place_at self.now rank ≡ Some place) × (result ≡ other_at self.now (rank_before rank (length self.now)) place) }
    {
        match self.ranks.get(place) {
            Some(rank) => self.other(previous(*rank, self.count()), place),
            None => None,
        }
    }

    // The place of the member in the seat after that of the member at this place, going round; none
    // if it is alone.
    fn place_after(&self, place: usize) -> Option<u16>
        ensures { (i : ℕ) → place_at self.now i ≡ Some place →
            (rank : ℕ) × (place_at self.now rank ≡ Some place) × (result ≡ other_at self.now (rank_after rank (length self.now)) place) }
    {
        match self.ranks.get(place) {
            Some(rank) => self.other(following(*rank, self.count()), place),
            None => None,
        }
    }

    // The place of the member in a seat, unless it is this one.
    fn other(&self, rank: usize, place: usize) -> Option<u16>
        ensures { result ≡ other_at self.now rank place }
    {
        match self.place(rank) {
            Some(other) => {
                if usize::from(other) == place {
                    None
                } else {
                    Some(other)
                }
            }
            None => None,
        }
    }

    // How many seats there are.
    fn count(&self) -> usize
        ensures { result ≡ length self.now }
    {
        self.seats.as_slice().len()
    }

    // The place of the member in a seat.
    fn place(&self, rank: usize) -> Option<u16>
        ensures { result ≡ place_at self.now rank }
    {
        match self.seats.get(rank) {
            Some(seat) => Some(seat.1),
            None => None,
        }
    }
}

// The ring of these seats, which are those of `count` members.
fn ranked(alloc: Global, seats: Vec<Seat>, count: usize) -> Result<Ring, AllocError>
    requires { All (λ x. x.1 < count) seats.items }
    ensures { IfOk result (λ ring. ring ≡ seats.items) }
{
    let mut ranks = Vec::new(alloc);
    ranks.resize(count, 0)?;
    for rank in 0..seats.len() {
        note_rank(&mut ranks, seats[rank].1, rank);
    }
    Ok(Ring { seats, ranks })
}

// Notes the rank of the member at a place.
fn note_rank(ranks: &mut Vec<usize>, place: u16, rank: usize)
    requires { place < length ranks.old.items }
    ensures { ranks.new.items ≡ set ranks.old.items place rank }
{
    ranks[usize::from(place)] = rank;
}

// The rank before another among `count`, going round.
fn previous(rank: usize, count: usize) -> usize
    ensures { result ≡ rank_before rank count }
{
    if rank == 0 {
        count.saturating_sub(1)
    } else {
        rank - 1
    }
}

// The rank after another among `count`, going round.
fn following(rank: usize, count: usize) -> usize
    ensures { result ≡ rank_after rank count }
{
    if rank >= count.saturating_sub(1) {
        0
    } else {
        rank + 1
    }
}

// The member at a place.
fn member_at(members: &[Process], place: Option<u16>) -> Option<Process>
    ensures { result ≡ member_if_any members.now place }
{
    match place {
        Some(place) => members.get(usize::from(place)).copied(),
        None => None,
    }
}

/// Whether this member is at a place.
pub(crate) fn is_member_at(members: &[Process], place: Option<u16>, member: &ProcessRef<'_>) -> bool
    ensures { result ≡ option_eq same_bytes (member_if_any members.now place) (Some member.now) }
{
    match place {
        Some(place) => is_at(members, usize::from(place), member),
        None => false,
    }
}

// Whether this member is at a place, by its number.
fn is_at(members: &[Process], place: usize, member: &ProcessRef<'_>) -> bool
    ensures { result ≡ option_eq same_bytes (slice_get members.now place) (Some member.now) }
{
    match members.get(place) {
        Some(found) => found.as_ref().is(member),
        None => false,
    }
}

// Whether the seat of a member is below that of a process with this key.
fn is_below(members: &[Process], seat: &Seat, key: &[u8; 32], process: &Process) -> bool
    ensures { result ≡ member_below members.now (key.now, process.now) seat.now }
{
    match members.get(usize::from(seat.1)) {
        Some(member) => match seat.0.cmp(key) {
            Ordering::Less => true,
            Ordering::Equal => member.cmp(process).is_lt(),
            Ordering::Greater => false,
        },
        None => false,
    }
}
