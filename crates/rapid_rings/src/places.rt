// The places of members, which are guessed first: lists that differ in few have most members in a
// row.

ghost use Rattle.std.specs.Prelude.{◌≡◌, ◌≤◌, ◌<◌, ◌∷◌, ◌++◌, [], true, length, map, position, slice_get, get_or, if◌then◌else◌, Some, IfSome, IfOk, OnOk};
ghost use Rattle.std.specs.List.{range_with_len};
ghost use Rattle.rapid_model.specs.Configuration.{position_of};
ghost use Rattle.rapid_model.specs.Limits.{most_members};
ghost use Rattle.rapid_model.specs.Process.{same_bytes};
ghost use Rattle.rapid_rings.specs.Following.{places_of_new};

use rapid_config::Configuration;
use rapid_endpoint::{Process, ProcessRef};
use std::alloc::{AllocError, Global};

/// The place of each of the processes in a configuration, if it is a member.
pub(crate) fn places_in(
    alloc: Global,
    configuration: &Configuration,
    processes: &[Process],
) -> Result<Vec<Option<u16>>, AllocError>
    ensures { IfOk result (λ places. places.items ≡ map (position_of configuration.now) processes.now) }
{
    let mut places = Vec::with_capacity(alloc, processes.len())?;
    let mut guess = 0;
    for process in processes {
        let place = place_near(configuration, guess, process);
        guess = guess_after(place, guess);
        places.push(place)?;
    }
    Ok(places)
}

/// The places of those of the processes that are no members of a configuration. `places` has the
/// place of each member among the processes, if it is one of them.
pub(crate) fn places_of_strangers(
    alloc: Global,
    configuration: &Configuration,
    processes: &[Process],
    places: &[Option<u16>],
) -> Result<Vec<u16>, AllocError>
    requires few { length processes.now ≤ most_members }
    requires places { places.now ≡ map (λ p. position (same_bytes p) processes.now) configuration.now.members }
    ensures { IfOk result (λ places. places.items ≡ places_of_new configuration.now.members processes.now) }
{
    let mut strangers = Vec::new(alloc);
    let mut guess = 0;
    for place in 0..processes.len() {
        let known = place_before(configuration, processes, places, guess, place);
        guess = guess_after(known, guess);
        push_unless(&mut strangers, known.is_some(), place as u16)?;
    }
    Ok(strangers)
}

// The place in a configuration of the process at a place, by a guess. The process is looked at only
// if the guess is wrong.
fn place_before(
    configuration: &Configuration,
    processes: &[Process],
    places: &[Option<u16>],
    guess: u16,
    place: usize,
) -> Option<u16>
    requires within { place < length processes.now }
    requires places { places.now ≡ map (λ p. position (same_bytes p) processes.now) configuration.now.members }
    ensures { result ≡ position_of configuration.now (get_or processes.now place []) }
{
    if stands_at(places, guess, place) {
        configuration.tell();
        return Some(guess);
    }
    place_of(configuration, &processes[place])
}

// Whether the member at a place before stands at this place after.
fn stands_at(places: &[Option<u16>], before: u16, after: usize) -> bool
    ensures { result ≡ true → slice_get places.now before ≡ Some (Some after) }
{
    match places.get(usize::from(before)) {
        Some(Some(place)) => usize::from(*place) == after,
        _ => false,
    }
}

// The place of a process in a configuration.
fn place_of(configuration: &Configuration, process: &Process) -> Option<u16>
    ensures { result ≡ position_of configuration.now process.now }
{
    configuration.tell();
    match configuration.position(process) {
        Some(place) => Some(place as u16),
        None => None,
    }
}

/// The places below a number.
pub(crate) fn places_below(alloc: Global, count: usize) -> Result<Vec<u16>, AllocError>
    requires { count ≤ most_members }
    ensures { IfOk result (λ places. places.items ≡ range_with_len 0 count) }
{
    let mut places = Vec::with_capacity(alloc, count)?;
    for place in 0..count {
        places.push(place as u16)?;
    }
    Ok(places)
}

// Adds a place, unless its process is known.
fn push_unless(places: &mut Vec<u16>, is_known: bool, place: u16) -> Result<(), AllocError>
    ensures { OnOk result (places.new.items ≡ (if is_known then places.old.items else places.old.items ++ place ∷ [])) }
{
    if !is_known {
        places.push(place)?;
    }
    Ok(())
}

// The place of a process in a configuration, by a guess.
fn place_near(configuration: &Configuration, guess: u16, process: &Process) -> Option<u16>
    ensures { result ≡ position_of configuration.now process.now }
{
    configuration.tell();
    match position_near(configuration, usize::from(guess), &process.as_ref()) {
        Some(place) => Some(place as u16),
        None => None,
    }
}

/// The place of a process in a configuration. It is searched for only if the process is not at the
/// guessed place.
#[inline(always)]
pub(crate) fn position_near(
    configuration: &Configuration,
    guess: usize,
    process: &ProcessRef<'_>,
) -> Option<usize>
    ensures place { result ≡ position_of configuration.now process.now }
    ensures within { IfSome result (λ place. place < length configuration.now.members) }
{
    if is_at(configuration, guess, process) {
        Some(guess)
    } else {
        configuration.place(process)
    }
}

// Whether a member is at a place. False says nothing.
fn is_at(configuration: &Configuration, place: usize, process: &ProcessRef<'_>) -> bool
    ensures place { result ≡ true → position_of configuration.now process.now ≡ Some place }
    ensures within { result ≡ true → place < length configuration.now.members }
{
    match configuration.members().get(place) {
        Some(member) => process.is(&member.as_ref()),
        None => false,
    }
}

// Where to look first for the process after one whose place was found, or was not.
fn guess_after(place: Option<u16>, guess: u16) -> u16 {
    match place {
        Some(place) => place.saturating_add(1),
        None => guess,
    }
}
