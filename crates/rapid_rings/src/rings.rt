// The rings of a configuration.

ghost use Rattle.std.specs.Prelude.{◌≡◌, ◌++◌, map, position, Some, IfOk, OnOk};
ghost use Rattle.std.specs.Option.{option_map, option_to_list};
ghost use Rattle.rapid_rings.specs.Seats.{IsOrder};
ghost use Rattle.rapid_rings.specs.Following.{places_of_new};
ghost use Rattle.rapid_model.specs.Process.{Process as ModelProcess, same_bytes};
ghost use Rattle.rapid_model.specs.Configuration.{AreMembers, position_of};
ghost use Rattle.rapid_model.specs.Ring.{observers_of, observes, subject_on, subjects_of};

use crate::ObserverTable;
use crate::known_keys::KnownKeys;
use crate::places::{places_below, places_in, places_of_strangers, position_near};
use crate::ring::{NextMembers, Ring, is_member_at};
use rapid_config::{ConfigId, Configuration, Params};
use rapid_endpoint::{Process, ProcessRef};
use std::alloc::{AllocError, Global};
use std::marker::Model;

/// The rings of a configuration. On each of them the members are ordered by their keys. Each
/// process is observed by the member next before it, going round. Rings never change: they are
/// shared by an `Arc`. The keys of up to 1,024 processes that are no members are hashed once for
/// all who share them, and for the rings that follow.
#[derive(Debug, Drop)]
pub struct Rings {
    configuration: Configuration,
    // by number
    rings: Vec<Ring>,
    keys: KnownKeys,
}

impl Model for Rings {
    ghost use Rattle.rapid_model.specs.Configuration.{Configuration as ModelConfiguration};
    ghost use Rattle.rapid_rings.specs.Seats.{HasRings};

    ghost Value = { ModelConfiguration };

    ghost view = { λ r. r.configuration };

    ghost invariant = { λ r. HasRings r.configuration r.rings.items };
}

impl Rings {
    /// The rings of a configuration.
    pub fn new(alloc: Global, configuration: &Configuration) -> Result<Rings, AllocError>
        ensures { IfOk result (λ rings. rings ≡ configuration.now) }
    {
        let members = configuration.members();
        let places = places_below(alloc, members.len())?;
        let mut rings = Vec::new(alloc);
        for number in 0..configuration.params().k() {
            rings.push(Ring::new(alloc, number, members, places.as_slice())?)?;
        }
        Ok(Rings {
            configuration: configuration.try_copy(alloc)?,
            rings,
            keys: KnownKeys::new(alloc, configuration.params().k())?,
        })
    }

    /// The rings of a configuration that follows: keys are computed of newcomers only, if they are
    /// not known yet.
    pub fn next(&self, alloc: Global, configuration: &Configuration) -> Result<Rings, AllocError>
        ensures { IfOk result (λ rings. rings ≡ configuration.now) }
    {
        let members = configuration.members();
        // searched for once: a place in a configuration is the same on all rings
        let places = places_in(alloc, configuration, self.configuration.members())?;
        let places = places.as_slice();
        let newcomers = places_of_strangers(alloc, &self.configuration, members, places)?;
        let newcomers = newcomers.as_slice();
        let params = configuration.params();
        let mut rings = Vec::new(alloc);
        for number in 0..params.k() {
            rings.push(self.next_ring(alloc, number, members, places, newcomers)?)?;
        }
        Ok(Rings {
            configuration: configuration.try_copy(alloc)?,
            rings,
            keys: KnownKeys::new(alloc, params.k())?,
        })
    }

    // The ring with this number of the next members. `places` has the places there of the members
    // before, `newcomers` those of the new ones.
    fn next_ring(
        &self,
        alloc: Global,
        number: u8,
        members: &[Process],
        places: &[Option<u16>],
        newcomers: &[u16],
    ) -> Result<Ring, AllocError>
        requires members { AreMembers members.now }
        requires places { places.now ≡ map (λ p. position (same_bytes p) members.now) self.now.members }
        requires newcomers { newcomers.now ≡ places_of_new self.now.members members.now }
        ensures { IfOk result (λ ring. IsOrder number members.now ring) }
    {
        match self.rings.get(usize::from(number)) {
            Some(ring) => {
                let after = NextMembers {
                    members,
                    places,
                    newcomers,
                };
                ring.next(alloc, number, after, &self.keys)
            }
            None => {
                let places = places_below(alloc, members.len())?;
                Ring::new(alloc, number, members, places.as_slice())
            }
        }
    }

    /// The pairs of a ring and the member that the process observes on it, by ring. It costs one
    /// search for the process.
    pub fn subjects_of(
        &self,
        alloc: Global,
        process: &Process,
    ) -> Result<Vec<(u8, Process)>, AllocError>
        ensures { IfOk result (λ subjects. subjects.items ≡ subjects_of self.now process.now) }
    {
        match self.configuration.position(process) {
            Some(place) => self.subjects_at(alloc, place),
            None => Ok(Vec::new(alloc)),
        }
    }

    /// The member that the process observes on a ring, from 0. None if there is no such ring, if it
    /// observes no member on it, or if it is no member itself. It takes no memory, and costs one
    /// search for the process.
    pub fn subject_on(&self, ring: u8, process: &Process) -> Option<Process>
        ensures { result ≡ subject_on self.now process.now ring }
    {
        match self.configuration.position(process) {
            Some(place) => self.subject(ring, place),
            None => None,
        }
    }

    // The pairs of a ring and the member that the member at a place observes on it, by ring.
    fn subjects_at(&self, alloc: Global, place: usize) -> Result<Vec<(u8, Process)>, AllocError>
        ensures { (observer : ModelProcess) → position_of self.now observer ≡ Some place →
            IfOk result (λ subjects. subjects.items ≡ subjects_of self.now observer) }
    {
        let mut subjects = Vec::new(alloc);
        for ring in 0..self.params().k() {
            push_any(&mut subjects, ring, self.subject(ring, place))?;
        }
        Ok(subjects)
    }

    // The member that the member at a place observes on a ring.
    fn subject(&self, ring: u8, place: usize) -> Option<Process>
        ensures { (observer : ModelProcess) → position_of self.now observer ≡ Some place →
            result ≡ subject_on self.now observer ring }
    {
        match self.rings.get(usize::from(ring)) {
            Some(seats) => seats.subject(ring, self.configuration.members(), place),
            None => None,
        }
    }

    // The observer of a process on a ring. If the process is a member, `place` is its place.
    #[tactic(auto, unfolding(rapid_model::specs::Ring::observers_of))]
    fn observer_of(&self, ring: u8, place: Option<usize>, process: &Process) -> Option<Process>
        requires { place ≡ position_of self.now process.now }
        ensures { result ≡ (observers_of self.now).observer ring process.now }
    {
        match self.rings.get(usize::from(ring)) {
            Some(seats) => seats.observer(
                ring,
                self.configuration.members(),
                place,
                process,
                &self.keys,
            ),
            None => None,
        }
    }

    // Whether a process observes another on a ring. If the other is a member, `place` is its place.
    #[tactic(auto, unfolding(rapid_model::specs::Ring::observers_of))]
    fn is_observed_by(
        &self,
        observer: &ProcessRef<'_>,
        ring: u8,
        place: Option<usize>,
        process: &ProcessRef<'_>,
    ) -> bool
        requires { place ≡ position_of self.now process.now }
        ensures { result ≡ observes (observers_of self.now) observer.now ring process.now }
    {
        match self.rings.get(usize::from(ring)) {
            Some(seats) => {
                let members = self.configuration.members();
                let found = seats.place_of_observer(ring, members, place, process, &self.keys);
                is_member_at(members, found, observer)
            }
            None => false,
        }
    }
}

// Adds the pair of a ring and the subject on it, if there is one.
fn push_any(
    subjects: &mut Vec<(u8, Process)>,
    ring: u8,
    subject: Option<Process>,
) -> Result<(), AllocError>
    ensures { OnOk result (subjects.new.items ≡ subjects.old.items ++ option_to_list (option_map (λ s. (ring, s)) subject)) }
{
    if let Some(subject) = subject {
        subjects.push((ring, subject))?;
    }
    Ok(())
}

#[tactic(auto, unfolding(rapid_model::specs::Ring::observers_of))]
impl ObserverTable for Rings {
    ghost observers = { observers_of };

    fn params(&self) -> Params {
        self.configuration.tell();
        self.configuration.params()
    }

    fn id(&self) -> ConfigId {
        self.configuration.id()
    }

    fn is_member(&self, process: &Process) -> bool {
        self.configuration.is_member(process)
    }

    fn observer(&self, ring: u8, subject: &Process) -> Option<Process> {
        self.observer_of(ring, self.configuration.position(subject), subject)
    }

    fn member_and_observer(&self, ring: u8, subject: &Process) -> (bool, Option<Process>) {
        let place = self.configuration.position(subject);
        (place.is_some(), self.observer_of(ring, place, subject))
    }

    fn member_and_observer_near(
        &self,
        ring: u8,
        subject: &Process,
        place: &mut usize,
    ) -> (bool, Option<Process>) {
        let found = position_near(&self.configuration, *place, &subject.as_ref());
        *place = found.unwrap_or(*place);
        (found.is_some(), self.observer_of(ring, found, subject))
    }

    fn member_and_observes_near(
        &self,
        observer: &ProcessRef<'_>,
        ring: u8,
        subject: &ProcessRef<'_>,
        place: &mut usize,
    ) -> (bool, bool) {
        let found = position_near(&self.configuration, *place, subject);
        *place = found.unwrap_or(*place);
        let observes = self.is_observed_by(observer, ring, found, subject);
        (found.is_some(), observes)
    }

    fn may_observe(&self, process: &Process) -> bool {
        self.is_member(process)
    }

    fn may_any_observe_itself(&self) -> bool {
        false
    }
}
