// What a table keeps of each process that it names.

ghost use Rattle.std.specs.Prelude.{◌≡◌, None, not, ◌&&◌, get_or};

use crate::maybe_place::MaybePlace;
use rapid_config::Params;

/// What a table keeps of a process beside its name.
#[derive(Clone, Copy, Debug)]
pub(crate) struct Row {
    /// whether it is a joiner
    pub(crate) is_joiner: bool,
    /// whether it has an observer
    pub(crate) is_observed: bool,
    /// the places of its observers, by ring
    pub(crate) observers: [MaybePlace; Params::MOST_RINGS as usize],
}

impl Row {
    /// That of a process of which nothing was said but its name.
    pub(crate) const BLANK: Row = Row {
        is_joiner: false,
        is_observed: false,
        observers: [MaybePlace::NONE; Params::MOST_RINGS as usize],
    };

    /// Whether it is a member without an observer.
    pub(crate) fn is_unobserved_member(&self) -> bool
        ensures { result ≡ (not self.now.is_observed && not self.now.is_joiner) }
    {
        !self.is_observed && !self.is_joiner
    }

    /// Whether it is a member with an observer.
    pub(crate) fn is_observed_member(&self) -> bool
        ensures { result ≡ (self.now.is_observed && not self.now.is_joiner) }
    {
        self.is_observed && !self.is_joiner
    }

    /// The place of its observer on a ring.
    pub(crate) fn observer(&self, ring: u8) -> Option<usize>
        ensures { result ≡ get_or self.now.observers ring None }
    {
        match self.observers.get(usize::from(ring)) {
            Some(place) => place.get(),
            None => None,
        }
    }
}
