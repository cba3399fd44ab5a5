// Places that may be none.

ghost use Rattle.std.specs.Prelude.{◌≡◌, None, Some, IfOk};

use std::alloc::AllocError;
use std::marker::Model;

/// The places below this one have room.
const MOST: usize = u32::MAX as usize;

/// A place, or none, in the room of a `u32`.
#[derive(Clone, Copy, Debug)]
pub(crate) struct MaybePlace {
    // 0 stands for none
    plus_one: u32,
}

impl Model for MaybePlace {
    ghost use Rattle.std.specs.Prelude.{ℕ, Option};
    ghost use Rattle.rapid_rings.specs.Places.{place_of, number_of, same_number};

    ghost Value = { Option ℕ };

    ghost view = { λ p. place_of p.plus_one };

    ghost inverse = { λ place. record { plus_one = number_of place } };

    ghost inverse_ok = { λ p h. λ i. record { plus_one = same_number p.plus_one i } };
}

impl MaybePlace {
    /// No place.
    pub(crate) const NONE: MaybePlace = MaybePlace { plus_one: 0 };

    /// This place. Out of memory if it is not below 4,294,967,295.
    pub(crate) fn of(place: usize) -> Result<MaybePlace, AllocError>
        ensures { IfOk result (λ made. made ≡ Some place) }
    {
        if place >= MOST {
            return Err(AllocError);
        }
        Ok(MaybePlace {
            plus_one: place as u32 + 1,
        })
    }

    /// The place, if there is one.
    pub(crate) fn get(&self) -> Option<usize>
        ensures { result ≡ self.now }
    {
        match self.plus_one {
            0 => None,
            number => Some(number as usize - 1),
        }
    }
}
