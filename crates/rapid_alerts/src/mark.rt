// What is kept of the alerts on one subject.

ghost use Rattle.std.specs.Prelude.{◌≡◌, ◌<◌, ℕ, not, ◌||◌, ◌==◌};
ghost use Rattle.rapid_model.specs.Alert.{is_remove};
ghost use Rattle.rapid_model.specs.Limits.{most_rings};
ghost use Rattle.rapid_alerts.specs.Alerts.{kind_of};
ghost use Rattle.rapid_alerts.specs.RingMasks.{has_ring};

use crate::Kind;
use crate::ring_mask::bit;

/// What is kept of the alerts on one subject.
#[derive(Clone, Copy, Debug)]
pub(crate) struct Marks {
    /// The rings that they are for, a bit each.
    pub(crate) rings: u16,
    /// Where the subject stands in the list of alerts.
    pub(crate) place: u16,
    /// Whether one of them asks to let the subject in.
    pub(crate) joins: bool,
}

impl Marks {
    /// The marks of a subject without alerts. Nobody stands at its place: subjects are fewer.
    pub(crate) const NONE: Marks = Marks {
        rings: 0,
        place: u16::MAX,
        joins: false,
    };

    /// The marks with those of one alert more, whose subject stands at this place.
    pub(crate) fn with(self, ring: u8, kind: Kind, place: u16) -> Marks
        requires { ring < most_rings }
        ensures rings { (k : ℕ) → has_ring result.rings k ≡ (has_ring self.rings k || k == ring) }
        ensures joins { result.joins ≡ (self.joins || not (is_remove (kind_of kind))) }
    {
        Marks {
            rings: with_bit(self.rings, ring),
            place,
            joins: self.joins || lets_in(kind),
        }
    }
}

/// The mask with the bit of the ring.
fn with_bit(mask: u16, ring: u8) -> u16
    requires { ring < most_rings }
    ensures { (k : ℕ) → has_ring result k ≡ (has_ring mask k || k == ring) }
{
    mask | bit(ring)
}

/// Whether an alert of this kind asks to let its subject in.
fn lets_in(kind: Kind) -> bool
    ensures { result ≡ not (is_remove (kind_of kind)) }
{
    match kind {
        Kind::Remove => false,
        Kind::Join => true,
    }
}
