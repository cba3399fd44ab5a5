// Masks of rings.

ghost use Rattle.std.specs.Prelude.{◌≡◌, ◌<◌, ℕ, not, ◌&&◌, ◌||◌, count_by};
ghost use Rattle.std.specs.List.{list_any, range_with_len};
ghost use Rattle.rapid_model.specs.Limits.{most_rings};
ghost use Rattle.rapid_alerts.specs.RingMasks.{has_ring};

/// The rings of the reports on a process.
#[derive(Clone, Copy, Debug)]
pub struct Masks {
    /// Those of the direct reports.
    pub direct: u16,
    /// Those of all reports that are known, direct and implied.
    pub all: u16,
}

impl Masks {
    /// These rings and those.
    pub fn with(self, rings: Masks) -> Masks
        ensures direct { (k : ℕ) → has_ring result.direct k ≡ (has_ring self.direct k || has_ring rings.direct k) }
        ensures all { (k : ℕ) → has_ring result.all k ≡ (has_ring self.all k || has_ring rings.all k) }
    {
        Masks {
            direct: with(self.direct, rings.direct),
            all: with(self.all, rings.all),
        }
    }

    /// These rings without those.
    pub fn without(self, rings: Masks) -> Masks
        ensures direct { (k : ℕ) → has_ring result.direct k ≡ (has_ring self.direct k && not (has_ring rings.direct k)) }
        ensures all { (k : ℕ) → has_ring result.all k ≡ (has_ring self.all k && not (has_ring rings.all k)) }
    {
        Masks {
            direct: without(self.direct, rings.direct),
            all: without(self.all, rings.all),
        }
    }
}

/// The rings of both masks.
pub fn with(mask: u16, rings: u16) -> u16
    ensures { (k : ℕ) → has_ring result k ≡ (has_ring mask k || has_ring rings k) }
{
    mask | rings
}

/// The rings of the first mask that the second has not.
fn without(mask: u16, rings: u16) -> u16
    ensures { (k : ℕ) → has_ring result k ≡ (has_ring mask k && not (has_ring rings k)) }
{
    mask & !rings
}

/// How many of the first rings the mask has.
pub fn count(mask: u16, rings: u8) -> usize
    ensures { result ≡ count_by (has_ring mask) (range_with_len 0 rings) }
{
    let first = if rings < 16 {
        mask & ((1 << rings) - 1)
    } else {
        mask
    };
    first.count_ones() as usize
}

/// Whether the mask has one of sixteen rings.
pub fn has_any(mask: u16) -> bool
    ensures { result ≡ list_any (has_ring mask) (range_with_len 0 most_rings) }
{
    mask != 0
}
