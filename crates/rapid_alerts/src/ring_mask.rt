// Masks of rings.

ghost use Rattle.std.specs.Prelude.{◌≡◌, ◌<◌, ℕ, ◌==◌};
ghost use Rattle.rapid_model.specs.Limits.{most_rings};
ghost use Rattle.rapid_alerts.specs.RingMasks.{has_ring};

use rapid_config::Params;

/// Whether a mask of rings has the bit of this ring.
pub fn has_bit(mask: u16, ring: u8) -> bool
    ensures { result ≡ has_ring mask ring }
{
    ring < Params::MOST_RINGS && (mask >> ring) & 1 == 1
}

/// The mask of one ring.
pub fn bit(ring: u8) -> u16
    requires { ring < most_rings }
    ensures { (k : ℕ) → has_ring result k ≡ k == ring }
{
    1 << ring
}
