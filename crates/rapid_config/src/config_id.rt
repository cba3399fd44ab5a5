// The identifiers of configurations.

ghost use Rattle.std.specs.Prelude.{◌≡◌, ◌<◌, All, length, replicate};
ghost use Rattle.std.specs.Ordering.{as_partial_cmp};
ghost use Rattle.std.specs.Cmp.{partial_equiv_from_equiv, partial_order_from_total};
ghost use Rattle.std.proofs.lemmas.Cmp.{nat_list_cmp_total, eq_by_cmp_equiv};
ghost use Rattle.std.proofs.Common.{refl};
ghost use Rattle.rapid_model.specs.Process.{bytes_cmp, same_bytes};

use crate::told::tell_bytes;
use std::cmp::Ordering;
use std::marker::Model;

/// The identifier of a configuration: the SHA-256 (FIPS 180-4) of its canonical bytes.
#[derive(Clone, Copy, Debug)]
pub struct ConfigId {
    bytes: [u8; 32],
}

impl Model for ConfigId {
    ghost use Rattle.std.specs.Prelude.{◌≡◌, ◌<◌, ℕ, List, All, length};

    ghost Value = { List ℕ };

    ghost view = { λ c. c.bytes };

    ghost invariant = { λ c. (length c.bytes ≡ 32) × All (λ b. b < 256) c.bytes };

    ghost inverse = { λ bytes. record { bytes = bytes } };
}

impl ConfigId {
    /// The identifier of these bytes.
    pub fn new(bytes: [u8; 32]) -> ConfigId
        ensures { result ≡ bytes }
    {
        tell_bytes(&bytes);
        ConfigId { bytes }
    }

    /// The identifier before a founding: all bytes are zero.
    pub fn zero() -> ConfigId
        ensures { result ≡ replicate 32 0 }
    {
        ConfigId::new([0; 32])
    }

    /// The 32 bytes.
    pub fn bytes(&self) -> [u8; 32]
        ensures { result ≡ self.now }
    {
        self.bytes
    }

    /// The value is 32 bytes. It does nothing: what it ensures is for proofs.
    #[inline(always)]
    pub fn tell(&self)
        ensures length { length self.now ≡ 32 }
        ensures bytes { All (λ b. b < 256) self.now }
    {
        let _ = &self.bytes;
    }
}

impl PartialEq for ConfigId {
    ghost eq = { same_bytes };

    ghost laws = { partial_equiv_from_equiv (eq_by_cmp_equiv nat_list_cmp_total) };

    fn eq(&self, other: &ConfigId) -> bool {
        let (mine, others) = (&self.bytes, &other.bytes);
        mine == others
    }
}

impl Eq for ConfigId {
    ghost laws = { eq_by_cmp_equiv nat_list_cmp_total };
}

impl PartialOrd for ConfigId {
    ghost partial_cmp = { as_partial_cmp bytes_cmp };

    ghost laws = { partial_order_from_total nat_list_cmp_total };

    fn partial_cmp(&self, other: &ConfigId) -> Option<Ordering> {
        Some(self.cmp(other))
    }
}

impl Ord for ConfigId {
    ghost cmp = { bytes_cmp };

    ghost total = { nat_list_cmp_total };

    ghost matches_partial_cmp = { λ x y. refl };

    ghost matches_eq = { λ x y. refl };

    fn cmp(&self, other: &ConfigId) -> Ordering {
        Ord::cmp(&self.bytes, &other.bytes)
    }
}
