// The identifiers of processes.

ghost use Rattle.std.specs.Prelude.{◌≡◌, ◌<◌, ◌++◌, All, length};
ghost use Rattle.std.specs.Ordering.{as_partial_cmp};
ghost use Rattle.std.specs.Cmp.{partial_equiv_from_equiv, partial_order_from_total};
ghost use Rattle.std.proofs.lemmas.Cmp.{nat_list_cmp_total, eq_by_cmp_equiv};
ghost use Rattle.std.proofs.Common.{refl};
ghost use Rattle.rapid_model.specs.Process.{bytes_cmp, same_bytes};

use crate::half::Half;
use crate::word::Word;
use std::cmp::Ordering;
use std::marker::Model;

/// The identifier of a process: sixteen bytes. Identifiers are ordered by these bytes. They are kept
/// as four numbers, which are compared in fewer steps.
#[derive(Clone, Copy)]
pub struct ProcessId {
    high: Half,
    low: Half,
}

impl Model for ProcessId {
    ghost use Rattle.std.specs.Prelude.{◌≡◌, ◌<◌, ◌++◌, ℕ, List, All, length, take, drop};

    ghost Value = { List ℕ };

    ghost view = { λ p. p.high ++ p.low };

    ghost invariant = { λ p. (length p.high ≡ 8) × (length p.low ≡ 8) × All (λ b. b < 256) (p.high ++ p.low) };

    ghost inverse = { λ bytes. record { high = take 8 bytes; low = drop 8 bytes } };

    ghost use Rattle.rapid_endpoint.specs.Joined.{first_part, second_part};

    ghost inverse_ok = { λ p h. λ i. record { high = first_part 8 p.high p.low h.0 i; low = second_part 8 p.high p.low h.0 i } };
}

impl ProcessId {
    /// The identifier of these bytes.
    pub fn new(bytes: [u8; 16]) -> ProcessId
        ensures { result ≡ bytes }
    {
        let [a, b, c, d, e, f, g, h, i, j, k, l, m, n, o, p] = bytes;
        let high = Half::new(Word::new([a, b, c, d]), Word::new([e, f, g, h]));
        let low = Half::new(Word::new([i, j, k, l]), Word::new([m, n, o, p]));
        high.tell();
        low.tell();
        ProcessId { high, low }
    }

    /// The sixteen bytes.
    #[inline(always)]
    pub fn bytes(&self) -> [u8; 16]
        ensures value { result ≡ self.now }
        ensures length { length self.now ≡ 16 }
    {
        let [a, b, c, d, e, f, g, h] = self.high.bytes();
        let [i, j, k, l, m, n, o, p] = self.low.bytes();
        [a, b, c, d, e, f, g, h, i, j, k, l, m, n, o, p]
    }

    /// The value is sixteen bytes. It does nothing: what it ensures is for proofs.
    #[inline(always)]
    pub fn tell(&self)
        ensures length { length self.now ≡ 16 }
        ensures bytes { All (λ b. b < 256) self.now }
    {
        let _ = &self.high;
    }
}

impl PartialEq for ProcessId {
    ghost eq = { same_bytes };

    ghost laws = { partial_equiv_from_equiv (eq_by_cmp_equiv nat_list_cmp_total) };

    #[inline(always)]
    fn eq(&self, other: &ProcessId) -> bool {
        self.high == other.high && self.low == other.low
    }
}

impl Eq for ProcessId {
    ghost laws = { eq_by_cmp_equiv nat_list_cmp_total };
}

impl PartialOrd for ProcessId {
    ghost partial_cmp = { as_partial_cmp bytes_cmp };

    ghost laws = { partial_order_from_total nat_list_cmp_total };

    fn partial_cmp(&self, other: &ProcessId) -> Option<Ordering> {
        Some(self.cmp(other))
    }
}

impl Ord for ProcessId {
    ghost cmp = { bytes_cmp };

    ghost total = { nat_list_cmp_total };

    ghost matches_partial_cmp = { λ x y. refl };

    ghost matches_eq = { λ x y. refl };

    #[inline(always)]
    fn cmp(&self, other: &ProcessId) -> Ordering {
        if self.high != other.high {
            return self.high.cmp(&other.high);
        }
        self.low.cmp(&other.low)
    }
}
