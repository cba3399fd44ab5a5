// Half of an identifier.

ghost use Rattle.std.specs.Prelude.{◌≡◌, ◌<◌, ◌++◌, All, length};
ghost use Rattle.std.specs.Ordering.{as_partial_cmp};
ghost use Rattle.std.specs.Cmp.{partial_equiv_from_equiv, partial_order_from_total};
ghost use Rattle.std.proofs.lemmas.Cmp.{nat_list_cmp_total, eq_by_cmp_equiv};
ghost use Rattle.std.proofs.Common.{refl};
ghost use Rattle.rapid_model.specs.Process.{bytes_cmp, same_bytes};

use crate::word::Word;
use std::cmp::Ordering;
use std::marker::Model;

/// Eight bytes in two words: half of an identifier.
#[derive(Clone, Copy)]
pub(crate) struct Half {
    high: Word,
    low: Word,
}

impl Model for Half {
    ghost use Rattle.std.specs.Prelude.{◌≡◌, ◌<◌, ◌++◌, ℕ, List, All, length, take, drop};

    ghost Value = { List ℕ };

    ghost view = { λ w. w.high ++ w.low };

    ghost invariant = { λ w. (length w.high ≡ 4) × (length w.low ≡ 4) × All (λ b. b < 256) (w.high ++ w.low) };

    ghost inverse = { λ bytes. record { high = take 4 bytes; low = drop 4 bytes } };

    ghost use Rattle.rapid_endpoint.specs.Joined.{first_part, second_part};

    ghost inverse_ok = { λ w h. λ i. record { high = first_part 4 w.high w.low h.0 i; low = second_part 4 w.high w.low h.0 i } };
}

impl Half {
    /// The bytes of these two.
    #[inline(always)]
    pub(crate) fn new(high: Word, low: Word) -> Half
        ensures { result ≡ high ++ low }
    {
        high.tell();
        low.tell();
        Half { high, low }
    }

    /// The bytes.
    #[inline(always)]
    pub(crate) fn bytes(&self) -> [u8; 8]
        ensures value { result ≡ self.now }
        ensures length { length self.now ≡ 8 }
    {
        let [a, b, c, d] = self.high.bytes();
        let [e, f, g, h] = self.low.bytes();
        [a, b, c, d, e, f, g, h]
    }

    /// The value is eight bytes. It does nothing: what it ensures is for proofs.
    #[inline(always)]
    pub(crate) fn tell(&self)
        ensures length { length self.now ≡ 8 }
        ensures bytes { All (λ b. b < 256) self.now }
    {
        let _ = &self.high;
    }
}

impl PartialEq for Half {
    ghost eq = { same_bytes };

    ghost laws = { partial_equiv_from_equiv (eq_by_cmp_equiv nat_list_cmp_total) };

    #[inline(always)]
    fn eq(&self, other: &Half) -> bool {
        self.high == other.high && self.low == other.low
    }
}

impl Eq for Half {
    ghost laws = { eq_by_cmp_equiv nat_list_cmp_total };
}

impl PartialOrd for Half {
    ghost partial_cmp = { as_partial_cmp bytes_cmp };

    ghost laws = { partial_order_from_total nat_list_cmp_total };

    fn partial_cmp(&self, other: &Half) -> Option<Ordering> {
        Some(self.cmp(other))
    }
}

impl Ord for Half {
    ghost cmp = { bytes_cmp };

    ghost total = { nat_list_cmp_total };

    ghost matches_partial_cmp = { λ x y. refl };

    ghost matches_eq = { λ x y. refl };

    #[inline(always)]
    fn cmp(&self, other: &Half) -> Ordering {
        if self.high != other.high {
            return self.high.cmp(&other.high);
        }
        self.low.cmp(&other.low)
    }
}
