// Four bytes, kept as a number.

ghost use Rattle.std.specs.Prelude.{◌≡◌, ◌<◌, All, length};
ghost use Rattle.std.specs.Ordering.{as_partial_cmp};
ghost use Rattle.std.specs.Cmp.{partial_equiv_from_equiv, partial_order_from_total};
ghost use Rattle.std.proofs.lemmas.Cmp.{nat_list_cmp_total, eq_by_cmp_equiv};
ghost use Rattle.std.proofs.Common.{refl};
ghost use Rattle.rapid_model.specs.Process.{bytes_cmp, same_bytes};

use crate::bytes;
use std::cmp::Ordering;
use std::marker::Model;

/// Four bytes. They are kept as the number that they are, high byte first: numbers are compared in
/// fewer steps than bytes. It stands at every fourth byte, so that a process needs little room
/// between its parts.
#[derive(Clone, Copy)]
pub(crate) struct Word {
    number: u32,
}

impl Model for Word {
    ghost use Rattle.std.specs.Prelude.{◌≡◌, ◌<◌, ◌^◌, ℕ, List};
    ghost use Rattle.std.specs.Int.{w32, from_be_bytes};
    ghost use Rattle.rapid_endpoint.specs.Words.{word_bytes, word_returns};

    ghost Value = { List ℕ };

    ghost view = { λ w. word_bytes w.number };

    ghost invariant = { λ w. w.number < 2 ^ 32 };

    ghost inverse = { λ bytes. record { number = from_be_bytes w32 bytes } };

    ghost inverse_ok = { λ w h. λ i. record { number = word_returns w.number h i } };
}

impl Word {
    /// These bytes.
    #[tactic(auto, unfolding(crate::specs::Words::word_bytes))]
    #[inline(always)]
    pub(crate) fn new(bytes: [u8; 4]) -> Word
        ensures { result ≡ bytes }
    {
        bytes::tell(&bytes);
        Word {
            number: u32::from_be_bytes(bytes),
        }
    }

    /// The bytes.
    #[tactic(auto, unfolding(crate::specs::Words::word_bytes))]
    #[inline(always)]
    pub(crate) fn bytes(&self) -> [u8; 4]
        ensures value { result ≡ self.now }
        ensures length { length self.now ≡ 4 }
    {
        self.number.to_be_bytes()
    }

    /// The value is four bytes. It does nothing: what it ensures is for proofs.
    #[tactic(auto, unfolding(crate::specs::Words::word_bytes))]
    #[inline(always)]
    pub(crate) fn tell(&self)
        ensures length { length self.now ≡ 4 }
        ensures bytes { All (λ b. b < 256) self.now }
    {
        let _ = &self.number;
    }
}

impl PartialEq for Word {
    ghost eq = { same_bytes };

    ghost laws = { partial_equiv_from_equiv (eq_by_cmp_equiv nat_list_cmp_total) };

    #[tactic(auto, unfolding(crate::specs::Words::word_bytes))]
    #[inline(always)]
    fn eq(&self, other: &Word) -> bool {
        self.number == other.number
    }
}

impl Eq for Word {
    ghost laws = { eq_by_cmp_equiv nat_list_cmp_total };
}

impl PartialOrd for Word {
    ghost partial_cmp = { as_partial_cmp bytes_cmp };

    ghost laws = { partial_order_from_total nat_list_cmp_total };

    fn partial_cmp(&self, other: &Word) -> Option<Ordering> {
        Some(self.cmp(other))
    }
}

impl Ord for Word {
    ghost cmp = { bytes_cmp };

    ghost total = { nat_list_cmp_total };

    ghost matches_partial_cmp = { λ x y. refl };

    ghost matches_eq = { λ x y. refl };

    // Two numbers of four bytes, high byte first, compare as these bytes do.
    #[tactic(auto, unfolding(crate::specs::Words::word_bytes))]
    #[inline(always)]
    fn cmp(&self, other: &Word) -> Ordering {
        self.number.cmp(&other.number)
    }
}
