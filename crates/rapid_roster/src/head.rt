// What processes are looked for by.

ghost use Rattle.std.specs.Prelude.{◌≡◌, [], ◌∷◌, take, drop};
ghost use Rattle.std.specs.Cmp.{partial_equiv_from_equiv};
ghost use Rattle.std.proofs.lemmas.Cmp.{nat_list_cmp_total, eq_by_cmp_equiv};
ghost use Rattle.rapid_model.specs.Process.{same_bytes};
ghost use Rattle.rapid_roster.specs.Heads.{head_of, same_input};

use rapid_endpoint::{Endpoint, ProcessId, ProcessRef};
use std::hash::{Hash, Hasher};
use std::marker::Model;

/// The identifier and the endpoint of a process. They are compared as the numbers that they are kept
/// as, and hashed as their bytes.
#[derive(Clone, Copy, Debug)]
pub(crate) struct Head {
    id: ProcessId,
    endpoint: Endpoint,
}

impl Model for Head {
    ghost use Rattle.std.specs.Prelude.{◌≡◌, ◌++◌, ℕ, List, length, take, drop};

    ghost Value = { List ℕ };

    ghost view = { λ h. h.id ++ h.endpoint };

    ghost invariant = { λ h. length h.id ≡ 16 };

    ghost inverse = { λ bytes. record { id = take 16 bytes; endpoint = drop 16 bytes } };

    ghost use Rattle.rapid_endpoint.specs.Joined.{first_part, second_part};

    ghost inverse_ok = { λ h k. λ i. record { id = first_part 16 h.id h.endpoint k i; endpoint = second_part 16 h.id h.endpoint k i } };
}

impl Head {
    /// That of this process.
    #[inline(always)]
    pub(crate) fn of(process: &ProcessRef<'_>) -> Head
        ensures { result ≡ head_of process.now }
    {
        let id = process.id();
        id.tell();
        Head {
            id,
            endpoint: process.endpoint(),
        }
    }
}

impl PartialEq for Head {
    ghost eq = { same_bytes };

    ghost laws = { partial_equiv_from_equiv (eq_by_cmp_equiv nat_list_cmp_total) };

    #[inline(always)]
    fn eq(&self, other: &Head) -> bool {
        self.id == other.id && self.endpoint == other.endpoint
    }
}

impl Eq for Head {
    ghost laws = { eq_by_cmp_equiv nat_list_cmp_total };
}

impl Hash for Head {
    ghost hash_input = { λ h. take 16 h ∷ drop 16 h ∷ [] };

    ghost respects_eq = { same_input };

    #[inline(always)]
    fn hash<H: Hasher>(&self, state: &mut H) {
        state.write(&self.id.bytes());
        state.write(&self.endpoint.to_bytes());
    }
}
