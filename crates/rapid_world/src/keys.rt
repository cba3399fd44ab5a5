// The keys by which nodes are found by their identifiers.

ghost use Rattle.std.specs.Prelude.{◌≡◌, [], ◌∷◌};
ghost use Rattle.std.specs.Cmp.{partial_equiv_from_equiv};
ghost use Rattle.std.proofs.lemmas.Cmp.{nat_list_cmp_total, eq_by_cmp_equiv};
ghost use Rattle.rapid_model.specs.Process.{same_bytes};
ghost use Rattle.rapid_config.specs.Endpoints.{same_input};

use rapid_endpoint::ProcessId;
use std::hash::{Hash, Hasher};
use std::marker::Model;

/// An identifier, hashed as its bytes.
#[derive(Clone, Copy, Debug)]
pub(crate) struct IdKey {
    id: ProcessId,
}

impl Model for IdKey {
    ghost use Rattle.rapid_model.specs.Bytes.{Identifier};

    ghost Value = { Identifier };

    ghost view = { λ k. k.id };

    ghost inverse = { λ id. record { id = id } };
}

impl IdKey {
    /// The key of the identifier.
    pub(crate) fn new(id: ProcessId) -> IdKey
        ensures { result ≡ id }
    {
        IdKey { id }
    }
}

impl PartialEq for IdKey {
    ghost eq = { same_bytes };

    ghost laws = { partial_equiv_from_equiv (eq_by_cmp_equiv nat_list_cmp_total) };

    fn eq(&self, other: &IdKey) -> bool {
        self.id == other.id
    }
}

impl Eq for IdKey {
    ghost laws = { eq_by_cmp_equiv nat_list_cmp_total };
}

impl Hash for IdKey {
    ghost hash_input = { λ id. id ∷ [] };

    ghost respects_eq = { same_input };

    fn hash<H: Hasher>(&self, state: &mut H) {
        state.write(&self.id.bytes());
    }
}
