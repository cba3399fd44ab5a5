// Endpoints as keys of a set or a map.

ghost use Rattle.std.specs.Prelude.{◌≡◌, [], ◌∷◌};
ghost use Rattle.std.specs.Cmp.{partial_equiv_from_equiv};
ghost use Rattle.std.proofs.lemmas.Cmp.{nat_list_cmp_total, eq_by_cmp_equiv};
ghost use Rattle.rapid_model.specs.Process.{same_bytes};
ghost use Rattle.rapid_config.specs.Endpoints.{same_input};

use rapid_endpoint::Endpoint;
use std::hash::{Hash, Hasher};
use std::marker::Model;

/// An endpoint as the key of a set or a map, hashed as its bytes. Keys are equal if their endpoints
/// are.
#[derive(Clone, Copy, Debug)]
pub struct EndpointKey {
    endpoint: Endpoint,
}

impl Model for EndpointKey {
    ghost use Rattle.rapid_model.specs.Bytes.{Endpoint as ModelEndpoint};

    ghost Value = { ModelEndpoint };

    ghost view = { λ k. k.endpoint };

    ghost inverse = { λ endpoint. record { endpoint = endpoint } };
}

impl EndpointKey {
    /// The key of the endpoint.
    pub fn new(endpoint: Endpoint) -> EndpointKey
        ensures { result ≡ endpoint }
    {
        EndpointKey { endpoint }
    }
}

impl PartialEq for EndpointKey {
    ghost eq = { same_bytes };

    ghost laws = { partial_equiv_from_equiv (eq_by_cmp_equiv nat_list_cmp_total) };

    fn eq(&self, other: &EndpointKey) -> bool {
        self.endpoint == other.endpoint
    }
}

impl Eq for EndpointKey {
    ghost laws = { eq_by_cmp_equiv nat_list_cmp_total };
}

impl Hash for EndpointKey {
    ghost hash_input = { λ endpoint. endpoint ∷ [] };

    ghost respects_eq = { same_input };

    fn hash<H: Hasher>(&self, state: &mut H) {
        state.write(&self.endpoint.to_bytes());
    }
}
