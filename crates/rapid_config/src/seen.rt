// Endpoints that were seen, one after another.

ghost use Rattle.std.specs.Prelude.{◌≡◌, ◌<◌, ◌++◌, [], ◌∷◌, true, not, IfOk};
ghost use Rattle.std.specs.List.{list_any};
ghost use Rattle.rapid_model.specs.Process.{same_bytes};
ghost use Rattle.rapid_config.specs.Endpoints.{slot_of, slots};

use rapid_endpoint::Endpoint;
use std::alloc::{AllocError, Global};
use std::marker::Model;

/// How many slots there are: a prime. The ports of one host have slots in a row, and the next host
/// begins 1,404 slots further on, which is more than there are members. So endpoints on hosts and
/// ports that follow one another have slots of their own.
const SLOTS: usize = 16_033;

/// The slot of an endpoint.
fn slot_of(endpoint: &Endpoint) -> usize
    ensures value { result ≡ slot_of endpoint.now }
    ensures within { result < slots }
{
    let address = u64::from(u32::from_be_bytes(endpoint.address()));
    let number = address * 65_536 + u64::from(endpoint.port());
    (number % SLOTS as u64) as usize
}

/// Endpoints that were seen. A free slot tells at once that an endpoint was not among them, so they
/// are seldom looked through.
#[derive(Drop)]
pub(crate) struct Seen {
    endpoints: Vec<Endpoint>,
    // at least the slots of these endpoints are taken
    taken: Vec<bool>,
}

impl Model for Seen {
    ghost use Rattle.std.specs.Prelude.{◌≡◌, ℕ, List, All, true, false, length, get_or};
    ghost use Rattle.rapid_config.specs.Endpoints.{slot_of, slots};

    ghost Value = { List (List ℕ) };

    ghost view = { λ s. s.endpoints.items };

    ghost invariant = { λ s. (length s.taken.items ≡ slots) × All (λ e. get_or s.taken.items (slot_of e) false ≡ true) s.endpoints.items };
}

impl Seen {
    /// None, with room for so many.
    pub(crate) fn with_capacity(alloc: Global, count: usize) -> Result<Seen, AllocError>
        ensures { IfOk result (λ seen. seen ≡ []) }
    {
        let endpoints = Vec::with_capacity(alloc, count)?;
        let taken = vec![in alloc; false; SLOTS]?;
        Ok(Seen { endpoints, taken })
    }

    /// Adds an endpoint if it was not seen, and says whether it was not.
    pub(crate) fn insert(&mut self, endpoint: Endpoint) -> Result<bool, AllocError>
        ensures added { IfOk result (λ added. added ≡ not (list_any (same_bytes endpoint) self.old)) }
        ensures behind { IfOk result (λ added. added ≡ true → self.new ≡ self.old ++ endpoint ∷ []) }
    {
        let slot = slot_of(&endpoint);
        if self.taken[slot] && self.endpoints.contains(&endpoint) {
            return Ok(false);
        }
        self.taken[slot] = true;
        self.endpoints.push(endpoint)?;
        Ok(true)
    }
}
