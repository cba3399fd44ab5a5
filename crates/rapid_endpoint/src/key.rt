// What a process is found by: its identifier and its endpoint.

ghost use Rattle.std.specs.Prelude.{◌≡◌, ◌<◌, ◌↔◌, ◌++◌, length, take, IfSome, IsNone};
ghost use Rattle.std.specs.Ordering.{as_partial_cmp};
ghost use Rattle.std.specs.Cmp.{partial_equiv_from_equiv, partial_order_from_total};
ghost use Rattle.std.proofs.lemmas.Cmp.{nat_list_cmp_total, eq_by_cmp_equiv};
ghost use Rattle.std.proofs.Common.{refl};
ghost use Rattle.rapid_model.specs.Process.{identifier, endpoint, bytes_cmp, same_bytes, same_identifier, same_endpoint};
ghost use Rattle.rapid_endpoint.specs.Keys.{IsKey};

use crate::{Endpoint, ProcessId};
use std::cmp::Ordering;
use std::marker::Model;

/// An identifier and an endpoint, ordered in this order, which is that of their bytes.
#[derive(Clone, Copy, Debug)]
pub(crate) struct Key {
    id: ProcessId,
    endpoint: Endpoint,
}

impl Model for Key {
    ghost use Rattle.std.specs.Prelude.{◌≡◌, ◌++◌, ℕ, List, length, take, drop};
    ghost use Rattle.rapid_endpoint.specs.Keys.{IsKey};

    ghost Value = { List ℕ };

    ghost view = { λ p. p.id ++ p.endpoint };

    ghost invariant = { λ p. (length p.id ≡ 16) × IsKey (p.id ++ p.endpoint) };

    ghost inverse = { λ p. record { id = take 16 p; endpoint = drop 16 p } };

    ghost use Rattle.rapid_endpoint.specs.Joined.{first_part, second_part};

    ghost inverse_ok = { λ p h. λ i. record { id = first_part 16 p.id p.endpoint h.0 i; endpoint = second_part 16 p.id p.endpoint h.0 i } };
}

impl Key {
    /// Of this identifier and endpoint.
    pub(crate) fn new(id: ProcessId, endpoint: Endpoint) -> Key
        ensures { result ≡ id ++ endpoint }
    {
        id.tell();
        endpoint.tell();
        Key { id, endpoint }
    }

    /// The identifier.
    pub(crate) fn id(&self) -> ProcessId
        ensures { result ≡ identifier self.now }
    {
        self.id
    }

    /// The endpoint.
    pub(crate) fn endpoint(&self) -> Endpoint
        ensures { result ≡ endpoint self.now }
    {
        self.endpoint
    }

    /// The sixteen bytes of the identifier, then the six of the endpoint.
    pub(crate) fn bytes(&self) -> [u8; 22]
        ensures value { result ≡ self.now }
        ensures key { IsKey self.now }
    {
        let [a, b, c, d, e, f, g, h, i, j, k, l, m, n, o, p] = self.id.bytes();
        let [q, r, s, t, u, v] = self.endpoint.to_bytes();
        [
            a, b, c, d, e, f, g, h, i, j, k, l, m, n, o, p, q, r, s, t, u, v,
        ]
    }

    /// The identifier and the endpoint in front of the bytes. None if there are fewer bytes than
    /// these have.
    pub(crate) fn read(bytes: &[u8]) -> Option<Key>
        ensures short { IsNone result ↔ (length bytes.now < 22) }
        ensures front { IfSome result (λ key. key ≡ take 22 bytes.now) }
    {
        let (id, rest) = bytes.split_first_chunk::<16>()?;
        let (address, rest) = rest.split_first_chunk::<4>()?;
        let (port, _) = rest.split_first_chunk::<2>()?;
        let endpoint = Endpoint::new(*address, u16::from_be_bytes(*port));
        Some(Key::new(ProcessId::new(*id), endpoint))
    }

    /// The value is a key. It does nothing: what it ensures is for proofs.
    #[inline(always)]
    pub(crate) fn tell(&self)
        ensures { IsKey self.now }
    {
        let _ = &self.id;
    }

    /// Whether both have one identifier.
    pub(crate) fn has_same_identifier(&self, other: &Key) -> bool
        ensures { result ≡ same_identifier self.now other.now }
    {
        self.id == other.id
    }

    /// Whether both have one endpoint.
    pub(crate) fn has_same_endpoint(&self, other: &Key) -> bool
        ensures { result ≡ same_endpoint self.now other.now }
    {
        self.endpoint == other.endpoint
    }
}

impl PartialEq for Key {
    ghost eq = { same_bytes };

    ghost laws = { partial_equiv_from_equiv (eq_by_cmp_equiv nat_list_cmp_total) };

    #[inline(always)]
    fn eq(&self, other: &Key) -> bool {
        self.id == other.id && self.endpoint == other.endpoint
    }
}

impl Eq for Key {
    ghost laws = { eq_by_cmp_equiv nat_list_cmp_total };
}

impl PartialOrd for Key {
    ghost partial_cmp = { as_partial_cmp bytes_cmp };

    ghost laws = { partial_order_from_total nat_list_cmp_total };

    fn partial_cmp(&self, other: &Key) -> Option<Ordering> {
        Some(self.cmp(other))
    }
}

impl Ord for Key {
    ghost cmp = { bytes_cmp };

    ghost total = { nat_list_cmp_total };

    ghost matches_partial_cmp = { λ x y. refl };

    ghost matches_eq = { λ x y. refl };

    #[inline(always)]
    fn cmp(&self, other: &Key) -> Ordering {
        if self.id != other.id {
            return self.id.cmp(&other.id);
        }
        self.endpoint.cmp(&other.endpoint)
    }
}
