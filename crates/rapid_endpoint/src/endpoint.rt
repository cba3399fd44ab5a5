// The endpoints of processes.

ghost use Rattle.std.specs.Prelude.{◌≡◌, ◌<◌, ◌++◌, All, length, take, drop};
ghost use Rattle.std.specs.Int.{w16, to_be_bytes, from_be_bytes};
ghost use Rattle.std.specs.Ordering.{as_partial_cmp};
ghost use Rattle.std.specs.Cmp.{partial_equiv_from_equiv, partial_order_from_total};
ghost use Rattle.std.proofs.lemmas.Cmp.{nat_list_cmp_total, eq_by_cmp_equiv};
ghost use Rattle.std.proofs.Common.{refl};
ghost use Rattle.rapid_model.specs.Process.{bytes_cmp, same_bytes};

use crate::word::Word;
use std::cmp::Ordering;
use std::marker::Model;

/// An IPv4 endpoint: four bytes of address and a port. Endpoints are ordered by address, then port.
#[derive(Clone, Copy)]
pub struct Endpoint {
    address: Word,
    port: u16,
}

impl Model for Endpoint {
    ghost use Rattle.std.specs.Prelude.{◌≡◌, ◌<◌, ◌^◌, ◌++◌, ℕ, List, All, length, take, drop};
    ghost use Rattle.std.specs.Int.{w16, to_be_bytes, from_be_bytes};

    ghost Value = { List ℕ };

    ghost view = { λ e. e.address ++ to_be_bytes w16 e.port };

    ghost invariant = { λ e. (length e.address ≡ 4) × All (λ b. b < 256) e.address × (e.port < 2 ^ 16) };

    ghost inverse = { λ bytes. record { address = take 4 bytes; port = from_be_bytes w16 (drop 4 bytes) } };

    ghost use Rattle.rapid_endpoint.specs.Joined.{first_part, port_returns};

    ghost inverse_ok = { λ e h. λ i. record { address = first_part 4 e.address (to_be_bytes w16 e.port) h.0 i; port = port_returns e.address e.port h.0 h.2 i } };
}

impl Endpoint {
    /// The endpoint of this address and port.
    pub fn new(address: [u8; 4], port: u16) -> Endpoint
        ensures { result ≡ address ++ to_be_bytes w16 port }
    {
        let address = Word::new(address);
        address.tell();
        Endpoint { address, port }
    }

    /// The four bytes of the address.
    pub fn address(&self) -> [u8; 4]
        ensures { result ≡ take 4 self.now }
    {
        self.address.bytes()
    }

    /// The port.
    pub fn port(&self) -> u16
        ensures { result ≡ from_be_bytes w16 (drop 4 self.now) }
    {
        self.port
    }

    /// The four bytes of the address, then the port, high byte first.
    #[inline(always)]
    pub fn to_bytes(&self) -> [u8; 6]
        ensures value { result ≡ self.now }
        ensures length { length self.now ≡ 6 }
    {
        let [a, b, c, d] = self.address.bytes();
        let [high, low] = self.port.to_be_bytes();
        [a, b, c, d, high, low]
    }

    /// The value is six bytes. It does nothing: what it ensures is for proofs.
    #[inline(always)]
    pub fn tell(&self)
        ensures length { length self.now ≡ 6 }
        ensures bytes { All (λ b. b < 256) self.now }
    {
        let _ = &self.address;
    }
}

impl PartialEq for Endpoint {
    ghost eq = { same_bytes };

    ghost laws = { partial_equiv_from_equiv (eq_by_cmp_equiv nat_list_cmp_total) };

    fn eq(&self, other: &Endpoint) -> bool {
        self.address == other.address && self.port == other.port
    }
}

impl Eq for Endpoint {
    ghost laws = { eq_by_cmp_equiv nat_list_cmp_total };
}

impl PartialOrd for Endpoint {
    ghost partial_cmp = { as_partial_cmp bytes_cmp };

    ghost laws = { partial_order_from_total nat_list_cmp_total };

    fn partial_cmp(&self, other: &Endpoint) -> Option<Ordering> {
        Some(self.cmp(other))
    }
}

impl Ord for Endpoint {
    ghost cmp = { bytes_cmp };

    ghost total = { nat_list_cmp_total };

    ghost matches_partial_cmp = { λ x y. refl };

    ghost matches_eq = { λ x y. refl };

    fn cmp(&self, other: &Endpoint) -> Ordering {
        self.address
            .cmp(&other.address)
            .then(self.port.cmp(&other.port))
    }
}
