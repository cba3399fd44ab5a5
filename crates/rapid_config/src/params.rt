// The numbers K, H and L.

ghost use Rattle.std.specs.Prelude.{◌≡◌, IfErr};
ghost use Rattle.std.specs.Result.{OkIff};
ghost use Rattle.rapid_model.specs.Configuration.{AreParams};

use crate::ConfigError;
use std::marker::Model;

/// The parameters of cut detection (Rapid, USENIX ATC 2018). They are the number of rings K, the
/// stability mark H and the noise mark L, with 1 <= L <= H <= K <= 16.
#[derive(Clone, Copy, Debug)]
pub struct Params {
    k: u8,
    h: u8,
    l: u8,
}

impl Model for Params {
    ghost use Rattle.rapid_model.specs.Configuration.{Params as ModelParams, AreParams};

    ghost Value = { ModelParams };

    ghost view = { λ p. record { k = p.k; h = p.h; l = p.l } };

    ghost invariant = { λ p. AreParams (record { k = p.k; h = p.h; l = p.l }) };

    ghost inverse = { λ p. record { k = p.k; h = p.h; l = p.l } };
}

impl Params {
    /// The most rings.
    pub const MOST_RINGS: u8 = 16;

    /// The parameters K, H and L. `BadParams` exactly if they are not in order.
    pub fn new(k: u8, h: u8, l: u8) -> Result<Params, ConfigError>
        ensures exactly { OkIff result (AreParams (record { k = k; h = h; l = l })) (record { k = k; h = h; l = l }) }
        ensures refused { IfErr result (λ e. e ≡ ConfigError.BadParams) }
    {
        if l >= 1 && l <= h && h <= k && k <= Params::MOST_RINGS {
            Ok(Params { k, h, l })
        } else {
            Err(ConfigError::BadParams)
        }
    }

    /// The value is parameters in order. It does nothing: what it ensures is for proofs.
    #[inline(always)]
    pub fn tell(&self)
        ensures { AreParams self.now }
    {
        let _ = &self.k;
    }

    /// The number of rings.
    pub fn k(self) -> u8
        ensures value { result ≡ self.k }
        ensures in_order { AreParams self }
    {
        self.k
    }

    /// The stability mark.
    pub fn h(self) -> u8
        ensures value { result ≡ self.h }
        ensures in_order { AreParams self }
    {
        self.h
    }

    /// The noise mark.
    pub fn l(self) -> u8
        ensures value { result ≡ self.l }
        ensures in_order { AreParams self }
    {
        self.l
    }
}
