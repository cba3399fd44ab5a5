// When rounds of probes begin.

ghost use Rattle.std.specs.Prelude.{◌≡◌, ◌==◌, ◌%◌, ◌+◌, ℕ};
ghost use Rattle.rapid_model.specs.Limits.{probe_period};

use std::marker::Model;

/// How many ticks lie between two rounds.
const TICKS_PER_ROUND: u8 = 10;

/// Counts the ticks, whoever makes them: after every tenth a round begins. Contracts see the number
/// of ticks modulo ten.
#[derive(Debug, Drop)]
pub struct Rounds {
    ticks: u8,
}

impl Model for Rounds {
    ghost use Rattle.std.specs.Prelude.{◌<◌, ℕ};
    ghost use Rattle.rapid_model.specs.Limits.{probe_period};

    ghost Value = { ℕ };

    ghost view = { λ r. r.ticks };

    ghost invariant = { λ r. r.ticks < probe_period };
}

impl Rounds {
    /// There was no tick.
    pub fn new() -> Rounds
        ensures { result ≡ 0 }
    {
        Rounds { ticks: 0 }
    }

    /// A tick more; whether a round begins after it.
    pub fn tick(&mut self) -> bool
        ensures after { (n : ℕ) → self.old ≡ n % probe_period → self.new ≡ (n + 1) % probe_period }
        ensures due { (n : ℕ) → self.old ≡ n % probe_period → result ≡ ((n + 1) % probe_period == 0) }
    {
        let begins = self.ticks == TICKS_PER_ROUND - 1;
        self.ticks = if begins { 0 } else { self.ticks + 1 };
        begins
    }
}
