// The gate of clerks.

ghost use Rattle.std.specs.Prelude.{◌≡◌, ℕ, true, false};

/// Says when clerks go on. Clerks call it while they hold no lock.
pub trait Gate {
    // It has not let a clerk in. A gate that lets all in gives what cannot hold.
    ghost has_shut: { Type 0 } = { Unit {0} };

    // It has let this clerk in for its job with this number.
    ghost has_let_in: { ℕ → ℕ → Type 0 } = { λ _ _. Unit {0} };

    // It was told that this clerk is through with its job of this number.
    ghost was_told: { ℕ → ℕ → Type 0 } = { λ _ _. Unit {0} };

    /// A clerk is about to do its job with this number, from 1. If the answer is false the clerk
    /// stops.
    fn enter(&self, worker: usize, turn: u64) -> bool
        ensures shut { result ≡ false → has_shut }
        ensures open { result ≡ true → has_let_in worker turn };

    /// A clerk did its job with this number, or was refused it.
    fn left(&self, worker: usize, turn: u64)
        ensures { was_told worker turn };
}
