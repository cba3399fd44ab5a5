// Sizes of quorums.
ghost use Rattle.std.specs.Prelude.{◌≡◌};
ghost use Rattle.rapid_model.specs.Quorum as model;

/// The least size of a fast quorum of `n` members, more than three quarters of them.
pub fn fast_size(n: usize) -> usize
    ensures { result ≡ model.fast_size n }
{
    // floor(3n / 4) + 1, computed so that no product overflows
    n / 4 * 3 + n % 4 * 3 / 4 + 1
}
