// Sizes of quorums.
ghost use Rattle.std.specs.Prelude.{◌≡◌};
ghost use Rattle.rapid_model.specs.Quorum as model;

/// The least size of a classic quorum of `n` members, more than half of them.
pub fn classic_size(n: usize) -> usize
    ensures { result ≡ model.classic_size n }
{
    n / 2 + 1
}
