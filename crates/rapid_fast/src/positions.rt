// Sets of positions.
ghost use Rattle.std.specs.Prelude.{◌≡◌, ◌≤◌, ◌<◌, IfOk, IsOk};
ghost use Rattle.std.specs.FinSet as set;
ghost use Rattle.rapid_model.specs.Limits.{most_members};

use std::alloc::AllocError;
use std::marker::Model;

/// How many words hold a bit for each position below 1,024.
const WORDS: usize = 16;

/// A set of positions below 1,024, as one bit for each.
#[derive(Debug, Drop)]
pub struct PositionSet {
    words: [u64; WORDS],
    len: usize,
}

impl Model for PositionSet {
    ghost use Rattle.std.specs.Prelude.{◌≡◌};
    ghost use Rattle.std.specs.Ordering.{nat_cmp};
    ghost use Rattle.std.specs.FinSet as set;
    ghost use Rattle.rapid_model.specs.Codes.{positions_code};
    ghost use Rattle.rapid_fast.specs.Bits.{positions_of};

    ghost Value = { set.FinSet nat_cmp };

    ghost coded = { positions_code };

    ghost view = { λ s. positions_of s.words };

    ghost invariant = { λ s. s.len ≡ set.len (positions_of s.words) };
}

impl PositionSet {
    /// No position.
    pub fn new() -> PositionSet
        ensures { result ≡ set.empty }
    {
        PositionSet {
            words: [0; WORDS],
            len: 0,
        }
    }

    /// How many positions are in the set, at most 1,024.
    pub fn len(&self) -> usize
        ensures value { result ≡ set.len self.now }
        ensures few { set.len self.now ≤ most_members }
    {
        self.len
    }

    /// Whether a position is in the set.
    pub fn contains(&self, position: usize) -> bool
        requires { position < most_members }
        ensures value { result ≡ set.contains self.now position }
        ensures few { set.len self.now ≤ most_members }
    {
        (self.words[position / 64] >> (position % 64)) & 1 == 1
    }

    /// Puts a position into the set.
    pub fn insert(&mut self, position: usize)
        requires { position < most_members }
        ensures { self.new ≡ set.insert self.old position }
    {
        if self.contains(position) {
            return;
        }
        self.words[position / 64] |= 1 << (position % 64);
        self.len += 1;
    }

    /// An equal set. It takes no memory, and is always Ok.
    pub fn try_copy(&self) -> Result<PositionSet, AllocError>
        ensures equal { IfOk result (λ s. s ≡ self.now) }
        ensures made { IsOk result }
    {
        Ok(PositionSet {
            words: self.words,
            len: self.len,
        })
    }
}
