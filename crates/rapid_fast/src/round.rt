// The fast round of one member.
ghost use Rattle.std.specs.Prelude.{◌≡◌, ◌≤◌, ◌<◌, ℕ, true, None, IfOk, OnOk, OnErr, IfErr};
ghost use Rattle.rapid_model.specs.Cut.{Cut as ModelCut};
ghost use Rattle.rapid_model.specs.FastRound.{fast_decision};
ghost use Rattle.rapid_model.specs.Limits.{most_members};
ghost use Rattle.rapid_fast.specs.OwnRound.{fresh_own, after_vote};
ghost use Rattle.rapid_fast.specs.Refusals.{IsHearRefusal, hear_code};

use crate::votes::VoteCounts;
use crate::{PositionSet, fast_size};
use rapid_config::Cut;
use std::alloc::{AllocError, Global};
use std::marker::Model;
use thiserror::Error;

/// Why a vote is refused.
#[derive(Clone, Copy, Debug, PartialEq, Eq, Error)]
pub enum HearError {
    /// The position is no member's.
    #[error("no member has this position")]
    NotMember,
    /// Out of memory; nothing changed.
    #[error("out of memory")]
    OutOfMemory,
}

impl HearError {
    /// The number of the refusal.
    pub fn code(&self) -> u8
        ensures { result ≡ hear_code self.now }
    {
        match self {
            HearError::NotMember => 1,
            HearError::OutOfMemory => 99,
        }
    }
}

/// The fast round as one member keeps it: the first vote of each member counts.
#[derive(Debug, Drop)]
pub struct FastRound {
    size: usize,
    position: usize,
    heard: PositionSet,
    counts: VoteCounts,
}

impl Model for FastRound {
    ghost use Rattle.rapid_fast.specs.OwnRound.{OwnRound, own_code, IsRound};

    ghost Value = { OwnRound };

    ghost coded = { own_code };

    ghost view = { λ f. record { position = f.position; round = record { size = f.size; heard = f.heard; counts = f.counts } } };

    ghost invariant = { λ f. IsRound (record { position = f.position; round = record { size = f.size; heard = f.heard; counts = f.counts } }) };
}

impl FastRound {
    /// The round of `size` members, at most 1,024, as the one at `position` keeps it; no vote is
    /// there.
    pub fn new(alloc: Global, size: usize, position: usize) -> FastRound
        requires { size ≤ most_members }
        ensures { result ≡ fresh_own size position }
    {
        FastRound {
            size,
            position,
            heard: PositionSet::new(),
            counts: VoteCounts::new(alloc),
        }
    }

    /// The own vote; the cut, if this vote completes a fast quorum for it. A second vote is
    /// ignored.
    ///
    /// # Errors
    ///
    /// `NotMember` if the own position is not below the number of members; `OutOfMemory`. Both
    /// leave the round as it was.
    pub fn vote(&mut self, cut: &Cut) -> Result<Option<Cut>, HearError>
        ensures decided { IfOk result (λ d. d ≡ fast_decision self.old.round self.old.position cut.now) }
        ensures heard { OnOk result (self.new ≡ after_vote self.old self.old.position cut.now) }
        ensures member { OnOk result (self.old.position < self.old.round.size) }
        ensures refused { IfErr result (IsHearRefusal self.old.round self.old.position) }
        ensures unchanged { OnErr result (self.new ≡ self.old) }
        ensures size { self.new.round.size ≡ self.old.round.size }
        ensures position { self.new.position ≡ self.old.position }
    {
        self.hear(self.position, cut)
    }

    /// A vote of the member at a position; the cut, if this vote completes a fast quorum for it. A
    /// second vote of a member is ignored.
    ///
    /// # Errors
    ///
    /// `NotMember` if the position is not below the number of members; `OutOfMemory`. Both leave
    /// the round as it was.
    #[inline(always)]
    pub fn hear(&mut self, position: usize, cut: &Cut) -> Result<Option<Cut>, HearError>
        ensures decided { IfOk result (λ d. d ≡ fast_decision self.old.round position cut.now) }
        ensures heard { OnOk result (self.new ≡ after_vote self.old position cut.now) }
        ensures member { OnOk result (position < self.old.round.size) }
        ensures refused { IfErr result (IsHearRefusal self.old.round position) }
        ensures unchanged { OnErr result (self.new ≡ self.old) }
        ensures size { self.new.round.size ≡ self.old.round.size }
        ensures position { self.new.position ≡ self.old.position }
    {
        if position >= self.size {
            return Err(HearError::NotMember);
        }
        self.count_vote(position, cut)
            .map_err(|_| HearError::OutOfMemory)
    }

    /// Whether no next vote can decide: at least two more are needed for each cut.
    #[tactic(auto, using(crate::proofs::Deciding::decides_not))]
    pub fn needs_two_votes(&self) -> bool
        ensures { result ≡ true → (p : ℕ) → (v : ModelCut) → fast_decision self.now.round p v ≡ None }
    {
        self.heard.len() + 1 < fast_size(self.size)
    }

    /// Takes the vote of a member.
    #[inline(always)]
    fn count_vote(&mut self, position: usize, cut: &Cut) -> Result<Option<Cut>, AllocError>
        requires { position < self.old.round.size }
        ensures decided { IfOk result (λ d. d ≡ fast_decision self.old.round position cut.now) }
        ensures heard { OnOk result (self.new ≡ after_vote self.old position cut.now) }
        ensures unchanged { OnErr result (self.new ≡ self.old) }
        ensures size { self.new.round.size ≡ self.old.round.size }
        ensures position { self.new.position ≡ self.old.position }
    {
        if self.heard.contains(position) {
            return Ok(None);
        }
        let decided = self.counts.add(cut, fast_size(self.size))?;
        self.heard.insert(position);
        Ok(decided)
    }

    /// An equal round.
    pub fn try_copy(&self) -> Result<FastRound, AllocError>
        ensures { IfOk result (λ f. f ≡ self.now) }
    {
        Ok(FastRound {
            size: self.size,
            position: self.position,
            heard: self.heard.try_copy()?,
            counts: self.counts.try_copy()?,
        })
    }
}
