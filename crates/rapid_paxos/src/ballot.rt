// Ballots.
ghost use Rattle.std.specs.Prelude.{◌≡◌, ◌≤◌, ◌<◌, ℕ, IfSome, IfNone};
ghost use Rattle.rapid_model.specs.Ballot.{fast_ballot, IsClassicBallot, IsBallot};

use rapid_config::Configuration;
use std::marker::Model;

/// A ballot: a round and the position of its coordinator, in this order.
#[derive(Clone, Copy, Debug, PartialEq, Eq, PartialOrd, Ord)]
pub struct Ballot {
    round: u8,
    position: u16,
}

impl Model for Ballot {
    ghost use Rattle.rapid_model.specs.Ballot.{Ballot as ModelBallot};
    ghost use Rattle.rapid_paxos.specs.Ranged.{IsRanged};

    ghost Value = { ModelBallot };

    ghost view = { λ b. record { round = b.round; position = b.position } };

    ghost inverse = { λ b. record { round = b.round; position = b.position } };

    ghost invariant = { λ b. IsRanged (record { round = b.round; position = b.position }) };
}

impl Ballot {
    /// The first round of a classic ballot, after that of the fast one.
    pub const FIRST_ROUND: u8 = 2;

    /// The last round of a classic ballot.
    pub const LAST_ROUND: u8 = 250;

    /// The ballot of the fast round, which needs no first phase.
    pub const FAST: Ballot = Ballot {
        round: 1,
        position: 0,
    };

    /// The classic ballot of a round and a coordinator's position; `None` unless the round is from
    /// 2 to 250 and the position is below 1,024.
    pub fn classic(round: u8, position: usize) -> Option<Ballot>
        ensures some { IfSome result (λ b. (b ≡ record { round = round; position = position }) × IsClassicBallot b) }
        ensures none { IfNone result (IsClassicBallot (record { round = round; position = position }) → ⊥) }
    {
        let rounds = Ballot::FIRST_ROUND..=Ballot::LAST_ROUND;
        if !rounds.contains(&round) || position >= Configuration::MOST {
            return None;
        }
        Some(Ballot {
            round,
            position: position as u16,
        })
    }

    /// The round: 1 for the fast ballot, else from 2 to 250.
    pub fn round(&self) -> u8
        ensures value { result ≡ self.now.round }
        ensures ballot { IsBallot self.now }
    {
        self.round
    }

    /// The coordinator's position, below 1,024; 0 for the fast ballot.
    pub fn position(&self) -> usize
        ensures value { result ≡ self.now.position }
        ensures ballot { IsBallot self.now }
    {
        usize::from(self.position)
    }
}
