// The learner of one member.
ghost use Rattle.std.specs.Prelude.{◌≡◌, ◌≤◌, ◌<◌, IfOk, OnOk, OnErr};
ghost use Rattle.rapid_model.specs.Learner as model;
ghost use Rattle.rapid_model.specs.Limits.{most_members};

use crate::notices::NoticeSet;
use crate::{Ballot, classic_size};
use rapid_config::Cut;
use std::alloc::{AllocError, Global};
use std::marker::Model;

/// The learner of one member: it answers a cut once a classic quorum accepted it at one ballot.
#[derive(Debug, Drop)]
pub struct Learner {
    size: usize,
    notices: NoticeSet,
    decided: bool,
    alloc: Global,
}

impl Model for Learner {
    ghost use Rattle.std.specs.Prelude.{◌≤◌};
    ghost use Rattle.rapid_model.specs.Learner.{Learner as ModelLearner};
    ghost use Rattle.rapid_model.specs.Limits.{most_members};
    ghost use Rattle.rapid_paxos.specs.Codes.{learner_code};

    ghost Value = { ModelLearner };

    ghost coded = { learner_code };

    ghost view = { λ l. record { size = l.size; notices = l.notices; decided = l.decided } };

    ghost invariant = { λ l. l.size ≤ most_members };
}

impl Learner {
    /// A learner among `size` members, at most 1,024, that has heard nothing.
    pub fn new(alloc: Global, size: usize) -> Learner
        requires { size ≤ most_members }
        ensures { result ≡ model.fresh_learner size }
    {
        Learner {
            size,
            notices: NoticeSet::new(alloc),
            decided: false,
            alloc,
        }
    }

    /// Hears that the member at a position accepted a cut at a ballot. The answer is the cut at the
    /// first notice that completes a classic quorum for one ballot and one cut, and `None` at every
    /// other. If out of memory the learner is as it was.
    #[tactic(auto, unfolding(rapid_model::specs::Learner::after_notice, rapid_model::specs::Learner::learnt))]
    pub fn hear(
        &mut self,
        position: usize,
        ballot: Ballot,
        cut: &Cut,
    ) -> Result<Option<Cut>, AllocError>
        requires { position < self.old.size }
        ensures heard { OnOk result (self.new ≡ model.after_notice self.old position ballot cut.now) }
        ensures learnt { IfOk result (λ d. d ≡ model.learnt self.old position ballot cut.now) }
        ensures unchanged { OnErr result (self.new ≡ self.old) }
        ensures size { self.new.size ≡ self.old.size }
    {
        let completes = !self.decided
            && classic_size(self.size) <= self.notices.count_with(position, ballot, cut);
        let learnt = if completes {
            Some(cut.try_copy(self.alloc)?)
        } else {
            None
        };
        self.notices.insert(position, ballot, cut)?;
        self.decided |= completes;
        Ok(learnt)
    }

    /// An equal learner.
    pub fn try_copy(&self) -> Result<Learner, AllocError>
        ensures { IfOk result (λ l. l ≡ self.now) }
    {
        Ok(Learner {
            size: self.size,
            notices: self.notices.try_copy()?,
            decided: self.decided,
            alloc: self.alloc,
        })
    }
}
