//! Laws of the parts of a member over all that they heard: who observes whom, votes, promises and
//! notices.
//!
//! No function does any work: each contract is a law over the definitions that the parts meet, call
//! by call.
#![tactic(auto)]

ghost use Rattle.rapid_histories.specs.Observing.{SubjectsAreExact, SubjectsStandByRing};
ghost use Rattle.rapid_histories.specs.Observing.{ObserversStandByRing};
ghost use Rattle.std.specs.Prelude.{◌≡◌, ◌++◌, [], ◌∷◌, Some, None};
ghost use Rattle.rapid_model.specs.FastRound.{fast_decision};
ghost use Rattle.rapid_model.specs.Learner.{learnt};
ghost use Rattle.rapid_histories.specs.Examples.{one_cut, other_cut, low_ballot, high_ballot};
ghost use Rattle.rapid_histories.specs.Examples.{three_of_five, two_and_two, two_promises};
ghost use Rattle.rapid_histories.specs.Notices.{learner_after, GiversCount, NoticesComplete};
ghost use Rattle.rapid_histories.specs.Notices.{LearnsOnce};
ghost use Rattle.rapid_histories.specs.Promises.{HasMajority, PromisesCount, PromisesComplete};
ghost use Rattle.rapid_histories.specs.Promises.{RequestsOnce};
ghost use Rattle.rapid_histories.specs.Votes.{round_after, FirstVotesCount, VotesComplete};
ghost use Rattle.rapid_histories.specs.Votes.{DecidesOnce};

/// The pairs of a ring and a subject are exactly those of the members that a process observes, each
/// ring once and in ascending order.
pub fn subjects_are_exact()
    ensures exact { SubjectsAreExact }
    ensures by_ring { SubjectsStandByRing }
{}

/// If there is another member, a process has one observer on each ring, which stand by ring.
pub fn observers_stand_by_ring()
    ensures { ObserversStandByRing }
{}

/// After any votes, a fast round counts for each cut the positions whose first vote was for it. A
/// vote decides exactly if it completes a fast quorum for its cut, and none does after that.
pub fn first_votes_decide()
    ensures counts { FirstVotesCount }
    ensures complete { VotesComplete }
    ensures once { DecidesOnce }
{}

/// After any notices, a learner counts for each ballot and cut the positions that gave notice of
/// it. A notice teaches exactly if it is the first that completes a classic quorum for one ballot
/// and one cut, and none does after that.
pub fn notices_teach()
    ensures counts { GiversCount }
    ensures complete { NoticesComplete }
    ensures once { LearnsOnce }
{}

/// After any promises since it began a ballot, a coordinator has heard the positions that promised
/// it. It counts what their first promises report at the highest ballot. A promise brings a request
/// exactly if it completes a classic quorum and the promises then give a value, and none does after
/// that.
pub fn promises_ask()
    ensures counts { PromisesCount }
    ensures complete { PromisesComplete }
    ensures once { RequestsOnce }
{}

/// Of five members the fourth vote for one cut decides; votes for another cut and second votes
/// count for nothing.
pub fn the_fourth_of_five_decides()
    ensures last { fast_decision (round_after 5 three_of_five) 3 one_cut ≡ Some one_cut }
    ensures other { fast_decision (round_after 5 three_of_five) 3 other_cut ≡ None }
    ensures again { fast_decision (round_after 5 three_of_five) 0 one_cut ≡ None }
{}

/// Of five members the third notice of one cut at one ballot teaches, and of another cut at another
/// ballot too.
pub fn the_third_of_five_teaches()
    ensures low { learnt (learner_after 5 two_and_two) 1 low_ballot one_cut ≡ Some one_cut }
    ensures high { learnt (learner_after 5 two_and_two) 0 high_ballot other_cut ≡ Some other_cut }
    ensures neither { learnt (learner_after 5 two_and_two) 0 high_ballot one_cut ≡ None }
{}

/// Of five members the third promise of the ballot completes a classic quorum. A second promise of
/// one member, and a promise of another ballot, count for nothing.
pub fn the_third_of_five_completes()
    ensures before { HasMajority 5 low_ballot two_promises → ⊥ }
    ensures again { HasMajority 5 low_ballot (two_promises ++ (0, (low_ballot, None)) ∷ []) → ⊥ }
    ensures third { HasMajority 5 low_ballot (two_promises ++ (4, (low_ballot, None)) ∷ []) }
{}
