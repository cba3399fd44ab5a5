// What a process asks that wants to join.

ghost use Rattle.std.specs.Prelude.{◌≡◌, true};
ghost use Rattle.rapid_model.specs.Bytes.{ConfigurationId};
ghost use Rattle.rapid_repeats.specs.Repeating.{IsTimely};
ghost use Rattle.rapid_repeats.specs.Parts.{asked_in};

use rapid_join::Joiner;

/// Within how many ticks a joiner's question is a repeat.
const QUESTION_TICKS: u64 = Joiner::QUESTION_PERIOD as u64;

/// What a process asks that wants to join. When it asked this last is kept.
#[derive(Clone, Copy, Debug, PartialEq, Eq, PartialOrd, Ord)]
pub(crate) enum Asked {
    /// Whether it may join.
    Question,
    /// To be let in, on this ring.
    Request(u8),
}

impl Asked {
    /// Whether this was asked so shortly before that a repeat is dropped. For the question this is
    /// within ten ticks, for a request at any time.
    pub(crate) fn is_timely(self, before: u64, now: u64) -> bool
        ensures timely { (here : ConfigurationId) → result ≡ true → IsTimely (asked_in here self) before now }
        ensures told { (here : ConfigurationId) → IsTimely (asked_in here self) before now → result ≡ true }
    {
        match self {
            Asked::Question => now.saturating_sub(before) < QUESTION_TICKS,
            Asked::Request(_) => true,
        }
    }
}
