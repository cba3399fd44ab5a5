// The questions of a joiner.

ghost use Rattle.std.specs.Prelude.{◌≡◌, ℕ, ◌+◌, ◌<◌, ◌^◌};
ghost use Rattle.rapid_lines.specs.declared.note.Answer.TheVariants.{Nothing};
ghost use Rattle.rapid_lines.specs.Asking.{answer_of, is_told, note_at, answer_at};

use crate::note::{Answer, InVain, Note};
use rapid_endpoint::Endpoint;
use rapid_join::{Joiner, Reply};

/// How many ticks lie between two questions.
const QUESTION_PERIOD: u64 = Joiner::QUESTION_PERIOD as u64;

/// How many questions lie between two that are reported.
const QUESTIONS_PER_NOTE: u64 = 10;

/// The questions of a joiner, which asks its seed at its ticks 1, 11, 21 and so on until it has a
/// view. A question is in vain if the next one is asked. The first that was in vain is reported,
/// and each tenth.
#[derive(Debug, Drop)]
pub struct Asking {
    seed: Endpoint,
    ticks: u64,
    /// What was answered since the last question.
    answer: Answer,
}

/// Whether a question that was in vain is reported, by its number.
fn is_told(question: u64) -> bool
    ensures { result ≡ is_told question }
{
    question == 1 || question >= 1 && question % QUESTIONS_PER_NOTE == 0
}

impl Asking {
    /// Nothing was asked yet.
    pub fn new(seed: Endpoint) -> Asking
        ensures { result ≡ record { seed = seed; ticks = 0; answer = Nothing } }
    {
        Asking {
            seed,
            ticks: 0,
            answer: Answer::Nothing,
        }
    }

    /// A reply has come.
    pub fn hear(&mut self, reply: &Reply)
        ensures { self.new ≡ record self.old { answer = answer_of reply.now } }
    {
        self.answer = Answer::of(reply);
    }

    /// A tick more, at which it has no view. The answer is what to report of the question before,
    /// if anything.
    pub fn tick(&mut self) -> Option<Note>
        ensures note { self.old.ticks + 1 < 2 ^ 64 → result ≡ note_at self.old.seed (self.old.ticks + 1) self.old.answer }
        ensures answer { self.old.ticks + 1 < 2 ^ 64 → self.new.answer ≡ answer_at (self.old.ticks + 1) self.old.answer }
        ensures ticks { self.old.ticks + 1 < 2 ^ 64 → self.new.ticks ≡ self.old.ticks + 1 }
        ensures seed { self.new.seed ≡ self.old.seed }
    {
        self.ticks = self.ticks.saturating_add(1);
        if self.ticks % QUESTION_PERIOD != 1 {
            return None;
        }
        let answer = self.answer;
        self.answer = Answer::Nothing;
        let question = self.ticks / QUESTION_PERIOD;
        if !is_told(question) {
            return None;
        }
        Some(Note::InVain(InVain {
            question,
            seed: self.seed,
            answer,
        }))
    }
}
