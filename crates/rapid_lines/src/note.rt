// What a node reports while it goes on, beside its views.

ghost use Rattle.std.specs.Prelude.{◌≡◌, ◌≤◌, ◌++◌, [], ◌∷◌, Some, vec_len, nat_le, if◌then◌else◌, OnOk, OnErr};
ghost use Rattle.rapid_model.specs.Limits.{most_notes};
ghost use Rattle.rapid_lines.specs.Asking.{answer_of};

use rapid_endpoint::Endpoint;
use rapid_join::Reply;
use std::alloc::{AllocError, Global};
use std::{fmt, mem};

/// How many notes wait at most.
const MOST_NOTES: usize = 64;

/// The reply to a question of a joiner.
#[derive(Clone, Copy, Debug, PartialEq, Eq)]
pub enum Answer {
    /// No reply.
    Nothing,
    /// It may join: it asks its observers to let it in.
    Safe,
    /// A member has its identifier or its endpoint.
    InUse,
    /// The configuration in which it asked was left.
    Changed,
    /// Too many others want to join.
    TooMany,
}

impl Answer {
    /// What a reply answers.
    pub(crate) fn of(reply: &Reply) -> Answer
        ensures { result ≡ answer_of reply.now }
    {
        match reply {
            Reply::Safe(_, _) => Answer::Safe,
            Reply::EndpointInUse => Answer::InUse,
            Reply::ConfigurationChanged => Answer::Changed,
            Reply::TooManyJoiners => Answer::TooMany,
        }
    }
}

impl fmt::Display for Answer {
    ghost use Rattle.rapid_lines.specs.NoteText.{answer_text};

    ghost output = { λ answer. Some (answer_text answer) };

    fn fmt<W: fmt::Write>(&self, f: &mut fmt::Formatter<W>) -> fmt::Result {
        f.write_str(match self {
            Answer::Nothing => "none; see that a member runs there",
            Answer::Safe => "it may join; see that most members run, with ticks",
            Answer::InUse => "a member has its identifier or its endpoint",
            Answer::Changed => "the configuration has changed",
            Answer::TooMany => "too many others are joining",
        })
    }
}

/// A question of a joiner by which it was not let in.
#[derive(Clone, Copy, Debug, PartialEq, Eq)]
pub struct InVain {
    /// Its number, from 1.
    pub question: u64,
    /// Who was asked.
    pub seed: Endpoint,
    /// What was answered last.
    pub answer: Answer,
}

/// What a node reports while it goes on, beside its views.
#[derive(Clone, Copy, Debug, PartialEq, Eq)]
pub enum Note {
    /// It asked in vain to be let in.
    InVain(InVain),
    /// It is no member from this height on.
    Removed(u64),
}

impl fmt::Display for Note {
    ghost use Rattle.rapid_lines.specs.NoteText.{note_text};

    ghost output = { λ note. Some (note_text note) };

    fn fmt<W: fmt::Write>(&self, f: &mut fmt::Formatter<W>) -> fmt::Result {
        match self {
            Note::InVain(asked) => {
                let InVain {
                    question,
                    seed,
                    answer,
                } = asked;
                write!(
                    f,
                    "no view after question {question} to {seed}; last answer: {answer}"
                )
            }
            Note::Removed(height) => write!(
                f,
                "this node was removed and is no member from height {height} on: start another in its place"
            ),
        }
    }
}

/// The notes that wait to be reported, at most 64.
#[derive(Drop)]
pub struct Notes {
    alloc: Global,
    waiting: Vec<Note>,
    ghost few: { vec_len waiting ≤ most_notes },
}

impl Notes {
    /// Nothing is to be reported.
    pub fn new(alloc: Global) -> Notes
        ensures { result.waiting.items ≡ [] }
    {
        Notes {
            alloc,
            waiting: Vec::new(alloc),
        }
    }

    /// Adds a note after those that wait, unless 64 do.
    ///
    /// # Errors
    ///
    /// There is no memory for it: it is not added.
    pub fn add(&mut self, note: Note) -> Result<(), AllocError>
        ensures added { OnOk result (self.new.waiting.items ≡ (if nat_le most_notes (vec_len self.old.waiting) then self.old.waiting.items else self.old.waiting.items ++ note ∷ [])) }
        ensures unchanged { OnErr result (self.new.waiting.items ≡ self.old.waiting.items) }
    {
        if self.waiting.len() < MOST_NOTES {
            self.waiting.push(note)?;
        }
        Ok(())
    }

    /// Takes out the notes that wait, from the oldest on.
    pub fn take(&mut self) -> Vec<Note>
        ensures taken { result.items ≡ self.old.waiting.items }
        ensures none { self.new.waiting.items ≡ [] }
    {
        mem::replace(&mut self.waiting, Vec::new(self.alloc))
    }
}
