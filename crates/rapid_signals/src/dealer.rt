// The threads that make rounds of probes.

ghost use Rattle.std.specs.Prelude.{◌≡◌, ◌+◌, ◌-◌, ◌<◌, ◌≤◌, nat_le, IfSome, IfNone};

use std::sync::{Condvar, Mutex, Wait};
use std::time::{Clock, Duration};

/// Deals the parts of a round of probes to the threads that make them, each part to one of them.
#[derive(Drop)]
pub struct Dealer {
    parts: usize,
    state: Mutex<Dealt>,
    changed: Condvar,
}

/// The state of a round.
#[derive(Drop)]
struct Dealt {
    /// The next part that is to be made; the number of parts if all were dealt.
    next: usize,
    /// How many parts are not made yet.
    left: usize,
}

impl Dealt {
    /// All of this many parts are made.
    fn ended(parts: usize) -> Dealt
        ensures { (result.next ≡ parts) × (result.left ≡ 0) }
    {
        Dealt {
            next: parts,
            left: 0,
        }
    }

    /// None of this many parts was dealt.
    fn begun(parts: usize) -> Dealt
        ensures { (result.next ≡ 0) × (result.left ≡ parts) }
    {
        Dealt {
            next: 0,
            left: parts,
        }
    }

    /// A part that was dealt is made.
    fn made(&mut self)
        ensures { (self.new.next ≡ self.old.next) × (self.new.left ≡ self.old.left - 1) }
    {
        self.left = self.left.saturating_sub(1);
    }

    /// Whether a part is not made yet.
    fn is_underway(&self) -> bool
        ensures { result ≡ nat_le 1 self.now.left }
    {
        self.left > 0
    }

    /// Whether each of this many parts was dealt.
    fn is_dealt(&self, parts: usize) -> bool
        ensures { result ≡ nat_le parts self.now.next }
    {
        self.next >= parts
    }

    /// The next part of this many, if there is one.
    fn take(&mut self, parts: usize) -> Option<usize>
        ensures next { IfSome result (λ part. (part ≡ self.old.next) × (part < parts) × (self.new.next ≡ part + 1)) }
        ensures none { IfNone result ((parts ≤ self.old.next) × (self.new.next ≡ self.old.next)) }
        ensures left { self.new.left ≡ self.old.left }
    {
        if self.next >= parts {
            return None;
        }
        let part = self.next;
        self.next = part + 1;
        Some(part)
    }
}

impl Dealer {
    /// Deals `parts` parts a round. No round was begun.
    pub fn new(parts: usize) -> Dealer
        ensures { result.parts ≡ parts }
    {
        Dealer {
            parts,
            state: Mutex::new(Dealt::ended(parts)),
            changed: Condvar::new(),
        }
    }

    /// Begins a round, once the one before is made.
    pub fn begin<W: Wait>(&self, rt: &W) {
        let state = self.state.lock(rt);
        let mut state = self
            .changed
            .wait_while(rt, state, |state| state.is_underway());
        *state = Dealt::begun(self.parts);
        drop(state);
        self.changed.notify_all();
    }

    /// The next part of the round, which the caller makes; none if all were dealt.
    pub fn take<W: Wait>(&self, rt: &W) -> Option<usize>
        ensures { IfSome result (λ part. part < self.now.parts) }
    {
        let mut state = self.state.lock(rt);
        state.take(self.parts)
    }

    /// A part that was taken is made.
    pub fn made<W: Wait>(&self, rt: &W) {
        let mut state = self.state.lock(rt);
        state.made();
        drop(state);
        self.changed.notify_all();
    }

    /// Waits until all parts of the round are made.
    pub fn finish<W: Wait>(&self, rt: &W) {
        let state = self.state.lock(rt);
        let state = self
            .changed
            .wait_while(rt, state, |state| state.is_underway());
        drop(state);
    }

    /// Waits until there is a part to be made, at most this long.
    pub fn wait<W: Wait + Clock>(&self, rt: &W, longest: Duration) {
        let parts = self.parts;
        let state = self.state.lock(rt);
        let (state, _) = self
            .changed
            .wait_timeout_while(rt, state, longest, |state| state.is_dealt(parts));
        drop(state);
    }
}
