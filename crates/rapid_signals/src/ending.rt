// The end of a node.

ghost use Rattle.std.specs.Prelude.{◌≡◌, Some, None, IfErr, OnOk};
ghost use Rattle.rapid_signals.specs.Endings.{ended_by, has_ended, fault_in};

use crate::fault::RunningFault;
use std::sync::{Condvar, Mutex, Wait};
use std::time::{Clock, Duration};

/// Whether a node goes on.
#[derive(Clone, Copy, Debug)]
enum State {
    /// It goes on.
    Running,
    /// It ends, by a fault or as it was told to.
    Ending(Option<RunningFault>),
}

impl State {
    /// Ends the node. The first that ends it says why.
    fn end(&mut self, fault: Option<RunningFault>)
        ensures { self.new ≡ ended_by self.old fault }
    {
        if let State::Running = *self {
            *self = State::Ending(fault);
        }
    }

    /// Whether the node ends.
    fn has_ended(self) -> bool
        ensures { result ≡ has_ended self }
    {
        match self {
            State::Running => false,
            State::Ending(_) => true,
        }
    }

    /// The fault by which the node ends, if any.
    fn outcome(self) -> Result<(), RunningFault>
        ensures ok { OnOk result (fault_in self ≡ None) }
        ensures fault { IfErr result (λ fault. fault_in self ≡ Some fault) }
    {
        match self {
            State::Running | State::Ending(None) => Ok(()),
            State::Ending(Some(fault)) => Err(fault),
        }
    }
}

/// Whether a node goes on, and why it ends: the threads of a node share it.
#[derive(Drop)]
pub struct Ending {
    state: Mutex<State>,
    changed: Condvar,
}

impl Ending {
    /// A node goes on.
    pub fn new() -> Ending {
        Ending {
            state: Mutex::new(State::Running),
            changed: Condvar::new(),
        }
    }

    /// Ends the node, by a fault or as it was told to. The first that ends it says why.
    pub fn end<R: Wait>(&self, rt: &R, fault: Option<RunningFault>) {
        let mut state = self.state.lock(rt);
        state.end(fault);
        drop(state);
        self.changed.notify_all();
    }

    /// Whether the node ends.
    pub fn has_come<R: Wait>(&self, rt: &R) -> bool {
        let state = self.state.lock(rt);
        state.has_ended()
    }

    /// Waits until the node ends, at most this long; the answer is whether it ends.
    pub fn wait<R: Wait + Clock>(&self, rt: &R, duration: Duration) -> bool {
        let state = self.state.lock(rt);
        let (state, _) = self
            .changed
            .wait_timeout_while(rt, state, duration, |state| !state.has_ended());
        state.has_ended()
    }

    /// Waits until the node ends.
    pub fn await_it<R: Wait>(&self, rt: &R) {
        let state = self.state.lock(rt);
        let state = self
            .changed
            .wait_while(rt, state, |state| !state.has_ended());
        drop(state);
    }

    /// Why the node ended.
    pub fn outcome<R: Wait>(&self, rt: &R) -> Result<(), RunningFault> {
        let state = self.state.lock(rt);
        state.outcome()
    }
}
