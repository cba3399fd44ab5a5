// The phases of a node.

ghost use Rattle.std.specs.Prelude.{◌≡◌, true, IfOk, Option, Some};
ghost use Rattle.rapid_model.specs.Process.{Process as ModelProcess};
ghost use Rattle.rapid_model.specs.Configuration.{Configuration as ModelConfiguration, is_member};
ghost use Rattle.rapid_model.specs.Node.{Member, fresh_member};
ghost use Rattle.rapid_model.specs.NodeStep.{phase_in};
ghost use Rattle.rapid_node.specs.Phases.{phase_of, IsState};

use crate::views::ViewWithTables;
use rapid_config::Configuration;
use rapid_endpoint::SharedProcess;
use rapid_join::Joiner;
use rapid_member::MemberState;
use std::alloc::{AllocError, Global};

/// The phase of a node.
#[derive(Clone, Copy, Debug, PartialEq, Eq)]
pub enum Phase {
    /// It asks to be a member.
    Joining,
    /// It is a member.
    Member,
    /// It was a member and is none any more.
    Removed,
    /// It has halted.
    Halted,
}

/// The phase of a node, with what it keeps in it.
#[derive(Debug, Drop)]
pub(crate) enum State {
    /// It asks to be a member.
    Joining(Box<Joiner>),
    /// It is a member.
    Member(Box<MemberState>),
    /// It was removed; the configuration is the one without it.
    Removed(Configuration),
    /// It has halted.
    Halted,
}

impl State {
    /// The state of a founder, a member of the configuration of this view.
    pub(crate) fn found(
        alloc: Global,
        view: &ViewWithTables,
        me: &SharedProcess,
    ) -> Result<State, AllocError>
        requires { is_member view.now me.now ≡ true }
        ensures phase { IfOk result (λ s. phase_of (Some view.now) s ≡ Member (fresh_member view.now me.now)) }
        ensures state { IfOk result (IsState me.now (Some view.now)) }
    {
        let own = me.share()?;
        let member = MemberState::new(alloc, &**view.configuration(), view.tables(), own)?;
        let boxed = Box::new(alloc, member)?;
        Ok(State::Member(boxed))
    }

    /// The state of a process that enters a view.
    pub(crate) fn enter(
        alloc: Global,
        view: &ViewWithTables,
        me: &SharedProcess,
    ) -> Result<State, AllocError>
        ensures phase { IfOk result (λ s. phase_of (Some view.now) s ≡ phase_in view.now me.now) }
        ensures state { IfOk result (IsState me.now (Some view.now)) }
    {
        if view.configuration().is_member(me.get()) {
            State::found(alloc, view, me)
        } else {
            Ok(State::Removed(view.configuration().try_copy(alloc)?))
        }
    }

    /// A state of the same process in an equal phase.
    pub(crate) fn try_copy(&self, alloc: Global) -> Result<State, AllocError>
        ensures phase { (shown : Option ModelConfiguration) → IfOk result (λ s. phase_of shown s ≡ phase_of shown self.now) }
        ensures state { (me : ModelProcess) → (shown : Option ModelConfiguration) → IsState me shown self.now → IfOk result (IsState me shown) }
    {
        match self {
            State::Joining(joiner) => Ok(State::Joining(Box::new(alloc, joiner.try_copy()?)?)),
            State::Member(member) => Ok(State::Member(Box::new(alloc, member.try_copy()?)?)),
            State::Removed(configuration) => Ok(State::Removed(configuration.try_copy(alloc)?)),
            State::Halted => Ok(State::Halted),
        }
    }
}
