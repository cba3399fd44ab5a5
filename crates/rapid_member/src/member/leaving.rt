// How a member leaves, and what its observers make of it.

ghost use Rattle.std.specs.Prelude.{◌≡◌, ◌++◌, ◌∷◌, [], flat_map, OnOk, OnErr};
ghost use Rattle.rapid_model.specs.Member as member;
ghost use Rattle.rapid_model.specs.Node.{outputs};
ghost use Rattle.rapid_model.specs.Ring.{observers_of};
ghost use Rattle.rapid_alerts.specs.Alerts.{alert_of};
ghost use Rattle.rapid_member.specs.Members.{IsSameMember};

use super::MemberState;
use crate::sending::answer;
use rapid_alerts::{Alert, Kind};
use rapid_endpoint::Process;
use rapid_message::{Body, Output};
use rapid_rings::ObserverTable;
use std::alloc::AllocError;

impl MemberState {
    /// Tells its observer on each ring, by ring, that it wants to leave. A member that is alone has
    /// none. It goes on as before until it is removed. The wish is not kept, so it has to be told
    /// again in a view that still has it.
    ///
    /// On an error a part may be said, and nothing that was added to the outputs may be sent.
    /// `Node::step` drops them, and its node is halted.
    #[tactic(auto, unfolding(rapid_model::specs::Member::farewells))]
    pub fn leave(&self, out: &mut Vec<Output>) -> Result<(), AllocError>
        ensures { OnOk result (out.new.items ≡ out.old.items ++ outputs self.now.me (member.farewells self.now)) }
    {
        for ring in 0..self.context.rings.params().k() {
            self.leave_on(out, ring)?;
        }
        Ok(())
    }

    /// Tells its observer on a ring, if there is one, that it wants to leave.
    fn leave_on(&self, out: &mut Vec<Output>, ring: u8) -> Result<(), AllocError>
        ensures { OnOk result (out.new.items ≡ out.old.items ++ outputs self.now.me (flat_map (λ k. member.leave_to self.now k ((observers_of self.now.config).observer k self.now.me)) (ring ∷ []))) }
    {
        let me = self.shared_me();
        let Some(observer) = self.context.rings.observer(ring, me.get()) else {
            return Ok(());
        };
        let id = self.configuration().id();
        answer(out, me, &observer, Body::Leave(id, ring))
    }

    /// Takes a Leave for a ring of the configuration. REMOVE is raised on its sender, unless the
    /// sender is no member that is observed on the ring.
    pub(super) fn take_leave(&mut self, from: &Process, ring: u8) -> Result<(), AllocError>
        ensures state { OnOk result (self.new ≡ (member.take_leave self.old from.now ring).state) }
        ensures unchanged { OnErr result (self.new ≡ self.old) }
        ensures same { IsSameMember self.old self.new }
    {
        let alert = self.removal_of(from, ring);
        self.raise(alert)
    }

    /// The member's REMOVE on a process for a ring.
    fn removal_of(&self, process: &Process, ring: u8) -> Alert
        ensures { alert_of result ≡ member.removal_of self.now process.now ring }
    {
        Alert {
            observer: *self.me(),
            subject: *process,
            ring,
            kind: Kind::Remove,
            config: self.configuration().id(),
        }
    }
}
