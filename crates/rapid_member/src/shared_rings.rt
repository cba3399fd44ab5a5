// Rings that are shared.

ghost use Rattle.std.specs.Prelude.{◌≡◌, IfOk};
ghost use Rattle.std.specs.Arc.{arc_value};
ghost use Rattle.rapid_model.specs.Ring.{observers_of};

use rapid_config::{ConfigId, Params};
use rapid_endpoint::{Process, ProcessRef};
use rapid_rings::{ObserverTable, Rings};
use std::alloc::{AllocError, Global};
use std::marker::Model;
use std::sync::Arc;

/// The rings of a configuration, which all parts of a member and all its copies share.
#[derive(Debug, Drop)]
pub(crate) struct SharedRings {
    rings: Arc<Rings, Global>,
}

impl Model for SharedRings {
    ghost use Rattle.std.specs.Arc.{arc_value};
    ghost use Rattle.rapid_model.specs.Configuration.{Configuration as ModelConfiguration};

    ghost Value = { ModelConfiguration };

    ghost view = { λ s. arc_value s.rings };
}

impl SharedRings {
    /// These rings, to be shared.
    pub(crate) fn new(rings: Arc<Rings, Global>) -> SharedRings
        ensures { result ≡ arc_value rings }
    {
        SharedRings { rings }
    }

    /// The rings.
    pub(crate) fn get(&self) -> &Arc<Rings, Global>
        ensures { arc_value result.now ≡ self.now }
    {
        &self.rings
    }

    /// The same rings.
    pub(crate) fn try_copy(&self) -> Result<SharedRings, AllocError>
        ensures { IfOk result (λ s. s ≡ self.now) }
    {
        let rings = Arc::try_clone(&self.rings)?;
        Ok(SharedRings { rings })
    }
}

impl ObserverTable for SharedRings {
    ghost observers = { observers_of };

    fn params(&self) -> Params {
        self.rings.params()
    }

    fn id(&self) -> ConfigId {
        self.rings.id()
    }

    fn is_member(&self, process: &Process) -> bool {
        self.rings.is_member(process)
    }

    fn observer(&self, ring: u8, subject: &Process) -> Option<Process> {
        self.rings.observer(ring, subject)
    }

    fn member_and_observer(&self, ring: u8, subject: &Process) -> (bool, Option<Process>) {
        self.rings.member_and_observer(ring, subject)
    }

    fn member_and_observer_near(
        &self,
        ring: u8,
        subject: &Process,
        place: &mut usize,
    ) -> (bool, Option<Process>) {
        self.rings.member_and_observer_near(ring, subject, place)
    }

    fn member_and_observes_near(
        &self,
        observer: &ProcessRef<'_>,
        ring: u8,
        subject: &ProcessRef<'_>,
        place: &mut usize,
    ) -> (bool, bool) {
        self.rings
            .member_and_observes_near(observer, ring, subject, place)
    }

    fn may_observe(&self, process: &Process) -> bool {
        self.rings.may_observe(process)
    }

    fn may_any_observe_itself(&self) -> bool {
        self.rings.may_any_observe_itself()
    }
}
