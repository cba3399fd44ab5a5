// What hosts of one configuration look up.

ghost use Rattle.std.specs.Prelude.{◌≡◌, IfOk};
ghost use Rattle.std.specs.Arc.{arc_value};
ghost use Rattle.std.specs.FinSet as set;
ghost use Rattle.rapid_join.specs.Endpoints.{endpoints_of};

use crate::endpoints::MemberEndpoints;
use rapid_config::Configuration;
use rapid_endpoint::Endpoint;
use rapid_rings::Rings;
use std::alloc::{AllocError, Global};
use std::marker::Model;
use std::sync::Arc;

/// What hosts look up in a configuration: its rings, and the endpoints of its members. Both are
/// computed once, and copies share them.
#[derive(Debug, Drop)]
pub struct HostTables {
    rings: Arc<Rings, Global>,
    endpoints: MemberEndpoints,
}

impl Model for HostTables {
    ghost use Rattle.std.specs.Prelude.{◌≡◌};
    ghost use Rattle.std.specs.Arc.{arc_value};
    ghost use Rattle.rapid_model.specs.Configuration.{Configuration as ModelConfiguration};
    ghost use Rattle.rapid_join.specs.Endpoints.{endpoints_of};

    ghost Value = { ModelConfiguration };

    ghost view = { λ t. arc_value t.rings };

    ghost invariant = { λ t. t.endpoints ≡ endpoints_of (arc_value t.rings).members };
}

impl HostTables {
    /// Those of a configuration, from nothing.
    pub fn new(alloc: Global, configuration: &Configuration) -> Result<HostTables, AllocError>
        ensures { IfOk result (λ tables. tables ≡ configuration.now) }
    {
        HostTables::of(alloc, Rings::new(alloc, configuration)?, configuration)
    }

    /// Those of a configuration, made of the rings of one before, as [`Rings::next`] makes its
    /// rings.
    pub fn after(
        alloc: Global,
        before: &Rings,
        configuration: &Configuration,
    ) -> Result<HostTables, AllocError>
        ensures { IfOk result (λ tables. tables ≡ configuration.now) }
    {
        HostTables::of(alloc, before.next(alloc, configuration)?, configuration)
    }

    /// Those of a configuration, of which the rings are there.
    fn of(
        alloc: Global,
        rings: Rings,
        configuration: &Configuration,
    ) -> Result<HostTables, AllocError>
        requires { rings ≡ configuration.now }
        ensures { IfOk result (λ tables. tables ≡ configuration.now) }
    {
        let endpoints = MemberEndpoints::of(alloc, configuration.members())?;
        Ok(HostTables {
            rings: Arc::new(alloc, rings)?,
            endpoints,
        })
    }

    /// The rings.
    pub fn rings(&self) -> &Arc<Rings, Global>
        ensures { arc_value result.now ≡ self.now }
    {
        &self.rings
    }

    /// Whether a member has the endpoint. It costs one binary search.
    pub(crate) fn has(&self, endpoint: &Endpoint) -> bool
        ensures { result ≡ set.contains (endpoints_of self.now.members) endpoint.now }
    {
        self.endpoints.has(endpoint)
    }

    /// The same tables, shared.
    pub fn try_copy(&self) -> Result<HostTables, AllocError>
        ensures { IfOk result (λ tables. tables ≡ self.now) }
    {
        Ok(HostTables {
            rings: Arc::try_clone(&self.rings)?,
            endpoints: self.endpoints.try_copy()?,
        })
    }
}
