// The endpoints of members.

ghost use Rattle.std.specs.Prelude.{◌≡◌, true, false, map, IfOk};
ghost use Rattle.std.specs.FinSet as set;
ghost use Rattle.rapid_model.specs.Process.{endpoint};
ghost use Rattle.rapid_join.specs.Endpoints.{endpoints_of};

use rapid_endpoint::{Endpoint, Process};
use std::alloc::{AllocError, Global};
use std::marker::Model;
use std::sync::ArcSlice;

/// The endpoints of members, as a set in which a search halves what is left. Copies share one list.
#[derive(Debug, Drop)]
pub(crate) struct MemberEndpoints {
    // ascending
    sorted: ArcSlice<Endpoint>,
}

impl Model for MemberEndpoints {
    ghost use Rattle.std.specs.Arc.{arc_slice_items};
    ghost use Rattle.std.specs.FinSet as set;
    ghost use Rattle.std.specs.List.Sorted.{IsSorted};
    ghost use Rattle.rapid_model.specs.Process.{bytes_cmp};
    ghost use Rattle.rapid_join.specs.Endpoints.{EndpointSet, endpoints_code};

    ghost Value = { EndpointSet };

    ghost coded = { endpoints_code };

    ghost view = { λ e. set.from_list (arc_slice_items e.sorted) };

    ghost invariant = { λ e. IsSorted bytes_cmp (arc_slice_items e.sorted) };
}

impl MemberEndpoints {
    /// The endpoints of these members.
    pub(crate) fn of(alloc: Global, members: &[Process]) -> Result<MemberEndpoints, AllocError>
        ensures { IfOk result (λ endpoints. endpoints ≡ endpoints_of members.now) }
    {
        let mut endpoints = endpoints_in_turn(alloc, members)?;
        endpoints.sort_unstable();
        let sorted = ArcSlice::from_vec(endpoints)?;
        Ok(MemberEndpoints { sorted })
    }

    /// Whether a member has the endpoint.
    pub(crate) fn has(&self, endpoint: &Endpoint) -> bool
        ensures { result ≡ set.contains self.now endpoint.now }
    {
        match self.sorted.as_slice().binary_search(endpoint) {
            Ok(_place) => true,
            Err(_next) => false,
        }
    }

    /// The same endpoints.
    pub(crate) fn try_copy(&self) -> Result<MemberEndpoints, AllocError>
        ensures { IfOk result (λ copy. copy ≡ self.now) }
    {
        let sorted = self.sorted.clone()?;
        Ok(MemberEndpoints { sorted })
    }
}

/// The endpoint of each member, in the order of the members.
fn endpoints_in_turn(alloc: Global, members: &[Process]) -> Result<Vec<Endpoint>, AllocError>
    ensures { IfOk result (λ endpoints. endpoints.items ≡ map endpoint members.now) }
{
    members
        .iter()
        .map(|member| member.endpoint())
        .collect(alloc)
}
