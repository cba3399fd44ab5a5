// Places of nodes, by what they are found by.

ghost use Rattle.std.specs.Prelude.{◌≡◌, OnOk, OnErr};
ghost use Rattle.std.specs.FinMap as finmap;
ghost use Rattle.rapid_world.specs.Found.{HasAll};

use crate::keys::IdKey;
use rapid_config::EndpointKey;
use rapid_endpoint::{Endpoint, ProcessId};
use std::alloc::{AllocError, Global};
use std::collections::{BTreeSet, HashMap};
use std::marker::Model;

/// A place by each of some identifiers.
#[derive(Debug, Drop)]
pub(crate) struct PlacesById {
    places: HashMap<IdKey, usize>,
    // the identifiers, ascending; also one whose place found no memory
    ids: BTreeSet<ProcessId>,
}

impl Model for PlacesById {
    ghost use Rattle.std.specs.FinMap as finmap;
    ghost use Rattle.rapid_world.specs.Found.{Places, places_code, HasAll};

    ghost Value = { Places };

    ghost coded = { places_code };

    ghost view = { λ p. finmap.from_entries p.places.entries };

    ghost invariant = { λ p. HasAll p.ids.keys (finmap.from_entries p.places.entries) };
}

impl PlacesById {
    /// No places.
    pub(crate) fn new(alloc: Global) -> PlacesById
        ensures { result ≡ finmap.empty }
    {
        PlacesById {
            places: HashMap::new(alloc),
            ids: BTreeSet::new(alloc),
        }
    }

    /// The place by an identifier.
    pub(crate) fn get(&self, id: &ProcessId) -> Option<usize>
        ensures { result ≡ finmap.get self.now id.now }
    {
        self.places.get(&IdKey::new(*id)).copied()
    }

    /// All identifiers that have a place, ascending.
    pub(crate) fn ids(&self) -> &BTreeSet<ProcessId>
        ensures { HasAll result.now.keys self.now }
    {
        &self.ids
    }

    /// Sets the place by an identifier. If out of memory the places stay as they were.
    pub(crate) fn insert(&mut self, id: ProcessId, place: usize) -> Result<(), AllocError>
        ensures ok { OnOk result (self.new ≡ finmap.insert self.old id place) }
        ensures unchanged { OnErr result (self.new ≡ self.old) }
    {
        self.ids.insert(id)?;
        self.places.insert(IdKey::new(id), place)?;
        Ok(())
    }
}

/// A place by each of some endpoints.
#[derive(Debug, Drop)]
pub(crate) struct PlacesByEndpoint {
    places: HashMap<EndpointKey, usize>,
}

impl Model for PlacesByEndpoint {
    ghost use Rattle.std.specs.FinMap as finmap;
    ghost use Rattle.rapid_world.specs.Found.{Places, places_code};

    ghost Value = { Places };

    ghost coded = { places_code };

    ghost view = { λ p. finmap.from_entries p.places.entries };
}

impl PlacesByEndpoint {
    /// No places.
    pub(crate) fn new(alloc: Global) -> PlacesByEndpoint
        ensures { result ≡ finmap.empty }
    {
        PlacesByEndpoint {
            places: HashMap::new(alloc),
        }
    }

    /// The place by an endpoint.
    pub(crate) fn get(&self, endpoint: &Endpoint) -> Option<usize>
        ensures { result ≡ finmap.get self.now endpoint.now }
    {
        self.places.get(&EndpointKey::new(*endpoint)).copied()
    }

    /// Sets the place by an endpoint. If out of memory the places are as they were.
    pub(crate) fn insert(&mut self, endpoint: Endpoint, place: usize) -> Result<(), AllocError>
        ensures ok { OnOk result (self.new ≡ finmap.insert self.old endpoint place) }
        ensures unchanged { OnErr result (self.new ≡ self.old) }
    {
        self.places.insert(EndpointKey::new(endpoint), place)?;
        Ok(())
    }
}
