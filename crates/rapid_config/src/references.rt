// Lists of processes that stand elsewhere.

ghost use Rattle.std.specs.Prelude.{◌≡◌, ◌≤◌, ◌<◌, ◌++◌, [], ◌∷◌, length, get_or, map, OnOk, IfOk};
ghost use Rattle.std.specs.List.{insert};
ghost use Rattle.std.specs.List.Sorted.{IsBinarySearchResult, IsSearchInRange};
ghost use Rattle.rapid_model.specs.Process.{identifier, bytes_cmp};

use rapid_endpoint::{Process, ProcessId};
use std::alloc::{AllocError, Global};
use std::marker::Model;

/// Processes that stand elsewhere, in an order of their own. So none is copied while the list
/// changes.
#[derive(Drop)]
pub(crate) struct References<'a> {
    processes: Vec<&'a Process>,
}

impl<'a> Model for References<'a> {
    ghost use Rattle.std.specs.Prelude.{List, map};
    ghost use Rattle.rapid_model.specs.Process.{Process as ModelProcess};

    ghost Value = { List ModelProcess };

    ghost view = { λ r. map (λ p. p.now) r.processes.items };
}

impl<'a> References<'a> {
    /// The list of no process.
    pub(crate) fn new(alloc: Global) -> References<'a>
        ensures { result ≡ [] }
    {
        References {
            processes: Vec::new(alloc),
        }
    }

    /// How many there are.
    pub(crate) fn len(&self) -> usize
        ensures { result ≡ length self.now }
    {
        self.processes.len()
    }

    /// The process at a place.
    pub(crate) fn at(&self, place: usize) -> &'a Process
        requires { place < length self.now }
        ensures { result.now ≡ get_or self.now place [] }
    {
        self.processes[place]
    }

    /// Adds a process at the end.
    pub(crate) fn push(&mut self, process: &'a Process) -> Result<(), AllocError>
        ensures { OnOk result (self.new ≡ self.old ++ process.now ∷ []) }
    {
        self.processes.push(process)?;
        Ok(())
    }

    /// Adds a process at a place, in front of those that stood there and behind.
    pub(crate) fn insert(&mut self, place: usize, process: &'a Process) -> Result<(), AllocError>
        requires { place ≤ length self.old }
        ensures { OnOk result (self.new ≡ insert self.old place process.now) }
    {
        self.processes.insert(place, process)?;
        Ok(())
    }

    /// The place of a process with this identifier, or the place for one, if identifiers ascend.
    pub(crate) fn search(&self, id: &ProcessId) -> Result<usize, usize>
        ensures within { IsSearchInRange result (length self.now) }
        ensures place { IsBinarySearchResult (λ p. bytes_cmp (identifier p) id.now) self.now result }
    {
        self.processes
            .binary_search_by_key(id, |process| process.id())
    }

    /// A copy of each process.
    pub(crate) fn to_vec(&self, alloc: Global) -> Result<Vec<Process>, AllocError>
        ensures { IfOk result (λ processes. processes.items ≡ self.now) }
    {
        let mut processes = Vec::with_capacity(alloc, self.len())?;
        for place in 0..self.len() {
            processes.push(*self.at(place))?;
        }
        Ok(processes)
    }
}
