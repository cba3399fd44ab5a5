// Lists of distinct processes.

ghost use Rattle.std.specs.Prelude.{◌≡◌, ◌≢◌, ◌++◌, ◌∷◌, [], ℕ, List, false, true, Some, length, slice_get, position, Contains, IfOk, IfSome, IfNone, OnOk, OnErr};
ghost use Rattle.rapid_model.specs.Process.{Process as ModelProcess, is_in, same_bytes};
ghost use Rattle.rapid_roster.specs.Heads.{head_of};
ghost use Rattle.rapid_roster.specs.Indexed.{IsIndexed};
ghost use Rattle.rapid_roster.specs.Once.{StandOnce};

use crate::head::Head;
use rapid_endpoint::{KeptProcess, ProcessRef};
use std::alloc::{AllocError, Global};
use std::collections::HashMap;
use std::marker::Model;

/// A list of distinct processes. A process is looked for by its identifier and its endpoint, without
/// going over the list. Only those that differ from one before them in their tags alone are gone over.
#[derive(Debug, Drop)]
pub struct Roster {
    processes: Vec<KeptProcess>,
    /// the place of the first process with each identifier and endpoint
    firsts: HashMap<Head, usize>,
    /// the places of the others
    others: Vec<usize>,
}

impl Model for Roster {
    ghost use Rattle.std.specs.Prelude.{List};
    ghost use Rattle.rapid_model.specs.Process.{Process as ModelProcess};
    ghost use Rattle.rapid_roster.specs.Indexed.{IsIndexed};
    ghost use Rattle.rapid_roster.specs.Once.{StandOnce};

    ghost Value = { List ModelProcess };

    ghost view = { λ r. r.processes.items };

    ghost invariant = { λ r. IsIndexed r.processes.items r.firsts.entries r.others.items };
}

/// Notes where a process will stand that has this identifier and endpoint.
fn note(
    firsts: &mut HashMap<Head, usize>,
    others: &mut Vec<usize>,
    head: Head,
    place: usize,
) -> Result<(), AllocError>
    ensures noted { OnOk result ((ps : List ModelProcess) (p : ModelProcess) → place ≡ length ps → head ≡ head_of p → is_in ps p ≡ false → IsIndexed ps firsts.old.entries others.old.items → IsIndexed (ps ++ p ∷ []) firsts.new.entries others.new.items) }
    ensures unchanged { OnErr result ((ps : List ModelProcess) → IsIndexed ps firsts.old.entries others.old.items → IsIndexed ps firsts.new.entries others.new.items) }
{
    if firsts.contains_key(&head) {
        others.push(place)?;
    } else {
        firsts.insert(head, place)?;
    }
    Ok(())
}

/// Whether this process stands at the place.
#[inline(always)]
fn is_at(processes: &[KeptProcess], place: usize, process: &ProcessRef<'_>) -> bool
    ensures there { result ≡ true → slice_get processes.now place ≡ Some process.now }
    ensures told { slice_get processes.now place ≡ Some process.now → result ≡ true }
{
    match processes.get(place) {
        Some(kept) => kept.is(process),
        None => false,
    }
}

/// The first of these places at which this process stands.
fn find_among(
    processes: &[KeptProcess],
    places: &[usize],
    process: &ProcessRef<'_>,
) -> Option<usize>
    ensures found { IfSome result (λ place. slice_get processes.now place ≡ Some process.now) }
    ensures none { IfNone result ((place : ℕ) → Contains places.now place → slice_get processes.now place ≢ Some process.now) }
{
    for place in places {
        if is_at(processes, *place, process) {
            return Some(*place);
        }
    }
    None
}

impl Roster {
    /// The empty list.
    pub fn new(alloc: Global) -> Roster
        ensures { result ≡ [] }
    {
        Roster {
            processes: Vec::new(alloc),
            firsts: HashMap::new(alloc),
            others: Vec::new(alloc),
        }
    }

    /// How many processes there are.
    pub fn len(&self) -> usize
        ensures { result ≡ length self.now }
    {
        self.as_slice().len()
    }

    /// The processes, in order.
    pub fn as_slice(&self) -> &[KeptProcess]
        ensures { result.now ≡ self.now }
    {
        self.processes.as_slice()
    }

    /// The place of a process, if it is there.
    pub fn find(&self, process: &ProcessRef<'_>) -> Option<usize>
        ensures { result ≡ position (same_bytes process.now) self.now }
    {
        let first = *self.firsts.get(&Head::of(process))?;
        let processes = self.processes.as_slice();
        if is_at(processes, first, process) {
            return Some(first);
        }
        find_among(processes, self.others.as_slice(), process)
    }

    /// Adds a process that is not there, behind the others. If out of memory the list is as it was.
    pub fn push(&mut self, process: KeptProcess) -> Result<(), AllocError>
        requires { is_in self.old process ≡ false }
        ensures pushed { OnOk result (self.new ≡ self.old ++ process ∷ []) }
        ensures unchanged { OnErr result (self.new ≡ self.old) }
    {
        self.processes.reserve(1)?;
        let head = Head::of(&process.as_ref());
        note(
            &mut self.firsts,
            &mut self.others,
            head,
            self.processes.len(),
        )?;
        self.processes.push_reserved(process);
        Ok(())
    }

    /// No process stands there twice. It does nothing: what it ensures is for proofs.
    #[inline(always)]
    pub fn tell(&self)
        ensures { StandOnce self.now }
    {
        let _ = &self.others;
    }

    /// The same list.
    pub fn try_copy(&self, alloc: Global) -> Result<Roster, AllocError>
        ensures { IfOk result (λ copy. copy ≡ self.now) }
    {
        Ok(Roster {
            processes: self.processes.clone()?,
            firsts: self.firsts.clone()?,
            others: self.others.clone()?,
        })
    }
}

impl Clone for Roster {
    ghost is_clone = { λ a b. b ≡ a };

    fn clone(&self) -> Result<Roster, AllocError> {
        self.try_copy(*self.processes.allocator())
    }
}
