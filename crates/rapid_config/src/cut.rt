// Cuts: the processes that a view change removes or adds.

ghost use Rattle.std.specs.Prelude.{◌≡◌, None, IfOk, IfErr, OnOk};
ghost use Rattle.std.specs.Ordering.{as_partial_cmp};
ghost use Rattle.std.specs.Cmp.{partial_equiv_from_equiv, partial_order_from_total};
ghost use Rattle.std.proofs.lemmas.Cmp.{eq_by_cmp_equiv};
ghost use Rattle.std.proofs.Common.{refl};
ghost use Rattle.rapid_model.specs.Cut.{IsCut, is_ascending, cut_cmp, same_cut};
ghost use Rattle.rapid_model.specs.Reading.{cut_fault};
ghost use Rattle.rapid_model.proofs.Orders.{cuts_total};
ghost use Rattle.rapid_config.specs.Faults.{Reports};

use crate::ConfigError;
use crate::members::MOST_MEMBERS;
use crate::told::tell_processes;
use rapid_endpoint::{Process, ProcessList};
use std::alloc::{AllocError, Global};
use std::cmp::Ordering;
use std::marker::Model;
use std::sync::Arc;

/// A cut: the processes that a view change removes or adds, strictly ascending, from 1 to 1,536 of
/// them. It keeps their bytes, and copies share these. Cuts are ordered by the number of processes
/// and then as lists, which is the order of their bytes.
#[derive(Debug, Drop)]
pub struct Cut {
    // behind one pointer, since journals and outputs keep many cuts
    processes: Arc<ProcessList, Global>,
}

impl Model for Cut {
    ghost use Rattle.std.specs.Arc.{arc_value};
    ghost use Rattle.rapid_model.specs.Cut.{Cut as ModelCut, IsCut};

    ghost Value = { ModelCut };

    ghost view = { λ c. arc_value c.processes };

    ghost invariant = { λ c. IsCut (arc_value c.processes) };
}

/// Whether the processes strictly ascend.
fn ascend(processes: &[Process]) -> bool
    ensures { result ≡ is_ascending processes.now }
{
    processes.is_sorted_by(|a, b| a < b)
}

impl Cut {
    /// The most joiners of a cut: no more wait at a host, and alerts are raised and taken on no more.
    pub const MOST_JOINERS: usize = 512;

    /// The most processes of a cut: all members and all joiners.
    pub const MOST: usize = MOST_MEMBERS + Cut::MOST_JOINERS;

    /// The cut of these processes. The first that holds: `EmptyCut` if there is none, `TooMany` if
    /// there are more than 1,536, `NotSorted` if they do not strictly ascend. `OutOfMemory` comes
    /// only if none of them holds.
    pub fn new(processes: Vec<Process>) -> Result<Cut, ConfigError>
        ensures value { IfOk result (λ cut. cut ≡ processes.items) }
        ensures valid { IfOk result IsCut }
        ensures allowed { OnOk result (cut_fault processes.items ≡ None) }
        ensures refused { IfErr result (Reports (cut_fault processes.items)) }
    {
        if processes.is_empty() {
            return Err(ConfigError::EmptyCut);
        }
        if processes.len() > Cut::MOST {
            return Err(ConfigError::TooMany);
        }
        if !ascend(processes.as_slice()) {
            return Err(ConfigError::NotSorted);
        }
        tell_processes(processes.as_slice());
        let alloc = *processes.allocator();
        let list = ProcessList::from_slice(alloc, processes.as_slice())?;
        Ok(Cut::of(alloc, list)?)
    }

    /// The cut of these processes, whose bytes are not copied. The first that holds: `EmptyCut` if
    /// there is none, `TooMany` if there are more than 1,536, `NotSorted` if they do not strictly
    /// ascend. `OutOfMemory` comes only if none of them holds.
    pub fn of_list(alloc: Global, list: ProcessList) -> Result<Cut, ConfigError>
        ensures value { IfOk result (λ cut. cut ≡ list) }
        ensures valid { IfOk result IsCut }
        ensures allowed { OnOk result (cut_fault list ≡ None) }
        ensures refused { IfErr result (Reports (cut_fault list)) }
    {
        if list.is_empty() {
            return Err(ConfigError::EmptyCut);
        }
        if list.len() > Cut::MOST {
            return Err(ConfigError::TooMany);
        }
        if !list.ascends() {
            return Err(ConfigError::NotSorted);
        }
        list.tell();
        Ok(Cut::of(alloc, list)?)
    }

    /// The cut of processes that are one.
    fn of(alloc: Global, list: ProcessList) -> Result<Cut, AllocError>
        requires { IsCut list }
        ensures { IfOk result (λ cut. cut ≡ list) }
    {
        let processes = Arc::new(alloc, list)?;
        Ok(Cut { processes })
    }

    /// The processes, ascending.
    pub fn processes(&self) -> &ProcessList
        ensures value { result.now ≡ self.now }
        ensures valid { IsCut self.now }
    {
        &self.processes
    }

    /// The value is a cut. It does nothing: what it ensures is for proofs.
    #[inline(always)]
    pub fn tell(&self)
        ensures { IsCut self.now }
    {
        let _ = &self.processes;
    }

    /// An equal cut, which shares the list of processes.
    pub fn try_copy(&self, _alloc: Global) -> Result<Cut, AllocError>
        ensures { IfOk result (λ cut. cut ≡ self.now) }
    {
        let processes = Arc::try_clone(&self.processes)?;
        Ok(Cut { processes })
    }
}

impl PartialEq for Cut {
    ghost eq = { same_cut };

    ghost laws = { partial_equiv_from_equiv (eq_by_cmp_equiv cuts_total) };

    fn eq(&self, other: &Cut) -> bool {
        let (mine, others) = (self.processes(), other.processes());
        mine.len() == others.len() && mine == others
    }
}

impl Eq for Cut {
    ghost laws = { eq_by_cmp_equiv cuts_total };
}

impl PartialOrd for Cut {
    ghost partial_cmp = { as_partial_cmp cut_cmp };

    ghost laws = { partial_order_from_total cuts_total };

    fn partial_cmp(&self, other: &Cut) -> Option<Ordering> {
        Some(self.cmp(other))
    }
}

impl Ord for Cut {
    ghost cmp = { cut_cmp };

    ghost total = { cuts_total };

    ghost matches_partial_cmp = { λ x y. refl };

    ghost matches_eq = { λ x y. refl };

    fn cmp(&self, other: &Cut) -> Ordering {
        let (mine, others) = (self.processes(), other.processes());
        if mine.len() != others.len() {
            return mine.len().cmp(&others.len());
        }
        mine.compare(others)
    }
}
