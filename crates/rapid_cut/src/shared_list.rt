// Lists of processes that copies share.

ghost use Rattle.std.specs.Prelude.{◌≡◌, [], IfOk};

use rapid_endpoint::KeptProcess;
use std::alloc::AllocError;
use std::marker::Model;
use std::sync::ArcSlice;

/// Processes, in order. Copies share one list, which never changes. None take no memory.
#[derive(Debug, Drop)]
pub struct SharedList {
    processes: Option<ArcSlice<KeptProcess>>,
}

impl Model for SharedList {
    ghost use Rattle.std.specs.Prelude.{List, []};
    ghost use Rattle.std.specs.Option.{option_map, unwrap_or};
    ghost use Rattle.std.specs.Arc.{arc_slice_items};
    ghost use Rattle.rapid_model.specs.Process.{Process as ModelProcess};

    ghost Value = { List ModelProcess };

    ghost view = { λ l. unwrap_or (option_map arc_slice_items l.processes) [] };
}

impl SharedList {
    /// None.
    pub fn new() -> SharedList
        ensures { result ≡ [] }
    {
        SharedList { processes: None }
    }

    /// These processes.
    pub fn of(processes: Vec<KeptProcess>) -> Result<SharedList, AllocError>
        ensures { IfOk result (λ list. list ≡ processes.items) }
    {
        Ok(SharedList {
            processes: Some(ArcSlice::from_vec(processes)?),
        })
    }

    /// The processes, in order.
    pub fn as_slice(&self) -> &[KeptProcess]
        ensures { result.now ≡ self.now }
    {
        match &self.processes {
            Some(processes) => processes.as_slice(),
            None => &[],
        }
    }

    /// The same processes.
    pub fn try_copy(&self) -> Result<SharedList, AllocError>
        ensures { IfOk result (λ list. list ≡ self.now) }
    {
        match &self.processes {
            Some(processes) => Ok(SharedList {
                processes: Some(processes.clone()?),
            }),
            None => Ok(SharedList::new()),
        }
    }
}
