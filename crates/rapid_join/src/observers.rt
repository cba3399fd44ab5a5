// The observers of a joiner.

ghost use Rattle.std.specs.Prelude.{◌≡◌, ◌≤◌, ◌++◌, length, IfOk, OnOk};
ghost use Rattle.std.specs.Arc.{arc_slice_items};
ghost use Rattle.std.specs.Option.{option_to_list};
ghost use Rattle.rapid_model.specs.Host.{observers_for};
ghost use Rattle.rapid_model.specs.Limits.{most_rings};

use rapid_config::Params;
use rapid_endpoint::Process;
use rapid_rings::{ObserverTable, Rings};
use std::alloc::{AllocError, Global};
use std::marker::Model;
use std::sync::ArcSlice;

/// The observers of a process by ring, at most 16. Copies share one list.
#[derive(Debug, Drop)]
pub struct RingObservers {
    observers: ArcSlice<Process>,
}

impl Model for RingObservers {
    ghost use Rattle.std.specs.Prelude.{◌≤◌, List, length};
    ghost use Rattle.std.specs.Arc.{arc_slice_items};
    ghost use Rattle.rapid_model.specs.Process.{Process as ModelProcess};
    ghost use Rattle.rapid_model.specs.Limits.{most_rings};

    ghost Value = { List ModelProcess };

    ghost view = { λ o. arc_slice_items o.observers };

    ghost invariant = { λ o. length (arc_slice_items o.observers) ≤ most_rings };
}

impl RingObservers {
    /// The most rings.
    pub const MOST: usize = Params::MOST_RINGS as usize;

    /// These observers, from ring 0 on.
    pub fn new(observers: Vec<Process>) -> Result<RingObservers, AllocError>
        requires { length observers.items ≤ most_rings }
        ensures { IfOk result (λ made. made ≡ observers.items) }
    {
        let observers = ArcSlice::from_vec(observers)?;
        Ok(RingObservers { observers })
    }

    /// The observers of a process in the configuration of these rings.
    pub(crate) fn of(
        alloc: Global,
        rings: &Rings,
        process: &Process,
    ) -> Result<RingObservers, AllocError>
        ensures { IfOk result (λ found. found ≡ observers_for rings.now process.now) }
    {
        let count = rings.params().k();
        let mut observers = Vec::with_capacity(alloc, usize::from(count))?;
        for ring in 0..count {
            push_any(&mut observers, rings.observer(ring, process))?;
        }
        RingObservers::new(observers)
    }

    /// The observers, from ring 0 on.
    pub fn as_slice(&self) -> &[Process]
        ensures value { result.now ≡ self.now }
        ensures few { length self.now ≤ most_rings }
    {
        self.observers.as_slice()
    }

    /// Equal observers, which share the list.
    pub fn try_copy(&self, _alloc: Global) -> Result<RingObservers, AllocError>
        ensures { IfOk result (λ copy. copy ≡ self.now) }
    {
        let observers = self.observers.clone()?;
        Ok(RingObservers { observers })
    }
}

/// Adds an observer, if there is one.
fn push_any(observers: &mut Vec<Process>, observer: Option<Process>) -> Result<(), AllocError>
    ensures { OnOk result (observers.new.items ≡ observers.old.items ++ option_to_list observer) }
{
    if let Some(observer) = observer {
        observers.push(observer)?;
    }
    Ok(())
}
