// Processes that are shared.

ghost use Rattle.std.specs.Prelude.{◌≡◌, IfOk};
ghost use Rattle.std.specs.Cmp.{partial_equiv_from_equiv};
ghost use Rattle.std.proofs.lemmas.Cmp.{nat_list_cmp_total, eq_by_cmp_equiv};
ghost use Rattle.rapid_model.specs.Process.{IsProcess, same_bytes};

use crate::{Process, ProcessId};
use std::alloc::{AllocError, Global};
use std::marker::Model;
use std::sync::Arc;

/// A process that all its copies share: it takes much room. Its identifier stands beside it, by
/// which most others are told apart.
#[derive(Debug, Drop)]
pub struct SharedProcess {
    id: ProcessId,
    process: Arc<Process, Global>,
}

impl Model for SharedProcess {
    ghost use Rattle.std.specs.Prelude.{◌≡◌};
    ghost use Rattle.std.specs.Arc.{arc_value};
    ghost use Rattle.rapid_model.specs.Process.{Process as ModelProcess, identifier};

    ghost Value = { ModelProcess };

    ghost view = { λ s. arc_value s.process };

    ghost invariant = { λ s. s.id ≡ identifier (arc_value s.process) };
}

impl SharedProcess {
    /// This process, to be shared.
    // it stands apart: room for a process is cleared at each call of the function that has it
    #[inline(never)]
    pub fn new(alloc: Global, process: &Process) -> Result<SharedProcess, AllocError>
        ensures { IfOk result (λ shared. shared ≡ process.now) }
    {
        Ok(SharedProcess {
            id: process.id(),
            process: Arc::new(alloc, *process)?,
        })
    }

    /// The process of these bytes, to be shared. It is read in its block, over a blank one.
    pub fn spelt(alloc: Global, bytes: &[u8]) -> Result<SharedProcess, AllocError>
        requires { IsProcess bytes.now }
        ensures { IfOk result (λ shared. shared ≡ bytes.now) }
    {
        let mut process = Arc::new(alloc, Process::blank())?;
        Arc::make_mut(&mut process)?.replace(bytes);
        let id = process.id();
        Ok(SharedProcess { id, process })
    }

    /// The process.
    #[inline(always)]
    pub fn get(&self) -> &Process
        ensures { result.now ≡ self.now }
    {
        &self.process
    }

    /// The same process, shared. It takes no memory, and fails only if there are too many owners.
    #[inline(always)]
    pub fn share(&self) -> Result<SharedProcess, AllocError>
        ensures { IfOk result (λ shared. shared ≡ self.now) }
    {
        Ok(SharedProcess {
            id: self.id,
            process: Arc::try_clone(&self.process)?,
        })
    }

    /// Whether it is this process.
    #[inline(always)]
    pub fn is(&self, process: &Process) -> bool
        ensures { result ≡ same_bytes process.now self.now }
    {
        if self.id != process.id() {
            return false;
        }
        if !self.process.has_same_endpoint(process) {
            return false;
        }
        *self.process.tags() == *process.tags()
    }
}

impl PartialEq for SharedProcess {
    ghost eq = { same_bytes };

    ghost laws = { partial_equiv_from_equiv (eq_by_cmp_equiv nat_list_cmp_total) };

    #[inline(always)]
    fn eq(&self, other: &SharedProcess) -> bool {
        other.is(self.get())
    }
}

impl Clone for SharedProcess {
    ghost is_clone = { λ a b. b ≡ a };

    #[inline(always)]
    fn clone(&self) -> Result<SharedProcess, AllocError> {
        self.share()
    }
}
