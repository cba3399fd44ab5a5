// Processes as keys of ages.

ghost use Rattle.std.specs.Prelude.{◌≡◌, IfOk};
ghost use Rattle.std.specs.Ordering.{as_partial_cmp};
ghost use Rattle.std.specs.Cmp.{partial_equiv_from_equiv, partial_order_from_total};
ghost use Rattle.std.proofs.lemmas.Cmp.{nat_list_cmp_total, eq_by_cmp_equiv};
ghost use Rattle.std.proofs.Common.{refl};
ghost use Rattle.rapid_model.specs.Process.{process_cmp, same_bytes};

use rapid_endpoint::{KeptProcess, Process};
use std::alloc::{AllocError, Global};
use std::cmp::Ordering;
use std::marker::Model;

/// A process that is unstable, in little room. Its tags, if it has some, are shared.
#[derive(Debug, Drop)]
pub(crate) struct Aged {
    process: KeptProcess,
}

impl Model for Aged {
    ghost use Rattle.rapid_model.specs.Process.{Process as ModelProcess};

    ghost Value = { ModelProcess };

    ghost view = { λ a. a.process };
}

impl Aged {
    /// This process.
    pub(crate) fn new(alloc: Global, process: &Process) -> Result<Aged, AllocError>
        ensures { IfOk result (λ aged. aged ≡ process.now) }
    {
        let process = KeptProcess::new(alloc, &process.as_ref())?;
        Ok(Aged { process })
    }
}

impl PartialEq for Aged {
    ghost eq = { same_bytes };

    ghost laws = { partial_equiv_from_equiv (eq_by_cmp_equiv nat_list_cmp_total) };

    fn eq(&self, other: &Aged) -> bool {
        self.process == other.process
    }
}

impl Eq for Aged {
    ghost laws = { eq_by_cmp_equiv nat_list_cmp_total };
}

impl PartialOrd for Aged {
    ghost partial_cmp = { as_partial_cmp process_cmp };

    ghost laws = { partial_order_from_total nat_list_cmp_total };

    fn partial_cmp(&self, other: &Aged) -> Option<Ordering> {
        Some(self.cmp(other))
    }
}

impl Ord for Aged {
    ghost cmp = { process_cmp };

    ghost total = { nat_list_cmp_total };

    ghost matches_partial_cmp = { λ x y. refl };

    ghost matches_eq = { λ x y. refl };

    fn cmp(&self, other: &Aged) -> Ordering {
        self.process.as_ref().compare(&other.process.as_ref())
    }
}

impl Clone for Aged {
    ghost is_clone = { λ a b. b ≡ a };

    fn clone(&self) -> Result<Aged, AllocError> {
        let process = self.process.try_copy()?;
        Ok(Aged { process })
    }
}
