// For how long processes were unstable.

ghost use Rattle.std.specs.Prelude.{◌≡◌, true, IfOk, OnOk, OnErr};
ghost use Rattle.std.specs.FinMap as map;
ghost use Rattle.rapid_model.specs.Tick.{age_of, next_ages};

use crate::aged::Aged;
use rapid_endpoint::Process;
use std::alloc::{AllocError, Global};
use std::collections::BTreeMap;
use std::marker::Model;

/// The age at which an unstable process is echoed.
pub(crate) const ECHO_AGE: u8 = 40;

/// The age to which processes grow: one more, so that a process has the age of an echo once.
const OLDEST: u8 = ECHO_AGE + 1;

/// At how many successive ticks, at most 41, each process was unstable.
#[derive(Debug, Drop)]
pub(crate) struct Ages {
    ages: BTreeMap<Aged, u8>,
    alloc: Global,
}

impl Model for Ages {
    ghost use Rattle.std.specs.Prelude.{ℕ};
    ghost use Rattle.std.specs.FinMap as map;
    ghost use Rattle.rapid_model.specs.Process.{process_cmp};
    ghost use Rattle.rapid_model.specs.Codes.{ages_code};

    ghost Value = { map.FinMap process_cmp ℕ };

    ghost coded = { ages_code };

    ghost view = { λ a. map.from_entries a.ages.entries };
}

impl Ages {
    /// No process was unstable.
    pub(crate) fn new(alloc: Global) -> Ages
        ensures { result ≡ map.empty }
    {
        Ages {
            ages: BTreeMap::new(alloc),
            alloc,
        }
    }

    /// At how many successive ticks the process was unstable. That needs memory if it has tags.
    pub(crate) fn of(&self, process: &Process) -> Result<u8, AllocError>
        ensures { IfOk result (λ age. age ≡ age_of self.now process.now) }
    {
        let key = Aged::new(self.alloc, process)?;
        Ok(self.at(&key))
    }

    /// The same of a process that is kept.
    fn at(&self, process: &Aged) -> u8
        ensures { result ≡ age_of self.now process.now }
    {
        self.ages.get(process).copied().unwrap_or(0)
    }

    /// The ages a tick later, at which these processes are unstable.
    pub(crate) fn next(&self, unstable: &[Process]) -> Result<Ages, AllocError>
        ensures { IfOk result (λ ages. ages ≡ next_ages self.now unstable.now) }
    {
        // from the last on, as the definition makes the map
        let count = unstable.len();
        let mut next = Ages::new(self.alloc);
        for i in 0..count {
            let process = Aged::new(self.alloc, &unstable[count - 1 - i])?;
            let age = self.at(&process).saturating_add(1).min(OLDEST);
            next.insert(process, age)?;
        }
        Ok(next)
    }

    /// Sets the age of a process. If out of memory the ages are as they were.
    fn insert(&mut self, process: Aged, age: u8) -> Result<(), AllocError>
        ensures ok { OnOk result (self.new ≡ map.insert self.old process age) }
        ensures unchanged { OnErr result (self.new ≡ self.old) }
    {
        self.ages.insert(process, age)?;
        Ok(())
    }

    /// Whether no process was unstable.
    pub(crate) fn is_empty(&self) -> bool
        ensures { result ≡ true → self.now ≡ map.empty }
    {
        self.ages.is_empty()
    }

    /// Equal ages.
    pub(crate) fn try_copy(&self) -> Result<Ages, AllocError>
        ensures { IfOk result (λ ages. ages ≡ self.now) }
    {
        Ok(Ages {
            ages: self.ages.clone()?,
            alloc: self.alloc,
        })
    }
}
