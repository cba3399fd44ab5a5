// Processes that are kept.

ghost use Rattle.std.specs.Prelude.{◌≡◌, ◌++◌, ◌∷◌, [], IfOk};
ghost use Rattle.std.specs.Cmp.{partial_equiv_from_equiv};
ghost use Rattle.std.proofs.lemmas.Cmp.{nat_list_cmp_total, eq_by_cmp_equiv};
ghost use Rattle.rapid_model.specs.Process.{IsProcess, same_bytes};

use crate::key::Key;
use crate::process::KEY_LENGTH;
use crate::process_ref::{NO_TAGS, are_same};
use crate::{Process, ProcessRef, SharedProcess};
use std::alloc::{AllocError, Global};
use std::marker::Model;

/// A process that is kept in little room. One without tags stands here as it is. So to keep it and
/// to copy it takes no memory, and there is no owner to count. One with tags is shared.
#[derive(Debug, Drop)]
pub struct KeptProcess {
    key: Key,
    tagged: Option<SharedProcess>,
}

impl Model for KeptProcess {
    ghost use Rattle.std.specs.Prelude.{◌≡◌, ◌++◌, ◌∷◌, [], length};
    ghost use Rattle.std.specs.Option.{unwrap_or};
    ghost use Rattle.rapid_model.specs.Process.{Process as ModelProcess};

    ghost Value = { ModelProcess };

    ghost view = { λ k. unwrap_or k.tagged (k.key ++ 0 ∷ []) };

    ghost invariant = { λ k. length k.key ≡ 22 };
}

impl KeptProcess {
    /// This process, which is shared if it has tags.
    #[inline(always)]
    pub fn of(shared: &SharedProcess) -> Result<KeptProcess, AllocError>
        ensures { IfOk result (λ kept. kept ≡ shared.now) }
    {
        let process = shared.get();
        let tagged = if process.has_no_tags() {
            None
        } else {
            Some(shared.share()?)
        };
        Ok(KeptProcess {
            key: process.key(),
            tagged,
        })
    }

    /// This process. If it has tags, it takes the memory of one that is shared.
    pub fn new(alloc: Global, process: &ProcessRef<'_>) -> Result<KeptProcess, AllocError>
        ensures { IfOk result (λ kept. kept ≡ process.now) }
    {
        let tagged = if process.has_no_tags() {
            None
        } else {
            Some(SharedProcess::new(alloc, &process.to_process())?)
        };
        Ok(KeptProcess {
            key: process.key(),
            tagged,
        })
    }

    /// The process of these bytes. If it has tags, it takes the memory of one that is shared.
    #[inline(always)]
    pub fn spelt(alloc: Global, bytes: &[u8]) -> Result<KeptProcess, AllocError>
        requires { IsProcess bytes.now }
        ensures { IfOk result (λ kept. kept ≡ bytes.now) }
    {
        let Some(key) = Key::read(bytes) else {
            unreachable!()
        };
        let tagged = if are_same(&bytes[KEY_LENGTH..], NO_TAGS) {
            None
        } else {
            Some(SharedProcess::spelt(alloc, bytes)?)
        };
        Ok(KeptProcess { key, tagged })
    }

    /// The process, as one that stands elsewhere.
    #[inline(always)]
    pub fn as_ref(&self) -> ProcessRef<'_>
        ensures { result ≡ self.now }
    {
        self.key.tell();
        match &self.tagged {
            Some(shared) => shared.get().as_ref(),
            None => ProcessRef::new(self.key, NO_TAGS),
        }
    }

    /// The process.
    pub fn to_process(&self) -> Process
        ensures { result ≡ self.now }
    {
        match &self.tagged {
            Some(shared) => *shared.get(),
            None => Process::untagged(self.key),
        }
    }

    /// The process, to be shared. It takes memory if it has no tags.
    pub fn share(&self, alloc: Global) -> Result<SharedProcess, AllocError>
        ensures { IfOk result (λ shared. shared ≡ self.now) }
    {
        match &self.tagged {
            Some(shared) => shared.share(),
            None => SharedProcess::new(alloc, &self.to_process()),
        }
    }

    /// Whether it is this process.
    #[inline(always)]
    pub fn is(&self, process: &ProcessRef<'_>) -> bool
        ensures { result ≡ same_bytes process.now self.now }
    {
        process.is(&self.as_ref())
    }

    /// The same process. It takes no memory.
    #[inline(always)]
    pub fn try_copy(&self) -> Result<KeptProcess, AllocError>
        ensures { IfOk result (λ copy. copy ≡ self.now) }
    {
        let tagged = match &self.tagged {
            Some(shared) => Some(shared.share()?),
            None => None,
        };
        Ok(KeptProcess {
            key: self.key,
            tagged,
        })
    }
}

impl PartialEq for KeptProcess {
    ghost eq = { same_bytes };

    ghost laws = { partial_equiv_from_equiv (eq_by_cmp_equiv nat_list_cmp_total) };

    #[inline(always)]
    fn eq(&self, other: &KeptProcess) -> bool {
        other.is(&self.as_ref())
    }
}

impl Clone for KeptProcess {
    ghost is_clone = { λ a b. b ≡ a };

    #[inline(always)]
    fn clone(&self) -> Result<KeptProcess, AllocError> {
        self.try_copy()
    }
}
