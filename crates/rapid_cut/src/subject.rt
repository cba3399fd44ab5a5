// Processes that are reported on.

ghost use Rattle.std.specs.Prelude.{◌≡◌, is_some, IfOk, IfSome};
ghost use Rattle.std.specs.Option.{ForSome};

use rapid_endpoint::{KeptProcess, ProcessRef};
use std::alloc::{AllocError, Global};

/// A process that is reported on. If it is kept already, or has no tags, to keep it takes no memory.
#[derive(Drop)]
pub struct Subject<'a> {
    process: &'a ProcessRef<'a>,
    kept: Option<&'a KeptProcess>,
    ghost same: { ForSome kept (λ kept. kept.now ≡ process.now) },
}

impl<'a> Subject<'a> {
    /// The process, which may be kept already.
    #[inline(always)]
    pub fn new(process: &'a ProcessRef<'a>, kept: Option<&'a KeptProcess>) -> Subject<'a>
        requires { IfSome kept (λ kept. kept.now ≡ process.now) }
        ensures process { result.process.now ≡ process.now }
        ensures kept { is_some result.kept ≡ is_some kept.entry }
    {
        Subject { process, kept }
    }

    /// The process.
    #[inline(always)]
    pub fn get(&self) -> &ProcessRef<'_>
        ensures { result.now ≡ self.now.process.now }
    {
        self.process
    }

    /// Whether it is kept already.
    #[inline(always)]
    pub fn is_kept(&self) -> bool
        ensures { result ≡ is_some self.now.kept }
    {
        self.kept.is_some()
    }

    /// The process, to be kept.
    #[inline(always)]
    pub fn keep(&self, alloc: Global) -> Result<KeptProcess, AllocError>
        ensures { IfOk result (λ kept. kept ≡ self.now.process.now) }
    {
        match self.kept {
            Some(kept) => kept.try_copy(),
            None => KeptProcess::new(alloc, self.process),
        }
    }
}
