// What a node keeps of the configurations that it installed.

ghost use Rattle.std.specs.Prelude.{◌≡◌, ◌++◌, ◌∷◌, [], OnOk, OnErr};

use crate::installed::Installed;
use crate::shown::Shown;
use rapid_config::Stamp;
use rapid_member::Decisions;
use std::alloc::AllocError;

/// What changes with the configuration alone.
#[derive(Debug, Drop)]
pub(crate) struct Past {
    pub(crate) shown: Shown,
    pub(crate) installed: Installed,
    pub(crate) decisions: Decisions,
}

impl Past {
    /// One stamp more, with the configuration from now on and the decisions so far. If out of
    /// memory all is as it was.
    pub(crate) fn add(
        &mut self,
        stamp: Stamp,
        shown: Shown,
        decisions: Decisions,
    ) -> Result<(), AllocError>
        ensures ok { OnOk result (self.new ≡ record { shown = shown; installed = self.old.installed ++ stamp ∷ []; decisions = decisions }) }
        ensures unchanged { OnErr result (self.new ≡ self.old) }
    {
        self.installed.push(stamp)?;
        self.shown = shown;
        self.decisions = decisions;
        Ok(())
    }
}

impl Clone for Past {
    ghost is_clone = { λ a b. b ≡ a };

    fn clone(&self) -> Result<Past, AllocError> {
        let shown = self.shown.try_copy()?;
        let installed = self.installed.try_copy()?;
        let decisions = self.decisions.try_copy()?;
        Ok(Past {
            shown,
            installed,
            decisions,
        })
    }
}
