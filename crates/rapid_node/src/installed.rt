// The stamps of what a node installed.

ghost use Rattle.std.specs.Prelude.{◌≡◌, ◌++◌, ◌∷◌, [], IfOk, OnOk, OnErr};

use rapid_config::Stamp;
use std::alloc::{AllocError, Global};
use std::marker::Model;
use std::sync::Arc;

/// The stamps of the configurations that a node installed, in order. Copies share one list until
/// one of them grows.
#[derive(Debug, Drop)]
pub(crate) struct Installed {
    stamps: Arc<Vec<Stamp>, Global>,
    alloc: Global,
}

impl Model for Installed {
    ghost use Rattle.std.specs.Prelude.{List};
    ghost use Rattle.std.specs.Arc.{arc_value};
    ghost use Rattle.rapid_model.specs.Configuration.{Stamp as ModelStamp};

    ghost Value = { List ModelStamp };

    ghost view = { λ i. (arc_value i.stamps).items };
}

impl Installed {
    /// Nothing was installed.
    pub(crate) fn new(alloc: Global) -> Result<Installed, AllocError>
        ensures { IfOk result (λ i. i ≡ []) }
    {
        let stamps = Arc::new(alloc, Vec::new(alloc))?;
        Ok(Installed { stamps, alloc })
    }

    /// The stamps, in order.
    pub(crate) fn as_slice(&self) -> &[Stamp]
        ensures { result.now ≡ self.now }
    {
        self.stamps.as_slice()
    }

    /// One stamp more. A list that is shared is copied first. If out of memory the stamps are as
    /// they were.
    pub(crate) fn push(&mut self, stamp: Stamp) -> Result<(), AllocError>
        ensures ok { OnOk result (self.new ≡ self.old ++ stamp ∷ []) }
        ensures unchanged { OnErr result (self.new ≡ self.old) }
    {
        match Arc::get_mut(&mut self.stamps) {
            Some(own) => Ok(own.push(stamp)?),
            None => self.push_to_copy(stamp),
        }
    }

    /// One stamp more, in a list of its own.
    fn push_to_copy(&mut self, stamp: Stamp) -> Result<(), AllocError>
        ensures ok { OnOk result (self.new ≡ self.old ++ stamp ∷ []) }
        ensures unchanged { OnErr result (self.new ≡ self.old) }
    {
        let mut stamps = Vec::with_capacity(self.alloc, self.stamps.len().saturating_add(1))?;
        stamps.extend_from_slice(self.as_slice())?;
        stamps.push(stamp)?;
        self.stamps = Arc::new(self.alloc, stamps)?;
        Ok(())
    }

    /// Equal stamps, which share the list.
    pub(crate) fn try_copy(&self) -> Result<Installed, AllocError>
        ensures { IfOk result (λ i. i ≡ self.now) }
    {
        let stamps = Arc::try_clone(&self.stamps)?;
        Ok(Installed {
            stamps,
            alloc: self.alloc,
        })
    }
}
