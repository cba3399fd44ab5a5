// Whether nodes agree.

ghost use Rattle.std.specs.Prelude.{◌≡◌, ◌++◌, ◌∷◌, [], ◌&&◌, ◌==◌, List, OnOk};
ghost use Rattle.std.specs.List.{list_any};
ghost use Rattle.rapid_model.specs.Configuration.{Stamp as ModelStamp};
ghost use Rattle.rapid_model.specs.Process.{same_bytes};
ghost use Rattle.rapid_cluster.specs.ClusterText.{differ, is_split};
ghost use Rattle.rapid_cluster.specs.Noting.{Notes};

use rapid_config::Stamp;
use std::alloc::{AllocError, Global};

/// What is kept of stamps that were seen: one for each height and identifier, and whether two of
/// one height had different identifiers.
#[derive(Drop)]
pub(crate) struct Agreement {
    kept: Vec<Stamp>,
    split: bool,
}

/// Whether the stamps have one height and different identifiers.
fn differ(a: &Stamp, b: &Stamp) -> bool
    ensures { result ≡ differ a.now b.now }
{
    a.height() == b.height() && a.id() != b.id()
}

/// Whether the stamps have one height and one identifier.
fn is_same(a: &Stamp, b: &Stamp) -> bool
    ensures { result ≡ ((a.now.height == b.now.height) && same_bytes a.now.id b.now.id) }
{
    a.height() == b.height() && a.id() == b.id()
}

/// Whether the stamp differs from one of these.
fn differs_from(stamp: &Stamp, kept: &[Stamp]) -> bool
    ensures { result ≡ list_any (differ stamp.now) kept.now }
{
    kept.iter().any(|other| differ(stamp, other))
}

/// Whether the stamp is the same as one of these.
fn is_among(stamp: &Stamp, kept: &[Stamp]) -> bool
    ensures { result ≡ list_any (λ s. (stamp.now.height == s.height) && same_bytes stamp.now.id s.id) kept.now }
{
    kept.iter().any(|other| is_same(stamp, other))
}

impl Agreement {
    /// No stamp was seen.
    pub(crate) fn new(alloc: Global) -> Agreement
        ensures { Notes [] result.kept.items result.split }
    {
        Agreement {
            kept: Vec::new(alloc),
            split: false,
        }
    }

    /// Whether two stamps that were seen have one height and different identifiers.
    pub(crate) fn is_split(&self) -> bool
        ensures { result ≡ self.now.split }
    {
        self.split
    }

    /// Sees a stamp.
    fn see(&mut self, stamp: &Stamp) -> Result<(), AllocError>
        ensures { OnOk result ((seen : List ModelStamp) → Notes seen self.old.kept.items self.old.split → Notes (seen ++ stamp.now ∷ []) self.new.kept.items self.new.split) }
    {
        if self.split {
            return Ok(());
        }
        if differs_from(stamp, self.kept.as_slice()) {
            self.split = true;
            return Ok(());
        }
        if !is_among(stamp, self.kept.as_slice()) {
            self.kept.push(*stamp)?;
        }
        Ok(())
    }

    /// Sees stamps.
    pub(crate) fn see_all(&mut self, stamps: &[Stamp]) -> Result<(), AllocError>
        ensures { OnOk result ((seen : List ModelStamp) → Notes seen self.old.kept.items self.old.split → Notes (seen ++ stamps.now) self.new.kept.items self.new.split) }
    {
        for stamp in stamps {
            self.see(stamp)?;
        }
        Ok(())
    }
}
