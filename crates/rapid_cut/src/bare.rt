// Masks of a few processes without tags, in a list.

ghost use Rattle.std.specs.Prelude.{◌≡◌, ◌≢◌, ◌++◌, ◌∷◌, [], None, IfOk, IfSome, IfNone, OnOk, OnErr};
ghost use Rattle.rapid_model.specs.Process.{same_bytes, tags_bytes_of};
ghost use Rattle.rapid_cut.specs.Listed.{masks_at, StandsAt};

use crate::few::MORE;
use crate::mask::Masks;
use rapid_endpoint::{Endpoint, KeptProcess, Process, ProcessId, ProcessRef};
use std::alloc::{AllocError, Global};
use std::marker::Model;

/// A process without tags. To copy it is to copy some bytes.
#[derive(Clone, Copy, Debug)]
pub struct Bare {
    id: ProcessId,
    endpoint: Endpoint,
}

impl Model for Bare {
    ghost use Rattle.std.specs.Prelude.{◌≡◌, ◌++◌, ◌∷◌, [], length, take, drop};
    ghost use Rattle.rapid_model.specs.Process.{Process as ModelProcess};

    ghost Value = { ModelProcess };

    ghost view = { λ b. b.id ++ b.endpoint ++ 0 ∷ [] };

    ghost invariant = { λ b. (length b.id ≡ 16) × (length b.endpoint ≡ 6) };

    ghost inverse = { λ p. record { id = take 16 p; endpoint = take 6 (drop 16 p) } };

    ghost use Rattle.rapid_cut.specs.Untagged.{front_part, middle_part};

    ghost inverse_ok = { λ b h. λ i. record { id = front_part b.id b.endpoint (0 ∷ []) h.0 i; endpoint = middle_part b.id b.endpoint (0 ∷ []) h.0 h.1 i } };
}

impl Bare {
    /// The process, if it has no tags.
    #[inline(always)]
    pub fn of(process: &ProcessRef<'_>) -> Option<Bare>
        ensures bare { IfSome result (λ bare. bare ≡ process.now) }
        ensures tagged { IfNone result (tags_bytes_of process.now ≢ 0 ∷ []) }
    {
        if !process.has_no_tags() {
            return None;
        }
        let id = process.id();
        let endpoint = process.endpoint();
        id.tell();
        endpoint.tell();
        Some(Bare { id, endpoint })
    }

    /// The process.
    pub fn to_process(&self) -> Process
        ensures { result ≡ self.now }
    {
        Process::new(self.id, self.endpoint)
    }

    /// Whether it is this process. Most others have another identifier.
    #[inline(always)]
    pub fn is(&self, process: &ProcessRef<'_>) -> bool
        ensures { result ≡ same_bytes process.now self.now }
    {
        process.id() == self.id && process.endpoint() == self.endpoint && process.has_no_tags()
    }
}

/// The place of the first entry of a process, if there is one.
#[inline(always)]
pub fn place_in(entries: &[(Bare, Masks)], subject: &ProcessRef<'_>) -> Option<usize>
    ensures found { IfSome result (StandsAt entries.now subject.now) }
    ensures none { IfNone result (masks_at entries.now subject.now ≡ None) }
{
    for place in 0..entries.len() {
        if entries[place].0.is(subject) {
            return Some(place);
        }
    }
    None
}

/// Adds the masks of a process at the end. The first takes no more room than it needs: most lists
/// stay as short.
#[inline(never)]
pub fn push_to(
    entries: &mut Vec<(Bare, Masks)>,
    subject: Bare,
    masks: Masks,
) -> Result<(), AllocError>
    ensures pushed { OnOk result (entries.new.items ≡ entries.old.items ++ (subject, masks) ∷ []) }
    ensures unchanged { OnErr result (entries.new.items ≡ entries.old.items) }
{
    if entries.is_empty() {
        entries.reserve_exact(1)?;
    }
    entries.push((subject, masks))?;
    Ok(())
}

/// The same entries, with room for some more. An empty list takes no memory.
pub fn copy_of(alloc: Global, entries: &[(Bare, Masks)]) -> Result<Vec<(Bare, Masks)>, AllocError>
    ensures { IfOk result (λ copy. copy.items ≡ entries.now) }
{
    let mut copy = Vec::new(alloc);
    if !entries.is_empty() {
        copy.reserve(entries.len().saturating_add(MORE))?;
        copy.extend_from_slice(entries)?;
    }
    Ok(copy)
}

/// The same entries, of processes as those are kept that may have tags.
pub fn kept(
    alloc: Global,
    entries: &[(Bare, Masks)],
) -> Result<Vec<(KeptProcess, Masks)>, AllocError>
    ensures { IfOk result (λ kept. kept.items ≡ entries.now) }
{
    let mut kept = Vec::new(alloc);
    for (subject, masks) in entries {
        let process = subject.to_process();
        kept.push((KeptProcess::new(alloc, &process.as_ref())?, *masks))?;
    }
    Ok(kept)
}
