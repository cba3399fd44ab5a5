// Masks of a few processes, in a list.

ghost use Rattle.std.specs.Prelude.{◌≡◌, ℕ, ◌++◌, ◌∷◌, [], None, Some, length, IfOk, IfSome, IfNone, OnOk, OnErr, if◌then◌else◌};
ghost use Rattle.rapid_model.specs.Process.{same_bytes};
ghost use Rattle.rapid_cut.specs.Listed.{masks_at, StandsAt};

use crate::mask::Masks;
use rapid_endpoint::{KeptProcess, ProcessRef};
use std::alloc::{AllocError, Global};

/// The place of the first entry of a process, if there is one.
#[inline(always)]
pub fn place_in(entries: &[(KeptProcess, Masks)], subject: &ProcessRef<'_>) -> Option<usize>
    ensures found { IfSome result (StandsAt entries.now subject.now) }
    ensures none { IfNone result (masks_at entries.now subject.now ≡ None) }
{
    for place in 0..entries.len() {
        if entries[place].0.is(subject) {
            return Some(place);
        }
    }
    None
}

/// Adds the masks of a process at the end. The first takes no more room than it needs: most lists
/// stay as short.
#[inline(never)]
pub fn push_to(
    entries: &mut Vec<(KeptProcess, Masks)>,
    subject: KeptProcess,
    masks: Masks,
) -> Result<(), AllocError>
    ensures pushed { OnOk result (entries.new.items ≡ entries.old.items ++ (subject, masks) ∷ []) }
    ensures unchanged { OnErr result (entries.new.items ≡ entries.old.items) }
{
    if entries.is_empty() {
        entries.reserve_exact(1)?;
    }
    entries.push((subject, masks))?;
    Ok(())
}

/// The same entries, with room for some more. An empty list takes no memory.
pub fn copy_of(
    alloc: Global,
    entries: &[(KeptProcess, Masks)],
) -> Result<Vec<(KeptProcess, Masks)>, AllocError>
    ensures { IfOk result (λ copy. copy.items ≡ entries.now) }
{
    let mut copy = Vec::new(alloc);
    if !entries.is_empty() {
        copy.reserve(entries.len().saturating_add(MORE))?;
        share_all(&mut copy, entries)?;
    }
    Ok(copy)
}

/// Adds the same entries.
pub fn share_all(
    copy: &mut Vec<(KeptProcess, Masks)>,
    entries: &[(KeptProcess, Masks)],
) -> Result<(), AllocError>
    ensures { OnOk result (copy.new.items ≡ copy.old.items ++ entries.now) }
{
    for (subject, masks) in entries {
        copy.push((subject.try_copy()?, *masks))?;
    }
    Ok(())
}

/// Up to this many processes have their masks in each list. For so few it costs less than a map to
/// make, to copy and to search.
pub const FEW: usize = 32;

/// For how many more entries a copy has room.
pub const MORE: usize = 1;
