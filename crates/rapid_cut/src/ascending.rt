// Lists of processes in order.

ghost use Rattle.std.specs.Prelude.{◌≡◌, ◌++◌, length, IfOk};
ghost use Rattle.std.specs.List.Sorted.{IsStrictlySortedBy, IsSearchInRange, IsBinarySearchResult};
ghost use Rattle.rapid_model.specs.Process.{process_cmp};
ghost use Rattle.rapid_model.specs.InOrder.{in_order};
ghost use Rattle.rapid_cut.specs.Merging.{PutsBelow};

use rapid_endpoint::KeptProcess;
use std::alloc::{AllocError, Global};

/// The same processes ascending, each once.
pub fn ascending(mut processes: Vec<KeptProcess>) -> Vec<KeptProcess>
    ensures { result.items ≡ in_order process_cmp processes.items }
{
    processes.sort_unstable_by(|one, other| one.as_ref().compare(&other.as_ref()));
    processes.dedup();
    processes
}

/// The processes of two lists that ascend, in one that does. Stretches of the first list go over as
/// they are, so the second is to be the shorter one.
pub fn merged(
    alloc: Global,
    first: &[KeptProcess],
    second: &[KeptProcess],
) -> Result<Vec<KeptProcess>, AllocError>
    requires first { IsStrictlySortedBy process_cmp first.now }
    requires second { IsStrictlySortedBy process_cmp second.now }
    ensures { IfOk result (λ found. found.items ≡ in_order process_cmp (first.now ++ second.now)) }
{
    let mut found = Vec::with_capacity(alloc, first.len().saturating_add(second.len()))?;
    let mut rest = first;
    for process in second {
        rest = push_below(&mut found, rest, process)?;
    }
    found.extend_with_clones(rest)?;
    Ok(found)
}

/// Adds those of the rest that are below a process, and the process; what is left is above it.
fn push_below<'a>(
    found: &mut Vec<KeptProcess>,
    rest: &'a [KeptProcess],
    process: &KeptProcess,
) -> Result<&'a [KeptProcess], AllocError>
    requires { IsStrictlySortedBy process_cmp rest.now }
    ensures { IfOk result (λ above. PutsBelow found.old.items rest.now process.now found.new.items above.now) }
{
    match place(rest, process) {
        Ok(place) => {
            let (below, above) = rest.split_at(place + 1);
            found.extend_with_clones(below)?;
            Ok(above)
        }
        Err(place) => {
            let (below, above) = rest.split_at(place);
            found.extend_with_clones(below)?;
            found.push(process.try_copy()?)?;
            Ok(above)
        }
    }
}

/// The place of a process among some that ascend, or the place where it would stand.
fn place(processes: &[KeptProcess], process: &KeptProcess) -> Result<usize, usize>
    ensures bound { IsSearchInRange result (length processes.now) }
    ensures position { IsBinarySearchResult (λ kept. process_cmp kept process.now) processes.now result }
{
    processes.binary_search_by(|kept| kept.as_ref().compare(&process.as_ref()))
}
