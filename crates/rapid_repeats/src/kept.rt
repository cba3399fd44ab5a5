// What is kept of messages, by their parts, and which are let through for it.

ghost use Rattle.std.specs.Prelude.{◌≡◌, ◌≤◌, ℕ, true, false, Contains};
ghost use Rattle.std.specs.BTreeMap.{btree_map_len};
ghost use Rattle.rapid_model.specs.Limits.{most_members};
ghost use Rattle.rapid_repeats.specs.Parts.{Adds, Keeps};

use rapid_alerts::Batch;
use rapid_config::{Configuration, Cut};
use std::alloc::Global;
use std::collections::BTreeMap;

/// How many batches are kept at most, and how many fast votes: one of each member.
const MOST_OF_MEMBERS: usize = Configuration::MOST;

/// The last batch of each member, by its place.
pub(crate) type Batches = BTreeMap<u16, Batch>;

/// The last fast vote of each member, by its place.
pub(crate) type Votes = BTreeMap<u16, Cut>;

/// Keeps a value in place of the last one under its key. If there is no room for another key, or no
/// memory, it is not kept.
pub(crate) fn keep<K: Ord + Drop, V: Drop>(
    table: &mut BTreeMap<K, V>,
    most: usize,
    key: K,
    value: V,
)
    ensures kept { Keeps K.cmp table.old.entries key value table.new.entries }
    ensures few { btree_map_len table.old ≤ most → btree_map_len table.new ≤ most }
{
    if table.len() < most || table.contains_key(&key) {
        let _ = table.insert(key, value);
    }
}

/// Whether two batches have the same alerts, in order.
fn are_same(one: &Batch, other: &Batch) -> bool
    ensures same { result ≡ true → one.now ≡ other.now }
    ensures told { one.now ≡ other.now → result ≡ true }
{
    one.alerts().says_same(other.alerts())
}

/// Whether this is the last batch of the member at the place.
fn is_last_batch(batches: &Batches, place: u16, batch: &Batch) -> bool
    ensures same { result ≡ true → Contains batches.now.entries (place, batch.now) }
    ensures told { Contains batches.now.entries (place, batch.now) → result ≡ true }
{
    // asked for its clause that no two keys are equal
    let _ = batches.len();
    match batches.get(&place) {
        Some(last) => are_same(last, batch),
        None => false,
    }
}

/// Whether this is the last fast vote of the member at the place.
fn is_last_vote(votes: &Votes, place: u16, vote: &Cut) -> bool
    ensures same { result ≡ true → Contains votes.now.entries (place, vote.now) }
    ensures told { Contains votes.now.entries (place, vote.now) → result ≡ true }
{
    // asked for its clause that no two keys are equal
    let _ = votes.len();
    match votes.get(&place) {
        Some(last) => *last == *vote,
        None => false,
    }
}

/// Lets a batch through, unless it is the last one of the member at this place. From then on it is
/// the last one, if there is memory for it.
pub(crate) fn passes_batch(alloc: Global, batches: &mut Batches, place: u16, batch: &Batch) -> bool
    ensures dropped { result ≡ false → Contains batches.old.entries (place, batch.now) }
    ensures same { result ≡ false → batches.new.entries ≡ batches.old.entries }
    ensures repeats { Contains batches.old.entries (place, batch.now) → result ≡ false }
    ensures kept { Adds batches.old.entries (place, batch.now) batches.new.entries }
    ensures few { btree_map_len batches.old ≤ most_members → btree_map_len batches.new ≤ most_members }
{
    if is_last_batch(batches, place, batch) {
        return false;
    }
    if let Ok(last) = batch.try_copy(alloc) {
        keep(batches, MOST_OF_MEMBERS, place, last);
    }
    true
}

/// Lets a fast vote through, unless it is the last one of the member at this place. From then on it
/// is the last one, if there is memory for it.
pub(crate) fn passes_vote(alloc: Global, votes: &mut Votes, place: u16, vote: &Cut) -> bool
    ensures dropped { result ≡ false → Contains votes.old.entries (place, vote.now) }
    ensures same { result ≡ false → votes.new.entries ≡ votes.old.entries }
    ensures repeats { Contains votes.old.entries (place, vote.now) → result ≡ false }
    ensures kept { Adds votes.old.entries (place, vote.now) votes.new.entries }
    ensures few { btree_map_len votes.old ≤ most_members → btree_map_len votes.new ≤ most_members }
{
    if is_last_vote(votes, place, vote) {
        return false;
    }
    if let Ok(last) = vote.try_copy(alloc) {
        keep(votes, MOST_OF_MEMBERS, place, last);
    }
    true
}
