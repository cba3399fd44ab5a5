// Processes that stand elsewhere.

ghost use Rattle.std.specs.Prelude.{◌≡◌, ◌≤◌, ◌↔◌, ◌++◌, true, [], ◌∷◌, ◌⊎◌, Ok, length, take, drop, OnOk, OnErr};
ghost use Rattle.std.specs.Cmp.{partial_equiv_from_equiv};
ghost use Rattle.std.proofs.lemmas.Cmp.{nat_list_cmp_total, eq_by_cmp_equiv};
ghost use Rattle.rapid_endpoint.specs.InBoth.{IsInBoth};
ghost use Rattle.rapid_model.specs.Process.{IsProcess, identifier, endpoint, tags_bytes_of, process_at, process_cmp, same_bytes};

use crate::key::Key;
use crate::process::KEY_LENGTH;
use crate::{Endpoint, Process, ProcessId};
use std::alloc::AllocError;
use std::cmp::Ordering;
use std::marker::Model;

/// The bytes of no tags.
pub(crate) const NO_TAGS: &[u8] = b"\0";

/// A process that stands elsewhere, whether as a value or in less room. So a caller need not know
/// how it is kept. To make one copies its identifier and its endpoint.
#[derive(Debug, Drop)]
pub struct ProcessRef<'a> {
    key: Key,
    /// the bytes of its tags
    tags: &'a [u8],
}

impl<'a> Model for ProcessRef<'a> {
    ghost use Rattle.std.specs.Prelude.{◌≡◌, ◌++◌, length};
    ghost use Rattle.rapid_model.specs.Process.{Process as ModelProcess, IsProcess};

    ghost Value = { ModelProcess };

    ghost view = { λ r. r.key ++ r.tags.now };

    ghost invariant = { λ r. (length r.key ≡ 22) × IsProcess (r.key ++ r.tags.now) };
}

/// Whether the bytes begin with these.
#[inline(always)]
fn begin_with(bytes: &[u8], front: &[u8]) -> bool
    ensures { (result ≡ true) ↔ (bytes.now ≡ front.now ++ drop (length front.now) bytes.now) }
{
    match (front, bytes) {
        // no tags, as is most common: this calls nothing to compare bytes
        ([only], [first, ..]) => *first == *only,
        (front, bytes) => bytes.starts_with(front),
    }
}

/// Whether both are the same bytes.
#[inline(always)]
pub(crate) fn are_same(tags: &[u8], others: &[u8]) -> bool
    ensures { result ≡ same_bytes tags.now others.now }
{
    match (tags, others) {
        // no tags, as is most common: this calls nothing to compare bytes
        ([only], [other]) => *only == *other,
        (tags, others) => tags == others,
    }
}

impl<'a> ProcessRef<'a> {
    /// The process of this identifier and endpoint, without tags.
    #[inline(always)]
    pub fn untagged(id: ProcessId, endpoint: Endpoint) -> ProcessRef<'a>
        ensures { result ≡ id ++ endpoint ++ 0 ∷ [] }
    {
        let key = Key::new(id, endpoint);
        key.tell();
        ProcessRef::new(key, NO_TAGS)
    }

    /// The process of these parts.
    #[inline(always)]
    pub(crate) fn new(key: Key, tags: &'a [u8]) -> ProcessRef<'a>
        requires key { length key ≡ 22 }
        requires process { IsProcess (key ++ tags.now) }
        ensures { result ≡ key ++ tags.now }
    {
        ProcessRef { key, tags }
    }

    /// The identifier and the endpoint.
    #[inline(always)]
    pub(crate) fn key(&self) -> Key
        ensures front { result ≡ take 22 self.now }
        ensures whole { self.now ≡ result ++ tags_bytes_of self.now }
        ensures length { length result ≡ 22 }
    {
        self.key
    }

    /// The identifier.
    #[inline(always)]
    pub fn id(&self) -> ProcessId
        ensures { result ≡ identifier self.now }
    {
        self.key.id()
    }

    /// The endpoint.
    #[inline(always)]
    pub fn endpoint(&self) -> Endpoint
        ensures { result ≡ endpoint self.now }
    {
        self.key.endpoint()
    }

    /// Whether it has no tags.
    #[inline(always)]
    pub fn has_no_tags(&self) -> bool
        ensures { result ≡ same_bytes (tags_bytes_of self.now) (0 ∷ []) }
    {
        are_same(self.tags, NO_TAGS)
    }

    /// How many bytes it has: 23 to 543.
    #[inline(always)]
    pub fn length(&self) -> usize
        ensures value { result ≡ length self.now }
        ensures least { 23 ≤ result }
        ensures most { result ≤ 543 }
    {
        KEY_LENGTH + self.tags.len()
    }

    /// The bytes of the identifier and of the endpoint, over which processes are hashed.
    pub fn key_bytes(&self) -> [u8; 22]
        ensures value { result ≡ take 22 self.now }
        ensures process { IsProcess self.now }
    {
        self.key.bytes()
    }

    /// Appends the bytes to these. If out of memory the identifier and the endpoint may stand there
    /// without the tags.
    pub fn append_to(&self, bytes: &mut Vec<u8>) -> Result<(), AllocError>
        ensures value { OnOk result (bytes.new.items ≡ bytes.old.items ++ self.now) }
        ensures process { IsProcess self.now }
        ensures kept { OnErr result ((bytes.new.items ≡ bytes.old.items) ⊎ (bytes.new.items ≡ bytes.old.items ++ take 22 self.now)) }
    {
        self.tell();
        if self.has_no_tags() {
            // as is most common: these are written at once
            return bytes.extend_from_slice(&self.untagged_bytes());
        }
        bytes.extend_from_slice(&self.key_bytes())?;
        bytes.extend_from_slice(self.tags)?;
        Ok(())
    }

    /// The bytes, if it has no tags.
    #[inline(always)]
    fn untagged_bytes(&self) -> [u8; 23]
        requires { tags_bytes_of self.now ≡ 0 ∷ [] }
        ensures { result ≡ self.now }
    {
        let [
            a,
            b,
            c,
            d,
            e,
            f,
            g,
            h,
            i,
            j,
            k,
            l,
            m,
            n,
            o,
            p,
            q,
            r,
            s,
            t,
            u,
            v,
        ] = self.key_bytes();
        [
            a, b, c, d, e, f, g, h, i, j, k, l, m, n, o, p, q, r, s, t, u, v, 0,
        ]
    }

    /// The value is a process. It does nothing: what it ensures is for proofs.
    #[inline(always)]
    pub fn tell(&self)
        ensures { IsProcess self.now }
    {
        let _ = &self.key;
    }

    /// The process as a value.
    pub fn to_process(&self) -> Process
        ensures { result ≡ self.now }
    {
        Process::of_parts(self.key, self.tags)
    }

    /// Whether this is the process in front of the bytes, that is, whether they begin with its bytes.
    /// No process is made of them.
    #[inline(always)]
    pub fn is_spelt_at(&self, bytes: &[u8]) -> bool
        ensures read { (result ≡ true) ↔ (process_at bytes.now ≡ Ok (self.now, drop (length self.now) bytes.now)) }
        ensures within { result ≡ true → length self.now ≤ length bytes.now }
    {
        self.tell();
        let Some(key) = Key::read(bytes) else {
            return false;
        };
        key == self.key && begin_with(&bytes[KEY_LENGTH..], self.tags)
    }

    /// Whether it is this process.
    #[inline(always)]
    pub fn is(&self, other: &ProcessRef<'_>) -> bool
        ensures { result ≡ same_bytes self.now other.now }
    {
        self.key == other.key && are_same(self.tags, other.tags)
    }

    /// How it compares with another, in the order of processes.
    pub fn compare(&self, other: &ProcessRef<'_>) -> Ordering
        ensures { result ≡ process_cmp self.now other.now }
    {
        if self.key != other.key {
            return self.key.cmp(&other.key);
        }
        self.tags.cmp(other.tags)
    }
}

impl<'a> PartialEq for ProcessRef<'a> {
    ghost eq = { same_bytes };

    ghost laws = { partial_equiv_from_equiv (eq_by_cmp_equiv nat_list_cmp_total) };

    #[inline(always)]
    fn eq(&self, other: &ProcessRef<'a>) -> bool {
        self.is(other)
    }
}

/// Whether the same process without tags is in front of both. It is told by their bytes alone. False
/// says nothing.
#[inline(always)]
pub fn is_untagged_in_both(bytes: &[u8], other: &[u8]) -> bool
    ensures { result ≡ true → IsInBoth bytes.now other.now }
{
    let Some(key) = Key::read(bytes) else {
        return false;
    };
    let Some(others) = Key::read(other) else {
        return false;
    };
    key.tell();
    if key != others {
        return false;
    }
    begins_untagged(&bytes[KEY_LENGTH..]) && begins_untagged(&other[KEY_LENGTH..])
}

/// Whether no tags are in front of the bytes.
#[inline(always)]
fn begins_untagged(bytes: &[u8]) -> bool
    ensures { result ≡ true → bytes.now ≡ 0 ∷ drop 1 bytes.now }
{
    match bytes {
        [first, ..] => *first == 0,
        [] => false,
    }
}
