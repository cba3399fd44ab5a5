// Processes.

ghost use Rattle.std.specs.Prelude.{◌≡◌, ◌≤◌, ◌↔◌, ◌≢◌, ◌++◌, true, false, [], ◌∷◌, ◌⊎◌, Ok, map, length, take, drop, IfOk, IfErr, OnOk, OnErr};
ghost use Rattle.std.specs.Ordering.{as_partial_cmp};
ghost use Rattle.std.specs.Cmp.{partial_equiv_from_equiv, partial_order_from_total};
ghost use Rattle.std.proofs.lemmas.Cmp.{nat_list_cmp_total, eq_by_cmp_equiv};
ghost use Rattle.std.proofs.Common.{refl};
ghost use Rattle.rapid_model.specs.Process.{IsProcess, identifier, endpoint, tags_bytes_of, process_at, process_cmp, same_bytes, same_identifier, same_endpoint};
ghost use Rattle.rapid_model.specs.Tags.{AreTags, tags_refusal};
ghost use Rattle.rapid_endpoint.specs.OneSpelling.{SpeltProcessesAreRead, ProcessesTell};
ghost use Rattle.rapid_endpoint.specs.ParseErrors.{Reports};
ghost use Rattle.rapid_endpoint.specs.ReadErrors.{Gives};

use crate::key::Key;
use crate::tag_reading::read_tags;
use crate::{Endpoint, ParseError, ProcessId, ProcessRef, ReadError, Tags, bytes};
use std::alloc::{AllocError, Global};
use std::cmp::Ordering;
use std::marker::Model;

/// How many bytes an identifier and an endpoint have.
pub(crate) const KEY_LENGTH: usize = 22;

/// A process: an identifier, an endpoint and tags. Processes are ordered by identifier, endpoint and
/// the bytes of their tags, which is the order of their bytes.
#[derive(Clone, Copy, Debug)]
pub struct Process {
    key: Key,
    tags: Tags,
}

impl Model for Process {
    ghost use Rattle.std.specs.Prelude.{◌≡◌, ◌++◌, length, take, drop};
    ghost use Rattle.rapid_model.specs.Process.{Process as ModelProcess, IsProcess};

    ghost Value = { ModelProcess };

    ghost view = { λ p. p.key ++ p.tags };

    ghost invariant = { λ p. (length p.key ≡ 22) × IsProcess (p.key ++ p.tags) };

    ghost inverse = { λ p. record { key = take 22 p; tags = drop 22 p } };

    ghost use Rattle.rapid_endpoint.specs.Joined.{first_part, second_part};

    ghost inverse_ok = { λ p h. λ i. record { key = first_part 22 p.key p.tags h.0 i; tags = second_part 22 p.key p.tags h.0 i } };
}

impl Process {
    /// The process of this identifier and endpoint, without tags.
    pub fn new(id: ProcessId, endpoint: Endpoint) -> Process
        ensures { result ≡ id ++ endpoint ++ 0 ∷ [] }
    {
        Process::of(id, endpoint, Tags::none())
    }

    /// The process of this identifier, endpoint and tags. The first that holds: `TooManyTags` if
    /// there are more than 8, `BadTag` if one has no byte or more than 64, or a byte that does not
    /// print, a space, a comma or a square bracket, `TagsNotSorted` if they do not strictly ascend.
    pub fn tagged(id: ProcessId, endpoint: Endpoint, tags: &[&[u8]]) -> Result<Process, ParseError>
        ensures front { IfOk result (λ process. take 22 process ≡ id ++ endpoint) }
        ensures tags { IfOk result (λ process. AreTags (map (λ tag. tag.now) tags.now) (tags_bytes_of process)) }
        ensures refused { IfErr result (Reports (tags_refusal (map (λ tag. tag.now) tags.now))) }
    {
        match Tags::new(tags) {
            Ok(tags) => Ok(Process::of(id, endpoint, tags)),
            Err(error) => Err(error),
        }
    }

    /// The process of this identifier, endpoint and tags.
    pub fn of(id: ProcessId, endpoint: Endpoint, tags: Tags) -> Process
        ensures whole { result ≡ id ++ endpoint ++ tags }
        ensures front { take 22 result ≡ id ++ endpoint }
        ensures tags { tags_bytes_of result ≡ tags }
    {
        Process::joined(Key::new(id, endpoint), tags)
    }

    /// The process of these two parts.
    fn joined(key: Key, tags: Tags) -> Process
        ensures whole { result ≡ key ++ tags }
        ensures front { take 22 result ≡ key }
        ensures tags { drop 22 result ≡ tags }
    {
        key.tell();
        tags.tell();
        tags.tell_bytes();
        Process { key, tags }
    }

    /// The identifier and the endpoint.
    #[inline(always)]
    pub(crate) fn key(&self) -> Key
        ensures front { result ≡ take 22 self.now }
        ensures whole { self.now ≡ result ++ tags_bytes_of self.now }
        ensures length { length result ≡ 22 }
    {
        self.key
    }

    /// The process of this identifier and endpoint, without tags.
    pub(crate) fn untagged(key: Key) -> Process
        ensures { result ≡ key ++ 0 ∷ [] }
    {
        Process::joined(key, Tags::none())
    }

    /// Whether it has no tags.
    #[inline(always)]
    pub(crate) fn has_no_tags(&self) -> bool
        ensures yes { result ≡ true → tags_bytes_of self.now ≡ 0 ∷ [] }
        ensures no { result ≡ false → tags_bytes_of self.now ≢ 0 ∷ [] }
    {
        self.as_ref().has_no_tags()
    }

    /// The process, as one that stands elsewhere.
    #[inline(always)]
    pub fn as_ref(&self) -> ProcessRef<'_>
        ensures { result ≡ self.now }
    {
        ProcessRef::new(self.key, self.tags.as_bytes())
    }

    /// The process of an identifier and an endpoint, and of the bytes of tags.
    pub(crate) fn of_parts(key: Key, tags: &[u8]) -> Process
        requires key { length key ≡ 22 }
        requires process { IsProcess (key ++ tags.now) }
        ensures { result ≡ key ++ tags.now }
    {
        Process {
            key,
            tags: Tags::spelt(tags),
        }
    }

    /// The identifier.
    pub fn id(&self) -> ProcessId
        ensures { result ≡ identifier self.now }
    {
        self.key.id()
    }

    /// The endpoint.
    pub fn endpoint(&self) -> Endpoint
        ensures { result ≡ endpoint self.now }
    {
        self.key.endpoint()
    }

    /// The tags.
    pub fn tags(&self) -> &Tags
        ensures { result.now ≡ tags_bytes_of self.now }
    {
        &self.tags
    }

    /// The bytes: those of the identifier, the endpoint and the tags.
    pub fn to_bytes(&self, alloc: Global) -> Result<Vec<u8>, AllocError>
        ensures value { IfOk result (λ bytes. bytes.items ≡ self.now) }
        ensures process { IsProcess self.now }
    {
        let mut bytes = Vec::new(alloc);
        self.append_to(&mut bytes)?;
        Ok(bytes)
    }

    /// How many bytes it has: 23 to 543.
    pub fn length(&self) -> usize
        ensures value { result ≡ length self.now }
        ensures least { 23 ≤ result }
        ensures most { result ≤ 543 }
    {
        self.as_ref().length()
    }

    /// Appends the bytes to these. If out of memory the identifier and the endpoint may stand there
    /// without the tags.
    pub fn append_to(&self, bytes: &mut Vec<u8>) -> Result<(), AllocError>
        ensures value { OnOk result (bytes.new.items ≡ bytes.old.items ++ self.now) }
        ensures process { IsProcess self.now }
        ensures kept { OnErr result ((bytes.new.items ≡ bytes.old.items) ⊎ (bytes.new.items ≡ bytes.old.items ++ take 22 self.now)) }
    {
        self.as_ref().append_to(bytes)
    }

    /// The bytes of the identifier and of the endpoint, over which processes are hashed.
    pub fn key_bytes(&self) -> [u8; 22]
        ensures value { result ≡ take 22 self.now }
        ensures process { IsProcess self.now }
    {
        self.key.bytes()
    }

    /// The process in front of the bytes, and how many bytes it takes. The error is the first that is
    /// met from the left: `Truncated` if the bytes end before the process does, `BadTags` at a number
    /// of tags above 8, a length of 0 or above 64, a byte that no tag may have, or the end of a tag
    /// that is not above the one before it.
    pub fn read(bytes: &[u8]) -> Result<(Process, usize), ReadError>
        ensures read { Gives (λ r. (r.0, drop r.1 bytes.now)) result (process_at bytes.now) }
        ensures taken { IfOk result (λ r. bytes.now ≡ r.0 ++ drop r.1 bytes.now) }
        ensures length { IfOk result (λ r. length r.0 ≡ r.1) }
        ensures process { IfOk result (λ r. IsProcess r.0) }
    {
        let length = Process::length_at(bytes)?;
        Ok((Process::spelt(&bytes[..length]), length))
    }

    /// The process of these bytes.
    #[inline(always)]
    fn spelt(bytes: &[u8]) -> Process
        requires { IsProcess bytes.now }
        ensures { result ≡ bytes.now }
    {
        let Some(key) = Key::read(bytes) else {
            unreachable!()
        };
        Process {
            key,
            tags: Tags::spelt(&bytes[KEY_LENGTH..]),
        }
    }

    /// Some process, over which another is to be read.
    #[inline(always)]
    pub(crate) fn blank() -> Process {
        Process::new(ProcessId::new([0; 16]), Endpoint::new([0; 4], 0))
    }

    /// Puts the process of these bytes in place of this one.
    pub(crate) fn replace(&mut self, bytes: &[u8])
        requires { IsProcess bytes.now }
        ensures { self.new ≡ bytes.now }
    {
        let Some(key) = Key::read(bytes) else {
            unreachable!()
        };
        self.key = key;
        self.tags.replace(&bytes[KEY_LENGTH..]);
    }

    /// How many bytes the process in front of the bytes takes. The error is that of `read`.
    #[inline(always)]
    pub fn length_at(bytes: &[u8]) -> Result<usize, ReadError>
        ensures read { Gives (λ n. (take n bytes.now, drop n bytes.now)) result (process_at bytes.now) }
        ensures within { IfOk result (λ n. n ≤ length bytes.now) }
        ensures process { IfOk result (λ n. IsProcess (take n bytes.now)) }
    {
        if bytes.len() < KEY_LENGTH {
            return Err(ReadError::Truncated);
        }
        bytes::tell(bytes);
        let rest = read_tags(&bytes[KEY_LENGTH..])?;
        Ok(bytes.len() - rest.len())
    }

    /// Reads the process in front of the bytes over this one, and says how many bytes it takes. The
    /// error is that of `read`, and then this one stays as it was.
    pub fn read_over(&mut self, bytes: &[u8]) -> Result<usize, ReadError>
        ensures read { Gives (λ n. (self.new, drop n bytes.now)) result (process_at bytes.now) }
        ensures taken { IfOk result (λ n. bytes.now ≡ self.new ++ drop n bytes.now) }
        ensures length { IfOk result (λ n. length self.new ≡ n) }
        ensures process { OnOk result (IsProcess self.new) }
        ensures kept { OnErr result (self.new ≡ self.old) }
    {
        let length = Process::length_at(bytes)?;
        self.replace(&bytes[..length]);
        Ok(length)
    }

    /// Whether this is the process in front of the bytes, that is, whether they begin with its bytes.
    /// No process is made of them.
    pub fn is_spelt_at(&self, bytes: &[u8]) -> bool
        ensures read { (result ≡ true) ↔ (process_at bytes.now ≡ Ok (self.now, drop (length self.now) bytes.now)) }
        ensures within { result ≡ true → length self.now ≤ length bytes.now }
    {
        self.as_ref().is_spelt_at(bytes)
    }

    /// The value is a process. It does nothing: what it ensures is for proofs.
    #[inline(always)]
    pub fn tell(&self)
        ensures { IsProcess self.now }
    {
        let _ = &self.key;
    }

    /// Whether both have one identifier.
    pub fn has_same_identifier(&self, other: &Process) -> bool
        ensures { result ≡ same_identifier self.now other.now }
    {
        self.key.has_same_identifier(&other.key)
    }

    /// Whether both have one endpoint.
    pub fn has_same_endpoint(&self, other: &Process) -> bool
        ensures { result ≡ same_endpoint self.now other.now }
    {
        self.key.has_same_endpoint(&other.key)
    }
}

impl PartialEq for Process {
    ghost eq = { same_bytes };

    ghost laws = { partial_equiv_from_equiv (eq_by_cmp_equiv nat_list_cmp_total) };

    #[inline(always)]
    fn eq(&self, other: &Process) -> bool {
        self.key == other.key && self.tags == other.tags
    }
}

impl Eq for Process {
    ghost laws = { eq_by_cmp_equiv nat_list_cmp_total };
}

impl PartialOrd for Process {
    ghost partial_cmp = { as_partial_cmp process_cmp };

    ghost laws = { partial_order_from_total nat_list_cmp_total };

    fn partial_cmp(&self, other: &Process) -> Option<Ordering> {
        Some(self.cmp(other))
    }
}

impl Ord for Process {
    ghost cmp = { process_cmp };

    ghost total = { nat_list_cmp_total };

    ghost matches_partial_cmp = { λ x y. refl };

    ghost matches_eq = { λ x y. refl };

    #[inline(always)]
    fn cmp(&self, other: &Process) -> Ordering {
        if self.key != other.key {
            return self.key.cmp(&other.key);
        }
        self.tags.cmp(&other.tags)
    }
}

/// What is spelt of a process is read, whatever follows, and no process begins another. It does
/// nothing: what it ensures is for proofs.
pub fn processes_have_one_spelling()
    ensures spelt { SpeltProcessesAreRead }
    ensures tell { ProcessesTell }
{}
