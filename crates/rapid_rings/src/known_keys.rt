// Keys of processes that are no members, hashed once for all who share the rings.

ghost use Rattle.std.specs.Prelude.{◌≡◌, ◌<◌, true, map, IfSome, IfOk};
ghost use Rattle.std.specs.List.{range_with_len};
ghost use Rattle.rapid_model.specs.Ring as model;

use crate::seats::ring_key;
use once_cell::race::OnceBox;
use rapid_endpoint::Process;
use std::alloc::{AllocError, Global};
use std::fmt;
use std::marker::Model;

/// The keys of how many processes are kept.
const MOST_KEPT: usize = 1024;

/// In how many slots a process is looked for.
const TRIES: usize = 4;

/// The keys of a process on the first rings.
#[derive(Debug, Drop)]
struct RingKeys {
    process: Process,
    // by ring
    keys: Vec<[u8; 32]>,
}

impl Model for RingKeys {
    ghost use Rattle.rapid_model.specs.Process.{Process as ModelProcess};
    ghost use Rattle.rapid_rings.specs.Keys.{AreKeysOf};

    ghost Value = { ModelProcess };

    ghost view = { λ k. k.process };

    ghost invariant = { λ k. AreKeysOf k.process k.keys.items };
}

impl RingKeys {
    /// The keys of a process on this many rings.
    fn new(alloc: Global, rings: u8, process: &Process) -> Result<RingKeys, AllocError>
        ensures { IfOk result (λ keys. keys ≡ process.now) }
    {
        let keys = keys_of(alloc, rings, process)?;
        Ok(RingKeys {
            process: *process,
            keys,
        })
    }

    /// Whether they are the keys of this process.
    fn are_of(&self, process: &Process) -> bool
        ensures { result ≡ true → self.now ≡ process.now }
    {
        self.process == *process
    }

    /// The key on a ring, if it is one of the first.
    fn on(&self, ring: u8) -> Option<[u8; 32]>
        ensures { IfSome result (λ key. key ≡ model.ring_key ring self.now) }
    {
        self.keys.get(usize::from(ring)).copied()
    }
}

/// The keys of a process on this many rings, by ring.
fn keys_of(alloc: Global, rings: u8, process: &Process) -> Result<Vec<[u8; 32]>, AllocError>
    ensures { IfOk result (λ keys. keys.items ≡ map (λ k. model.ring_key k process.now) (range_with_len 0 rings)) }
{
    let mut keys = Vec::with_capacity(alloc, usize::from(rings))?;
    for ring in 0..rings {
        keys.push(ring_key(ring, process))?;
    }
    Ok(keys)
}

/// The keys of processes that were asked for. What is kept is never wrong, and never taken out. The
/// keys of a process for which there is no slot, or no memory, are hashed each time.
#[derive(Drop)]
pub(crate) struct KnownKeys {
    slots: Vec<OnceBox<RingKeys>>,
    // on how many rings
    rings: u8,
    alloc: Global,
}

impl fmt::Debug for KnownKeys {
    fn fmt<W: fmt::Write>(&self, f: &mut fmt::Formatter<W>) -> fmt::Result {
        f.write_str("KnownKeys")
    }
}

impl KnownKeys {
    /// None are kept yet, and there is room for those of 1,024 processes.
    pub(crate) fn new(alloc: Global, rings: u8) -> Result<KnownKeys, AllocError> {
        let mut slots = Vec::with_capacity(alloc, MOST_KEPT)?;
        for _ in 0..MOST_KEPT {
            slots.push(OnceBox::new(alloc))?;
        }
        Ok(KnownKeys {
            slots,
            rings,
            alloc,
        })
    }

    /// None are ever kept.
    pub(crate) fn none(alloc: Global) -> KnownKeys {
        KnownKeys {
            slots: Vec::new(alloc),
            rings: 0,
            alloc,
        }
    }

    /// The key of a process on a ring.
    pub(crate) fn key(&self, ring: u8, process: &Process) -> [u8; 32]
        ensures { result ≡ model.ring_key ring process.now }
    {
        match self.kept(ring, process) {
            Some(key) => key,
            None => ring_key(ring, process),
        }
    }

    // The key of a process on a ring, if it is kept or can be.
    fn kept(&self, ring: u8, process: &Process) -> Option<[u8; 32]>
        ensures { IfSome result (λ key. key ≡ model.ring_key ring process.now) }
    {
        for tried in 0..TRIES {
            let keys = self.keys_in(self.slot(process, tried)?, process)?;
            if keys.are_of(process) {
                return keys.on(ring);
            }
        }
        None
    }

    // What is in a slot: those of this process, if it was empty and there is memory.
    fn keys_in<'a>(&self, slot: &'a OnceBox<RingKeys>, process: &Process) -> Option<&'a RingKeys> {
        if let Some(keys) = slot.get() {
            return Some(keys);
        }
        match RingKeys::new(self.alloc, self.rings, process) {
            Ok(keys) => put_in(self.alloc, slot, keys),
            Err(_) => None,
        }
    }

    // The slot in which a process is looked for after this many others.
    fn slot(&self, process: &Process, tried: usize) -> Option<&OnceBox<RingKeys>>
        requires { tried < 4 }
    {
        let count = self.slots.len();
        if count == 0 {
            return None;
        }
        let id = process.id().bytes();
        let first = usize::from(u16::from_be_bytes([id[14], id[15]]));
        self.slots.get((first + tried) % count)
    }
}

/// What is in a slot, once these keys were offered to it; none if there is no memory.
fn put_in(alloc: Global, slot: &OnceBox<RingKeys>, keys: RingKeys) -> Option<&RingKeys> {
    if let Ok(keys) = Box::new(alloc, keys) {
        let _ = slot.set(keys);
    }
    slot.get()
}
