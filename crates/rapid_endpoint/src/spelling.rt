// Bytes that are spelt in fixed room.

ghost use Rattle.std.specs.Prelude.{◌≡◌, ◌+◌, ◌≤◌, ◌++◌, [], length};

use std::marker::Model;

/// How many bytes tags take at most: their number, and eight with a length and 64 bytes each.
const ROOM: usize = 521;

/// Up to 521 bytes, in fixed room.
#[derive(Clone, Copy)]
pub(crate) struct Spelling {
    used: u16,
    /// zeros stand behind those that are used
    bytes: [u8; ROOM],
}

impl Model for Spelling {
    ghost use Rattle.std.specs.Prelude.{◌≡◌, ◌-◌, ℕ, List, ◌++◌, length, take, replicate};
    ghost use Rattle.rapid_endpoint.specs.Room.{IsRoom};

    ghost Value = { List ℕ };

    ghost view = { λ s. take s.used s.bytes };

    ghost invariant = { λ s. IsRoom s.used s.bytes };

    ghost inverse = { λ bytes. record { used = length bytes; bytes = bytes ++ replicate (521 - length bytes) 0 } };

    ghost use Rattle.rapid_endpoint.specs.Room.{used_length, filled_again};

    ghost inverse_ok = { λ s h. λ i. record { used = used_length s.used s.bytes h i; bytes = filled_again s.used s.bytes h i } };
}

impl Spelling {
    /// No bytes.
    pub(crate) fn new() -> Spelling
        ensures { result ≡ [] }
    {
        Spelling {
            used: 0,
            bytes: [0; ROOM],
        }
    }

    /// These bytes.
    pub(crate) fn of(bytes: &[u8]) -> Spelling
        requires { length bytes.now ≤ 521 }
        ensures { result ≡ bytes.now }
    {
        let mut room = [0; ROOM];
        room[..bytes.len()].copy_from_slice(bytes);
        Spelling {
            used: bytes.len() as u16,
            bytes: room,
        }
    }

    /// Puts these bytes in place of those that are there. It writes no more of the room than these
    /// and those take.
    pub(crate) fn replace(&mut self, bytes: &[u8])
        requires { length bytes.now ≤ 521 }
        ensures { self.new ≡ bytes.now }
    {
        let end = bytes.len();
        let cleared = end.max(usize::from(self.used));
        self.bytes[..end].copy_from_slice(bytes);
        self.bytes[end..cleared].fill(0);
        self.used = end as u16;
    }

    /// Puts more bytes behind those that are there.
    pub(crate) fn push(&mut self, more: &[u8])
        requires { length self.old + length more.now ≤ 521 }
        ensures { self.new ≡ self.old ++ more.now }
    {
        let start = usize::from(self.used);
        let end = start + more.len();
        self.bytes[start..end].copy_from_slice(more);
        self.used = end as u16;
    }

    /// The bytes.
    pub(crate) fn as_bytes(&self) -> &[u8]
        ensures { result.now ≡ self.now }
    {
        &self.bytes[..usize::from(self.used)]
    }
}
