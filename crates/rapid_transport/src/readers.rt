// The incoming connections that are read.

ghost use Rattle.std.specs.Prelude.{◌≤◌, ◌<◌, ◌+◌, vec_len, IfSome};
ghost use Rattle.rapid_model.specs.Limits.{most_readers};

use std::alloc::Global;
use std::net::{Shutdown, TcpStream};

/// How many incoming connections are read at most.
const MOST_READERS: usize = 256;

/// A handle of a connection that is read, by which it can be shut down.
#[derive(Drop)]
struct Reader {
    number: u64,
    stream: TcpStream,
}

/// The connections that are read, at most 256.
#[derive(Drop)]
pub(crate) struct Readers {
    all: Vec<Reader>,
    next: u64,
    ghost few: { vec_len all ≤ most_readers },
}

impl Readers {
    /// No connection is read.
    pub(crate) fn new(alloc: Global) -> Readers {
        Readers {
            all: Vec::new(alloc),
            next: 0,
        }
    }

    /// Takes in a connection that is to be read, by a second handle of it, and gives its number.
    /// None if 256 are read already, or if out of memory.
    pub(crate) fn admit(&mut self, stream: TcpStream) -> Option<u64> {
        if self.all.len() >= MOST_READERS {
            return None;
        }
        let number = self.next;
        self.all.push(Reader { number, stream }).ok()?;
        // a number names its connection also after others have left, which a place does not
        self.next = number.wrapping_add(1);
        Some(number)
    }

    /// The connection with this number is read no more.
    pub(crate) fn leave(&mut self, number: u64) {
        if let Some(place) = self.place(number) {
            self.all.swap_remove(place);
        }
    }

    /// The place of the connection with this number in the list.
    fn place(&self, number: u64) -> Option<usize>
        ensures { IfSome result (λ place. place < vec_len self.now.all) }
    {
        self.all.iter().position(|reader| reader.number == number)
    }

    /// Shuts all connections down, so that their readers end.
    pub(crate) fn shut_down(&self) {
        for reader in &self.all {
            let _ = reader.stream.shutdown(Shutdown::Both);
        }
    }
}
