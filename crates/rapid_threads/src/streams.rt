// What a node reads and writes.

/// What a node reads and writes: three streams, each of which goes to a thread of its own.
#[derive(Drop)]
pub struct Streams<I: Drop, O: Drop, E: Drop> {
    /// Its input, from which it reads its lines.
    pub reader: I,
    /// Its output, to which it prints its views and what its lines ask for.
    pub writer: O,
    /// Its error output, to which it reports its notes and the fault by which it ends.
    pub err: E,
}
