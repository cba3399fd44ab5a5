// What becomes of a message that has come.

/// What became of a message that has come.
#[derive(Clone, Copy, Debug, PartialEq, Eq)]
pub enum Received {
    /// It was handed to the desk.
    Taken,
    /// It was dropped: it repeats one that came before.
    Dropped,
}
