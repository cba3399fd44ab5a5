// A node as its threads see it.

use rapid_lines::Note;
use rapid_signals::Ending;
use std::io::Read;

/// What the threads of a node ask of it. They see no more of it, so that no proof about them looks
/// into an agent.
pub trait Node {
    /// Whether it goes on.
    fn ending(&self) -> &Ending;

    /// Takes out what it has to report.
    fn take_notes(&self) -> Vec<Note>;

    /// Whether no file descriptor was left for a connection.
    fn lacks_descriptors(&self) -> bool;

    /// Answers the lines of an input until it ends or the node does, and then ends the node.
    fn answer<I: Read>(&self, reader: &mut I);
}
