//! Failure detectors of single edges: a window of probe results, and the verdict by it (Rapid,
//! USENIX ATC 2018). Also windows as words that threads share, and the book of a member's probes.
#![tactic(auto)]

mod board;
mod board_error;
mod board_rule;
mod edge;
mod edge_seat;
mod monitors;
mod probe_book;
mod probe_round;
mod probe_word;

pub use board::EdgeBoard;
pub use board_error::BoardError;
pub use edge::{Edge, Verdict};
pub use edge_seat::EdgeSeat;
pub use monitors::Monitors;
pub use probe_book::{ProbeBook, Probing};
pub use probe_round::{EdgeSink, probe_part};
pub use probe_word::next_word;
