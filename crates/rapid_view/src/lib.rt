//! The published view: one writer publishes views, and seats read the last one beside it.
//!
//! The stamps of the views stand in a cell of words that are read without a lock (`stamp`). The
//! view itself is in two copies, of which readers have one while the writer changes the other. A
//! seat keeps the view that it found last (`refresh`, `view`), and gives copies of it (`members`).
#![tactic(auto)]

ghost use Rattle.rapid_view.specs.Laws.{CellsArePublished};

mod cell;
mod cell_rule;
mod error;
mod page;
mod seat;
mod stamp_reader;
mod stamp_writer;
mod view;
mod words;
mod writer;

pub use cell::ViewCell;
pub use error::ViewError;
pub use seat::ViewSeat;
pub use view::View;
pub use writer::ViewWriter;

/// Whenever the rule of a cell holds, which each of its steps keeps, its words are a published
/// list. Word 0 is its length, its heights rise by one, and each seat has seen a beginning of it.
pub fn cells_are_published()
    ensures { CellsArePublished }
{}
