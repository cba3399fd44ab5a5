//! The lines of a node: what they ask for, what is printed of views and edges, and what is
//! reported.
#![tactic(auto)]

mod asking;
mod command;
mod edge_text;
mod note;
mod view_text;

pub use asking::Asking;
pub use command::{Asked, Command, read_line};
pub use edge_text::{NO_EDGES, write_edges};
pub use note::{Answer, InVain, Note, Notes};
pub use view_text::{BAD_LINE, NO_VIEW, write_view};
