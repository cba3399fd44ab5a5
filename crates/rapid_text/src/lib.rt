//! Lines of an input and what they print. Blocks of bytes are read, an engine answers each line
//! that ends in them, and what it prints is written.
#![tactic(auto)]

mod engine;
mod fault;
mod line;
mod line_buffer;
mod names;
mod output;
mod stream;
mod written;

pub use engine::Engine;
pub use fault::RunFault;
pub use line::{is_plain, number, one_word, split_word, three_words};
pub use names::{byte, numbered, numbered_ref, process, process_number};
pub use output::write_text;
pub use stream::run;
pub use written::{write_members, write_node, write_number, write_tags};
