//! Endpoints, identifiers, processes and tags.
//!
//! A process of the membership service (Rapid, USENIX ATC 2018) is an identifier of sixteen bytes,
//! an IPv4 endpoint, and up to eight tags: words that it has of its own. Contracts see each of these
//! as its bytes, and the order is that of the bytes.
#![tactic(auto)]

mod bytes;
mod endpoint;
mod endpoint_text;
mod half;
mod identifier_text;
mod kept_process;
mod key;
mod number;
mod parse_error;
mod process;
mod process_id;
mod process_list;
mod process_ref;
mod process_walk;
mod read_error;
mod shared_process;
mod spelling;
mod tag_list;
mod tag_reading;
mod tags;
mod tags_text;
mod word;

pub use endpoint::Endpoint;
pub use endpoint_text::endpoints_have_one_spelling;
pub use kept_process::KeptProcess;
pub use parse_error::ParseError;
pub use process::{Process, processes_have_one_spelling};
pub use process_id::ProcessId;
pub use process_list::{ProcessList, Processes};
pub use process_ref::{ProcessRef, is_untagged_in_both};
pub use read_error::ReadError;
pub use shared_process::SharedProcess;
pub use tags::{Tags, TagsIter, tags_have_one_spelling};
