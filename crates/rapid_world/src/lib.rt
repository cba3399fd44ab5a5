//! A world of many nodes and the packets between them: a deterministic simulator of a whole
//! cluster. The agreement of the service (Rapid, USENIX ATC 2018) holds on each of its runs, by
//! contract.
#![tactic(auto)]

mod arrived;
mod error;
mod event;
mod founding;
mod framed;
mod handing;
mod keys;
mod lookups;
mod mail;
mod outcome;
mod peer;
mod peers;
mod places;
mod recipients;
mod report;
mod room;
mod runs;
mod sending;
mod steps;
mod stored;
mod taken;
mod views;
mod windows;
mod world;

pub use error::WorldError;
pub use event::WorldEvent;
pub use report::Report;
pub use runs::Ran;
pub use world::World;
